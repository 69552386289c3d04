ghost use Rattle.kd_wire.specs.Area.{IsCode};

use kd_wire::{Bytes, Entries};

/// An option of a reply, as it is given to the writer.
#[derive(Drop)]
pub struct Item {
    /// The option's code, 1 to 254.
    pub code: u8,
    /// Its whole value, of any length.
    pub value: Bytes,
    /// Whether the option must be in the reply. An option that need not be is left out if it does
    /// not fit.
    pub obligatory: bool,
    pub ghost coded: { IsCode code },
}

/// The options of a reply, in the order in which they are written.
pub type Items = Entries<Item>;
