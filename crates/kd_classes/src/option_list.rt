use kd_wire::{Bytes, Entries};

/// An option that the configuration gives to replies.
#[derive(Drop)]
pub struct OptionData {
    /// The option's code.
    pub code: u8,
    /// The option's whole value, of any length.
    pub value: Bytes,
    /// Whether it is sent to clients that do not ask for it.
    pub always: bool,
}

/// Options that the configuration gives together, in the order in which they are written.
pub type OptionList = Entries<OptionData>;
