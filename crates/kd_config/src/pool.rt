use crate::range::Range;
use kd_classes::OptionList;
use kd_wire::{Bytes, Entries};

/// An address pool of a subnet.
#[derive(Drop)]
pub struct Pool {
    /// The addresses of the pool.
    pub range: Range,
    /// The classes that a client must be in, each of them; there may be none.
    pub classes: Entries<Bytes>,
    /// The options of the replies that assign an address of the pool.
    pub options: OptionList,
}
