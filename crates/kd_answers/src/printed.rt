ghost use Rattle.std.specs.Prelude.{string_bytes};
ghost use Rattle.kd_answers.specs.Printed.{IsSuccess};

use kd_wire::Bytes;
use std::alloc::Global;

/// What an order prints, and the program's exit status.
#[derive(Drop)]
pub struct Printed {
    /// What goes to standard output.
    pub out: Bytes,
    /// What goes to standard error: nothing, or one fault line.
    pub fault: Bytes,
    /// The exit status.
    pub status: u8,
}

// Makes a result with a text on standard output and nothing else.
pub(crate) fn success(alloc: Global, text: String) -> Printed
    ensures { IsSuccess (string_bytes text) result }
{
    Printed {
        out: Bytes::own(text.into_bytes()),
        fault: Bytes::own(Vec::new(alloc)),
        status: 0,
    }
}
