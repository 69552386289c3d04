ghost use Rattle.std.specs.Prelude.{◌≡◌};
ghost use Rattle.kd_commands.specs.Order.{line_fault_number};
ghost use Rattle.kd_commands.specs.declared.fault.LineFault.TheVariants.{Memory};

use std::alloc::AllocError;
use std::fmt;
use thiserror::Error;

/// Why the arguments are not an order.
#[derive(Clone, Copy, PartialEq, Eq, Error)]
pub enum LineFault {
    /// The arguments do not follow the help text.
    #[error("CommandLine")]
    CommandLine,
    /// Memory ran out.
    #[error("Memory")]
    Memory,
}

impl fmt::Debug for LineFault {
    fn fmt<W: fmt::Write>(&self, f: &mut fmt::Formatter<W>) -> fmt::Result {
        fmt::Display::fmt(self, f)
    }
}

impl LineFault {
    /// Returns the fault's number, as the program prints it.
    pub fn number(self) -> u8
        ensures { result ≡ line_fault_number self }
    {
        match self {
            LineFault::CommandLine => 98,
            LineFault::Memory => 91,
        }
    }
}

impl From<AllocError> for LineFault {
    ghost from_gives = { λ _ e. e ≡ Memory };

    fn from(_error: AllocError) -> LineFault {
        LineFault::Memory
    }
}
