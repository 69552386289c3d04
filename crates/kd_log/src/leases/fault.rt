ghost use Rattle.std.specs.Prelude.{◌≡◌};
ghost use Rattle.kd_log.specs.Import.{import_fault_number};
ghost use Rattle.kd_log.specs.declared.leases.fault.ImportFault.TheVariants.{Memory};

use std::alloc::AllocError;
use std::fmt;
use thiserror::Error;

/// Why a text cannot be read as a table of leases.
#[derive(Clone, Copy, PartialEq, Eq, Error)]
pub enum ImportFault {
    /// A line is not that of a lease, or its address is in an earlier line; the number of the line,
    /// counted from 1.
    #[error("BadLine {0}")]
    BadLine(u64),
    /// Out of memory.
    #[error("Memory")]
    Memory,
}

impl fmt::Debug for ImportFault {
    fn fmt<W: fmt::Write>(&self, f: &mut fmt::Formatter<W>) -> fmt::Result {
        fmt::Display::fmt(self, f)
    }
}

impl ImportFault {
    /// The fault's number, as the program prints it: 97, or 91 for out of memory.
    pub fn number(self) -> u8
        ensures { result ≡ import_fault_number self }
    {
        match self {
            ImportFault::BadLine(_) => 97,
            ImportFault::Memory => 91,
        }
    }
}

impl From<AllocError> for ImportFault {
    ghost from_gives = { λ _ e. e ≡ Memory };

    fn from(_error: AllocError) -> ImportFault {
        ImportFault::Memory
    }
}
