ghost use Rattle.std.specs.Prelude.{◌≡◌};
ghost use Rattle.std.specs.Result.{result_err};
ghost use Rattle.kd_keeps.specs.Fault.{store_fault_number};

use std::fmt;
use thiserror::Error;

/// Why a call to a database failed, named after SQLite's result codes.
#[derive(Clone, Copy, PartialEq, Eq)]
pub enum Cause {
    /// There is no memory.
    OutOfMemory,
    /// The disk cannot be read or written.
    SystemIoFailure,
    /// The disk is full.
    DiskFull,
    /// The database would exceed its greatest size.
    TooBig,
    /// The file is damaged.
    DatabaseCorrupt,
    /// The database cannot be used, as when an earlier failure of the disk has closed it.
    Closed,
    /// The database refuses the statement.
    Refused,
}

/// Why a call to a store failed.
#[derive(Clone, Copy, PartialEq, Eq, Error)]
pub enum StoreFault {
    /// The database has a table `lease` that is not ours, or a row that is out of range.
    #[error("Schema")]
    Schema,
    /// A call to the database failed, for this cause. The cause is not printed.
    #[error("Sql")]
    Sql(Cause),
}

impl fmt::Debug for StoreFault {
    fn fmt<W: fmt::Write>(&self, f: &mut fmt::Formatter<W>) -> fmt::Result {
        fmt::Display::fmt(self, f)
    }
}

impl StoreFault {
    /// Returns the fault's number: 80 or 81.
    pub fn number(self) -> u8
        ensures { result ≡ store_fault_number self }
    {
        match self {
            StoreFault::Schema => 80,
            StoreFault::Sql(_) => 81,
        }
    }
}

/// Returns the fault with which a call failed, if it failed.
pub fn fault_in<T>(answer: &Result<T, StoreFault>) -> Option<StoreFault>
    ensures { result ≡ result_err answer.now }
{
    match answer {
        Ok(_) => None,
        Err(fault) => Some(*fault),
    }
}
