ghost use Rattle.std.specs.Prelude.{◌≡◌};
ghost use Rattle.kd_store.specs.Fault.{cause_of, fault_of_cause};

use kd_keeps::{Cause, StoreFault};
use sqlite::{Error, ErrorCode};

// There is no memory for the rows.
pub(crate) const NO_MEMORY: StoreFault = StoreFault::Sql(Cause::OutOfMemory);

// Returns the cause for which the database refused a statement.
pub(crate) fn cause_of_error(error: Error) -> Cause
    ensures { result ≡ cause_of error }
{
    let Error::SqliteFailure(code) = error else {
        return Cause::Refused;
    };
    match code {
        ErrorCode::OutOfMemory => Cause::OutOfMemory,
        ErrorCode::SystemIoFailure => Cause::SystemIoFailure,
        ErrorCode::DatabaseCorrupt => Cause::DatabaseCorrupt,
        ErrorCode::DiskFull => Cause::DiskFull,
        ErrorCode::Closed => Cause::Closed,
        ErrorCode::TooBig => Cause::TooBig,
        _ => Cause::Refused,
    }
}

// Returns the fault of a read that was refused: a table that is damaged or refused is not ours.
pub(crate) fn fault_of_reading(error: Error) -> StoreFault
    ensures { result ≡ fault_of_cause (cause_of error) }
{
    match cause_of_error(error) {
        Cause::DatabaseCorrupt | Cause::Refused => StoreFault::Schema,
        cause => StoreFault::Sql(cause),
    }
}
