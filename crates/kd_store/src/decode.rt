ghost use Rattle.std.specs.Prelude.{◌≡◌, ◌⊎◌, ◌<◌, length, IfOk, IfErr};
ghost use Rattle.kd_rows.specs.Row.{state_number};
ghost use Rattle.kd_rows.specs.declared.row.State.{State as LeaseState};
ghost use Rattle.kd_store.specs.Fault.{IsLease, first_five};
ghost use Rattle.kd_store.specs.Lease.{columns_of};
ghost use Rattle.kd_store.specs.Statement.{IsUnreadRow};
ghost use Rattle.sqlite.specs.Order.{column};

use crate::fault::fault_of_reading;
use kd_keeps::{Cause, StoreFault};
use kd_rows::{Row, State};
use kd_wire::Bytes;
use sqlite::types::FromSql;

// Returns the value of a column.
fn column_at<T: FromSql>(columns: &sqlite::Row, at: usize) -> Result<T, StoreFault>
    ensures value { IfOk result (λ value. T.FromSql.reads_as (column columns.now at) value) }
    ensures fault { IfErr result (λ fault. (fault ≡ StoreFault.Sql Cause.OutOfMemory)
        ⊎ ((fault ≡ StoreFault.Schema)
        × (at < length columns.now → ¬ T.FromSql.is_readable (column columns.now at)))) }
{
    match columns.get(at) {
        Ok(value) => Ok(value),
        Err(error) => Err(fault_of_reading(error)),
    }
}

// Returns the state with this number.
fn state_of(number: u32) -> Result<State, StoreFault>
    ensures value { IfOk result (λ state. number ≡ state_number state) }
    ensures fault { IfErr result (λ fault. (fault ≡ StoreFault.Schema)
        × ((state : LeaseState) → ¬ (number ≡ state_number state))) }
{
    let known = match u8::try_from(number) {
        Ok(number) => State::of_number(number),
        Err(_) => None,
    };
    match known {
        Some(state) => Ok(state),
        None => Err(StoreFault::Schema),
    }
}

// Returns the row that the columns describe, if it is in range.
pub(crate) fn decode(columns: &sqlite::Row) -> Result<Row, StoreFault>
    ensures columns { IfOk result (λ row. columns_of row ≡ first_five columns.now) }
    ensures range { IfOk result IsLease }
    ensures fault { IfErr result (IsUnreadRow columns.now) }
{
    let address: u32 = column_at(columns, 0)?;
    let client: Vec<u8> = column_at(columns, 1)?;
    let number: u32 = column_at(columns, 2)?;
    let changed: u64 = column_at(columns, 3)?;
    let ends: u64 = column_at(columns, 4)?;
    let row = Row {
        address,
        client: Bytes::own(client),
        state: state_of(number)?,
        changed,
        ends,
    };
    if row.is_in_range() {
        Ok(row)
    } else {
        Err(StoreFault::Schema)
    }
}
