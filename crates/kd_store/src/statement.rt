ghost use Rattle.std.specs.Prelude.{◌≡◌, ◌<◌, ◌^◌, pos, false, List, [], IsTrue, IfOk, IfErr, IfSome};
ghost use Rattle.std.specs.List.{All};
ghost use Rattle.sqlite.specs.Held.{state};
ghost use Rattle.sqlite.specs.State.{CommitsBy, Executes, HasCleanDisk, IsLive, Survives};
ghost use Rattle.sqlite.specs.Given.{HasGiven};
ghost use Rattle.sqlite.specs.Order.{Row as Columns};
ghost use Rattle.sqlite.specs.Values.{bound};
ghost use Rattle.kd_keeps.specs.Moves.{MovesTable};
ghost use Rattle.kd_rows.specs.Row.{IsInRange};
ghost use Rattle.kd_rows.specs.Table.{Rise, with_row};
ghost use Rattle.kd_rows.specs.declared.row.Row.{Row as LeaseRow};
ghost use Rattle.kd_store.specs.Fault.{IsLease, RefusesWith};
ghost use Rattle.kd_store.specs.Lease.{columns_of, make_text, put_text, rows_text};
ghost use Rattle.kd_store.specs.Stands.{Leaves, Stands};
ghost use Rattle.kd_store.specs.Statement.{GoesOn, IsSettled, ReadsTable};

use crate::decode::decode;
use crate::fault::{NO_MEMORY, cause_of_error, fault_of_reading};
use kd_keeps::StoreFault;
use kd_rows::Row;
use sqlite::types::{ToSql, ValueRef};
use sqlite::{Alter, Connection, Error, Rows};
use std::alloc::Global;

const MAKE: &str =
    "CREATE TABLE IF NOT EXISTS lease (address INTEGER PRIMARY KEY CHECK (address BETWEEN 0 AND 4294967295), client BLOB NOT NULL, state INTEGER NOT NULL CHECK (state BETWEEN 1 AND 4), changed INTEGER NOT NULL CHECK (changed BETWEEN 0 AND 1099511627775), ends INTEGER NOT NULL CHECK (ends BETWEEN changed AND changed + 2147483647)) STRICT";

pub(crate) const PUT: &str =
    "INSERT INTO lease (address, client, state, changed, ends) VALUES (?1, ?2, ?3, ?4, ?5) ON CONFLICT (address) DO UPDATE SET client = excluded.client, state = excluded.state, changed = excluded.changed, ends = excluded.ends";

const ROWS: &str = "SELECT address, client, state, changed, ends FROM lease ORDER BY address";

// Makes the table if there is none. The two calls before that establish what is always true of the
// connection: the database obeys its schema, and what it shows outside a transaction is committed.
pub(crate) fn make<S: Alter>(conn: &mut Connection<S>) -> Result<usize, Error>
    requires { (state S.Store conn.old).in_transaction ≡ false }
    ensures live { IsLive (state S.Store conn.old) }
    ensures settled { IsSettled (state S.Store conn.old) }
    ensures runs { HasCleanDisk (state S.Store conn.new)
        → Executes make_text [] (state S.Store conn.old) (state S.Store conn.new) result }
    ensures survives { Survives (state S.Store conn.old) (state S.Store conn.new)
        (CommitsBy make_text [] (state S.Store conn.old)) }
{
    let _idle = conn.is_autocommit();
    let _schema = conn.schema();
    conn.execute(MAKE, &[])
}

// Returns a number as a signed integer, as SQL has it.
fn with_sign(n: u64) -> i64
    requires { n < 2 ^ 63 }
    ensures { result ≡ pos n }
{
    n as i64
}

// Returns the parameters of the statement that sets a row.
pub(crate) fn put_params<'a>(row: &'a Row) -> [ValueRef<'a>; 5]
    requires { IsInRange row.now }
    ensures { bound result ≡ columns_of row.now }
{
    let number = u32::from(row.state.number());
    let changed = with_sign(row.changed);
    let ends = with_sign(row.ends);
    [
        row.address.to_sql(),
        row.client.as_slice().to_sql(),
        number.to_sql(),
        changed.to_sql(),
        ends.to_sql(),
    ]
}

// Runs the statement that sets a row, with its parameters.
fn execute_put<S: Alter>(conn: &mut Connection<S>, row: &Row) -> Result<usize, Error>
    requires { IsInRange row.now }
    ensures runs { HasCleanDisk (state S.Store conn.new)
        → Executes put_text (columns_of row.now) (state S.Store conn.old)
        (state S.Store conn.new) result }
    ensures survives { Survives (state S.Store conn.old) (state S.Store conn.new)
        (CommitsBy put_text (columns_of row.now) (state S.Store conn.old)) }
{
    let params = put_params(row);
    conn.execute(PUT, &params)
}

// Sets a row, in one statement and one commit.
pub(crate) fn put<S: Alter>(conn: &mut Connection<S>, row: &Row) -> Result<(), StoreFault>
    requires { IsInRange row.now }
    ensures clean { HasCleanDisk (state S.Store conn.new) → HasCleanDisk (state S.Store conn.old) }
    ensures put { HasCleanDisk (state S.Store conn.new) → (table : List LeaseRow)
        → Stands (state S.Store conn.old) table
        → MovesTable (Stands (state S.Store conn.new)) (Leaves (state S.Store conn.new))
        (IsTrue (state S.Store conn.new).is_open) table (with_row row.now table) result }
    ensures told { HasCleanDisk (state S.Store conn.new)
        → IfErr result (RefusesWith put_text (columns_of row.now) (state S.Store conn.old)
        (state S.Store conn.new)) }
{
    match execute_put(conn, row) {
        Ok(_) => Ok(()),
        Err(error) => Err(StoreFault::Sql(cause_of_error(error))),
    }
}

// Returns the next row that the query shows, or `None` at its end.
fn next<S: Alter>(shown: &mut Rows<'_, S>) -> Result<Option<Row>, StoreFault>
    ensures same_reference { shown.new.conn.ghost_name ≡ shown.old.conn.ghost_name }
    ensures survives { Survives (state S.Store shown.old.conn.now)
        (state S.Store shown.new.conn.now) (λ _. ⊥) }
    ensures next { HasCleanDisk (state S.Store shown.new.conn.now) → (given : List Columns)
        → HasGiven S.Store rows_text [] shown.old.conn.now given
        → GoesOn S.Store shown.old.conn.now shown.new.conn.now given result }
    ensures range { IfOk result (λ row. IfSome row IsLease) }
{
    if let Err(error) = shown.advance() {
        return Err(fault_of_reading(error));
    }
    match shown.get() {
        Some(columns) => match decode(columns) {
            Ok(row) => Ok(Some(row)),
            Err(fault) => Err(fault),
        },
        None => Ok(None),
    }
}

// Returns the rows that the query shows, if they are in ascending order of address and in range.
fn gather<S: Alter>(alloc: Global, shown: &mut Rows<'_, S>) -> Result<Vec<Row>, StoreFault>
    ensures same_reference { shown.new.conn.ghost_name ≡ shown.old.conn.ghost_name }
    ensures survives { Survives (state S.Store shown.old.conn.now)
        (state S.Store shown.new.conn.now) (λ _. ⊥) }
    ensures read { HasCleanDisk (state S.Store shown.new.conn.now)
        → HasGiven S.Store rows_text [] shown.old.conn.now []
        → IsTrue (state S.Store shown.old.conn.now).is_open
        → ReadsTable (λ rows. rows.items) (state S.Store shown.old.conn.now)
        (state S.Store shown.new.conn.now) result }
    ensures rise { IfOk result (λ rows. Rise rows.items) }
    ensures ranges { IfOk result (λ rows. All IsInRange rows.items) }
{
    let mut rows = Vec::new(alloc);
    let mut least: u64 = 0;
    'rows: for _ in 0..u64::MAX {
        let row = match next(shown) {
            Ok(Some(row)) => row,
            Ok(None) => return Ok(rows),
            Err(fault) => return Err(fault),
        };
        let address = u64::from(row.address);
        if address < least {
            return Err(StoreFault::Schema);
        }
        least = address + 1;
        if rows.push(row).is_err() {
            return Err(NO_MEMORY);
        }
    }
    Err(StoreFault::Schema)
}

// Returns all rows, in ascending order of address.
pub(crate) fn read<S: Alter>(
    alloc: Global,
    conn: &mut Connection<S>,
) -> Result<Vec<Row>, StoreFault>
    ensures survives { Survives (state S.Store conn.old) (state S.Store conn.new) (λ _. ⊥) }
    ensures read { HasCleanDisk (state S.Store conn.new)
        → ReadsTable (λ rows. rows.items) (state S.Store conn.old) (state S.Store conn.new) result }
    ensures rise { IfOk result (λ rows. Rise rows.items) }
    ensures ranges { IfOk result (λ rows. All IsInRange rows.items) }
{
    match conn.query(ROWS, &[]) {
        Ok(mut shown) => gather(alloc, &mut shown),
        Err(error) => Err(fault_of_reading(error)),
    }
}
