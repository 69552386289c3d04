ghost use Rattle.std.specs.Prelude.{◌≡◌, List, IsTrue, IfErr, OnOk};
ghost use Rattle.std.specs.List.{All};
ghost use Rattle.sqlite.specs.Held.{state};
ghost use Rattle.sqlite.specs.State.{ExecutesInside, HasCleanDisk, Survives};
ghost use Rattle.kd_keeps.specs.Moves.{MovesTable};
ghost use Rattle.kd_rows.specs.Row.{IsInRange};
ghost use Rattle.kd_rows.specs.Table.{with_rows};
ghost use Rattle.kd_rows.specs.declared.row.Row.{Row as LeaseRow};
ghost use Rattle.kd_store.specs.Batch.{FailsTogether, SetsEach, StopsAt};
ghost use Rattle.kd_store.specs.Fault.{RefusesAllWith};
ghost use Rattle.kd_store.specs.Lease.{columns_of, put_text};
ghost use Rattle.kd_store.specs.Staging.{CommitsTogether, SetsTogether};
ghost use Rattle.kd_store.specs.Stands.{Leaves, Stands};

use crate::fault::cause_of_error;
use crate::statement::{PUT, put_params};
use kd_keeps::StoreFault;
use kd_rows::Row;
use sqlite::{Alter, Connection, Error, ErrorCode, Transaction};

// Runs the statement that sets a row, within a transaction.
fn execute_inside<S: Alter>(tx: &mut Transaction<'_, S>, row: &Row) -> Result<usize, Error>
    requires { IsInRange row.now }
    ensures same_reference { tx.new.conn.ghost_name ≡ tx.old.conn.ghost_name }
    ensures runs { HasCleanDisk (state S.Store tx.new.conn.now)
        → IsTrue (state S.Store tx.old.conn.now).in_transaction
        → ExecutesInside 0 put_text (columns_of row.now) (state S.Store tx.old.conn.now)
        (state S.Store tx.new.conn.now) result }
    ensures survives { Survives (state S.Store tx.old.conn.now) (state S.Store tx.new.conn.now)
        (λ _. ⊥) }
{
    let params = put_params(row);
    tx.execute(PUT, &params)
}

// Sets rows in the given order, within a transaction, up to the first that is refused.
fn put_each<S: Alter>(tx: &mut Transaction<'_, S>, rows: &[Row]) -> Result<(), Error>
    requires { All IsInRange rows.now }
    ensures same_reference { tx.new.conn.ghost_name ≡ tx.old.conn.ghost_name }
    ensures set { HasCleanDisk (state S.Store tx.new.conn.now)
        → IsTrue (state S.Store tx.old.conn.now).in_transaction
        → OnOk result (SetsEach S.Store rows.now tx.old.conn.now tx.new.conn.now) }
    ensures refused { HasCleanDisk (state S.Store tx.new.conn.now)
        → IsTrue (state S.Store tx.old.conn.now).in_transaction
        → IfErr result (StopsAt S.Store rows.now tx.old.conn.now tx.new.conn.now) }
    ensures survives { Survives (state S.Store tx.old.conn.now) (state S.Store tx.new.conn.now)
        (λ _. ⊥) }
{
    for row in rows {
        if let Err(error) = execute_inside(tx, row) {
            return Err(error);
        }
    }
    Ok(())
}

// Sets rows in a transaction, and commits it.
fn execute_all<S: Alter>(conn: &mut Connection<S>, rows: &[Row]) -> Result<(), Error>
    requires { All IsInRange rows.now }
    ensures set { HasCleanDisk (state S.Store conn.new)
        → OnOk result (SetsTogether S.Store rows.now conn.old conn.new) }
    ensures failed { HasCleanDisk (state S.Store conn.new)
        → IfErr result (FailsTogether S.Store rows.now conn.old conn.new) }
    ensures survives { Survives (state S.Store conn.old) (state S.Store conn.new)
        (CommitsTogether S.Store rows.now conn.old) }
{
    if !conn.is_autocommit() {
        return Err(Error::SqliteFailure(ErrorCode::TransactionState));
    }
    let mut tx = conn.transaction();
    if let Err(error) = put_each(&mut tx, rows) {
        return Err(error);
    }
    match tx.commit() {
        Ok(()) => Ok(()),
        Err(error) => Err(error),
    }
}

// Sets rows in one transaction with one commit.
pub(crate) fn put_all<S: Alter>(conn: &mut Connection<S>, rows: &[Row]) -> Result<(), StoreFault>
    requires { All IsInRange rows.now }
    ensures clean { HasCleanDisk (state S.Store conn.new) → HasCleanDisk (state S.Store conn.old) }
    ensures put { HasCleanDisk (state S.Store conn.new) → (table : List LeaseRow)
        → Stands (state S.Store conn.old) table
        → MovesTable (Stands (state S.Store conn.new)) (Leaves (state S.Store conn.new))
        (IsTrue (state S.Store conn.new).is_open) table (with_rows rows.now table) result }
    ensures told { HasCleanDisk (state S.Store conn.new)
        → IfErr result (RefusesAllWith S.Store rows.now conn.old conn.new) }
{
    match execute_all(conn, rows) {
        Ok(()) => Ok(()),
        Err(error) => Err(StoreFault::Sql(cause_of_error(error))),
    }
}
