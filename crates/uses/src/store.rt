ghost use Rattle.std.specs.Prelude.{◌≡◌, IfSome, List, false};
ghost use Rattle.sqlite.specs.Held.{state};
ghost use Rattle.sqlite.specs.State.{HasCleanDisk};
ghost use Rattle.kd_rows.specs.Row.{IsInRange};
ghost use Rattle.kd_rows.specs.Table.{with_row};
ghost use Rattle.kd_rows.specs.declared.row.Row.{Row as LeaseRow};
ghost use Rattle.kd_store.specs.Stands.{Finds, Stands};

use kd_keeps::Keeps;
use kd_rows::Row;
use kd_store::Store;
use sqlite::{Alter, Connection};
use std::alloc::Global;

/// Sets a row in the table of leases that a database has.
pub fn put_into<S: Alter + Drop>(
    alloc: Global,
    conn: Connection<S>,
    row: &Row,
) -> Option<Connection<S>>
    requires ready { (state S.Store conn).in_transaction ≡ false }
    requires range { IsInRange row.now }
    ensures { IfSome result (λ new. HasCleanDisk (state S.Store new) → (table : List LeaseRow)
        → Finds (state S.Store conn) table
        → Stands (state S.Store new) (with_row row.now table)) }
{
    let mut store = Store::open(alloc, conn).ok()?;
    let put = store.put(row);
    let conn = store.close();
    put.ok()?;
    Some(conn)
}
