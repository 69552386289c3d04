ghost use Rattle.std.specs.Prelude.{◌∷◌, [], IfOk};
ghost use Rattle.sqlite.specs.Held.{state};
ghost use Rattle.sqlite.specs.State.{HasCleanDisk};
ghost use Rattle.sqlite.specs.Steps.{over_memory};
ghost use Rattle.kd_rows.specs.Row.{IsInRange};
ghost use Rattle.kd_store.specs.Stands.{Stands};

use kd_database::{InMemory, store_in_memory};
use kd_keeps::{Keeps, Opened, StoreFault};
use kd_rows::Row;
use kd_store::Store;
use std::alloc::Global;

/// Makes a store in memory whose table has one row.
pub fn store_of_row(alloc: Global, row: &Row) -> Result<Store<InMemory>, StoreFault>
    requires { IsInRange row.now }
    ensures { IfOk result (λ store. HasCleanDisk (state over_memory store.conn)
        → Stands (state over_memory store.conn) (row.now ∷ [])) }
{
    let Opened { mut store, rows: _ } = store_in_memory(alloc)?;
    match store.put(row) {
        Ok(()) => Ok(store),
        Err(fault) => {
            store.close();
            Err(fault)
        }
    }
}
