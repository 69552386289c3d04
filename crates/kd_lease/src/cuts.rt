ghost use Rattle.std.specs.Prelude.{◌≡◌, ◌++◌, IfOk, OnOk};
ghost use Rattle.std.specs.List.{All, flat_map};
ghost use Rattle.kd_rows.specs.Row.{IsInRange};
ghost use Rattle.kd_rows.specs.Table.{Rise, least_of};
ghost use Rattle.kd_lease.specs.Cuts.{cuts_of_pool, cuts_of_pools};

use kd_config::{Config, Pool};
use kd_rows::{Row, Rows};
use std::alloc::{AllocError, Global};

// Builds the table of these rows, partitioned at the pools of a configuration, so that a search for
// the newest lease of a client in a pool does not visit its leases elsewhere.
pub(crate) fn table_of(alloc: Global, config: &Config, rows: Vec<Row>) -> Result<Rows, AllocError>
    requires rise { Rise rows.items }
    requires ranges { All IsInRange rows.items }
    ensures rows { IfOk result (λ table. table.rows ≡ rows.items) }
    ensures least { IfOk result (λ table. table.least ≡ least_of rows.items) }
{
    match cuts(alloc, config) {
        Ok(cuts) => Rows::with_cuts(rows, cuts),
        Err(fault) => Err(fault),
    }
}

// Returns the first address of every pool and the address after its last, at most
// 255.255.255.255.
fn cuts(alloc: Global, config: &Config) -> Result<Vec<u32>, AllocError>
    ensures { IfOk result (λ cuts. cuts.items ≡ cuts_of_pools config.now) }
{
    let mut cuts = Vec::new(alloc);
    for subnet in config.subnets() {
        put_cuts(&mut cuts, subnet.pools.as_slice())?;
    }
    Ok(cuts)
}

// Appends the same for the pools of a subnet.
fn put_cuts(cuts: &mut Vec<u32>, pools: &[Pool]) -> Result<(), AllocError>
    ensures { OnOk result (cuts.new.items ≡ cuts.old.items ++ flat_map cuts_of_pool pools.now) }
{
    for pool in pools {
        cuts.push(pool.range.first)?;
        cuts.push(pool.range.last.saturating_add(1))?;
    }
    Ok(())
}
