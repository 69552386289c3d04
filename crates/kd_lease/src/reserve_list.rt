ghost use Rattle.std.specs.Prelude.{◌≡◌, IfOk};
ghost use Rattle.std.specs.List.{All};
ghost use Rattle.kd_rows.specs.Row.{IsInRange};
ghost use Rattle.kd_rows.specs.Table.{Rise, least_of};
ghost use Rattle.kd_lease.specs.Withholding.{WithholdsReserved};

use crate::cuts::table_of;
use kd_config::Config;
use kd_rows::{Row, Withheld};
use std::alloc::{AllocError, Global};

// Builds the table of these rows that withholds exactly the addresses that a configuration
// reserves.
pub(crate) fn withheld_of(
    alloc: Global,
    config: &Config,
    rows: Vec<Row>,
) -> Result<Withheld, AllocError>
    requires rise { Rise rows.items }
    requires ranges { All IsInRange rows.items }
    ensures rows { IfOk result (λ table. table.table.rows ≡ rows.items) }
    ensures least { IfOk result (λ table. table.table.least ≡ least_of rows.items) }
    ensures withheld { IfOk result (λ table. WithholdsReserved config.now table.withheld) }
{
    match reserved_addresses(alloc, config) {
        Ok(addresses) => withholding(alloc, config, rows, addresses),
        Err(fault) => Err(fault),
    }
}

// Builds the table of these rows that withholds these addresses.
fn withholding(
    alloc: Global,
    config: &Config,
    rows: Vec<Row>,
    addresses: Vec<u32>,
) -> Result<Withheld, AllocError>
    requires rise { Rise rows.items }
    requires ranges { All IsInRange rows.items }
    requires all { WithholdsReserved config.now addresses.items }
    ensures rows { IfOk result (λ table. table.table.rows ≡ rows.items) }
    ensures least { IfOk result (λ table. table.table.least ≡ least_of rows.items) }
    ensures withheld { IfOk result (λ table. WithholdsReserved config.now table.withheld) }
{
    match table_of(alloc, config, rows) {
        Ok(table) => Withheld::new(table, addresses),
        Err(fault) => Err(fault),
    }
}

// Collects exactly the addresses that a configuration reserves.
fn reserved_addresses(alloc: Global, config: &Config) -> Result<Vec<u32>, AllocError>
    ensures { IfOk result (λ addresses. WithholdsReserved config.now addresses.items) }
{
    let mut addresses = Vec::new(alloc);
    for subnet in config.subnets() {
        subnet.reservations.put_addresses(&mut addresses)?;
    }
    Ok(addresses)
}
