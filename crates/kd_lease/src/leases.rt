ghost use Rattle.std.specs.Prelude.{◌≡◌, ◌≢◌, ◌↔◌, ◌-◌, ◌≤◌, IfErr, IfOk, OnErr, OnOk, if◌then◌else◌, is_some, min, true, false};
ghost use Rattle.std.specs.List.{All};
ghost use Rattle.kd_rows.specs.Row.{IsInRange};
ghost use Rattle.kd_rows.specs.Table.{Rise, latest_of, least_of, room_for_row, row_at, with_row};

use crate::grounds::Ground;
use crate::reserve_list::withheld_of;
use kd_config::Config;
use kd_rows::{Row, Rows, Withheld};
use std::alloc::{AllocError, Global};
use std::marker::Model;

/// A configuration and its table of leases. The table knows the addresses that the configuration
/// reserves, so a search for an address skips them.
#[derive(Drop)]
pub struct Leases {
    config: Config,
    table: Withheld,
}

impl Model for Leases {
    ghost use Rattle.kd_lease.specs.Leases.{Leased};
    ghost use Rattle.kd_lease.specs.Withholding.{WithholdsReserved};

    ghost Value = { Leased };

    ghost view = { λ l. record { config = l.config; table = l.table.table } };

    ghost invariant = { λ l. WithholdsReserved l.config l.table.withheld };
}

impl Leases {
    /// Makes the leases of a configuration from rows in ascending order of address, at most one for
    /// each address.
    ///
    /// # Errors
    ///
    /// Out of memory; the configuration is returned.
    pub fn new(alloc: Global, config: Config, rows: Vec<Row>) -> Result<Leases, Config>
        requires rise { Rise rows.items }
        requires ranges { All IsInRange rows.items }
        ensures config { IfOk result (λ leases. leases.config ≡ config) }
        ensures rows { IfOk result (λ leases. leases.table.rows ≡ rows.items) }
        ensures least { IfOk result (λ leases. leases.table.least ≡ least_of rows.items) }
        ensures memory { IfErr result (λ back. back ≡ config) }
    {
        match withheld_of(alloc, &config, rows) {
            Ok(table) => Ok(Leases { config, table }),
            Err(_) => Err(config),
        }
    }

    /// Returns the configuration.
    pub fn config(&self) -> &Config
        ensures { result.now ≡ self.now.config }
    {
        &self.config
    }

    /// Returns the table of leases.
    pub fn rows(&self) -> &Rows
        ensures rows { result.now.rows ≡ self.now.table.rows }
        ensures least { result.now.least ≡ self.now.table.least }
    {
        self.table.rows()
    }

    /// Returns what the lease rules are applied to: this configuration and this table.
    pub fn ground(&self) -> Ground<'_>
        ensures config { result.config.now ≡ self.now.config }
        ensures rows { result.rows.now.rows ≡ self.now.table.rows }
    {
        Ground::knowing(&self.config, &self.table)
    }

    /// Whether setting a row would change the table. If so, makes room for it, so that setting it
    /// allocates no memory.
    ///
    /// # Errors
    ///
    /// The row would change the table, there was no room, and there is no memory for more; the rows
    /// stay as they are.
    pub fn prepare(&mut self, row: &Row) -> Result<bool, AllocError>
        ensures config { self.new.config ≡ self.old.config }
        ensures rows { self.new.table.rows ≡ self.old.table.rows }
        ensures least { self.new.table.least ≡ self.old.table.least }
        ensures same { IfOk result (λ changes. (changes ≡ false)
            ↔ (with_row row.now self.old.table.rows ≡ self.old.table.rows)) }
        ensures spare { OnOk result (room_for_row self.new.table row.now ≡ true) }
        ensures needed { OnErr result (room_for_row self.old.table row.now ≡ false) }
        ensures changed { OnErr result
            (with_row row.now self.old.table.rows ≢ self.old.table.rows) }
    {
        self.table.prepare(row)
    }

    /// Sets a row: replaces the row of its address, or inserts it where the address belongs.
    /// Allocates no memory.
    pub fn set(&mut self, row: Row)
        requires spare { room_for_row self.old.table row ≡ true }
        requires changed { latest_of self.old.table.rows ≤ row.changed }
        requires range { IsInRange row }
        ensures config { self.new.config ≡ self.old.config }
        ensures rows { self.new.table.rows ≡ with_row row self.old.table.rows }
        ensures least { self.new.table.least ≡ min self.old.table.least row.ends }
        ensures room { self.new.table.room ≡ self.old.table.room
            - (if is_some (row_at self.old.table.rows row.address) then 0 else 1) }
    {
        self.table.set(row);
    }

    /// Returns the configuration and drops the table.
    pub fn into_config(self) -> Config
        ensures { result ≡ self.config }
    {
        self.config
    }
}
