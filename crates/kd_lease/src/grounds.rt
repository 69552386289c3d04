ghost use Rattle.std.specs.Option.{option_copied};
ghost use Rattle.kd_lease.specs.Withholding.{KnowsReserved};

use kd_config::Config;
use kd_rows::{Rows, Withheld};

/// What the lease rules are applied to: a configuration and a table of leases. If the table knows
/// which addresses the configuration reserves, a search for an address skips them.
#[derive(Clone, Copy)]
pub struct Ground<'a> {
    /// The configuration.
    pub config: &'a Config,
    /// The table of leases.
    pub rows: &'a Rows,
    // The same table, if it knows the reserved addresses.
    pub(crate) known: Option<&'a Withheld>,
    ghost knows: { KnowsReserved config.now rows.now.rows (option_copied known) },
}

impl<'a> Ground<'a> {
    ghost use Rattle.std.specs.Prelude.{◌≡◌};
    ghost use Rattle.kd_lease.specs.Withholding.{WithholdsReserved};

    /// Makes the ground of any table of leases, which does not know the reserved addresses.
    pub fn of(config: &'a Config, rows: &'a Rows) -> Ground<'a>
        ensures config { result.config.now ≡ config.now }
        ensures rows { result.rows.now ≡ rows.now }
    {
        Ground {
            config,
            rows,
            known: None,
        }
    }

    // Makes the ground of a table that knows the reserved addresses.
    pub(crate) fn knowing(config: &'a Config, table: &'a Withheld) -> Ground<'a>
        requires { WithholdsReserved config.now table.now.withheld }
        ensures config { result.config.now ≡ config.now }
        ensures rows { result.rows.now.rows ≡ table.now.table.rows }
    {
        Ground {
            config,
            rows: table.rows(),
            known: Some(table),
        }
    }
}
