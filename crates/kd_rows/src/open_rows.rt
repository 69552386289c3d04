ghost use Rattle.std.specs.Prelude.{◌≡◌};
ghost use Rattle.kd_rows.specs.Open.{address_rows, open_rows};
ghost use Rattle.kd_rows.specs.Table.{Rise};

use crate::sorted::Sorted;
use std::marker::Model;

// Rows without those at withheld addresses.
#[derive(Drop)]
pub(crate) struct OpenRows<'a> {
    // All rows.
    pub(crate) all: &'a Sorted,
    // The withheld addresses, in ascending order.
    pub(crate) withheld: &'a [u32],
}

impl<'a> Model for OpenRows<'a> {
    ghost use Rattle.std.specs.Prelude.{List};
    ghost use Rattle.kd_rows.specs.declared.row.Row.{Row};
    ghost use Rattle.kd_rows.specs.Open.{AreOpen, open_rows};

    ghost Value = { List Row };

    ghost view = { λ s. open_rows s.withheld.now s.all.now.rows };

    ghost invariant = { λ s. AreOpen s.all.now.rows s.withheld.now };
}

impl<'a> OpenRows<'a> {
    // Returns all rows.
    pub(crate) fn all(rows: &'a Sorted) -> OpenRows<'a>
        requires { Rise rows.now.rows }
        ensures { result ≡ rows.now.rows }
    {
        OpenRows {
            all: rows,
            withheld: &[],
        }
    }

    // Returns the rows at addresses that are not withheld.
    pub(crate) fn beside(rows: &'a Sorted, withheld: &'a [u32]) -> OpenRows<'a>
        requires rise { Rise rows.now.rows }
        requires listed { Rise (address_rows withheld.now) }
        ensures { result ≡ open_rows withheld.now rows.now.rows }
    {
        OpenRows {
            all: rows,
            withheld,
        }
    }
}
