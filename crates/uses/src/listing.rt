ghost use Rattle.std.specs.Prelude.{◌≡◌, IfOk, map, string_bytes};
ghost use Rattle.std.specs.List.{flat_map};
ghost use Rattle.kd_listing.specs.Leases.{lease_line, lease_of_row};

use kd_listing::{lease_lines, leases_in};
use kd_rows::Rows;
use std::alloc::{AllocError, Global};

/// Returns the lines of the leases of a table at a time, in whole seconds.
pub fn listed(alloc: Global, rows: &Rows, now: u64) -> Result<String, AllocError>
    ensures { IfOk result (λ text. string_bytes text
        ≡ flat_map lease_line (map (lease_of_row now) rows.now.rows)) }
{
    let leases = leases_in(alloc, rows, now)?;
    lease_lines(alloc, &leases)
}
