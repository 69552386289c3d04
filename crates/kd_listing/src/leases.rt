ghost use Rattle.std.specs.Prelude.{◌≡◌, IfOk, map};
ghost use Rattle.kd_listing.specs.Leases.{lease_of_row};

use kd_rows::{Row, Rows};
use std::alloc::{AllocError, Global};

/// A row of the table of leases, as seen at some time.
#[derive(Drop)]
pub struct Lease {
    /// The row.
    pub row: Row,
    /// Whether the row has not ended yet.
    pub live: bool,
}

/// Returns the leases of rows at a time in whole seconds: the rows in ascending order of address,
/// each with whether it is still live at that time.
///
/// # Errors
///
/// Out of memory.
pub fn leases_in(alloc: Global, rows: &Rows, now: u64) -> Result<Vec<Lease>, AllocError>
    ensures { IfOk result (λ list. list.items ≡ map (lease_of_row now) rows.now.rows) }
{
    let mut list = Vec::with_capacity(alloc, rows.len())?;
    let mut index = 0;
    while let Some(row) = rows.at(index) {
        list.push(lease_at(alloc, row, now)?)?;
        index += 1;
    }
    Ok(list)
}

// A row at a time.
fn lease_at(alloc: Global, row: &Row, now: u64) -> Result<Lease, AllocError>
    ensures { IfOk result (λ lease. lease ≡ lease_of_row now row.now) }
{
    Ok(Lease {
        row: row.try_clone(alloc)?,
        live: row.is_live(now),
    })
}
