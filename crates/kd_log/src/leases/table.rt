ghost use Rattle.std.specs.Prelude.{◌≡◌, IfOk, IfErr, List, MatchResult, is_some};
ghost use Rattle.std.specs.BTreeMap.{values};
ghost use Rattle.std.specs.List.{All};
ghost use Rattle.kd_rows.specs.Row.{IsInRange};
ghost use Rattle.kd_rows.specs.Table.{Rise, row_at, with_row};
ghost use Rattle.kd_rows.specs.declared.row.Row.{Row};
ghost use Rattle.kd_log.specs.Import.{IsImportFault, IsTable};
ghost use Rattle.kd_log.specs.LeaseParts.{by_address};

use crate::leases::fault::ImportFault;
use crate::leases::lease::lease_of_line;
use crate::leases::line::next_line;
use kd_rows::Row;
use std::alloc::{AllocError, Global};
use std::collections::BTreeMap;

/// Returns the rows of the leases in the lines of a text, in ascending order of address. Whether a
/// lease is live is read but ignored.
///
/// # Errors
///
/// `BadLine` for the first line that is not that of a lease, or whose address is in an earlier
/// line; `Memory` if there is not enough memory for the rows.
pub fn leases_in(alloc: Global, text: &[u8]) -> Result<Vec<Row>, ImportFault>
    ensures found { IfOk result (λ rows. IsTable text.now rows.items) }
    ensures rise { IfOk result (λ rows. Rise rows.items) }
    ensures ranges { IfOk result (λ rows. All IsInRange rows.items) }
    ensures fault { IfErr result (λ fault. IsImportFault text.now fault) }
    ensures only { (rows : List Row) → IsTable text.now rows
        → MatchResult result (λ found. found.items ≡ rows) (λ fault. fault ≡ ImportFault.Memory) }
{
    let mut table = BTreeMap::new(alloc);
    let mut rest = text;
    let mut number = 0;
    while let Some((line, later)) = next_line(rest) {
        number += 1;
        let Some(lease) = lease_of_line(alloc, line)? else {
            return Err(ImportFault::BadLine(number));
        };
        if put_row(&mut table, lease.row)? {
            return Err(ImportFault::BadLine(number));
        }
        rest = later;
    }
    Ok(rows_of(alloc, table)?)
}

// Inserts a row into a table, and reports whether there already was one for its address.
fn put_row(table: &mut BTreeMap<u32, Row>, row: Row) -> Result<bool, AllocError>
    ensures { (rows : List Row) → table.old.entries ≡ by_address rows → IfOk result (λ had.
        (table.new.entries ≡ by_address (with_row row rows))
        × (had ≡ is_some (row_at rows row.address))) }
{
    Ok(table.insert(row.address, row)?.is_some())
}

// Returns the rows of a table.
fn rows_of(alloc: Global, table: BTreeMap<u32, Row>) -> Result<Vec<Row>, AllocError>
    ensures { IfOk result (λ rows. rows.items ≡ values table) }
{
    table.into_values().collect(alloc)
}
