ghost use Rattle.std.specs.Prelude.{◌≡◌, ◌+◌, ◌-◌, ◌^◌, ◌<◌};
ghost use Rattle.std.specs.List.Sorted.{IsNonDecreasing};
ghost use Rattle.std.specs.Option.{option_copied};
ghost use Rattle.kd_config.specs.Sound.{IsRange};
ghost use Rattle.kd_rows.specs.Table.{IsNext, row_at};
ghost use Rattle.kd_pools.specs.Counts.{addresses_of_range, counts_of};
ghost use Rattle.kd_pools.specs.Walking.{IsAtMost, is_listed};

use crate::counts::Counts;
use crate::reserved::{is_at, place_from, place_of};
use kd_config::Range;
use kd_rows::{Row, Rows};

// Counts the addresses of a range at a given time. It walks the addresses, the list of reserved
// addresses and the rows of the table in parallel.
pub(crate) fn counts_in(reserved: &[u32], rows: &Rows, now: u64, range: Range) -> Counts
    requires rising { IsNonDecreasing reserved.now }
    requires range { IsRange range }
    ensures counts { result
        ≡ counts_of (is_listed reserved.now) rows.now.rows now (addresses_of_range range) }
    ensures few { IsAtMost 65536 result }
{
    let mut counts = Counts::new();
    let mut place = place_of(reserved, range.first);
    let mut next = rows.next_from(range.first);
    let mut address = range.first;
    'walk: while address < range.last {
        place = place_from(reserved, place, address);
        let one = Counts::of_one(
            is_at(reserved, place, address),
            here(rows, next, address),
            now,
        );
        counts = counts.and(one);
        next = next_after(rows, next, address);
        address += 1;
    }
    place = place_from(reserved, place, address);
    let one = Counts::of_one(
        is_at(reserved, place, address),
        here(rows, next, address),
        now,
    );
    counts.and(one)
}

// Returns the row of an address, given the next row at or after it.
fn here<'a>(rows: &Rows, next: Option<&'a Row>, address: u32) -> Option<&'a Row>
    requires { IsNext rows.now.rows address (option_copied next) }
    ensures { option_copied result ≡ row_at rows.now.rows address }
{
    match next {
        Some(row) if row.address == address => Some(row),
        _ => None,
    }
}

// Returns the next row after an address, given the next row at or after it.
fn next_after<'a>(rows: &'a Rows, next: Option<&'a Row>, address: u32) -> Option<&'a Row>
    requires next { IsNext rows.now.rows address (option_copied next) }
    requires more { address < 2 ^ 32 - 1 }
    ensures { IsNext rows.now.rows (address + 1) (option_copied result) }
{
    match next {
        Some(row) if row.address == address => rows.next_from(address + 1),
        _ => next,
    }
}
