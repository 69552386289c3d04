ghost use Rattle.std.specs.Prelude.{◌≡◌, ◌≤◌};
ghost use Rattle.kd_rows.specs.Index.{IsPlace};
ghost use Rattle.kd_rows.specs.Open.{AreApart, IsTakenEnd, address_rows};
ghost use Rattle.kd_rows.specs.Table.{Rise};
ghost use Rattle.kd_rows.specs.Withheld.{IsFirstFree};

use crate::addresses::{first_outside, place_in};
use crate::search::first_past;
use crate::sorted::Sorted;

// Returns the lowest address from `first` to `last` that has no row and is not withheld. All
// addresses from `first` to a row are taken if there are as many rows and withheld addresses as
// addresses.
pub(crate) fn free_in(rows: &Sorted, bare: &[u32], first: u32, last: u32) -> Option<u32>
    requires rise { Rise rows.now.rows }
    requires bare { Rise (address_rows bare.now) }
    requires apart { AreApart rows.now.rows bare.now }
    requires order { first ≤ last }
    ensures { IsFirstFree rows.now.rows bare.now first last result }
{
    let start = rows.place_of(first);
    let end = taken_end(rows, bare, first, start);
    if end == start {
        return first_outside(bare, first, last);
    }
    let before = rows.address(end - 1);
    if last <= before {
        return None;
    }
    first_outside(bare, before + 1, last)
}

// Returns the index after the last row up to which every address from `first` on is taken.
fn taken_end(rows: &Sorted, bare: &[u32], first: u32, start: usize) -> usize
    requires rise { Rise rows.now.rows }
    requires bare { Rise (address_rows bare.now) }
    requires apart { AreApart rows.now.rows bare.now }
    requires start { IsPlace rows.now.rows first start }
    ensures { IsTakenEnd rows.now.rows bare.now first start result }
{
    let skip = place_in(bare, first);
    first_past(start, rows.len(), |place| {
        let address = rows.address(place);
        let taken = place_in(bare, address) - skip;
        (address - first) as usize - (place - start) == taken
    })
}
