ghost use Rattle.std.specs.Prelude.{◌≡◌, ◌≤◌};
ghost use Rattle.kd_rows.specs.Index.{IsFound};
ghost use Rattle.kd_rows.specs.Table.{IsFirstGap, Rise};

use crate::search::first_past;
use crate::sorted::Sorted;

// Returns the index of the row at an address, if there is one.
pub(crate) fn find(rows: &Sorted, address: u32) -> Option<usize>
    requires { Rise rows.now.rows }
    ensures { IsFound rows.now.rows address result }
{
    let place = rows.place_of(address);
    if place < rows.len() && rows.address(place) == address {
        Some(place)
    } else {
        None
    }
}

// Returns the lowest address from `first` to `last` that has no row. From the index of `first` on,
// the rows are at `first`, `first + 1` and so on up to the gap, and above those addresses from
// there on.
pub(crate) fn gap_in(rows: &Sorted, first: u32, last: u32) -> Option<u32>
    requires rise { Rise rows.now.rows }
    requires order { first ≤ last }
    ensures { IsFirstGap rows.now.rows first last result }
{
    let start = rows.place_of(first);
    let end = first_past(start, rows.len(), |place| {
        (rows.address(place) - first) as usize == place - start
    });
    let run = end - start;
    if run <= (last - first) as usize {
        Some(first + run as u32)
    } else {
        None
    }
}
