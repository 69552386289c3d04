ghost use Rattle.std.specs.Prelude.{◌≡◌};
ghost use Rattle.std.specs.List.{All};
ghost use Rattle.std.specs.Option.{option_copied};
ghost use Rattle.kd_rows.specs.Index.{IsIndex, age_of};
ghost use Rattle.kd_rows.specs.Row.{IsInRange};
ghost use Rattle.kd_rows.specs.Table.{IsNewestRow, is_aged, is_newer_row};
ghost use Rattle.kd_rows.specs.Zones.{IsNextZone, is_kind, newer_of_rows};

use crate::age::{age_place, newest_from, start_of};
use crate::row::{Row, State};
use crate::sorted::Sorted;
use crate::zones::group;

// Returns the newest row of a client in a state from address `first` to `last`. Goes zone by zone
// and skips zones in which the client has no row in that state.
pub(crate) fn newest_in<'a>(
    rows: &'a Sorted,
    client: &[u8],
    state: State,
    first: u32,
    last: u32,
    before: Option<&Row>,
) -> Option<&'a Row>
    requires aged { IsIndex (age_of rows.now.cuts) rows.now.rows rows.now.ages }
    requires ranges { All IsInRange rows.now.rows }
    ensures { IsNewestRow rows.now.rows
        (is_aged client.now state first last (option_copied before.entry))
        (option_copied result) }
{
    let zones = rows.zones();
    let end = zones.of(last);
    let mut zone = zones.of(first);
    let mut best = None;
    'each: while zone <= end {
        let from = start_of(client, group(state, zone), before);
        let found = newest_from(rows, &from, first, last);
        if zone == end {
            return newer(best, found);
        }
        match next_zone(rows, client, state, zone) {
            Some(next) => {
                best = newer(best, found);
                zone = next;
            }
            None => return newer(best, found),
        }
    }
    best
}

// Returns the next zone after `zone` in which a client has a row in a state.
fn next_zone(rows: &Sorted, client: &[u8], state: State, zone: u32) -> Option<u32>
    requires aged { IsIndex (age_of rows.now.cuts) rows.now.rows rows.now.ages }
    ensures { IsNextZone rows.now.rows rows.now.cuts client.now state zone result }
{
    if zone == u32::MAX {
        return None;
    }
    let from = start_of(client, group(state, zone + 1), None);
    let place = age_place(rows, &from);
    if place == rows.ages_len() {
        return None;
    }
    let row = rows.row_by_age(place);
    if has_kind(row, client, state) {
        Some(rows.zones().of(row.address))
    } else {
        None
    }
}

// Whether a row belongs to a client and is in a state.
fn has_kind(row: &Row, client: &[u8], state: State) -> bool
    ensures { result ≡ is_kind client.now state row.now }
{
    row.client.as_slice() == client && row.state.number() == state.number()
}

// Returns the newer of two rows, either of which may be missing.
fn newer<'a>(found: Option<&'a Row>, other: Option<&'a Row>) -> Option<&'a Row>
    ensures { option_copied result
        ≡ newer_of_rows (option_copied found.entry) (option_copied other.entry) }
{
    match found {
        None => other,
        Some(row) => match other {
            None => Some(row),
            Some(other) => {
                if is_newer(other, row) {
                    Some(other)
                } else {
                    Some(row)
                }
            }
        },
    }
}

// Whether the first of two rows is newer: it was set later, or at the same time and its address is
// lower.
fn is_newer(row: &Row, other: &Row) -> bool
    ensures { result ≡ is_newer_row row.now other.now }
{
    other.changed < row.changed || (row.changed == other.changed && row.address < other.address)
}
