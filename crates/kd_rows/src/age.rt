ghost use Rattle.std.specs.Prelude.{◌≡◌, ℕ, ◌+◌, ◌-◌, ◌<◌, ◌^◌, IsTrue, List, Option, length, slice_index};
ghost use Rattle.std.specs.List.{All};
ghost use Rattle.std.specs.Option.{option_copied};
ghost use Rattle.std.specs.Ordering.{is_lt};
ghost use Rattle.kd_rows.specs.Heads.{IsHead};
ghost use Rattle.kd_rows.specs.Index.{IsIndex, IsKeyPlace, Rises, age_at, age_of, key_order};
ghost use Rattle.kd_rows.specs.Ages.{AreBelow, AreNotBelow, IsAgeStart, is_between, is_of_place, key_of_age};
ghost use Rattle.kd_rows.specs.Row.{IsInRange};
ghost use Rattle.kd_rows.specs.Table.{IsNewestRow};
ghost use Rattle.kd_rows.specs.Zones.{is_in_group};
ghost use Rattle.kd_rows.specs.declared.row.Row.{Row as RowOf};

use crate::heads::head_of;
use crate::row::Row;
use crate::search::first_past;
use crate::sorted::Sorted;
use crate::zones::Zones;

// A position in the age order: by client, then by state and zone, then the row set later first,
// then by address.
#[derive(Clone, Copy)]
pub(crate) struct Age<'a> {
    pub(crate) client: &'a [u8],
    // A state and a zone as one number.
    pub(crate) group: u64,
    // The seconds from the time at which a row was set to the greatest time, 2^64 - 1.
    pub(crate) left: u64,
    // An address, or the number after the last address.
    pub(crate) address: u64,
}

// Returns the number of seconds from a time to the greatest time, 2^64 - 1.
pub(crate) fn left_after(moment: u64) -> u64
    ensures { result ≡ 2 ^ 64 - 1 - moment }
{
    u64::MAX - moment
}

// Returns a row's position in the age order.
pub(crate) fn age_in<'a>(zones: &Zones, row: &'a Row) -> Age<'a>
    ensures { key_of_age result ≡ (age_of zones.now row.now, row.now.address) }
{
    Age {
        client: row.client.as_slice(),
        group: zones.group(row),
        left: left_after(row.changed),
        address: u64::from(row.address),
    }
}

// Returns the position at which the rows of a client and a group begin in the age order: all of
// them, or those after another row.
pub(crate) fn start_of<'a>(client: &'a [u8], group: u64, before: Option<&Row>) -> Age<'a>
    ensures { IsAgeStart client.now group (option_copied before.entry) result }
{
    match before {
        Some(row) => Age {
            client,
            group,
            left: left_after(row.changed),
            address: u64::from(row.address) + 1,
        },
        None => Age {
            client,
            group,
            left: 0,
            address: 0,
        },
    }
}

// Whether a row comes before a position.
fn comes_before(zones: &Zones, row: &Row, place: &Age) -> bool
    ensures { result
        ≡ is_lt (key_order (age_of zones.now row.now, row.now.address) (key_of_age place.now)) }
{
    let client = row.client.as_slice().cmp(place.client);
    let left = left_after(row.changed).cmp(&place.left);
    let age = zones.group(row).cmp(&place.group).then(left);
    let address = u64::from(row.address).cmp(&place.address);
    client.then(age).then(address).is_lt()
}

// Whether the `i`-th row of the age index comes before a position whose client has this head.
fn is_before(rows: &Sorted, i: usize, head: u64, place: &Age) -> bool
    requires place { i < length rows.now.ages }
    requires head { IsHead place.now.client.now head }
    ensures { result
        ≡ is_lt (key_order (age_at rows.now.cuts rows.now.rows (slice_index rows.now.ages i))
        (key_of_age place.now)) }
{
    let other = rows.head_by_age(i);
    if other != head {
        return other < head;
    }
    comes_before(rows.zones(), rows.row_by_age(i), place)
}

// Returns the index of a position in the age index: the rows of the addresses before this index
// come before the position.
pub(crate) fn age_place(rows: &Sorted, place: &Age) -> usize
    requires { Rises (age_at rows.now.cuts rows.now.rows) rows.now.ages }
    ensures { IsKeyPlace (age_at rows.now.cuts rows.now.rows) rows.now.ages
        (key_of_age place.now) result }
{
    let head = head_of(place.client);
    first_past(0, rows.ages_len(), |i| is_before(rows, i, head, place))
}

// Whether a key comes after the keys before an index of the age index.
pub(crate) fn is_past_those_before(rows: &Sorted, place: usize, age: &Age) -> bool
    requires rises { Rises (age_at rows.now.cuts rows.now.rows) rows.now.ages }
    requires place { place < length rows.now.ages }
    ensures { IsTrue result → AreBelow (age_at rows.now.cuts rows.now.rows) rows.now.ages place
        (key_of_age age.now) }
{
    if place == 0 {
        return true;
    }
    is_before(rows, place - 1, head_of(age.client), age)
}

// Whether a key comes before the keys after an index of the age index.
pub(crate) fn is_before_those_after(rows: &Sorted, place: usize, age: &Age) -> bool
    requires rises { Rises (age_at rows.now.cuts rows.now.rows) rows.now.ages }
    requires place { place < length rows.now.ages }
    ensures { IsTrue result → AreNotBelow (age_at rows.now.cuts rows.now.rows) rows.now.ages
        (place + 1) (key_of_age age.now) }
{
    if place == rows.ages_len() - 1 {
        return true;
    }
    !is_before(rows, place + 1, head_of(age.client), age)
}

// Whether a row belongs to the client and the group of a position.
fn is_of(zones: &Zones, row: &Row, place: &Age) -> bool
    ensures { result ≡ is_of_place zones.now place.now row.now }
{
    row.client.as_slice() == place.client && zones.group(row) == place.group
}

// Whether a row's address is from `first` to `last`.
fn is_from_to(row: &Row, first: u32, last: u32) -> bool
    ensures { result ≡ is_between first last row.now }
{
    first <= row.address && row.address <= last
}

// Returns the newest row from `first` to `last` among the rows that begin at a position: the first
// of them in that range.
pub(crate) fn newest_from<'a>(
    rows: &'a Sorted,
    from: &Age,
    first: u32,
    last: u32,
) -> Option<&'a Row>
    requires aged { IsIndex (age_of rows.now.cuts) rows.now.rows rows.now.ages }
    requires ranges { All IsInRange rows.now.rows }
    ensures { (client : List ℕ) (group : ℕ) (before : Option RowOf)
        → IsAgeStart client group before from.now
        → IsNewestRow rows.now.rows (is_in_group rows.now.cuts client group first last before)
        (option_copied result) }
{
    let start = age_place(rows, from);
    for place in start..rows.ages_len() {
        let row = rows.row_by_age(place);
        if !is_of(rows.zones(), row, from) {
            return None;
        }
        if is_from_to(row, first, last) {
            return Some(row);
        }
    }
    None
}
