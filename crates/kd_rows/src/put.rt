ghost use Rattle.std.specs.Prelude.{◌≡◌, ◌+◌, ◌-◌, ◌<◌, None, is_some, if◌then◌else◌, nat_lt};
ghost use Rattle.kd_rows.specs.Index.{IsRowPlace, IsIndex, Moves, age_at, age_of, client_of, key_at};
ghost use Rattle.kd_rows.specs.Table.{Rise, row_at, with_row};

use crate::age::{age_in, age_place, is_before_those_after, is_past_those_before};
use crate::find::find;
use crate::index::key_place;
use crate::row::Row;
use crate::sorted::Sorted;

// Sets a row: replaces the row at its address, or inserts it where its address belongs.
pub(crate) fn put_row(rows: &mut Sorted, row: Row)
    requires rise { Rise rows.old.rows }
    requires indexed { IsIndex client_of rows.old.rows rows.old.index }
    requires aged { IsIndex (age_of rows.old.cuts) rows.old.rows rows.old.ages }
    requires room { row_at rows.old.rows row.address ≡ None → 0 < rows.old.room }
    ensures rows { rows.new.rows ≡ with_row row rows.old.rows }
    ensures indexed { IsIndex client_of rows.new.rows rows.new.index }
    ensures aged { IsIndex (age_of rows.new.cuts) rows.new.rows rows.new.ages }
    ensures room { rows.new.room + (if is_some (row_at rows.old.rows row.address) then 0 else 1)
        ≡ rows.old.room }
{
    match find(rows, row.address) {
        Some(place) => {
            give_age(rows, place, &row);
            if rows.row(place).client.as_slice() == row.client.as_slice() {
                rows.replace(place, row);
            } else {
                give_client(rows, place, row.client.as_slice(), row.address);
                rows.replace(place, row);
            }
        }
        None => {
            let key = key_place(rows, row.client.as_slice(), row.address);
            let age = age_place(rows, &age_in(rows.zones(), &row));
            rows.insert_row(key, age, row);
        }
    }
}

// Moves the address of a row to the place in the client index that it has under another client.
fn give_client(rows: &mut Sorted, place: usize, client: &[u8], address: u32)
    requires indexed { IsIndex client_of rows.old.rows rows.old.index }
    requires at { IsRowPlace rows.old.rows address place }
    ensures rows { rows.new.rows ≡ rows.old.rows }
    ensures moved { Moves (key_at rows.old.rows) rows.old.index
        (client.now, address) rows.new.index }
    ensures ages { rows.new.ages ≡ rows.old.ages }
    ensures cuts { rows.new.cuts ≡ rows.old.cuts }
    ensures room { rows.new.room ≡ rows.old.room }
{
    let from = key_place(rows, rows.row(place).client.as_slice(), address);
    let to = place_without(from, key_place(rows, client, address));
    rows.move_key(from, to);
}

// Moves the address of a row to the place in the age index that it has with the new row. It stays
// in place if the new key is still between those of its neighbours, as it is for a client's only
// row.
fn give_age(rows: &mut Sorted, place: usize, row: &Row)
    requires aged { IsIndex (age_of rows.old.cuts) rows.old.rows rows.old.ages }
    requires at { IsRowPlace rows.old.rows row.now.address place }
    ensures rows { rows.new.rows ≡ rows.old.rows }
    ensures index { rows.new.index ≡ rows.old.index }
    ensures moved { Moves (age_at rows.old.cuts rows.old.rows) rows.old.ages
        (age_of rows.old.cuts row.now, row.now.address) rows.new.ages }
    ensures cuts { rows.new.cuts ≡ rows.old.cuts }
    ensures room { rows.new.room ≡ rows.old.room }
{
    let from = age_place(rows, &age_in(rows.zones(), rows.row(place)));
    let age = age_in(rows.zones(), row);
    if is_past_those_before(rows, from, &age) && is_before_those_after(rows, from, &age) {
        return;
    }
    let to = place_without(from, age_place(rows, &age));
    rows.move_age(from, to);
}

// Returns what an index becomes after the element at `from` is removed.
fn place_without(from: usize, place: usize) -> usize
    ensures { result ≡ (if nat_lt from place then place - 1 else place) }
{
    if from < place { place - 1 } else { place }
}
