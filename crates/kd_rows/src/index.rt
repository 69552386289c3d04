ghost use Rattle.std.specs.Prelude.{◌≡◌, ◌<◌, length, slice_get, slice_index};
ghost use Rattle.std.specs.Option.{option_copied};
ghost use Rattle.std.specs.Ordering.{is_lt};
ghost use Rattle.kd_rows.specs.Heads.{IsHead};
ghost use Rattle.kd_rows.specs.Index.{IsIndex, IsKeyPlace, Rises, client_of, key_at, key_order};
ghost use Rattle.kd_rows.specs.Table.{IsNextOf, Rise, addresses_of};

use crate::heads::head_of;
use crate::row::Row;
use crate::search::first_past;
use crate::sorted::Sorted;
use std::cmp::Ordering;

// Whether one key comes before another: by client, then by address.
fn is_below(c: &[u8], a: u32, d: &[u8], b: u32) -> bool
    ensures { result ≡ is_lt (key_order (c.now, a) (d.now, b)) }
{
    match c.cmp(d) {
        Ordering::Less => true,
        Ordering::Equal => a < b,
        Ordering::Greater => false,
    }
}

// Whether the key at an index of the client index comes before another, whose client has this head.
fn is_before(rows: &Sorted, i: usize, head: u64, key: (&[u8], u32)) -> bool
    requires place { i < length rows.now.index }
    requires head { IsHead key.0.now head }
    ensures { result ≡ is_lt (key_order (key_at rows.now.rows (slice_index rows.now.index i))
        (key.entry.0.now, key.entry.1)) }
{
    let other = rows.head_by_client(i);
    if other != head {
        return other < head;
    }
    let row = rows.row_by_client(i);
    is_below(row.client.as_slice(), row.address, key.0, key.1)
}

// Returns the index of a key: the addresses before it have keys that come before.
pub(crate) fn key_place(rows: &Sorted, client: &[u8], address: u32) -> usize
    requires { Rises (key_at rows.now.rows) rows.now.index }
    ensures { IsKeyPlace (key_at rows.now.rows) rows.now.index (client.now, address) result }
{
    let head = head_of(client);
    first_past(
        0,
        rows.index_len(),
        |i| is_before(rows, i, head, (client, address)),
    )
}

// Returns the `i`-th of a client's addresses, if it has that many.
pub(crate) fn nth_of(rows: &Sorted, client: &[u8], i: usize) -> Option<u32>
    requires rise { Rise rows.now.rows }
    requires indexed { IsIndex client_of rows.now.rows rows.now.index }
    ensures { result ≡ slice_get (addresses_of client.now rows.now.rows) i }
{
    let start = key_place(rows, client, 0);
    if i >= rows.index_len() - start {
        return None;
    }
    let row = rows.row_by_client(start + i);
    if row.client.as_slice() == client {
        Some(row.address)
    } else {
        None
    }
}

// Returns the client's row with the lowest address from `first` to `last`. If there is one, it is
// at the index of the key of `first`.
pub(crate) fn next_of<'a>(rows: &'a Sorted, client: &[u8], first: u32, last: u64) -> Option<&'a Row>
    requires { IsIndex client_of rows.now.rows rows.now.index }
    ensures { IsNextOf rows.now.rows client.now first last (option_copied result) }
{
    let place = key_place(rows, client, first);
    if place == rows.index_len() {
        return None;
    }
    let row = rows.row_by_client(place);
    if row.client.as_slice() == client && u64::from(row.address) <= last {
        Some(row)
    } else {
        None
    }
}
