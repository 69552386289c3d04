ghost use Rattle.std.specs.Prelude.{◌≡◌, ◌<◌, ◌≤◌, ℕ, ◌&&◌, ◌==◌, IfOk, is_some, length, not, slice_index_or};
ghost use Rattle.kd_rows.specs.Index.{IsPlace};
ghost use Rattle.kd_rows.specs.Open.{AreBare, address_row, address_rows};
ghost use Rattle.kd_rows.specs.Table.{IsFirstGap, Rise, row_at};
ghost use Rattle.kd_rows.specs.Withheld.{is_withheld};

use crate::find::find;
use crate::search::first_past;
use crate::sorted::Sorted;
use std::alloc::AllocError;

// Returns the addresses in ascending order, each once.
pub(crate) fn in_order(addresses: Vec<u32>) -> Vec<u32>
    ensures rise { Rise (address_rows result.items) }
    ensures same { (a : ℕ) → is_withheld result.items a ≡ is_withheld addresses.items a }
{
    let mut addresses = addresses;
    addresses.sort_unstable();
    addresses.dedup();
    addresses
}

// Returns the address at an index.
pub(crate) fn at(addresses: &[u32], place: usize) -> u32
    requires { place < length addresses.now }
    ensures { address_row result
        ≡ slice_index_or (address_rows addresses.now) place (address_row result) }
{
    addresses[place]
}

// Returns the index of the first address that is this one or above it.
pub(crate) fn place_in(addresses: &[u32], address: u32) -> usize
    requires { Rise (address_rows addresses.now) }
    ensures { IsPlace (address_rows addresses.now) address result }
{
    addresses.partition_point(|other| *other < address)
}

// Whether an address is one of them.
pub(crate) fn is_among(addresses: &[u32], address: u32) -> bool
    requires { Rise (address_rows addresses.now) }
    ensures { result ≡ is_withheld addresses.now address }
{
    let place = place_in(addresses, address);
    place < addresses.len() && at(addresses, place) == address
}

// Returns the lowest address from `first` to `last` that is not one of them; this is the first gap
// among rows at these addresses.
pub(crate) fn first_outside(addresses: &[u32], first: u32, last: u32) -> Option<u32>
    requires rise { Rise (address_rows addresses.now) }
    requires order { first ≤ last }
    ensures { IsFirstGap (address_rows addresses.now) first last result }
{
    let start = place_in(addresses, first);
    let end = first_past(start, addresses.len(), |place| {
        (at(addresses, place) - first) as usize == place - start
    });
    let run = end - start;
    if run <= (last - first) as usize {
        Some(first + run as u32)
    } else {
        None
    }
}

// Returns those of the addresses that have no row.
pub(crate) fn without_rows(addresses: &Vec<u32>, rows: &Sorted) -> Result<Vec<u32>, AllocError>
    requires rise { Rise (address_rows addresses.now.items) }
    requires rows { Rise rows.now.rows }
    ensures rise { IfOk result (λ bare. Rise (address_rows bare.items)) }
    ensures bare { IfOk result (λ bare. AreBare rows.now.rows addresses.now.items bare.items) }
{
    let mut bare = Vec::new(*addresses.allocator());
    for i in 0..addresses.len() {
        match find(rows, addresses[i]) {
            Some(_) => {}
            None => bare.push(addresses[i])?,
        }
    }
    Ok(bare)
}

// Removes an address if it is one of them.
pub(crate) fn take_out(addresses: &mut Vec<u32>, address: u32)
    requires { Rise (address_rows addresses.old.items) }
    ensures rise { Rise (address_rows addresses.new.items) }
    ensures others { (a : ℕ) → is_withheld addresses.new.items a
        ≡ (not (address == a) && is_withheld addresses.old.items a) }
{
    let place = place_in(addresses.as_slice(), address);
    if place < addresses.len() && addresses[place] == address {
        addresses.remove(place);
    }
}
