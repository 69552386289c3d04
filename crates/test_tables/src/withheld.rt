// A table with withheld addresses, against a simple list of what is at each address.

use crate::rows::{Fault, Lease, address_of, check_made, expect, name, row, table_of};
use kd_rows::{Row, Rows, Withheld};
use std::alloc::{AllocError, Global};
use std::test::Fail;

// An address, the end of its row, if it has one, and whether it is withheld.
#[derive(Clone, Copy)]
struct Place {
    address: u32,
    ends: Option<u64>,
    is_withheld: bool,
}

// The number of addresses in a large list.
const MANY: u32 = 500_000;

// The number in a small one.
const FEW: u32 = 1500;

// Reports whether an address has a row at first: of the lower ones all except each ninth, then each
// hundredth.
fn has_row(address: u32) -> bool {
    if address < 4500 {
        address % 9 != 8
    } else {
        address % 100 == 0
    }
}

// Reports whether an address is withheld: the first gaps among the rows, two hundred addresses in a
// row, and single ones with and without rows, some of them after the last row.
fn is_withheld(address: u32) -> bool {
    (address < 200 && address % 9 == 8)
        || (4400 <= address && address < 4600)
        || address % 2500 == 20
        || address % 2500 == 2400
        || address > MANY - 8
}

// Returns what is at the first addresses. Those from `end` on have no rows.
fn list(alloc: Global, count: u32, end: u32) -> Result<Vec<Place>, AllocError> {
    let mut places = Vec::new(alloc);
    for address in 0..count {
        let ends = 1000 + u64::from(address.wrapping_mul(7919) % 5000);
        places.push(Place {
            address,
            ends: if has_row(address) && address < end {
                Some(ends)
            } else {
                None
            },
            is_withheld: is_withheld(address),
        })?;
    }
    Ok(places)
}

// Returns the withheld addresses of a list in descending order, each twice.
fn withheld_in(alloc: Global, places: &[Place]) -> Result<Vec<u32>, AllocError> {
    let mut withheld = Vec::new(alloc);
    for place in places {
        if place.is_withheld {
            withheld.push(place.address)?;
            withheld.push(place.address)?;
        }
    }
    withheld.reverse();
    Ok(withheld)
}

// The rows of a list.
fn rows_in(alloc: Global, places: &[Place]) -> Result<Vec<Row>, AllocError> {
    let mut rows = Vec::new(alloc);
    push_rows(alloc, &mut rows, places)?;
    Ok(rows)
}

// Pushes the rows of a list.
fn push_rows(alloc: Global, rows: &mut Vec<Row>, places: &[Place]) -> Result<(), AllocError> {
    for place in places {
        if let Some(ends) = place.ends {
            rows.push(row(alloc, (place.address, name(place.address), 5, ends))?)?;
        }
    }
    Ok(())
}

// The table of the rows of a list.
fn table_in(alloc: Global, places: &[Place]) -> Result<Rows, Fault> {
    let rows = rows_in(alloc, places)?;
    table_of(rows)
}

// The table of a list, with its withheld addresses.
fn withholding(alloc: Global, places: &[Place]) -> Result<Withheld, Fault> {
    let withheld = withheld_in(alloc, places)?;
    let rows = table_in(alloc, places)?;
    Withheld::new(rows, withheld).map_err(Fault::from)
}

// Returns what is at an address; after the end of the list, nothing.
fn at(places: &[Place], address: u32) -> Place {
    match places.get(address as usize) {
        Some(place) => *place,
        None => Place {
            address,
            ends: None,
            is_withheld: false,
        },
    }
}

// The least address in a range that has no row and is not withheld.
fn least_free(places: &[Place], first: u32, last: u32) -> Option<u32> {
    for address in first..=last {
        let place = at(places, address);
        if place.ends.is_none() && !place.is_withheld {
            return Some(address);
        }
    }
    None
}

// Returns the least address in a range that is not withheld and whose row has ended by a time.
fn least_ended(places: &[Place], first: u32, last: u32, moment: u64) -> Option<u32> {
    for address in first..=last {
        let place = at(places, address);
        if place.ends.unwrap_or(u64::MAX) <= moment && !place.is_withheld {
            return Some(address);
        }
    }
    None
}

// Reports whether free addresses and rows that have ended are found as the list says, from an
// address on, as far as the span goes.
fn is_searched(table: &Withheld, places: &[Place], first: u32, span: u32, moment: u64) -> bool {
    let last = first.saturating_add(span);
    let ended = table.next_ended(first, last, moment);
    table.first_free(first, last) == least_free(places, first, last)
        && address_of(ended) == least_ended(places, first, last, moment)
}

// Reports the same from addresses among all, among the lower ones, among the first, from those at
// which rows are set, and near the last.
fn are_searched(table: &Withheld, places: &[Place]) -> bool {
    for i in 0..500u32 {
        let moment = u64::from(990 + i * 31 % 500);
        if !is_searched(table, places, i * 4129 % MANY, i * 13 % 3000, moment)
            || !is_searched(table, places, i * 617 % 4800, i % 250, moment)
            || !is_searched(table, places, i % 200, i % 30, moment)
            || !is_searched(table, places, changed_at(i), i % 20, moment)
            || !is_searched(table, places, MANY - 50 + i % 60, i % 20, moment)
        {
            return false;
        }
    }
    true
}

// The table has the rows of the list.
fn are_rows(table: &Withheld, places: &[Place]) -> bool {
    for place in places {
        let ends = match table.rows().get(place.address) {
            Some(row) => Some(row.ends),
            None => None,
        };
        if ends != place.ends {
            return false;
        }
    }
    true
}

// Sets a lease in the table.
fn set(alloc: Global, table: &mut Withheld, lease: Lease) -> Result<(), Fault> {
    let row = row(alloc, lease)?;
    if !row.is_in_range() || row.changed < table.rows().latest() {
        return Err(Fault::Rows);
    }
    if table.prepare(&row)? {
        table.set(row);
    }
    Ok(())
}

// Gives an address of the list another end.
fn put(places: &mut Vec<Place>, address: u32, ends: u64) {
    let place = address as usize;
    if place < places.len() {
        places[place].ends = Some(ends);
    }
}

// Returns the address at which a row is set: a gap among the lower ones, a withheld one, with or
// without a row, or any.
fn changed_at(i: u32) -> u32 {
    let number = i / 4 % 125;
    match i % 4 {
        0 => number * 9 + 8,
        1 => number * 2500 + 20,
        2 => number * 2500 + 2400,
        _ => i.wrapping_mul(6007) % MANY,
    }
}

// Sets rows in the table and in the list.
fn change(alloc: Global, table: &mut Withheld, places: &mut Vec<Place>) -> Result<(), Fault> {
    for i in 0..500u32 {
        let address = changed_at(i);
        let ends = u64::from(1000 + i * 59 % 1500);
        set(alloc, table, (address, name(i), 6, ends))?;
        put(places, address, ends);
    }
    Ok(())
}

#[test]
fn withheld_addresses_are_passed_over(rt: HostRuntime) -> Result<(), Fail> {
    let mut places = list(rt.alloc(), MANY, MANY - 1000)?;
    expect_all(rt.alloc(), &mut places)
}

// Checks the table of a list before and after rows are set.
fn expect_all(alloc: Global, places: &mut Vec<Place>) -> Result<(), Fail> {
    let made = withholding(alloc, places);
    check_made(
        alloc,
        made,
        |alloc, table| expect_same(alloc, table, places),
    )?
}

// Checks the table before and after rows are set.
fn expect_same(alloc: Global, table: &mut Withheld, places: &mut Vec<Place>) -> Result<(), Fail> {
    expect(are_searched(table, places), "searches before rows are set")?;
    let changed = change(alloc, table, places);
    expect(changed == Ok(()), "setting rows")?;
    expect(
        are_rows(table, places) && are_searched(table, places),
        "searches after rows are set",
    )
}

// The table has the rows of the list, and is searched as it says.
fn is_same(table: &Withheld, places: &[Place]) -> bool {
    for first in 0..FEW {
        if !is_searched(table, places, first, 40, u64::from(1000 + first)) {
            return false;
        }
    }
    are_rows(table, places)
}

// Makes the table of a list, or reports out of memory if a request is refused.
fn is_made(alloc: Global, places: &[Place]) -> bool {
    let made = withholding(alloc, places);
    let found = check_made(alloc, made, |_, table| is_same(table, places));
    found == Ok(true) || found == Err(Fault::Memory)
}

// Sets a row in the table and in the list. If memory is refused the rows stay as they were, and the
// same call repeated sets the row.
fn is_set(alloc: Global, table: &mut Withheld, places: &mut Vec<Place>, lease: Lease) -> bool {
    let was_set = match set(alloc, table, lease) {
        Ok(()) => true,
        Err(Fault::Memory) => is_same(table, places) && set(alloc, table, lease) == Ok(()),
        Err(Fault::Rows) => false,
    };
    put(places, lease.0, lease.3);
    was_set && is_same(table, places)
}

// Sets some rows, one after another.
fn are_set(alloc: Global, table: &mut Withheld, places: &mut Vec<Place>) -> bool {
    for i in 0..80u32 {
        let lease = (i * 617 % FEW, name(i), 6, u64::from(1000 + i * 59 % 1500));
        if !is_set(alloc, table, places, lease) {
            return false;
        }
    }
    true
}

// If a memory request is refused, the call reports it and the rows stay as they were; the same
// calls repeated give the same as with enough memory. One table has no rows at first.
#[test]
fn want_of_memory_is_answered_as_such(rt: HostRuntime) -> Result<(), Fail> {
    for end in &[0, 40] {
        expect_few(rt.alloc(), *end)?;
    }
    Ok(())
}

// Checks the table of few addresses, of which those from `end` on have no rows at first.
fn expect_few(alloc: Global, end: u32) -> Result<(), Fail> {
    let mut places = list(alloc, FEW, end)?;
    expect_made_and_set(alloc, &mut places)
}

// Makes a table, and makes it again and sets rows in it.
fn expect_made_and_set(alloc: Global, places: &mut Vec<Place>) -> Result<(), Fail> {
    expect(is_made(alloc, places), "making a table")?;
    let made = withholding(alloc, places);
    let was_set = check_made(alloc, made, |alloc, table| are_set(alloc, table, places))?;
    expect(was_set, "setting rows one after another")
}
