ghost use Rattle.std.specs.Prelude.{◌≤◌};

// A table that grows row by row, over three tiers of 4,096 numbers.

use crate::rows::{Fault, address_of, check_table, expect, name, set};
use kd_rows::{Row, Rows};
use std::alloc::Global;
use std::test::Fail;

// How many rows there are, of forty clients.
const COUNT: u32 = 10_000;

// Returns the address of the row with a number. Each ninth address has none.
fn place_of(number: u32) -> u32 {
    number.wrapping_add(number / 8)
}

// Returns the time at which it ends.
fn end_of(number: u32) -> u64 {
    1000 + u64::from(number.wrapping_mul(7919) % 5000)
}

// Sets the rows in mixed order.
fn set_all(alloc: Global, rows: &mut Rows) -> Result<(), Fault> {
    for i in 0..COUNT {
        let number = i * 6007 % COUNT;
        let lease = (place_of(number), name(number), 5, end_of(number));
        set(alloc, rows, lease)?;
    }
    Ok(())
}

// Reports whether a row is the one with a number.
fn is_row(row: Option<&Row>, number: u32) -> bool {
    match row {
        Some(row) => {
            row.address == place_of(number)
                && row.client.as_slice() == name(number)
                && row.ends == end_of(number)
        }
        None => false,
    }
}

// Reports whether every row is found by its index, by its address, and by its position among those
// of its client.
fn are_found(rows: &Rows) -> bool {
    for number in 0..COUNT {
        let place = place_of(number);
        if !is_row(rows.at(number as usize), number)
            || !is_row(rows.get(place), number)
            || rows.of_client(name(number), (number / 40) as usize) != Some(place)
        {
            return false;
        }
    }
    rows.len() == COUNT as usize && rows.of_client(name(0), (COUNT / 40) as usize) == None
}

// Returns the least address in a range of a row of a client, given by its number, that ends by a
// time.
fn least(client: Option<u32>, first: u32, last: u32, moment: u64) -> Option<u32> {
    for number in 0..COUNT {
        let place = place_of(number);
        let is_its = match client {
            Some(client) => number % 40 == client,
            None => true,
        };
        if is_its && first <= place && place <= last && end_of(number) <= moment {
            return Some(place);
        }
    }
    None
}

// The least address in a range that has no row.
fn least_gap(first: u32, last: u32) -> Option<u32> {
    for address in first..=last {
        if address % 9 == 8 || address > place_of(COUNT - 1) {
            return Some(address);
        }
    }
    None
}

// Reports whether rows of clients, rows that have ended and gaps in a range are found as the
// numbers say.
fn is_searched(rows: &Rows, first: u32, last: u32) -> bool
    requires { first ≤ last }
{
    let client = first % 40;
    let moment = 1000 + u64::from(last % 100);
    let next = rows.next_of_client(name(client), first, u64::from(last));
    address_of(next) == least(Some(client), first, last, u64::MAX)
        && address_of(rows.next_ended(first, last, moment)) == least(None, first, last, moment)
        && rows.first_gap(first, last) == least_gap(first, last)
}

#[test]
fn a_table_grows_over_several_tiers(rt: HostRuntime) -> Result<(), Fail> {
    check_table(rt.alloc(), &[], expect_found)
}

// Checks that rows are found, and searches of 300 ranges.
fn expect_found(alloc: Global, rows: &mut Rows) -> Result<(), Fail> {
    set_all(alloc, rows)?;
    expect(are_found(rows), "rows by index, address and client")?;
    for i in 0..300u32 {
        let first = i * 4129 % 11_400;
        expect(
            is_searched(rows, first, first + i % 100),
            "searches of a range",
        )?;
    }
    Ok(())
}
