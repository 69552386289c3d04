use crate::rows::{Fault, LEASES, check_made, check_table, expect, name, row, set, set_row};
use kd_rows::{Row, Rows, State};
use std::alloc::{AllocError, Global};
use std::test::Fail;

// Returns the addresses of a client's rows in a state, from one address to another, newest first.
fn by_age(
    alloc: Global,
    rows: &Rows,
    client: &[u8],
    state: State,
    first: u32,
    last: u32,
) -> Result<Vec<u32>, AllocError> {
    let mut found = Vec::new(alloc);
    let mut before: Option<&Row> = None;
    for _ in 0..rows.len() {
        match rows.newest_of(client, state, first, last, before) {
            Some(row) => {
                found.push(row.address)?;
                before = Some(row);
            }
            None => return Ok(found),
        }
    }
    Ok(found)
}

// Returns the number of rows of a client in a state, from one address to another.
fn count_of(rows: &Rows, client: &[u8], state: State, first: u32, last: u32) -> usize {
    let mut count = 0usize;
    for i in 0..rows.len() {
        if let Some(row) = rows.at(i) {
            if row.client.as_slice() == client
                && row.state == state
                && first <= row.address
                && row.address <= last
            {
                count = count.wrapping_add(1);
            }
        }
    }
    count
}

// Reports whether these are the addresses of a client's bound rows from one address on, newest
// first.
fn are_newest(
    alloc: Global,
    rows: &Rows,
    client: &[u8],
    first: u32,
    addresses: &[u32],
) -> Result<bool, AllocError> {
    let found = by_age(alloc, rows, client, State::Bound, first, u32::MAX)?;
    Ok(found.as_slice() == addresses)
}

#[test]
fn the_newest_row_of_a_client_is_found(rt: HostRuntime) -> Result<(), Fail> {
    check_table(rt.alloc(), &LEASES, expect_newest)
}

// Checks the order of a client's rows by age, before and after one is renewed.
fn expect_newest(alloc: Global, rows: &mut Rows) -> Result<(), Fail> {
    expect(
        are_newest(alloc, rows, b"a", 0, &[11, 0xffff_ffff, 0])?,
        "the newest row of a client",
    )?;
    set(alloc, rows, (0, b"a", 9, 120))?;
    expect(
        are_newest(alloc, rows, b"a", 0, &[0, 11, 0xffff_ffff])?,
        "the newest row after a renewal",
    )?;
    expect(
        are_newest(alloc, rows, b"a", 1, &[11, 0xffff_ffff])?,
        "the newest row from address 1 on",
    )?;
    expect(
        rows.longest(State::Bound) == 111 && rows.longest(State::Offered) == 0,
        "the longest lease in a state",
    )
}

// Three addresses at which a table is cut.
fn cuts(alloc: Global) -> Result<Vec<u32>, AllocError> {
    Vec::from_slice(alloc, &[151, 50, 90])
}

// Makes a table that is cut at three addresses.
fn cut_table(alloc: Global) -> Result<Rows, Fault> {
    let cuts = cuts(alloc)?;
    Rows::with_cuts(Vec::new(alloc), cuts).map_err(Fault::from)
}

// Sets the rows of five clients in all four states, in mixed order, some of them again.
fn set_mixed(alloc: Global, rows: &mut Rows) -> Result<(), Fault> {
    for i in 0..600u32 {
        set_row(rows, mixed_row(alloc, i)?)?;
    }
    Ok(())
}

// Makes the row with a number.
fn mixed_row(alloc: Global, i: u32) -> Result<Row, AllocError> {
    let changed = u64::from(i / 7);
    let ends = changed.wrapping_add(u64::from(i % 13));
    let address = i.wrapping_mul(37) % 211;
    let mut row = row(alloc, (address, name(i.wrapping_mul(i) % 5), changed, ends))?;
    row.state = match i.wrapping_mul(11) % 4 {
        0 => State::Offered,
        1 => State::Bound,
        2 => State::Released,
        _ => State::Declined,
    };
    Ok(row)
}

// Reports whether each address except the first has a row that is no newer than that of the
// previous one.
fn fall_in_age(rows: &Rows, addresses: &[u32]) -> bool {
    for i in 1..addresses.len() {
        match (rows.get(addresses[i - 1]), rows.get(addresses[i])) {
            (Some(first), Some(second)) => {
                let same = first.changed == second.changed;
                if second.changed > first.changed || (same && second.address <= first.address) {
                    return false;
                }
            }
            _ => return false,
        }
    }
    true
}

#[test]
fn rows_set_in_mixed_order_are_found_by_age(rt: HostRuntime) -> Result<(), Fail> {
    check_made(rt.alloc(), cut_table(rt.alloc()), expect_by_age)?
}

// Checks the rows of each client in each state, in two ranges, of which the first has all rows.
fn expect_by_age(alloc: Global, rows: &mut Rows) -> Result<(), Fail> {
    set_mixed(alloc, rows)?;
    let mut total = 0usize;
    for i in 0..5u32 {
        for number in 1..5u8 {
            if let Some(state) = State::of_number(number) {
                total = total.wrapping_add(count_by_age(
                    alloc,
                    rows,
                    name(i),
                    state,
                    (0, u32::MAX),
                )?);
                count_by_age(alloc, rows, name(i), state, (50, 150))?;
            }
        }
    }
    expect(total == rows.len() && total == 211, "the number of rows")
}

// Checks that all rows of a client in a state and a range are found, newest first, and returns how
// many there are.
fn count_by_age(
    alloc: Global,
    rows: &Rows,
    client: &[u8],
    state: State,
    range: (u32, u32),
) -> Result<usize, Fail> {
    let (first, last) = range;
    let found = by_age(alloc, rows, client, state, first, last)?;
    expect(
        found.len() == count_of(rows, client, state, first, last),
        "the number of rows of a client in a state",
    )?;
    expect(fall_in_age(rows, &found), "the order of rows by age")?;
    Ok(found.len())
}
