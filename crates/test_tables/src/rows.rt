use kd_rows::{Row, Rows, State};
use kd_wire::Bytes;
use std::alloc::{AllocError, Global};
use std::test::Fail;

// Why a call returns nothing.
#[derive(Clone, Copy, Debug, PartialEq, Eq)]
pub(crate) enum Fault {
    // Out of memory.
    Memory,
    // The rows cannot be a table.
    Rows,
}

impl From<AllocError> for Fault {
    fn from(_fault: AllocError) -> Fault {
        Fault::Memory
    }
}

// A lease: its address, its client, when it was set, when it ends.
pub(crate) type Lease = (u32, &'static [u8], u64, u64);

// The row of a bound lease.
pub(crate) fn row(alloc: Global, lease: Lease) -> Result<Row, AllocError> {
    let (address, client, changed, ends) = lease;
    Ok(Row {
        address,
        client: Bytes::own(Vec::from_slice(alloc, client)?),
        state: State::Bound,
        changed,
        ends,
    })
}

// The rows of leases.
fn list(alloc: Global, leases: &[Lease]) -> Result<Vec<Row>, AllocError> {
    let mut rows = Vec::new(alloc);
    push_rows(alloc, &mut rows, leases)?;
    Ok(rows)
}

// Pushes the rows of leases.
fn push_rows(alloc: Global, rows: &mut Vec<Row>, leases: &[Lease]) -> Result<(), AllocError> {
    for lease in leases {
        rows.push(row(alloc, *lease)?)?;
    }
    Ok(())
}

// The table of leases.
fn table(alloc: Global, leases: &[Lease]) -> Result<Rows, Fault> {
    let rows = list(alloc, leases)?;
    table_of(rows)
}

/// The table of rows.
pub(crate) fn table_of(rows: Vec<Row>) -> Result<Rows, Fault> {
    if Rows::accepts(&rows) {
        Rows::new(rows).map_err(Fault::from)
    } else {
        Err(Fault::Rows)
    }
}

/// Has a table of leases checked.
pub(crate) fn check_table<F: FnOnce(Global, &mut Rows) -> Result<(), Fail>>(
    alloc: Global,
    leases: &[Lease],
    check: F,
) -> Result<(), Fail>
    requires { F.IsAlwaysCallable check }
{
    check_made(alloc, table(alloc, leases), check)?
}

/// Has a value checked, if it was made. Code that holds a table is proved against all its parts; this
/// is proved for any value, and what it calls borrows it.
pub(crate) fn check_made<V: Drop, T, F: FnOnce(Global, &mut V) -> T>(
    alloc: Global,
    made: Result<V, Fault>,
    check: F,
) -> Result<T, Fault>
    requires { F.IsAlwaysCallable check }
{
    match made {
        Ok(mut value) => Ok(check(alloc, &mut value)),
        Err(fault) => Err(fault),
    }
}

// Sets a lease.
pub(crate) fn set(alloc: Global, rows: &mut Rows, lease: Lease) -> Result<(), Fault> {
    let row = row(alloc, lease)?;
    set_row(rows, row)
}

// Sets a row.
pub(crate) fn set_row(rows: &mut Rows, row: Row) -> Result<(), Fault> {
    if !row.is_in_range() || row.changed < rows.latest() {
        return Err(Fault::Rows);
    }
    if rows.prepare(&row)? {
        rows.set(row);
    }
    Ok(())
}

// Fails a test, naming what does not hold.
pub(crate) fn expect(holds: bool, what: &str) -> Result<(), Fail> {
    if holds { Ok(()) } else { Err(what.into()) }
}

// Leases of three clients, one of which has an empty name; the third lease was set last.
pub(crate) const LEASES: [Lease; 5] = [
    (0, b"a", 5, 5),
    (10, b"b", 7, 100),
    (11, b"a", 9, 50),
    (13, b"", 3, 4),
    (0xffff_ffff, b"a", 8, 60),
];

// Lists of leases, and whether each is a table.
const LISTS: [(&[Lease], bool); 9] = [
    (&[], true),
    (&LEASES, true),
    (&[(1, b"a", 5, 5), (1, b"b", 5, 5)], false),
    (&[(2, b"a", 5, 5), (1, b"b", 5, 5)], false),
    (&[(1, b"a", 5, 4)], false),
    (&[(1, b"a", 5, 2_147_483_652)], true),
    (&[(1, b"a", 5, 2_147_483_653)], false),
    (&[(1, b"a", 1_099_511_627_775, 1_099_511_627_775)], true),
    (&[(1, b"a", 1_099_511_627_776, 1_099_511_627_776)], false),
];

#[test]
fn a_table_rises_in_address_and_its_times_are_in_range(rt: HostRuntime) -> Result<(), Fail> {
    for (leases, is_table) in &LISTS {
        assert!(rt; are_table(rt.alloc(), leases)? == *is_table);
    }
    Ok(())
}

// Reports whether the rows of leases are a table.
fn are_table(alloc: Global, leases: &[Lease]) -> Result<bool, AllocError> {
    let rows = list(alloc, leases)?;
    Ok(Rows::accepts(&rows))
}

// An address, the client of its row, and the address of the next row.
const READ: [(u32, Option<&[u8]>, Option<u32>); 7] = [
    (0, Some(b"a"), Some(0)),
    (1, None, Some(10)),
    (11, Some(b"a"), Some(11)),
    (12, None, Some(13)),
    (13, Some(b""), Some(13)),
    (14, None, Some(0xffff_ffff)),
    (0xffff_ffff, Some(b"a"), Some(0xffff_ffff)),
];

// The client of a row.
fn client_of(row: Option<&Row>) -> Option<&[u8]> {
    match row {
        Some(row) => Some(row.client.as_slice()),
        None => None,
    }
}

// The address of a row.
pub(crate) fn address_of(row: Option<&Row>) -> Option<u32> {
    match row {
        Some(row) => Some(row.address),
        None => None,
    }
}

#[test]
fn a_row_is_found_by_its_address(rt: HostRuntime) -> Result<(), Fail> {
    check_table(rt.alloc(), &LEASES, expect_read)
}

// Checks what is found at each address of `READ` and at two indices.
fn expect_read(_: Global, rows: &mut Rows) -> Result<(), Fail> {
    for (address, client, next) in &READ {
        expect(
            client_of(rows.get(*address)) == *client,
            "a row by its address",
        )?;
        expect(
            address_of(rows.next_from(*address)) == *next,
            "the next row from an address",
        )?;
    }
    expect(
        rows.len() == 5 && rows.latest() == 9 && rows.least_end() == 4,
        "the counts of the table",
    )?;
    expect(
        address_of(rows.at(2)) == Some(11) && address_of(rows.at(5)) == None,
        "a row by its index",
    )
}

// A client, an index, and the address at that index among the client's.
const CLIENTS: [(&[u8], usize, Option<u32>); 8] = [
    (b"a", 0, Some(0)),
    (b"a", 1, Some(11)),
    (b"a", 2, Some(0xffff_ffff)),
    (b"a", 3, None),
    (b"b", 0, Some(10)),
    (b"b", 1, None),
    (b"", 0, Some(13)),
    (b"c", 0, None),
];

// A client, the ends of a range, and the client's least address in it.
const NEXT: [(&[u8], u32, u64, Option<u32>); 10] = [
    (b"a", 0, 0xffff_ffff, Some(0)),
    (b"a", 1, 10, None),
    (b"a", 1, 11, Some(11)),
    (b"a", 12, 0xffff_fffe, None),
    (b"a", 12, 0x1_0000_0000, Some(0xffff_ffff)),
    (b"a", 11, 10, None),
    (b"", 0, 12, None),
    (b"", 13, 13, Some(13)),
    (b"b", 11, 0xffff_ffff, None),
    (b"c", 0, 0xffff_ffff, None),
];

// The ends of a range, and the least address in it that has no row.
const GAPS: [(u32, u32, Option<u32>); 8] = [
    (0, 0, None),
    (0, 1, Some(1)),
    (10, 11, None),
    (10, 12, Some(12)),
    (10, 20, Some(12)),
    (13, 13, None),
    (0xffff_fffe, 0xffff_ffff, Some(0xffff_fffe)),
    (0xffff_ffff, 0xffff_ffff, None),
];

#[test]
fn a_row_is_found_by_its_client_and_gaps_are_found(rt: HostRuntime) -> Result<(), Fail> {
    check_table(rt.alloc(), &LEASES, expect_rows_and_gaps)
}

// Checks the rows of clients and the gaps of ranges.
fn expect_rows_and_gaps(_: Global, rows: &mut Rows) -> Result<(), Fail> {
    for (client, i, address) in &CLIENTS {
        expect(
            rows.of_client(client, *i) == *address,
            "a row of a client by its index",
        )?;
    }
    for (client, first, last, address) in &NEXT {
        expect(
            address_of(rows.next_of_client(client, *first, *last)) == *address,
            "the next row of a client",
        )?;
    }
    for row in &GAPS {
        let (first, last, gap) = *row;
        expect(
            first > last || rows.first_gap(first, last) == gap,
            "the first gap of a range",
        )?;
    }
    Ok(())
}

#[test]
fn the_index_follows_a_row_to_another_client(rt: HostRuntime) -> Result<(), Fail> {
    let leases: [Lease; 2] = [(10, b"A", 1, 2), (11, b"B", 1, 2)];
    check_table(rt.alloc(), &leases, expect_move)
}

// Gives the row of client A to client B, and checks the rows of both.
fn expect_move(alloc: Global, rows: &mut Rows) -> Result<(), Fail> {
    set(alloc, rows, (10, b"B", 1, 2))?;
    expect(rows.of_client(b"A", 0) == None, "no row of A")?;
    expect(
        rows.of_client(b"B", 0) == Some(10) && rows.of_client(b"B", 1) == Some(11),
        "two rows of B",
    )?;
    expect(rows.len() == 2, "two rows")
}

// A lease, and whether setting it would change nothing.
const SAME: [(Lease, bool); 5] = [
    ((10, b"b", 7, 100), true),
    ((12, b"b", 7, 100), false),
    ((10, b"", 7, 100), false),
    ((10, b"b", 8, 100), false),
    ((10, b"b", 7, 99), false),
];

#[test]
fn a_row_that_is_there_changes_nothing(rt: HostRuntime) -> Result<(), Fail> {
    check_table(rt.alloc(), &LEASES, expect_same)
}

// Reports whether setting a lease, as a row in a state, would change nothing.
fn is_there(alloc: Global, rows: &Rows, lease: Lease, state: State) -> Result<bool, AllocError> {
    let mut row = row(alloc, lease)?;
    row.state = state;
    Ok(rows.has(&row))
}

// Checks which leases of `SAME` would change nothing, and that another state would.
fn expect_same(alloc: Global, rows: &mut Rows) -> Result<(), Fail> {
    for (lease, changes_nothing) in &SAME {
        let found = is_there(alloc, rows, *lease, State::Bound)?;
        expect(found == *changes_nothing, "a lease that is there, or not")?;
    }
    expect(
        !is_there(alloc, rows, SAME[0].0, State::Released)?,
        "a lease in another state",
    )
}

// The names of ten clients.
const TEN: [&[u8]; 10] = [b"0", b"1", b"2", b"3", b"4", b"5", b"6", b"7", b"8", b"9"];

// Sets the leases of a thousand addresses in mixed order. The client of each has the name of the
// address's last digit.
fn set_thousand(alloc: Global, rows: &mut Rows) -> Result<(), Fault> {
    for i in 0..1000u32 {
        let address = i * 617 % 1000;
        let client = TEN[(address % 10) as usize];
        let ends = u64::from(2000 - address);
        set(alloc, rows, (address, client, 5, ends))?;
    }
    Ok(())
}

// Reports whether every row and every client's rows are in their positions.
fn are_in_order(rows: &Rows) -> bool {
    for i in 0..1000u32 {
        let client = TEN[(i % 10) as usize];
        if address_of(rows.at(i as usize)) != Some(i)
            || rows.of_client(client, (i / 10) as usize) != Some(i)
        {
            return false;
        }
    }
    rows.len() == 1000 && rows.first_gap(0, 2000) == Some(1000)
}

#[test]
fn rows_set_in_mixed_order_stand_in_order(rt: HostRuntime) -> Result<(), Fail> {
    check_table(rt.alloc(), &[], expect_order)
}

// Checks the order of a thousand rows.
fn expect_order(alloc: Global, rows: &mut Rows) -> Result<(), Fail> {
    set_thousand(alloc, rows)?;
    expect(
        are_in_order(rows) && rows.least_end() == 1001,
        "a thousand rows in order",
    )
}

// The ends of a range, a time, and the least address in the range whose row has ended by then.
const ENDED: [(u32, u32, u64, Option<u32>); 10] = [
    (0, 0xffff_ffff, 3, None),
    (0, 0xffff_ffff, 4, Some(13)),
    (0, 0xffff_ffff, 5, Some(0)),
    (1, 20, 49, Some(13)),
    (10, 12, 49, None),
    (10, 12, 50, Some(11)),
    (10, 12, 100, Some(10)),
    (14, 0xffff_ffff, 60, Some(0xffff_ffff)),
    (14, 0xffff_fffe, 60, None),
    (13, 10, 100, None),
];

#[test]
fn a_row_that_has_ended_is_found(rt: HostRuntime) -> Result<(), Fail> {
    check_table(rt.alloc(), &LEASES, expect_ended)
}

// Checks which rows have ended, before and after one is renewed.
fn expect_ended(alloc: Global, rows: &mut Rows) -> Result<(), Fail> {
    for (first, last, moment, address) in &ENDED {
        expect(
            address_of(rows.next_ended(*first, *last, *moment)) == *address,
            "a row that has ended",
        )?;
    }
    set(alloc, rows, (13, b"", 9, 70))?;
    expect(
        address_of(rows.next_ended(1, 20, 49)) == None,
        "no row that has ended",
    )?;
    expect(
        address_of(rows.next_ended(1, 20, 50)) == Some(11),
        "the row that ended then",
    )
}

// Returns the same, by looking at each row.
fn first_ended(rows: &Rows, first: u32, last: u32, moment: u64) -> Option<u32> {
    for i in 0..rows.len() {
        if let Some(row) = rows.at(i) {
            if first <= row.address && row.address <= last && row.ends <= moment {
                return Some(row.address);
            }
        }
    }
    None
}

#[test]
fn a_row_that_has_ended_is_found_among_those_renewed(rt: HostRuntime) -> Result<(), Fail> {
    check_table(rt.alloc(), &[], expect_ended_among_renewed)
}

// Renews a thousand rows in mixed order, and checks after each which row of a range has ended.
fn expect_ended_among_renewed(alloc: Global, rows: &mut Rows) -> Result<(), Fail> {
    set_thousand(alloc, rows)?;
    for i in 0..300u32 {
        let address = i * 347 % 1000;
        let ends = u64::from(1000 + i * 59 % 1500);
        set(alloc, rows, (address, b"0", 6, ends))?;
        let first = i * 211 % 1000;
        let last = first + i % 400;
        let moment = u64::from(1000 + i * 31 % 900);
        let found = address_of(rows.next_ended(first, last, moment));
        expect(
            found == first_ended(rows, first, last, moment),
            "a row that has ended, among those renewed",
        )?;
    }
    Ok(())
}

// Forty clients have prefixes of this as their names, from the empty one to the whole.
const NAMES: &[u8] = b"0123456789abcdefghijklmnopqrstuvwxyzABC";

// Returns the name of the client with a number.
pub(crate) fn name(number: u32) -> &'static [u8] {
    NAMES.get(..(number % 40) as usize).unwrap_or(NAMES)
}

// Sets the leases of 5,000 addresses of forty clients in mixed order, and a thousand of them again
// for another client.
fn set_five_thousand(alloc: Global, rows: &mut Rows) -> Result<(), Fault> {
    for i in 0..6000u32 {
        let address = i * 3571 % 5000 * 3;
        set(alloc, rows, (address, name(i / 7), 5, 2000))?;
    }
    Ok(())
}

// Returns the least address of a client in a range, by looking at each row.
fn first_of(rows: &Rows, client: &[u8], first: u32, last: u64) -> Option<u32> {
    for i in 0..rows.len() {
        if let Some(row) = rows.at(i) {
            let within = first <= row.address && u64::from(row.address) <= last;
            if within && row.client.as_slice() == client {
                return Some(row.address);
            }
        }
    }
    None
}

#[test]
fn a_clients_row_is_found_in_a_range_of_thousands(rt: HostRuntime) -> Result<(), Fail> {
    check_table(rt.alloc(), &[], expect_first_of_clients)
}

// Checks the least address of clients in ranges of those rows.
fn expect_first_of_clients(alloc: Global, rows: &mut Rows) -> Result<(), Fail> {
    set_five_thousand(alloc, rows)?;
    let mut count = 0u32;
    for i in 0..80u32 {
        let first = i * 4129 % 15_000;
        let last = u64::from(first + i * 29 % 300);
        let found = address_of(rows.next_of_client(name(i), first, last));
        expect(
            found == first_of(rows, name(i), first, last),
            "the next row of a client",
        )?;
        if found.is_some() {
            count = count.wrapping_add(1);
        }
    }
    expect(
        rows.len() == 5000 && count > 20 && count < 60,
        "the number of rows, and of searches that found one",
    )
}

// Numbers, and the states that they stand for.
const STATES: [(u8, Option<State>); 6] = [
    (0, None),
    (1, Some(State::Offered)),
    (2, Some(State::Bound)),
    (3, Some(State::Released)),
    (4, Some(State::Declined)),
    (5, None),
];

#[test]
fn states_have_numbers(rt: HostRuntime) -> Result<(), Fail> {
    for row in &STATES {
        let (number, state) = *row;
        assert!(rt; State::of_number(number) == state);
        if let Some(state) = state {
            assert!(rt; state.number() == number);
        }
    }
    Ok(())
}

// Makes a table of one row, sets one more row in it, and returns what is read from it.
fn two(alloc: Global) -> Result<(usize, Option<u32>), Fault> {
    let made = table(alloc, &[(10, b"A", 1, 2)]);
    check_made(alloc, made, set_second)?
}

// Sets one more row in a table, and returns what is read from it.
fn set_second(alloc: Global, rows: &mut Rows) -> Result<(usize, Option<u32>), Fault> {
    set(alloc, rows, (11, b"B", 1, 2))?;
    Ok((rows.len(), rows.of_client(b"B", 0)))
}

// If a memory request is refused, the call reports it; the same calls repeated give the same as
// with enough memory.
#[test]
fn want_of_memory_is_answered_as_such(rt: HostRuntime) -> Result<(), Fail> {
    match two(rt.alloc()) {
        Ok(read) => assert!(rt; read == (2, Some(11))),
        Err(fault) => assert!(rt; fault == Fault::Memory),
    }
    assert!(rt; two(rt.alloc())? == (2, Some(11)));
    Ok(())
}
