ghost use Rattle.std.specs.Prelude.{◌≡◌, None};
ghost use Rattle.kd_rows.specs.Row.{IsInRange};

use crate::leases::{Lease, are_rows_of, row};
use kd_keeps::{Cause, Keeps, StoreFault};
use kd_rows::{Row, Rows, State};
use kd_store::Store;
use sqlite::{Connection, MemStore};
use std::alloc::{AllocError, Global};
use std::test::Fail;

// Opens the store over a connection.
fn opened(alloc: Global, conn: Connection<MemStore>) -> Result<Store<MemStore>, Fail> {
    if !conn.is_autocommit() {
        return Err("the connection is in a transaction".into());
    }
    match Store::open(alloc, conn) {
        Ok(store) => Ok(store),
        Err((fault, _)) => Err(fault.into()),
    }
}

// Sets a lease.
fn put(alloc: Global, store: &mut Store<MemStore>, lease: Lease) -> Result<(), Fail> {
    let row = row(alloc, lease)?;
    if store.failed() || !row.is_in_range() {
        return Err("the store has failed, or the row is out of range".into());
    }
    store.put(&row)?;
    Ok(())
}

// Sets the leases, one after the other.
fn put_all(alloc: Global, store: &mut Store<MemStore>, leases: &[Lease]) -> Result<(), Fail> {
    for lease in leases {
        put(alloc, store, *lease)?;
    }
    Ok(())
}

// Reports whether the store has not failed, and holds exactly the rows of the leases.
fn holds(store: &mut Store<MemStore>, leases: &[Lease]) -> Result<bool, Fail> {
    if store.failed() {
        return Ok(false);
    }
    let rows = store.rows()?;
    Ok(!store.failed() && are_rows_of(rows.as_slice(), leases))
}

// Leases in mixed order, with the limits of all ranges; address 7 occurs twice.
const PUT: [Lease; 6] = [
    (7, b"a", State::Offered, 5, 5),
    (0xffff_ffff, b"b", State::Bound, 9, 2_147_483_656),
    (0, b"", State::Declined, 0, 0),
    (8, b"a'", State::Bound, 1_099_511_627_775, 1_101_659_111_422),
    (0x8000_0000, b"a", State::Offered, 6, 7),
    (7, b"c", State::Released, 4, 60),
];

// The same in ascending order of address, one for each address.
const KEPT: [Lease; 5] = [
    (0, b"", State::Declined, 0, 0),
    (7, b"c", State::Released, 4, 60),
    (8, b"a'", State::Bound, 1_099_511_627_775, 1_101_659_111_422),
    (0x8000_0000, b"a", State::Offered, 6, 7),
    (0xffff_ffff, b"b", State::Bound, 9, 2_147_483_656),
];

// Checks that a new store is empty, and reports whether it holds what is put.
fn keeps_what_is_put(alloc: Global, store: &mut Store<MemStore>) -> Result<bool, Fail> {
    if !holds(store, &[])? {
        return Err("a new store is not empty".into());
    }
    put_all(alloc, store, &PUT)?;
    holds(store, &KEPT)
}

// Reports whether the store over a connection holds exactly the rows of the leases.
fn holds_over(alloc: Global, conn: Connection<MemStore>, leases: &[Lease]) -> Result<bool, Fail> {
    let mut store = opened(alloc, conn)?;
    let found = holds(&mut store, leases);
    let _conn = store.close();
    found
}

// Does so in a new store. Returns that, and whether a second store over its connection holds what
// was put.
fn keeps_and_finds(alloc: Global) -> Result<(bool, bool), Fail> {
    let mut store = opened(alloc, Connection::open_in_memory(alloc)?)?;
    let kept = keeps_what_is_put(alloc, &mut store);
    let conn = store.close();
    Ok((kept?, holds_over(alloc, conn, &KEPT)?))
}

#[test]
fn rows_are_kept_in_rising_address_and_found_again(rt: HostRuntime) -> Result<(), Fail> {
    let (kept, found) = keeps_and_finds(rt.alloc())?;
    assert!(rt; kept);
    assert!(rt; found);
    Ok(())
}

// Sets rows in ascending order of address together.
fn put_together(store: &mut Store<MemStore>, rows: &[Row]) -> Result<(), Fail> {
    if store.failed() || !Rows::accepts(rows) {
        return Err("the store has failed, or the rows do not rise or are out of range".into());
    }
    store.put_all(rows)?;
    Ok(())
}

// Pushes the row of a lease.
fn push_row(alloc: Global, rows: &mut Vec<Row>, lease: Lease) -> Result<(), AllocError> {
    rows.push(row(alloc, lease)?)?;
    Ok(())
}

// The rows of leases.
fn rows_of(alloc: Global, leases: &[Lease]) -> Result<Vec<Row>, AllocError> {
    let mut rows = Vec::new(alloc);
    for lease in leases {
        push_row(alloc, &mut rows, *lease)?;
    }
    Ok(rows)
}

// Makes `count` leases of the addresses from 1,000 on.
fn many(alloc: Global, count: u32) -> Result<Vec<Row>, AllocError> {
    let mut rows = Vec::new(alloc);
    for number in 0..count {
        let lease: Lease = (number.saturating_add(1_000), b"m", State::Bound, 10, 20);
        push_row(alloc, &mut rows, lease)?;
    }
    Ok(rows)
}

// Puts the rows of the kept leases together, and then no rows.
fn put_kept(alloc: Global, store: &mut Store<MemStore>) -> Result<(), Fail> {
    let rows = rows_of(alloc, &KEPT)?;
    put_together(store, rows.as_slice())?;
    put_together(store, &[])
}

// Puts 3,000 rows together.
fn put_many(alloc: Global, store: &mut Store<MemStore>) -> Result<(), Fail> {
    let rows = many(alloc, 3_000)?;
    put_together(store, rows.as_slice())
}

// Reports whether the store has not failed, and has the 3,000 rows next to those from before.
fn holds_many(store: &mut Store<MemStore>) -> Result<bool, Fail> {
    if store.failed() {
        return Ok(false);
    }
    let rows = store.rows()?;
    Ok(are_many(rows.as_slice()))
}

// Reports whether these are the 3,000 rows next to those from before.
fn are_many(rows: &[Row]) -> bool {
    rows.len() == 3_005
        && rows[2].address == 8
        && rows[3].address == 1_000
        && rows[3_002].address == 3_999
        && rows[3_003].address == 0x8000_0000
}

// Reports whether putting no rows together changes nothing, and 3,000 rows put together are all
// there, next to those from before.
fn keeps_many(alloc: Global, store: &mut Store<MemStore>) -> Result<bool, Fail> {
    put_kept(alloc, store)?;
    if !holds(store, &KEPT)? || store.failed() {
        return Ok(false);
    }
    put_many(alloc, store)?;
    holds_many(store)
}

#[test]
fn rows_that_are_put_together_are_kept(rt: HostRuntime) -> Result<(), Fail> {
    let mut store = opened(rt.alloc(), Connection::open_in_memory(rt.alloc())?)?;
    let kept = keeps_many(rt.alloc(), &mut store);
    let _conn = store.close();
    assert!(rt; kept?);
    Ok(())
}

// Puts two rows, and returns how many are then read.
fn read_back(store: &mut Store<MemStore>, first: &Row, second: &Row) -> Result<usize, StoreFault>
    requires ready { store.old.fault ≡ None }
    requires first { IsInRange first.now }
    requires second { IsInRange second.now }
{
    store.put(first)?;
    store.put(second)?;
    let rows = store.rows()?;
    Ok(rows.len())
}

// The fault of a store without memory.
const NO_MEMORY: StoreFault = StoreFault::Sql(Cause::OutOfMemory);

// Does so in a new store in memory.
fn read_in_memory(alloc: Global, first: &Row, second: &Row) -> Result<usize, StoreFault> {
    if !first.is_in_range() || !second.is_in_range() {
        return Err(StoreFault::Schema);
    }
    let Ok(conn) = Connection::open_in_memory(alloc) else {
        return Err(NO_MEMORY);
    };
    match Store::open(alloc, conn) {
        Ok(mut store) => {
            let read = read_back(&mut store, first, second);
            let _conn = store.close();
            read
        }
        Err((fault, _)) => Err(fault),
    }
}

// Puts two rows into a new store, and returns how many are read.
fn two(alloc: Global) -> Result<usize, StoreFault> {
    match (row(alloc, KEPT[0]), row(alloc, KEPT[1])) {
        (Ok(first), Ok(second)) => read_in_memory(alloc, &first, &second),
        _ => Err(NO_MEMORY),
    }
}

// If a memory request is refused, the call reports it; the same calls repeated give the same as
// with enough memory.
#[test]
fn want_of_memory_is_answered_as_such(rt: HostRuntime) -> Result<(), Fail> {
    match two(rt.alloc()) {
        Ok(read) => assert!(rt; read == 2),
        Err(fault) => assert!(rt; fault == StoreFault::Sql(Cause::OutOfMemory)),
    }
    assert!(rt; two(rt.alloc())? == 2);
    Ok(())
}
