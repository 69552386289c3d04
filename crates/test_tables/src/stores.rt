use crate::fused::Fused;
use crate::rows::{Fault, check_made, expect};
use kd_keeps::{Cause, Keeps, StoreFault};
use kd_rows::{Row, State};
use kd_wire::Bytes;
use std::alloc::{AllocError, Global};
use std::test::Fail;

// Makes a lease of an address that is in range.
fn lease(alloc: Global, address: u32) -> Result<Row, AllocError> {
    Ok(Row {
        address,
        client: Bytes::own(Vec::from_slice(alloc, b"A")?),
        state: State::Offered,
        changed: 100,
        ends: 160,
    })
}

// Returns the result of the third call of a store on which two succeed: a row is put, the rows are
// read, and another row is put.
fn third<S: Keeps>(alloc: Global, store: &mut S) -> Result<Result<(), StoreFault>, Fail> {
    let first = lease(alloc, 10)?;
    let second = lease(alloc, 11)?;
    third_over(store, &first, &second)
}

// Does the same with these rows.
fn third_over<S: Keeps>(
    store: &mut S,
    first: &Row,
    second: &Row,
) -> Result<Result<(), StoreFault>, Fail> {
    if store.failed() || !first.is_in_range() || !second.is_in_range() {
        return Err("a new store has not failed".into());
    }
    store.put(first)?;
    let rows = store.rows()?;
    if rows.len() != 1 {
        return Err("one row was put".into());
    }
    Ok(store.put(second))
}

#[test]
fn a_store_fails_once_its_fuse_has_burnt_down(rt: HostRuntime) -> Result<(), Fail> {
    let made = Fused::new(rt.alloc(), 2).map_err(Fault::from);
    check_made(rt.alloc(), made, expect_third_to_fail)?
}

// Checks that the third call of a store fails, and that the store has failed then.
fn expect_third_to_fail<S: Keeps>(alloc: Global, store: &mut S) -> Result<(), Fail> {
    let answer = third(alloc, store)?;
    expect(
        answer == Err(StoreFault::Sql(Cause::SystemIoFailure)),
        "the fault of the third call",
    )?;
    expect(store.failed(), "a store that has failed")
}

#[test]
fn faults_of_a_store_have_numbers(rt: HostRuntime) -> Result<(), Fail> {
    assert!(rt; StoreFault::Schema.number() == 80);
    assert!(rt; StoreFault::Sql(Cause::DiskFull).number() == 81);
    Ok(())
}
