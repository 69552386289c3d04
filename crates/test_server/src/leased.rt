use crate::datagrams::identity;
use kd_rows::{Row, State};
use kd_wire::Bytes;
use std::alloc::{AllocError, Global};

/// Returns the address with a number in 10.0.0.0/8.
pub(crate) fn address(number: u32) -> u32 {
    0x0a00_0000 | number
}

// The time at which each lease was set.
const CHANGED: u64 = 100;

/// Returns the row of the lease with a number: of the address with that number to the client with
/// that number, for that many seconds.
pub(crate) fn lease(alloc: Global, number: u32) -> Result<Row, AllocError> {
    Ok(Row {
        address: address(number),
        client: Bytes::own(Vec::from_slice(alloc, &identity(number))?),
        state: State::Bound,
        changed: CHANGED,
        ends: CHANGED + u64::from(number),
    })
}
