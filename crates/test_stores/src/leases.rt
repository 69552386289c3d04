use kd_rows::{Row, State};
use kd_wire::Bytes;
use std::alloc::{AllocError, Global};

// A lease: its address, its client, its state, when it was set, when it ends.
pub(crate) type Lease = (u32, &'static [u8], State, u64, u64);

// The row of a lease.
pub(crate) fn row(alloc: Global, lease: Lease) -> Result<Row, AllocError> {
    let (address, client, state, changed, ends) = lease;
    Ok(Row {
        address,
        client: Bytes::own(Vec::from_slice(alloc, client)?),
        state,
        changed,
        ends,
    })
}

// Reports whether the row has all that the lease says.
fn is_row_of(row: &Row, lease: Lease) -> bool {
    let (address, client, state, changed, ends) = lease;
    row.address == address
        && row.client.as_slice() == client
        && row.state == state
        && row.changed == changed
        && row.ends == ends
}

// Reports whether the rows are those of the leases, in order.
pub(crate) fn are_rows_of(rows: &[Row], leases: &[Lease]) -> bool {
    if rows.len() != leases.len() {
        return false;
    }
    for i in 0..rows.len() {
        if !is_row_of(&rows[i], leases[i]) {
            return false;
        }
    }
    true
}
