ghost use Rattle.std.specs.Prelude.{◌≡◌, ◌<◌, IfOk, slice_index};
ghost use Rattle.kd_rows.specs.Heads.{AreHeads, IsHead, row_addresses};

use crate::row::Row;
use std::alloc::AllocError;

// Returns the head of a client: its first 8 bytes as one number, filled up with zeros if there are
// fewer. If two clients have different heads, the one with the lower head comes first.
pub(crate) fn head_of(client: &[u8]) -> u64
    ensures { IsHead client.now result }
{
    let mut head = 0;
    for i in 0..8 {
        head = head * 256 + byte_at(client, i);
    }
    head
}

// Returns a byte of a client, or 0 after the last.
fn byte_at(client: &[u8], i: usize) -> u64
    ensures value { result ≡ slice_index client.now i }
    ensures bound { result < 256 }
{
    if i < client.len() {
        u64::from(client[i])
    } else {
        0
    }
}

// Returns the heads of the clients of rows.
pub(crate) fn heads_by_slot(rows: &Vec<Row>) -> Result<Vec<u64>, AllocError>
    ensures { IfOk result (λ heads. AreHeads rows.now.items heads.items) }
{
    let mut heads = Vec::new(*rows.allocator());
    heads.reserve_exact(rows.len())?;
    for i in 0..rows.len() {
        heads.push(head_of(rows[i].client.as_slice()))?;
    }
    Ok(heads)
}

// Returns the addresses of rows.
pub(crate) fn addresses_by_slot(rows: &Vec<Row>) -> Result<Vec<u32>, AllocError>
    ensures { IfOk result (λ addresses. addresses.items ≡ row_addresses rows.now.items) }
{
    let mut addresses = Vec::new(*rows.allocator());
    addresses.reserve_exact(rows.len())?;
    for i in 0..rows.len() {
        addresses.push(rows[i].address)?;
    }
    Ok(addresses)
}
