ghost use Rattle.std.specs.Prelude.{◌≡◌, ◌↔◌, ◌++◌, ◌∷◌, [], Some, IfOk, IfSome, IsTrue, MatchOption};
ghost use Rattle.hex.specs.Hex.{IsBytes};
ghost use Rattle.kd_listing.specs.Leases.{lease_line};
ghost use Rattle.kd_listing.specs.declared.leases.Lease.{Lease};
ghost use Rattle.kd_log.specs.Import.{IsLeaseLine};
ghost use Rattle.kd_log.specs.LeaseParts.{AreWords};

use crate::leases::state::{is_live, state_in};
use crate::leases::words::{Words, words_of};
use kd_listing::{Lease, lease_lines};
use kd_rows::Row;
use kd_text::{address_of_word, bytes_of_word, number_of_word};
use kd_wire::Bytes;
use std::alloc::{AllocError, Global};
use std::slice;

// Returns the lease of a line, if the line is that of a lease. The line is first read without full
// checks, and then compared with what is printed for the result.
pub(crate) fn lease_of_line(alloc: Global, line: &[u8]) -> Result<Option<Lease>, AllocError>
    ensures found { IfOk result (λ found. MatchOption found
        ((lease : Lease) → ¬ IsLeaseLine line.now lease) (λ lease. IsLeaseLine line.now lease)) }
    ensures only { (lease : Lease) → IsLeaseLine line.now lease
        → IfOk result (λ found. found ≡ Some lease) }
{
    let Some(lease) = lease_in(alloc, line)? else {
        return Ok(None);
    };
    if !lease.row.is_in_range() || !prints(alloc, &lease, line)? {
        return Ok(None);
    }
    Ok(Some(lease))
}

// Reads the lease of a line, assuming that it is the line of a lease.
fn lease_in(alloc: Global, line: &[u8]) -> Result<Option<Lease>, AllocError>
    ensures only { (lease : Lease) → IsLeaseLine line.now lease
        → IfOk result (λ found. found ≡ Some lease) }
    ensures bytes { IfOk result (λ found. IfSome found (λ lease. IsBytes lease.row.client)) }
{
    let words = words_of(line);
    let Some(client) = bytes_of_word(alloc, words.client)? else {
        return Ok(None);
    };
    Ok(lease_with(words, client))
}

// Returns the lease of a client with these words.
fn lease_with(words: Words<'_>, client: Bytes) -> Option<Lease>
    ensures only { (lease : Lease) → AreWords words.entry lease → client ≡ lease.row.client
        → result ≡ Some lease }
    ensures client { IfSome result (λ lease. lease.row.client ≡ client) }
{
    let row = Row {
        address: address_of_word(words.address)?,
        client,
        state: state_in(words.state)?,
        changed: number_of_word(words.changed)?,
        ends: number_of_word(words.ends)?,
    };
    Some(Lease {
        row,
        live: is_live(words.live),
    })
}

// Reports whether a line, with a line feed, is what is printed for a lease.
fn prints(alloc: Global, lease: &Lease, line: &[u8]) -> Result<bool, AllocError>
    ensures { IfOk result (λ same. IsTrue same ↔ (lease_line lease.now ≡ line.now ++ 10 ∷ [])) }
{
    let text = lease_lines(alloc, slice::from_ref(lease))?;
    match text.as_bytes().split_last() {
        Some((_, front)) => Ok(front == line),
        None => Ok(false),
    }
}
