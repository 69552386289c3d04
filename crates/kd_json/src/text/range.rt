ghost use Rattle.std.specs.Prelude.{◌≡◌, ◌+◌, ◌^◌, ◌≤◌, IfSome};
ghost use Rattle.kd_config.specs.Address.{prefix_size};
ghost use Rattle.kd_json.specs.Address.{addresses_from, addresses_of_parts, addresses_spelled, prefix_addresses};

use crate::text::address::{cut_at, without_first_spaces, without_last_spaces};
use crate::text::prefix::prefix_of;
use kd_config::{Prefix, Range};
use kd_fields::address::address_of;

// Returns the range from the first to the last address, if it has one.
fn between(first: u32, last: u32) -> Option<Range>
    ensures rise { IfSome result (λ range. range.first ≤ range.last) }
    ensures read { result ≡ addresses_from first last }
{
    if first <= last {
        Some(Range { first, last })
    } else {
        None
    }
}

// Returns the addresses of a prefix as a range.
fn range_of_prefix(prefix: Prefix) -> Option<Range>
    requires { prefix.address + prefix_size prefix.length ≤ 2 ^ 32 }
    ensures rise { IfSome result (λ range. range.first ≤ range.last) }
    ensures read { result ≡ prefix_addresses prefix }
{
    let last = u64::from(prefix.address) + (prefix.size() - 1);
    between(prefix.address, last as u32)
}

// Returns the range between two addresses.
#[tactic(auto, unfolding(crate::specs::Address::addresses_of_parts))]
fn range_between(first: &[u8], last: &[u8]) -> Option<Range>
    ensures rise { IfSome result (λ range. range.first ≤ range.last) }
    ensures read { result ≡ addresses_of_parts (first.now, last.now) }
{
    let first = address_of(without_last_spaces(first))?;
    let last = address_of(without_first_spaces(last))?;
    between(first, last)
}

// Reads the addresses of a pool from its text.
#[tactic(auto, unfolding(crate::specs::Address::addresses_spelled))]
pub(crate) fn range_of(text: &[u8]) -> Option<Range>
    ensures rise { IfSome result (λ range. range.first ≤ range.last) }
    ensures read { result ≡ addresses_spelled text.now }
{
    match cut_at(b'-', text) {
        Some((first, last)) => range_between(first, last),
        None => range_of_prefix(prefix_of(text)?),
    }
}
