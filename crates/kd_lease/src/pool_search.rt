ghost use Rattle.std.specs.Prelude.{◌≡◌};
ghost use Rattle.kd_config.specs.Reservation.{earlier};
ghost use Rattle.kd_lease.specs.Rules.{asking};
ghost use Rattle.kd_lease.specs.Ranks.{IsRanked};
ghost use Rattle.kd_lease.specs.Seeking.{IsLeast, IsLeastGiven, IsLeastOpen, is_common_open, is_kept_open, pool_rank};

use crate::candidates::Choosing;
use crate::fit::is_common;
use crate::free::{is_untaken, next_untaken};
use crate::question::Question;
use kd_config::{Pool, Range, Subnet, admits};

// Returns the first address in pool order that fits and has no row (`new`), or whose row has ended
// (otherwise).
pub(crate) fn pool_choice(choosing: &Choosing<'_>, new: bool) -> Option<u32>
    ensures { IsRanked (asking choosing.now.question.now) choosing.now.subnet.now (pool_rank new)
        result }
{
    for pool in choosing.subnet.pools.as_slice() {
        match least_given(choosing, new, pool) {
            Some(address) => return Some(address),
            None => {}
        }
    }
    None
}

// Returns the lowest such address that a pool has for the client.
fn least_given(choosing: &Choosing<'_>, new: bool, pool: &Pool) -> Option<u32>
    ensures { IsLeastGiven (asking choosing.now.question.now) choosing.now.subnet.now new pool.now
        result }
{
    if admits(pool.classes.as_slice(), choosing.question.names) {
        least_open(choosing, new, pool.range)
    } else {
        None
    }
}

// Returns the lowest such address of a range: reserved for the client, or open to all clients.
fn least_open(choosing: &Choosing<'_>, new: bool, range: Range) -> Option<u32>
    ensures { IsLeastOpen (asking choosing.now.question.now) choosing.now.subnet.now new range.first
        range.last result }
{
    lesser_of(
        kept_open(choosing.question, choosing.own, new, range),
        least_common(choosing.question, choosing.subnet, new, range),
    )
}

// Returns the address that is reserved for the client, if it is in a range and open.
fn kept_open(question: &Question<'_>, own: Option<u32>, new: bool, range: Range) -> Option<u32>
    ensures { IsLeast (is_kept_open (asking question.now) own new) range.first range.last result }
{
    match own {
        Some(address) => {
            if range.contains(address) && is_untaken(question, new, address) {
                Some(address)
            } else {
                None
            }
        }
        None => None,
    }
}

// Returns the lowest address of a range that is open to all clients. If the table knows the
// reserved addresses, the first address that is found is one.
fn least_common(question: &Question<'_>, subnet: &Subnet, new: bool, range: Range) -> Option<u32>
    ensures { IsLeast (is_common_open (asking question.now) subnet.now new) range.first range.last
        result }
{
    let mut from = range.first;
    while from <= range.last {
        match next_untaken(question, new, from, range.last) {
            None => return None,
            Some(address) => {
                if is_common(question, subnet, address) {
                    return Some(address);
                }
                if address == range.last {
                    return None;
                }
                from = address + 1;
            }
        }
    }
    None
}

// Returns the lesser of two addresses; either may be missing.
fn lesser_of(a: Option<u32>, b: Option<u32>) -> Option<u32>
    ensures { result ≡ earlier a b }
{
    match (a, b) {
        (Some(a), Some(b)) => Some(a.min(b)),
        (Some(a), None) => Some(a),
        (None, b) => b,
    }
}
