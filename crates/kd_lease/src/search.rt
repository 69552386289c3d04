ghost use Rattle.std.specs.Prelude.{◌≡◌, None, Some};
ghost use Rattle.std.specs.List.{list_any};
ghost use Rattle.kd_lease.specs.Choice.{changed_in, set_later};
ghost use Rattle.kd_lease.specs.Choice.Rank.{own, past};
ghost use Rattle.kd_lease.specs.Kept.{bound_state, is_leased_in};
ghost use Rattle.kd_lease.specs.Rules.{asking, client_has, held_at, known_in, leased_to, offered_to, offered_state};
ghost use Rattle.kd_lease.specs.Ranks.{IsRanked};
ghost use Rattle.kd_lease.specs.Seeking.{has_row_in, has_row_of, newer_of, past_at, sought_at};
ghost use Rattle.kd_rows.specs.Table.{row_at};

use crate::ages::newest;
use crate::candidates::Choosing;
use crate::fit::{fits_with, is_held_by, is_of, is_past};
use crate::question::Question;
use kd_config::{Prefix, Subnet};
use kd_rows::{Rows, State};

// Which of a client's addresses are sought.
#[derive(Clone, Copy)]
pub(crate) enum Sought<'a> {
    // The addresses that it holds and that fit.
    Own(&'a Choosing<'a>),
    // The addresses whose rows have ended and that fit.
    Past(&'a Choosing<'a>),
    // The addresses that are offered to it.
    Offer,
}

// The newest address that a client holds and that fits; if it holds none, the newest that fits
// whose row has ended.
#[derive(Clone, Copy)]
pub(crate) struct Known {
    pub(crate) own: Option<u32>,
    pub(crate) past: Option<u32>,
}

// How many of a client's rows are visited in turn before they are searched by age.
const FEW: usize = 2;

// Returns what the client knows. Most clients have a row or two: these are visited in turn, and for
// a client without rows the index of the table is searched once.
pub(crate) fn newest_known(choosing: &Choosing<'_>) -> Known
    ensures own { IsRanked (asking choosing.now.question.now) choosing.now.subnet.now own
        result.own }
    ensures past { result.own ≡ None
        → IsRanked (asking choosing.now.question.now) choosing.now.subnet.now past result.past }
{
    let question = choosing.question;
    let own = Sought::Own(choosing);
    let past = Sought::Past(choosing);
    let mut known = Known {
        own: None,
        past: None,
    };
    for i in 0..FEW {
        match question.rows.of_client(question.client, i) {
            Some(address) => {
                known.own = better(question, &own, known.own, address);
                known.past = better(question, &past, known.past, address);
            }
            None => return known,
        }
    }
    known_by_age(choosing)
}

// Returns the same for a client with any number of rows. If it holds an address, its ended rows are
// not searched, because all the rows that it holds would have to be passed.
fn known_by_age(choosing: &Choosing<'_>) -> Known
    ensures own { IsRanked (asking choosing.now.question.now) choosing.now.subnet.now own
        result.own }
    ensures past { result.own ≡ None
        → IsRanked (asking choosing.now.question.now) choosing.now.subnet.now past result.past }
{
    match newest_own(choosing) {
        Some(address) => Known {
            own: Some(address),
            past: None,
        },
        None => Known {
            own: None,
            past: newest_past(choosing),
        },
    }
}

// Returns the newest of the addresses that the client holds and that fit.
pub(crate) fn newest_own(choosing: &Choosing<'_>) -> Option<u32>
    ensures { IsRanked (asking choosing.now.question.now) choosing.now.subnet.now own result }
{
    newest(choosing.question, &Sought::Own(choosing))
}

// Returns the newest of the client's addresses that fit and whose rows have ended.
pub(crate) fn newest_past(choosing: &Choosing<'_>) -> Option<u32>
    ensures { IsRanked (asking choosing.now.question.now) choosing.now.subnet.now past result }
{
    newest(choosing.question, &Sought::Past(choosing))
}

/// Reports whether the server knows the client in a subnet: the client has a row at an address in
/// its prefix, or in that of another subnet of its shared network.
pub fn knows_client(question: &Question<'_>, subnet: &Subnet) -> bool
    ensures { result ≡ known_in (asking question.now) (Some subnet.now) }
{
    if subnet.network == 0 {
        is_found_in(question, subnet.prefix)
    } else {
        is_found_within(question, subnet.network)
    }
}

// Reports whether the client has a row in the prefix of a subnet of the network with a number.
fn is_found_within(question: &Question<'_>, number: u32) -> bool
    ensures { let q = asking question.now in
        result ≡ list_any (has_row_of q number) q.config.subnets }
{
    question
        .config
        .subnets()
        .iter()
        .any(|part| is_found_of(question, part, number))
}

// Reports whether a subnet is in the network with a number and the client has a row in its prefix.
fn is_found_of(question: &Question<'_>, part: &Subnet, number: u32) -> bool
    ensures { result ≡ has_row_of (asking question.now) number part.now }
{
    part.network == number && is_found_in(question, part.prefix)
}

// Reports whether the client has a row at an address in a prefix.
fn is_found_in(question: &Question<'_>, prefix: Prefix) -> bool
    ensures { result ≡ has_row_in (asking question.now) prefix }
{
    question
        .rows
        .next_of_client(question.client, prefix.address, prefix.last())
        .is_some()
}

// Returns the newer of the address found so far and another, if that one is sought.
fn better(
    question: &Question<'_>,
    sought: &Sought<'_>,
    best: Option<u32>,
    address: u32,
) -> Option<u32>
    ensures { result ≡ newer_of (asking question.now) sought.now best address }
{
    if !is_sought(question, sought, address) {
        return best;
    }
    match best {
        None => Some(address),
        Some(found) => {
            if is_newer(question.rows, address, found) {
                Some(address)
            } else {
                Some(found)
            }
        }
    }
}

// Reports whether an address is sought.
pub(crate) fn is_sought(question: &Question<'_>, sought: &Sought<'_>, address: u32) -> bool
    ensures { result ≡ sought_at (asking question.now) sought.now address }
{
    match sought {
        Sought::Own(choosing) => is_held_at(question, address) && fits_with(choosing, address),
        Sought::Past(choosing) => is_past_at(question, address) && fits_with(choosing, address),
        Sought::Offer => is_offer(question, address),
    }
}

// Reports whether the first of two addresses is newer: its row was set later, or at the same time
// and it is the lesser address.
pub(crate) fn is_newer(rows: &Rows, a: u32, b: u32) -> bool
    ensures { result ≡ set_later rows.now.rows a b }
{
    let m = changed_at(rows, a);
    let n = changed_at(rows, b);
    n < m || (m == n && a < b)
}

// Returns the time at which the row of an address was set, 0 if there is none.
fn changed_at(rows: &Rows, address: u32) -> u64
    ensures { result ≡ changed_in (row_at rows.now.rows address) }
{
    match rows.get(address) {
        Some(row) => row.changed,
        None => 0,
    }
}

/// Reports whether the client holds an address, in host order: its row is the client's, has not
/// ended, and is offered or bound.
pub fn is_held_at(question: &Question<'_>, address: u32) -> bool
    ensures { result ≡ held_at (asking question.now) address }
{
    match question.rows.get(address) {
        Some(row) => is_held_by(question, row),
        None => false,
    }
}

// Reports whether the row of an address is the client's and has ended.
fn is_past_at(question: &Question<'_>, address: u32) -> bool
    ensures { result ≡ past_at (asking question.now) address }
{
    match question.rows.get(address) {
        Some(row) => is_past(question, row),
        None => false,
    }
}

/// Reports whether the row of an address, in host order, is the client's.
pub fn is_client_at(question: &Question<'_>, address: u32) -> bool
    ensures { result ≡ client_has (asking question.now) address }
{
    match question.rows.get(address) {
        Some(row) => is_of(question.client, row),
        None => false,
    }
}

// Reports whether the client leases an address: its row is the client's, has not ended, and is
// bound.
pub(crate) fn is_leased(question: &Question<'_>, address: u32) -> bool
    ensures { result ≡ leased_to (asking question.now) address }
{
    is_bound_to(question.rows, question.client, question.moment, address)
}

// Reports whether a client leases an address at a time, in seconds.
pub(crate) fn is_bound_to(rows: &Rows, client: &[u8], moment: u64, address: u32) -> bool
    ensures { result ≡ is_leased_in rows.now.rows moment client.now address }
{
    match rows.get(address) {
        Some(row) => row.is_live(moment) && (is_of(client, row) && is_bound(row.state)),
        None => false,
    }
}

// Reports whether an address is offered to the client: its row is the client's, has not ended, and
// is offered.
pub(crate) fn is_offer(question: &Question<'_>, address: u32) -> bool
    ensures { result ≡ offered_to (asking question.now) address }
{
    match question.rows.get(address) {
        Some(row) => {
            row.is_live(question.moment) && (is_of(question.client, row) && is_offered(row.state))
        }
        None => false,
    }
}

// Reports whether a state is that of a lease.
fn is_bound(state: State) -> bool
    ensures { result ≡ bound_state state }
{
    match state {
        State::Bound => true,
        _ => false,
    }
}

// Reports whether a state is that of an offer.
pub(crate) fn is_offered(state: State) -> bool
    ensures { result ≡ offered_state state }
{
    match state {
        State::Offered => true,
        _ => false,
    }
}
