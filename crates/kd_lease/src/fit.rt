ghost use Rattle.std.specs.Prelude.{◌≡◌};
ghost use Rattle.std.specs.Option.{option_copied};
ghost use Rattle.kd_rows.specs.Table.{belongs_to};
ghost use Rattle.kd_lease.specs.Choice.{contained, fitting_for, pool_gives, pooled, same_address, free_for, held_row, holding_state, own_row, past_row, usable, freed_by};
ghost use Rattle.kd_lease.specs.Client.{address_of_value, requested_address};
ghost use Rattle.kd_lease.specs.Rules.{asking, lasting_for, may_last};
ghost use Rattle.kd_lease.specs.Seeking.{common_in, fitting_with};

use crate::candidates::Choosing;
use crate::question::Question;
use crate::reservation::{is_reserved, reserved_address, unseen_of};
use kd_config::{Config, Pool, Subnet, admits};
use kd_machine::Held;
use kd_options::Message;
use kd_options::codes::OPTION_REQUESTED_ADDRESS;
use kd_rows::{Row, State};

/// Reports whether an address, in host order, fits: a pool of the subnet has it for the client and
/// it is not reserved, or it is reserved for the client.
pub fn fits(question: &Question<'_>, subnet: &Subnet, address: u32) -> bool
    ensures { result ≡ fitting_for (asking question.now) subnet.now address }
{
    is_common(question, subnet, address)
        || is_address(
            reserved_address(question.config, question.names, question.message, subnet),
            address,
        )
}

// Reports whether an address may be renewed in a subnet: it fits, or the client keeps its lease and
// that may last.
pub(crate) fn lasts(question: &Question<'_>, subnet: &Subnet, address: u32) -> bool
    ensures { result ≡ lasting_for (asking question.now) subnet.now address }
{
    fits(question, subnet, address)
        || (question.kept.is_some() && is_to_last(question, subnet, address))
}

// Reports whether a lease of an address that its client keeps may last: a pool contains the address,
// for whichever class, and it is not reserved; or its reservation may be the client's.
fn is_to_last(question: &Question<'_>, subnet: &Subnet, address: u32) -> bool
    ensures { result
        ≡ may_last question.now.config.now question.now.message.now subnet.now address }
{
    (contains(subnet, address) && !is_reserved(question.config, address))
        || unseen_of(question.message, subnet, address).is_some()
}

// Reports whether an address fits, by the address that is reserved for the client.
pub(crate) fn fits_with(choosing: &Choosing<'_>, address: u32) -> bool
    ensures { result ≡ fitting_with choosing.now address }
{
    is_common(choosing.question, choosing.subnet, address) || is_address(choosing.own, address)
}

// Reports whether a pool of the subnet has an address for the client, and it is not reserved.
pub(crate) fn is_common(question: &Question<'_>, subnet: &Subnet, address: u32) -> bool
    ensures { result
        ≡ common_in question.now.config.now question.now.names.now subnet.now address }
{
    in_pools(question.names, subnet, address) && !is_reserved(question.config, address)
}

/// Reports whether a pool of the subnet has an address, in host order, for a client in the classes
/// with these names.
pub fn in_pools(names: &Held, subnet: &Subnet, address: u32) -> bool
    ensures { result ≡ pooled names.now subnet.now address }
{
    subnet
        .pools
        .as_slice()
        .iter()
        .any(|pool| gives_address(names, pool, address))
}

// Reports whether a pool has an address for a client in the classes with these names.
fn gives_address(names: &Held, pool: &Pool, address: u32) -> bool
    ensures { result ≡ pool_gives names.now pool.now address }
{
    admits(pool.classes.as_slice(), names) && pool.range.contains(address)
}

/// Reports whether a pool of the subnet contains an address, in host order, whoever may have it.
pub fn contains(subnet: &Subnet, address: u32) -> bool
    ensures { result ≡ contained subnet.now address }
{
    subnet
        .pools
        .as_slice()
        .iter()
        .any(|pool| pool.range.contains(address))
}

// Reports whether there is an address and it is this one.
pub(crate) fn is_address(found: Option<u32>, address: u32) -> bool
    ensures { result ≡ same_address found address }
{
    match found {
        Some(found) => found == address,
        None => false,
    }
}

// Reports whether the client may be assigned an address: it fits and is free.
pub(crate) fn is_usable(question: &Question<'_>, subnet: &Subnet, address: u32) -> bool
    ensures { result ≡ usable (asking question.now) subnet.now address }
{
    fits(question, subnet, address) && is_free(question, address)
}

/// Reports whether an address, in host order, is free for the client: it has no row, its row has
/// ended, or its row is the client's own and offered or bound.
pub fn is_free(question: &Question<'_>, address: u32) -> bool
    ensures { result ≡ free_for (asking question.now) address }
{
    match question.rows.get(address) {
        Some(row) => leaves_free(question, row),
        None => true,
    }
}

// Reports whether a row leaves its address free for the client: the row has ended, or it is the
// client's own and offered or bound.
fn leaves_free(question: &Question<'_>, row: &Row) -> bool
    ensures { result ≡ freed_by (asking question.now) row.now }
{
    !row.is_live(question.moment) || is_its(question, row)
}

// Reports whether the client holds a row: it is its own, has not ended, and is offered or bound.
pub(crate) fn is_held_by(question: &Question<'_>, row: &Row) -> bool
    ensures { result ≡ held_row (asking question.now) row.now }
{
    row.is_live(question.moment) && is_its(question, row)
}

// Reports whether a row is the client's own and has ended.
pub(crate) fn is_past(question: &Question<'_>, row: &Row) -> bool
    ensures { result ≡ past_row (asking question.now) row.now }
{
    !row.is_live(question.moment) && is_of(question.client, row)
}

// Reports whether a row is the client's own and offered or bound.
fn is_its(question: &Question<'_>, row: &Row) -> bool
    ensures { result ≡ own_row (asking question.now) row.now }
{
    is_of(question.client, row) && is_holding(row.state)
}

// Reports whether a row is this client's.
pub(crate) fn is_of(client: &[u8], row: &Row) -> bool
    ensures { result ≡ belongs_to client.now row.now }
{
    row.client.as_slice() == client
}

// Reports whether a client holds an address that is in this state.
pub(crate) fn is_holding(state: State) -> bool
    ensures { result ≡ holding_state state }
{
    match state {
        State::Offered => true,
        State::Bound => true,
        State::Released => false,
        State::Declined => false,
    }
}

/// Returns the address that the client asks for in option 50, in host order (RFC 2132 section 9.1).
pub fn requested_of(message: &Message<'_>) -> Option<u32>
    ensures { result ≡ requested_address message.now }
{
    address_in(message.option(OPTION_REQUESTED_ADDRESS))
}

// Returns the address in a value of four bytes.
pub(crate) fn address_in(value: Option<&[u8]>) -> Option<u32>
    ensures { result ≡ address_of_value (option_copied value.entry) }
{
    match value {
        Some([a, b, c, d]) => Some(u32::from_be_bytes([*a, *b, *c, *d])),
        _ => None,
    }
}
