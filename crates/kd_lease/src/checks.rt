ghost use Rattle.std.specs.Prelude.{◌≡◌, ◌||◌, Some};
ghost use Rattle.std.specs.List.{find};
ghost use Rattle.std.specs.Option.{option_copied};
ghost use Rattle.kd_config.specs.Networks.{covers};
ghost use Rattle.kd_lease.specs.Choice.{address_reserved, fitting_for, free_for};
ghost use Rattle.kd_lease.specs.Keeping.{is_record_here, keeper, keeps_it, keeps_pooled};
ghost use Rattle.kd_lease.specs.Kept.{passes};
ghost use Rattle.kd_lease.specs.Rules.{asking, awaited_in, client_has, ending, fails, has_to_move, held_at, holds_at, is_awaited, is_unused, known_in, lasting_for, may_be_its, other_than, passes_in, serving_subnet};

use crate::fit::{contains, fits, is_free, lasts};
use crate::matter::Matter;
use crate::parts::is_in_part;
use crate::question::Question;
use crate::reservation::{is_reserved, reserved_address, unseen_of};
use crate::rule::{Check, Ending, Line};
use crate::search::{is_client_at, is_held_at, is_offer, knows_client};
use crate::server::is_for_another;
use kd_config::Subnet;

/// Returns how a message ends: as the first check of its rule that it does not pass says, or if it
/// passes them all, as the rule does (RFC 2131 section 4.3).
pub fn ending_of(matter: &Matter<'_>) -> Ending
    ensures { result
        ≡ ending (asking matter.now.question.now) matter.now.address matter.now.rule }
{
    match failing_line(matter, matter.rule.checks()) {
        Some(line) => line.1,
        None => matter.rule.end(),
    }
}

// Returns the first line of a list whose check the message does not pass.
fn failing_line<'a>(matter: &Matter<'_>, lines: &'a [Line]) -> Option<&'a Line>
    ensures { option_copied result
        ≡ find (fails (asking matter.now.question.now) matter.now.address) lines.now }
{
    lines.iter().find(|line| is_failing(matter, line))
}

// Reports whether the message does not pass the check of a line.
fn is_failing(matter: &Matter<'_>, line: &Line) -> bool
    ensures { result ≡ fails (asking matter.now.question.now) matter.now.address line.now }
{
    !holds(matter, line.0)
}

/// Reports whether a message passes a check.
pub fn holds(matter: &Matter<'_>, check: Check) -> bool
    ensures { result ≡ holds_at (asking matter.now.question.now) matter.now.address check }
{
    let Matter {
        question,
        address,
        ..
    } = *matter;
    match check {
        Check::Server => !is_for_another(question.config, question.message),
        Check::Address => address.is_some(),
        Check::Choice => address.is_some(),
        Check::Subnet => question.subnet.is_some(),
        Check::Prefix => is_in_prefix(question, address),
        Check::Client => is_authoritative_or_known(question, address),
        Check::Owner => is_own(question, address),
        Check::Fits => is_fitting(question, address),
        Check::Lasts => is_lasting(question, address),
        Check::Free => is_free_at(question, address),
        Check::Stays => !is_to_move(question, address),
        Check::Held => is_held(question, address),
    }
}

// Reports whether the subnet that serves the message, or another of its shared network, has an
// address in its prefix.
fn is_in_prefix(question: &Question<'_>, address: Option<u32>) -> bool
    ensures { result ≡ passes_in (covers question.now.config.now.subnets)
        (serving_subnet (asking question.now)) address }
{
    match address {
        Some(address) => is_here(question, address),
        None => false,
    }
}

// Reports whether the subnet that serves the message, or another of its shared network, has an
// address in its prefix. It does if the client keeps its lease of the address: then no subnet is asked.
fn is_here(question: &Question<'_>, address: u32) -> bool
    ensures { result ≡ passes_in (covers question.now.config.now.subnets)
        (serving_subnet (asking question.now)) (Some address) }
{
    if keeps(question, address) {
        true
    } else {
        is_in_network(question, address)
    }
}

// The same, by the prefix of the subnet that was found for the client's address, or else by those of all
// subnets.
fn is_in_network(question: &Question<'_>, address: u32) -> bool
    ensures { result ≡ passes_in (covers question.now.config.now.subnets)
        (serving_subnet (asking question.now)) (Some address) }
{
    if is_in_part(question, address) {
        true
    } else {
        spans(question, address)
    }
}

// The same, by the prefixes of the subnets.
fn spans(question: &Question<'_>, address: u32) -> bool
    ensures { result ≡ passes_in (covers question.now.config.now.subnets)
        (serving_subnet (asking question.now)) (Some address) }
{
    match question.subnet {
        Some(subnet) => question.config.spans(subnet, address),
        None => false,
    }
}

// Reports whether the client keeps its lease of an address.
fn keeps(question: &Question<'_>, address: u32) -> bool
    ensures { result ≡ keeps_it (asking question.now) address }
{
    question.keeper.is_some() && question.message.header().ciaddr == address
}

// Reports whether the server is authoritative, or the client has a row in the subnet that serves the
// message.
fn is_authoritative_or_known(question: &Question<'_>, address: Option<u32>) -> bool
    ensures { let q = asking question.now in
        result ≡ q.config.extensions.is_authoritative || known_in q (serving_subnet q) }
{
    question.config.extensions().is_authoritative || is_known(question, address)
}

// Reports whether a subnet serves the message and the client has a row at an address of it. Mostly it
// is that of the address that the message is about: then the client's rows are not searched.
fn is_known(question: &Question<'_>, address: Option<u32>) -> bool
    ensures { let q = asking question.now in result ≡ known_in q (serving_subnet q) }
{
    if is_record_at(question, address) {
        true
    } else {
        has_record(question)
    }
}

// Reports whether there is an address, and the client has a row there that is of the subnet that
// serves the message.
fn is_record_at(question: &Question<'_>, address: Option<u32>) -> bool
    ensures { result ≡ passes (is_record_here (asking question.now)) address }
{
    match address {
        Some(address) => is_client_at(question, address) && is_here(question, address),
        None => false,
    }
}

// The same as `is_known`, by a search of the client's rows.
fn has_record(question: &Question<'_>) -> bool
    ensures { let q = asking question.now in result ≡ known_in q (serving_subnet q) }
{
    match question.subnet {
        Some(subnet) => knows_client(question, subnet),
        None => false,
    }
}

// Reports whether there is an address and its row is the client's.
fn is_own(question: &Question<'_>, address: Option<u32>) -> bool
    ensures { result ≡ passes (client_has (asking question.now)) address }
{
    match address {
        Some(address) => is_client_at(question, address),
        None => false,
    }
}

// Reports whether an address fits in the subnet that serves the message.
fn is_fitting(question: &Question<'_>, address: Option<u32>) -> bool
    ensures { let q = asking question.now in
        result ≡ passes_in (fitting_for q) (serving_subnet q) address }
{
    match (question.subnet, address) {
        (Some(subnet), Some(address)) => fits(question, subnet, address),
        _ => false,
    }
}

// Reports whether an address may be renewed in the subnet that serves the message.
fn is_lasting(question: &Question<'_>, address: Option<u32>) -> bool
    ensures { let q = asking question.now in
        result ≡ passes_in (lasting_for q) (serving_subnet q) address }
{
    match (question.subnet, address) {
        (Some(subnet), Some(address)) => is_renewable(question, subnet, address),
        _ => false,
    }
}

// Reports whether an address may be renewed in this subnet, which serves the message. Mostly the
// client keeps its lease of it, in a pool: then the pools of its network are not searched.
fn is_renewable(question: &Question<'_>, subnet: &Subnet, address: u32) -> bool
    requires { serving_subnet (asking question.now) ≡ Some subnet.now }
    ensures { let q = asking question.now in
        result ≡ passes_in (lasting_for q) (serving_subnet q) (Some address) }
{
    if keeps_in_pool(question, address) {
        true
    } else {
        lasts(question, subnet, address)
    }
}

// Reports whether the client keeps its lease of an address, which is in a pool and not reserved.
fn keeps_in_pool(question: &Question<'_>, address: u32) -> bool
    ensures { let q = asking question.now in result ≡ keeps_pooled q (keeper q) address }
{
    match question.keeper {
        Some(part) => {
            question.message.header().ciaddr == address
                && (contains(part, address) && !is_reserved(question.config, address))
        }
        None => false,
    }
}

// Reports whether there is an address and it is free for the client.
fn is_free_at(question: &Question<'_>, address: Option<u32>) -> bool
    ensures { result ≡ passes (free_for (asking question.now)) address }
{
    match address {
        Some(address) => is_free(question, address),
        None => false,
    }
}

// Reports whether the client is to move to another address.
fn is_to_move(question: &Question<'_>, address: Option<u32>) -> bool
    ensures { result ≡ has_to_move (asking question.now) address }
{
    question.config.extensions().moves_clients && is_awaited_elsewhere(question, address)
}

// Reports whether a subnet serves the message, there is an address, and another one, which nobody uses,
// is reserved for the client there.
fn is_awaited_elsewhere(question: &Question<'_>, address: Option<u32>) -> bool
    ensures { let q = asking question.now in
        result ≡ passes_in (is_awaited q) (serving_subnet q) address }
{
    match (question.subnet, address) {
        (Some(subnet), Some(address)) => awaits_another(question, subnet, address),
        _ => false,
    }
}

// Reports whether there is an address to which the client is to move in a subnet, and nobody uses it.
fn awaits_another(question: &Question<'_>, subnet: &Subnet, address: u32) -> bool
    ensures { result ≡ is_awaited (asking question.now) subnet.now address }
{
    match awaited(question, subnet, address) {
        Some(reserved) => is_vacant(question, reserved),
        None => false,
    }
}

/// Returns the address, in host order, other than this one, that is reserved for the client in a subnet,
/// unless the client keeps its lease of this one, which may be reserved for it.
pub fn awaited(question: &Question<'_>, subnet: &Subnet, address: u32) -> Option<u32>
    ensures { result ≡ awaited_in (asking question.now) subnet.now address }
{
    match other_reserved(question, subnet, address) {
        Some(_) if is_perhaps_its(question, subnet, address) => None,
        other => other,
    }
}

// Reports whether the client keeps its lease of an address whose reservation may be for it.
fn is_perhaps_its(question: &Question<'_>, subnet: &Subnet, address: u32) -> bool
    ensures { result ≡ may_be_its (asking question.now) subnet.now address }
{
    question.kept.is_some() && unseen_of(question.message, subnet, address).is_some()
}

// Returns the address that is reserved for the client in a subnet, if it is another one than this.
fn other_reserved(question: &Question<'_>, subnet: &Subnet, address: u32) -> Option<u32>
    ensures { let q = asking question.now in
        result ≡ other_than address (address_reserved q.config q.names q.message subnet.now) }
{
    match reserved_address(question.config, question.names, question.message, subnet) {
        Some(reserved) if reserved != address => Some(reserved),
        _ => None,
    }
}

// Reports whether nobody uses an address: it has no row, or one that has ended, or that of an offer to
// the client.
fn is_vacant(question: &Question<'_>, address: u32) -> bool
    ensures { result ≡ is_unused (asking question.now) address }
{
    match question.rows.get(address) {
        Some(row) => !row.is_live(question.moment) || is_offer(question, address),
        None => true,
    }
}

// Reports whether there is an address and the client holds it.
fn is_held(question: &Question<'_>, address: Option<u32>) -> bool
    ensures { result ≡ passes (held_at (asking question.now)) address }
{
    match address {
        Some(address) => is_held_at(question, address),
        None => false,
    }
}
