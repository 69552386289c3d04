ghost use Rattle.std.specs.Prelude.{◌≡◌, Some};
ghost use Rattle.std.specs.Option.{option_copied};
ghost use Rattle.kd_config.specs.Networks.{part_holding};
ghost use Rattle.kd_config.specs.Sound.{IsSound};
ghost use Rattle.kd_lease.specs.Given.{options_of_pool};
ghost use Rattle.kd_lease.specs.Keeping.{keeper, pooled_keeper};
ghost use Rattle.kd_lease.specs.Parts.{part_has, part_in, part_known};
ghost use Rattle.kd_lease.specs.Rules.{asking, serving_subnet};

use crate::fit::contains;
use crate::question::Question;
use crate::subnet::pool_options;
use kd_classes::{Boot, OptionData};
use kd_config::{Config, Subnet, Term};

// Returns the subnet that has the address that a client says it has, in host order, where a subnet serves
// its message: in a shared network one of its subnets.
pub(crate) fn client_part<'a>(
    config: &'a Config,
    subnet: Option<&'a Subnet>,
    ciaddr: u32,
) -> Option<&'a Subnet>
    ensures { option_copied result ≡ part_in config.now (option_copied subnet.entry) ciaddr }
{
    match subnet {
        Some(subnet) if ciaddr != 0 => Some(config.member_with(subnet, ciaddr)),
        _ => None,
    }
}

// Returns the subnet that has an address, in host order: of a shared network one of its subnets, otherwise
// the given one, which serves the message. A network is not searched for the client's own address again.
#[tactic(auto, using(crate::proofs::Members::known_part))]
pub(crate) fn part_that_has<'a>(
    question: &Question<'a>,
    subnet: &'a Subnet,
    address: u32,
) -> &'a Subnet
    requires { serving_subnet (asking question.now) ≡ Some subnet.now }
    ensures { result.now ≡ part_holding question.now.config.now.subnets subnet.now address }
{
    match known_part(question, address) {
        Some(part) => part,
        None => question.config.member_with(subnet, address),
    }
}

// Returns the times for leases of that subnet, if it has some of its own.
#[tactic(auto, using(crate::proofs::Members::known_part))]
pub(crate) fn term_with(question: &Question<'_>, subnet: &Subnet, address: u32) -> Option<Term>
    requires { serving_subnet (asking question.now) ≡ Some subnet.now }
    ensures { result ≡ (part_holding question.now.config.now.subnets subnet.now address).term }
{
    match known_part(question, address) {
        Some(part) => part.term,
        None => question.config.term_at(subnet, address),
    }
}

// Returns what that subnet gives to boot fields.
#[tactic(auto, using(crate::proofs::Members::known_part))]
pub(crate) fn boot_with(question: &Question<'_>, subnet: &Subnet, address: u32) -> Boot
    requires { serving_subnet (asking question.now) ≡ Some subnet.now }
    ensures { result ≡ (part_holding question.now.config.now.subnets subnet.now address).boot }
{
    match known_part(question, address) {
        Some(part) => part.boot,
        None => question.config.boot_at(subnet, address),
    }
}

// Reports whether an address is in the prefix of that subnet, and is the one that the client says it has.
pub(crate) fn is_in_part(question: &Question<'_>, address: u32) -> bool
    ensures { let q = asking question.now in
        result
        ≡ part_has (part_known q.config (serving_subnet q) q.message.header.ciaddr address) address }
{
    match known_part(question, address) {
        Some(part) => part.prefix.contains(address),
        None => false,
    }
}

// Returns the options of the first pool that contains an address, of the subnet that serves the message;
// none if no pool does. If the client keeps its lease in a pool, the pools of its network are not searched.
pub(crate) fn pool_options_with<'a>(
    question: &Question<'a>,
    subnet: &'a Subnet,
    address: u32,
) -> &'a [OptionData]
    requires sound { IsSound question.now.config.now }
    requires serves { serving_subnet (asking question.now) ≡ Some subnet.now }
    ensures { result.now ≡ options_of_pool subnet.now.pools address }
{
    match keeper_with(question, address) {
        Some(part) => pool_options(part, address),
        None => pool_options(subnet, address),
    }
}

// Returns the subnet that has the address of the lease that the client keeps, if it does and a pool there
// contains this address.
fn keeper_with<'a>(question: &Question<'a>, address: u32) -> Option<&'a Subnet>
    ensures { option_copied result ≡ pooled_keeper (keeper (asking question.now)) address }
{
    match question.keeper {
        Some(part) if contains(part, address) => Some(part),
        _ => None,
    }
}

// Returns the subnet that has an address, if that is the one that the client says it has.
fn known_part<'a>(question: &Question<'a>, address: u32) -> Option<&'a Subnet>
    ensures { let q = asking question.now in
        option_copied result
        ≡ part_known q.config (serving_subnet q) q.message.header.ciaddr address }
{
    if question.message.header().ciaddr == address {
        question.part
    } else {
        None
    }
}
