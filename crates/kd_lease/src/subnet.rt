ghost use Rattle.std.specs.Prelude.{◌≡◌, ◌==◌, ◌&&◌, not, option_copied, true};
ghost use Rattle.std.specs.List.{find, list_any};
ghost use Rattle.kd_config.specs.Apart.{has};
ghost use Rattle.kd_lease.specs.Given.{options_of_pool};
ghost use Rattle.kd_lease.specs.Client.{selected_link};
ghost use Rattle.kd_lease.specs.SubnetOf.{first_serving, has_place, header_place, is_by_relay, link_of, message_place, served_by, subnet_serving};

use crate::fit::address_in;
use kd_classes::OptionData;
use kd_config::{Config, Pool, Subnet, admits};
use kd_machine::Held;
use kd_options::Message;
use kd_wire::Header;

// The sub-option of relay information with the link that a relay selects (RFC 3527 section 2).
const LINK_SELECTION: u8 = 5;

/// Returns the subnet in which a message with classes of these names is served by its place: the
/// first whose relays have that of the message, or else, if no subnet has it, whose prefix contains
/// the place of the message; and each class that it requires is held. If it is in a shared network,
/// that is served as one subnet.
#[tactic(auto, unfolding(crate::specs::SubnetOf::subnet_serving))]
pub fn subnet_of<'a>(config: &'a Config, names: &Held, message: &Message<'_>) -> Option<&'a Subnet>
    ensures { option_copied result ≡ subnet_serving config.now names.now message.now }
{
    match first_subnet(config, names, message) {
        Some(subnet) => Some(config.home(subnet)),
        None => None,
    }
}

// Returns the first subnet that serves a message.
fn first_subnet<'a>(config: &'a Config, names: &Held, message: &Message<'_>) -> Option<&'a Subnet>
    ensures { option_copied result ≡ first_serving config.now names.now message.now }
{
    let place = place_of(config, message);
    let by_relay = comes_by_relay(config, names, message);
    config
        .subnets()
        .iter()
        .find(|subnet| serves(by_relay, place, names, subnet))
}

/// Reports whether a message comes from a relay that a subnet names as its own, if the client may
/// be served there, and the relay selects no link. Then the subnets' relays count, and not their
/// prefixes.
pub fn comes_by_relay(config: &Config, names: &Held, message: &Message<'_>) -> bool
    ensures { result ≡ is_by_relay config.now names.now message.now }
{
    link_selected(config, message).is_none() && is_relayed(config, names, message.header().giaddr)
}

// Reports whether a message comes through a relay, and a subnet that has it may serve the client.
fn is_relayed(config: &Config, names: &Held, giaddr: u32) -> bool
    ensures { result ≡ (not (giaddr == 0)
        && list_any (served_by true giaddr names.now) config.now.subnets) }
{
    giaddr != 0 && has_relay_among(giaddr, names, config.subnets())
}

// Reports whether one of these subnets has the relay, and a client in the classes with these names
// may be served there.
fn has_relay_among(relay: u32, names: &Held, subnets: &[Subnet]) -> bool
    ensures { result ≡ list_any (served_by true relay names.now) subnets.now }
{
    subnets
        .iter()
        .any(|subnet| serves(true, relay, names, subnet))
}

/// Returns the place a message comes from, as an address in host order: the link that its relay
/// selects, else its relay, else its client's address, else the server's address.
pub fn place_of(config: &Config, message: &Message<'_>) -> u32
    ensures { result ≡ message_place config.now message.now }
{
    match link_selected(config, message) {
        Some(link) => link,
        None => place_in(config.server(), message.header()),
    }
}

/// Returns the link that the relay of a message selects, as an address in host order (RFC 3527), if
/// the configuration lets relays do so.
pub fn link_selected(config: &Config, message: &Message<'_>) -> Option<u32>
    ensures { result ≡ link_of config.now message.now }
{
    if config.extensions().selects_links && message.header().giaddr != 0 {
        link_in(message)
    } else {
        None
    }
}

// Returns the link in sub-option 5 of the relay information.
fn link_in(message: &Message<'_>) -> Option<u32>
    ensures { result ≡ selected_link message.now }
{
    address_in(message.relay(LINK_SELECTION))
}

// Returns the place a message with this header comes from: its relay, else its client's address,
// else the server's address.
fn place_in(server: u32, header: &Header) -> u32
    ensures { result ≡ header_place server header.now }
{
    if header.giaddr != 0 {
        header.giaddr
    } else if header.ciaddr != 0 {
        header.ciaddr
    } else {
        server
    }
}

/// Reports whether the subnet serves a place, an address in host order, and a client in the classes
/// with these names: it has the place, and each class that it requires is held.
pub fn serves(by_relay: bool, place: u32, names: &Held, subnet: &Subnet) -> bool
    ensures { result ≡ served_by by_relay place names.now subnet.now }
{
    is_at(by_relay, place, subnet) && admits(subnet.classes.as_slice(), names)
}

/// Reports whether the subnet has a place, an address in host order: as a relay of its own, or else
/// in its prefix.
pub fn is_at(by_relay: bool, place: u32, subnet: &Subnet) -> bool
    ensures { result ≡ has_place by_relay place subnet.now }
{
    if by_relay {
        names_relay(place, subnet.relays.as_slice())
    } else {
        subnet.prefix.contains(place)
    }
}

// Reports whether an address is among those of relays.
fn names_relay(address: u32, relays: &[u32]) -> bool
    ensures { result ≡ list_any (λ relay. relay == address) relays.now }
{
    relays.iter().any(|relay| *relay == address)
}

/// Returns the options of the first pool of the subnet that contains the address, in host order;
/// none if no pool contains it.
pub fn pool_options(subnet: &Subnet, address: u32) -> &[OptionData]
    ensures { result.now ≡ options_of_pool subnet.now.pools address }
{
    match pool_of(subnet, address) {
        Some(pool) => pool.options.as_slice(),
        None => &[],
    }
}

// Returns the first pool of the subnet that contains the address.
fn pool_of(subnet: &Subnet, address: u32) -> Option<&Pool>
    ensures { option_copied result ≡ find (λ pool. has pool.range address) subnet.now.pools }
{
    subnet
        .pools
        .as_slice()
        .iter()
        .find(|pool| pool.range.contains(address))
}
