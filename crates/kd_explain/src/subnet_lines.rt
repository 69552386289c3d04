ghost use Rattle.std.specs.Prelude.{◌≡◌, ◌++◌, OnOk, codes, option_copied, string_bytes};
ghost use Rattle.std.specs.List.{flat_map};
ghost use Rattle.kd_lease.specs.SubnetOf.{is_by_relay, message_place};
ghost use Rattle.kd_explain.specs.FoundLines.{class_word, elsewhere_words, header_word, is_candidate, is_relayed, keeping_line, keeping_words, key_word, later_line, later_words, missing_class, passed_words, place_line, place_word};
ghost use Rattle.kd_explain.specs.FoundLines.{reservation_line, reserved_line, shares_network, sought_line, sought_lines, served_lines};

use crate::text::Scene;
use crate::words::{put_address_or_dash, put_name};
use kd_config::{Config, Identity, Reservation, Subnet};
use kd_lease::{comes_by_relay, is_at, is_to_keep, link_selected, place_of, serves};
use kd_machine::Held;
use kd_options::Message;
use kd_text::{put_address, put_prefix};
use kd_wire::{Bytes, Header};
use std::alloc::{AllocError, Global};

// Prints the place that the message comes from, and what it was taken from.
pub(crate) fn put_place(out: &mut String, scene: &Scene<'_>) -> Result<(), AllocError>
    ensures { OnOk result (string_bytes out.new ≡ string_bytes out.old
        ++ place_line scene.now.config.now scene.now.message.now) }
{
    put_place_of(out, scene.config, scene.message)
}

#[tactic(auto, unfolding(crate::specs::FoundLines::place_line))]
fn put_place_of(out: &mut String, config: &Config, message: &Message<'_>) -> Result<(), AllocError>
    ensures { OnOk result (string_bytes out.new
        ≡ string_bytes out.old ++ place_line config.now message.now) }
{
    out.push_str("place ")?;
    put_address(out, place_of(config, message))?;
    out.push_str(" ")?;
    out.push_str(place_source(link_selected(config, message), message.header()))?;
    out.push_str("\n")
}

fn place_source(link: Option<u32>, header: &Header) -> &'static str
    ensures { result.now ≡ place_word link header.now }
{
    match link {
        Some(_) => "link",
        None => header_source(header),
    }
}

fn header_source(header: &Header) -> &'static str
    ensures { result.now ≡ header_word header.now }
{
    if header.giaddr != 0 {
        "relay"
    } else if header.ciaddr != 0 {
        "ciaddr"
    } else {
        "server"
    }
}

// Where a message comes from, whether that is a relay, whether subnets are asked for their relays
// and not for their prefixes, and the names of the classes that the message is in.
#[derive(Clone, Copy)]
struct Sought<'a> {
    relayed: bool,
    by_relay: bool,
    place: u32,
    names: &'a Held,
}

// Prints a line for each subnet: which has the address whose lease the client keeps, if it does so;
// otherwise those that are passed over, and why, the first that serves the message, and those after
// it.
pub(crate) fn put_subnets(out: &mut String, scene: &Scene<'_>) -> Result<(), AllocError>
    ensures { OnOk result (string_bytes out.new ≡ string_bytes out.old
        ++ served_lines (option_copied scene.now.explanation.now.kept) scene.now.config.now
        scene.now.explanation.now.names scene.now.message.now) }
{
    match scene.explanation.kept {
        Some(_) => put_keeping(out, scene.message.header().ciaddr, scene.config.subnets()),
        None => put_by_place(out, scene),
    }
}

// Prints the lines of the subnets for an address whose lease the client keeps.
fn put_keeping(out: &mut String, address: u32, subnets: &[Subnet]) -> Result<(), AllocError>
    ensures { OnOk result (string_bytes out.new
        ≡ string_bytes out.old ++ flat_map (keeping_line address) subnets.now) }
{
    for subnet in subnets {
        put_one_keeping(out, address, subnet)?;
    }
    Ok(())
}

#[tactic(auto, unfolding(crate::specs::FoundLines::sought_line))]
fn put_one_keeping(out: &mut String, address: u32, subnet: &Subnet) -> Result<(), AllocError>
    ensures { OnOk result (string_bytes out.new
        ≡ string_bytes out.old ++ keeping_line address subnet.now) }
{
    out.push_str("subnet ")?;
    put_prefix(out, subnet.prefix.address, subnet.prefix.length)?;
    out.push_str(keeping_phrase(is_to_keep(address, subnet)))?;
    out.push_str("\n")
}

fn keeping_phrase(has_it: bool) -> &'static str
    ensures { result.now ≡ keeping_words has_it }
{
    if has_it {
        " has the address, whose lease the client keeps"
    } else {
        " does not have the address"
    }
}

// Prints the lines of the subnets for the place and the classes of the message.
fn put_by_place(out: &mut String, scene: &Scene<'_>) -> Result<(), AllocError>
    ensures { OnOk result (string_bytes out.new ≡ string_bytes out.old
        ++ sought_lines (is_relayed scene.now.config.now scene.now.message.now)
        (is_by_relay scene.now.config.now scene.now.explanation.now.names scene.now.message.now)
        (message_place scene.now.config.now scene.now.message.now)
        scene.now.explanation.now.names scene.now.config.now.subnets) }
{
    let names = &scene.explanation.names;
    let sought = Sought {
        relayed: comes_through_relay(scene.config, scene.message),
        by_relay: comes_by_relay(scene.config, names, scene.message),
        place: place_of(scene.config, scene.message),
        names,
    };
    put_sought(scene.alloc, out, sought, scene.config.subnets())
}

// Reports whether a message came through a relay, which selects no link.
fn comes_through_relay(config: &Config, message: &Message<'_>) -> bool
    ensures { result ≡ is_relayed config.now message.now }
{
    link_selected(config, message).is_none() && message.header().giaddr != 0
}

#[tactic(auto, unfolding(crate::specs::FoundLines::sought_lines))]
fn put_sought(
    alloc: Global,
    out: &mut String,
    sought: Sought<'_>,
    subnets: &[Subnet],
) -> Result<(), AllocError>
    ensures { OnOk result (string_bytes out.new ≡ string_bytes out.old
        ++ sought_lines sought.entry.relayed sought.entry.by_relay sought.entry.place
        sought.entry.names.now subnets.now) }
{
    let mut left = subnets;
    while let [subnet, rest @ ..] = left {
        if serves(sought.by_relay, sought.place, sought.names, subnet) {
            put_serving(out, subnet)?;
            return put_later(out, subnet, rest);
        }
        put_passed(alloc, out, sought, subnet)?;
        left = rest;
    }
    out.push_str("subnet - none serves\n")?;
    Ok(())
}

#[tactic(auto, unfolding(crate::specs::FoundLines::sought_line))]
fn put_serving(out: &mut String, subnet: &Subnet) -> Result<(), AllocError>
    ensures { OnOk result (string_bytes out.new
        ≡ string_bytes out.old ++ sought_line subnet.now (codes " serves")) }
{
    out.push_str("subnet ")?;
    put_prefix(out, subnet.prefix.address, subnet.prefix.length)?;
    out.push_str(" serves")?;
    out.push_str("\n")
}

// Prints the lines of the subnets after the one that serves.
fn put_later(out: &mut String, serving: &Subnet, subnets: &[Subnet]) -> Result<(), AllocError>
    ensures { OnOk result (string_bytes out.new
        ≡ string_bytes out.old ++ flat_map (later_line serving.now) subnets.now) }
{
    for subnet in subnets {
        put_one_later(out, serving, subnet)?;
    }
    Ok(())
}

// Prints the line of a subnet after the one that serves.
#[tactic(auto, unfolding(crate::specs::FoundLines::sought_line))]
fn put_one_later(out: &mut String, serving: &Subnet, subnet: &Subnet) -> Result<(), AllocError>
    ensures { OnOk result (string_bytes out.new
        ≡ string_bytes out.old ++ later_line serving.now subnet.now) }
{
    out.push_str("subnet ")?;
    put_prefix(out, subnet.prefix.address, subnet.prefix.length)?;
    out.push_str(later_phrase(is_in_network(serving, subnet)))?;
    out.push_str("\n")
}

// Reports whether a subnet is in the shared network of the one that serves.
fn is_in_network(serving: &Subnet, subnet: &Subnet) -> bool
    ensures { result ≡ shares_network serving.now subnet.now }
{
    serving.network != 0 && subnet.network == serving.network
}

// Returns what is said of a subnet after the one that serves.
fn later_phrase(shares: bool) -> &'static str
    ensures { result.now ≡ later_words shares }
{
    if shares {
        " in the same network"
    } else {
        " not asked"
    }
}

#[tactic(auto, unfolding(crate::specs::FoundLines::sought_line))]
fn put_passed(
    alloc: Global,
    out: &mut String,
    sought: Sought<'_>,
    subnet: &Subnet,
) -> Result<(), AllocError>
    ensures { OnOk result (string_bytes out.new ≡ string_bytes out.old ++ sought_line subnet.now
        (passed_words sought.entry.relayed sought.entry.by_relay sought.entry.place
        sought.entry.names.now subnet.now)) }
{
    out.push_str("subnet ")?;
    put_prefix(out, subnet.prefix.address, subnet.prefix.length)?;
    put_why_passed(alloc, out, sought, subnet)?;
    out.push_str("\n")
}

// Prints why a subnet is passed over. The place is checked before the class. Prefixes count if no
// subnet that names the relay admits the client; such a subnet still lacks only the class.
#[tactic(auto, unfolding(crate::specs::FoundLines::passed_words))]
fn put_why_passed(
    alloc: Global,
    out: &mut String,
    sought: Sought<'_>,
    subnet: &Subnet,
) -> Result<(), AllocError>
    ensures { OnOk result (string_bytes out.new ≡ string_bytes out.old
        ++ passed_words sought.entry.relayed sought.entry.by_relay sought.entry.place
        sought.entry.names.now subnet.now) }
{
    if is_in_reach(sought, subnet) {
        out.push_str(" passed over: the client is not in class ")?;
        put_class_name(
            alloc,
            out,
            class_missing(subnet.classes.as_slice(), sought.names),
        )
    } else {
        out.push_str(" passed over: ")?;
        put_address(out, sought.place)?;
        out.push_str(elsewhere(sought.by_relay))
    }
}

// Reports whether a subnet has the place, or names the relay. Then only its classes can keep it from
// serving.
fn is_in_reach(sought: Sought<'_>, subnet: &Subnet) -> bool
    ensures { result ≡ is_candidate sought.entry.relayed sought.entry.by_relay sought.entry.place
        subnet.now }
{
    is_at(sought.by_relay, sought.place, subnet)
        || sought.relayed && is_at(true, sought.place, subnet)
}

fn elsewhere(by_relay: bool) -> &'static str
    ensures { result.now ≡ elsewhere_words by_relay }
{
    if by_relay {
        " is no relay of it"
    } else {
        " is outside"
    }
}

// Returns the first of these classes that is not held.
fn class_missing<'a>(classes: &'a [Bytes], names: &Held) -> Option<&'a Bytes>
    ensures { option_copied result ≡ missing_class classes.now names.now }
{
    classes
        .iter()
        .find(|class| !names.contains(class.as_slice()))
}

fn put_class_name(alloc: Global, out: &mut String, class: Option<&Bytes>) -> Result<(), AllocError>
    ensures { OnOk result (string_bytes out.new
        ≡ string_bytes out.old ++ class_word (option_copied class.entry)) }
{
    match class {
        Some(class) => put_name(alloc, out, class.as_slice()),
        None => out.push_str("-"),
    }
}

// Prints the line of the reservation for the client, if a subnet serves the message.
pub(crate) fn put_reservation(
    out: &mut String,
    subnet: Option<&Subnet>,
    reservation: Option<&Reservation>,
) -> Result<(), AllocError>
    ensures { OnOk result (string_bytes out.new ≡ string_bytes out.old
        ++ reservation_line (option_copied subnet.entry) (option_copied reservation.entry)) }
{
    match (subnet, reservation) {
        (None, _) => Ok(()),
        (Some(_), None) => out.push_str("reservation -\n"),
        (Some(_), Some(reservation)) => put_reserved(out, reservation),
    }
}

#[tactic(auto, unfolding(crate::specs::FoundLines::reserved_line))]
fn put_reserved(out: &mut String, reservation: &Reservation) -> Result<(), AllocError>
    ensures { OnOk result (string_bytes out.new
        ≡ string_bytes out.old ++ reserved_line reservation.now) }
{
    out.push_str("reservation ")?;
    put_address_or_dash(out, reservation.address)?;
    out.push_str(" by ")?;
    out.push_str(identity_key(&reservation.identity))?;
    out.push_str("\n")?;
    Ok(())
}

// Returns the configuration key by which the client is named.
fn identity_key(identity: &Identity) -> &'static str
    ensures { result.now ≡ key_word identity.now }
{
    match identity {
        Identity::Hardware(_) => "hw-address",
        Identity::Duid(_) => "duid",
        Identity::Circuit(_) => "circuit-id",
        Identity::ClientId(_) => "client-id",
    }
}
