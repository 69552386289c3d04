ghost use Rattle.std.specs.Prelude.{◌≡◌, ◌++◌, OnOk, Some, codes, is_some, option_copied, string_bytes};
ghost use Rattle.kd_config.specs.Reservation.{has_reserved};
ghost use Rattle.kd_lease.specs.Choice.{address_reserved, contained, pooled, reserved_anywhere, same_address};
ghost use Rattle.kd_lease.specs.Kept.{if_for_circuit, passes};
ghost use Rattle.kd_lease.specs.Rules.{asking, kept_subnet, passes_in, serving_subnet};
ghost use Rattle.kd_listing.specs.Leases.{word_of_live};
ghost use Rattle.kd_text.specs.Text.{address_text};
ghost use Rattle.kd_explain.specs.CheckLines.{address_line, address_source, fit_words, fits_line, free_line, held_line, kept_words, known_line, lasts_line, network_word, offer_line, owner_line};
ghost use Rattle.kd_explain.specs.CheckLines.{place_words, pool_word, prefix_line, renewed_source, reserved_for_circuit, reserved_in_classes, reserved_word, row_line_at, row_words};
ghost use Rattle.kd_explain.specs.CheckLines.{sender_line, served_line, served_word, server_line, which_word};

use crate::words::{type_name, yes_or_no};
use kd_config::{Identity, Reservation, Subnet};
use kd_lease::{
    Matter, Question, Rule, contains, in_pools, is_own_in_some, is_reserved, reservation_of,
};
use kd_listing::put_row;
use kd_options::Message;
use kd_rows::Row;
use kd_text::{put_address, put_prefix};
use std::alloc::{AllocError, Global};
use std::fmt::Write;

// Prints why a message is one that servers send.
#[tactic(auto, unfolding(crate::specs::CheckLines::sender_line))]
pub(crate) fn put_sender(out: &mut String, message: &Message<'_>) -> Result<(), AllocError>
    ensures { OnOk result (string_bytes out.new ≡ string_bytes out.old ++ sender_line message.now) }
{
    if message.header().op == 2 {
        return out.push_str("check sender: a server, by op 2\n");
    }
    let name = type_name(message.kind());
    writeln!(out, "check sender: a server, by type {name}")
}

// Prints the server that a message names, which is this one or not.
pub(crate) fn put_server(
    out: &mut String,
    is_this: bool,
    named: Option<u32>,
) -> Result<(), AllocError>
    ensures { OnOk result (string_bytes out.new
        ≡ string_bytes out.old ++ server_line is_this named) }
{
    match named {
        Some(named) => put_named_server(out, named, is_this),
        None => out.push_str("check server: none is named\n"),
    }
}

fn put_named_server(out: &mut String, named: u32, is_this: bool) -> Result<(), AllocError>
    ensures { OnOk result (string_bytes out.new ≡ string_bytes out.old
        ++ (codes "check server: " ++ address_text named ++ codes " is " ++ which_word is_this
        ++ codes "\n")) }
{
    out.push_str("check server: ")?;
    put_address(out, named)?;
    out.push_str(" is ")?;
    out.push_str(which(is_this))?;
    out.push_str("\n")
}

fn which(is_this: bool) -> &'static str
    ensures { result.now ≡ which_word is_this }
{
    if is_this { "this one" } else { "another one" }
}

// Prints the offer that a client gives back because it requests from another server.
pub(crate) fn put_offer(out: &mut String, set: &Option<Row>) -> Result<(), AllocError>
    ensures { OnOk result (string_bytes out.new ≡ string_bytes out.old ++ offer_line set.now) }
{
    match set {
        Some(row) => put_offer_at(out, row.address),
        None => out.push_str("check offer: none\n"),
    }
}

fn put_offer_at(out: &mut String, address: u32) -> Result<(), AllocError>
    ensures { OnOk result (string_bytes out.new ≡ string_bytes out.old
        ++ (codes "check offer: " ++ address_text address ++ codes " is given back\n")) }
{
    out.push_str("check offer: ")?;
    put_address(out, address)?;
    out.push_str(" is given back\n")?;
    Ok(())
}

// Prints the address that a message is about, and the field or option that names it.
pub(crate) fn put_address_found(out: &mut String, matter: &Matter<'_>) -> Result<(), AllocError>
    ensures { OnOk result (string_bytes out.new ≡ string_bytes out.old
        ++ address_line matter.now.address
        (address_source matter.now.rule matter.now.question.now.message.now)) }
{
    match matter.address {
        Some(address) => {
            put_address_from(
                out,
                address,
                source_of(matter.rule, matter.question.message),
            )
        }
        None => out.push_str("check address: none\n"),
    }
}

fn put_address_from(out: &mut String, address: u32, source: &str) -> Result<(), AllocError>
    ensures { OnOk result (string_bytes out.new
        ≡ string_bytes out.old ++ (codes "check address: " ++ address_text address
        ++ codes " from " ++ source.now ++ codes "\n")) }
{
    out.push_str("check address: ")?;
    put_address(out, address)?;
    out.push_str(" from ")?;
    out.push_str(source)?;
    out.push_str("\n")
}

fn source_of(rule: Rule, message: &Message<'_>) -> &'static str
    ensures { result.now ≡ address_source rule message.now }
{
    match rule {
        Rule::Renew => source_of_renewed(message),
        Rule::Release => "ciaddr",
        Rule::Inform => "ciaddr",
        _ => "option 50",
    }
}

fn source_of_renewed(message: &Message<'_>) -> &'static str
    ensures { result.now ≡ renewed_source message.now }
{
    if message.header().ciaddr == 0 {
        "option 50"
    } else {
        "ciaddr"
    }
}

// Prints the subnet that serves the message, and whether its shared network does.
pub(crate) fn put_subnet_found(out: &mut String, subnet: Option<&Subnet>) -> Result<(), AllocError>
    ensures { OnOk result (string_bytes out.new
        ≡ string_bytes out.old ++ served_line (option_copied subnet.entry)) }
{
    out.push_str("check subnet: ")?;
    put_served(out, subnet)?;
    out.push_str("\n")
}

fn put_served(out: &mut String, subnet: Option<&Subnet>) -> Result<(), AllocError>
    ensures { OnOk result (string_bytes out.new
        ≡ string_bytes out.old ++ served_word (option_copied subnet.entry)) }
{
    match subnet {
        Some(subnet) => put_served_by(out, subnet),
        None => out.push_str("none"),
    }
}

// Prints the prefix of the subnet that serves the message, and its network if it is in one.
fn put_served_by(out: &mut String, subnet: &Subnet) -> Result<(), AllocError>
    ensures { OnOk result (string_bytes out.new
        ≡ string_bytes out.old ++ served_word (Some subnet.now)) }
{
    put_prefix(out, subnet.prefix.address, subnet.prefix.length)?;
    out.push_str(network_phrase(subnet.network))
}

// Returns what is said of the network with a number.
fn network_phrase(number: u32) -> &'static str
    ensures { result.now ≡ network_word number }
{
    if number == 0 { "" } else { " and its network" }
}

// Prints whether the subnet's prefix, or that of a subnet of its shared network, contains the
// address.
pub(crate) fn put_prefix_found(out: &mut String, has_it: bool) -> Result<(), AllocError>
    ensures { OnOk result (string_bytes out.new ≡ string_bytes out.old ++ prefix_line has_it) }
{
    if has_it {
        out.push_str("check prefix: has the address\n")
    } else {
        out.push_str("check prefix: does not have the address\n")
    }
}

// Prints whether the client has a row at an address of the subnet, or of its shared network.
pub(crate) fn put_client_found(
    out: &mut String,
    is_authoritative: bool,
    is_known: bool,
) -> Result<(), AllocError>
    ensures { OnOk result (string_bytes out.new ≡ string_bytes out.old
        ++ known_line is_authoritative is_known) }
{
    if is_authoritative {
        out.push_str("check client: not asked, the server is authoritative\n")
    } else if is_known {
        out.push_str("check client: known in the subnet\n")
    } else {
        out.push_str("check client: not known in the subnet\n")
    }
}

// Prints the row of the address that a message is about, as `kdhcp leases` does.
pub(crate) fn put_row_found(
    alloc: Global,
    out: &mut String,
    matter: &Matter<'_>,
) -> Result<(), AllocError>
    ensures { OnOk result (string_bytes out.new ≡ string_bytes out.old
        ++ row_line_at (asking matter.now.question.now) matter.now.address) }
{
    match matter.address {
        Some(address) => put_row_line(alloc, out, matter.question, address),
        None => Ok(()),
    }
}

fn put_row_line(
    alloc: Global,
    out: &mut String,
    question: &Question<'_>,
    address: u32,
) -> Result<(), AllocError>
    ensures { OnOk result (string_bytes out.new ≡ string_bytes out.old
        ++ row_line_at (asking question.now) (Some address)) }
{
    out.push_str("check row: ")?;
    put_row_of(alloc, out, question.rows.get(address), question.moment)
}

fn put_row_of(
    alloc: Global,
    out: &mut String,
    row: Option<&Row>,
    moment: u64,
) -> Result<(), AllocError>
    ensures { OnOk result (string_bytes out.new
        ≡ string_bytes out.old ++ row_words moment (option_copied row.entry)) }
{
    match row {
        Some(row) => put_row_at(alloc, out, row, moment),
        None => out.push_str("none\n"),
    }
}

fn put_row_at(alloc: Global, out: &mut String, row: &Row, moment: u64) -> Result<(), AllocError>
    ensures { OnOk result (string_bytes out.new
        ≡ string_bytes out.old ++ row_words moment (Some row.now)) }
{
    put_row(alloc, out, row)?;
    put_live(out, moment < row.ends)
}

fn put_live(out: &mut String, is_live: bool) -> Result<(), AllocError>
    ensures { OnOk result (string_bytes out.new
        ≡ string_bytes out.old ++ (codes " " ++ word_of_live is_live ++ codes "\n")) }
{
    if is_live {
        out.push_str(" live\n")
    } else {
        out.push_str(" past\n")
    }
}

// Prints whether the row is the client's.
pub(crate) fn put_owner(out: &mut String, is_own: bool) -> Result<(), AllocError>
    ensures { OnOk result (string_bytes out.new ≡ string_bytes out.old ++ owner_line is_own) }
{
    if is_own {
        out.push_str("check owner: the client\n")
    } else {
        out.push_str("check owner: not the client\n")
    }
}

// Prints whether an address fits: where it is, and whom it is reserved for.
#[tactic(auto, unfolding(crate::specs::CheckLines::fits_line))]
pub(crate) fn put_fits(
    out: &mut String,
    matter: &Matter<'_>,
    is_fit: bool,
) -> Result<(), AllocError>
    ensures { OnOk result (string_bytes out.new ≡ string_bytes out.old
        ++ fits_line is_fit (asking matter.now.question.now) matter.now.address) }
{
    put_fit(out, is_fit)?;
    put_places(out, matter.question, matter.address)?;
    out.push_str("\n")?;
    Ok(())
}

// Prints whether an address may be renewed: where it is, whom it is reserved for, and whether the
// client keeps its lease.
#[tactic(auto, unfolding(crate::specs::CheckLines::lasts_line))]
pub(crate) fn put_lasts(
    out: &mut String,
    matter: &Matter<'_>,
    lasts: bool,
) -> Result<(), AllocError>
    ensures { OnOk result (string_bytes out.new ≡ string_bytes out.old
        ++ lasts_line lasts (asking matter.now.question.now) matter.now.address) }
{
    put_fit(out, lasts)?;
    put_places(out, matter.question, matter.address)?;
    put_kept(out, matter.question)?;
    Ok(())
}

// Prints whether the client keeps the lease that it renews, and the end of the line.
fn put_kept(out: &mut String, question: &Question<'_>) -> Result<(), AllocError>
    ensures { OnOk result (string_bytes out.new
        ≡ string_bytes out.old ++ kept_words (kept_subnet (asking question.now))) }
{
    out.push_str(kept_phrase(question))
}

fn kept_phrase(question: &Question<'_>) -> &'static str
    ensures { result.now ≡ kept_words (kept_subnet (asking question.now)) }
{
    match question.kept {
        Some(_) => ", the client keeps its lease\n",
        None => "\n",
    }
}

fn put_fit(out: &mut String, is_fit: bool) -> Result<(), AllocError>
    ensures { OnOk result (string_bytes out.new ≡ string_bytes out.old ++ fit_words is_fit) }
{
    out.push_str("check fits: ")?;
    out.push_str(yes_or_no(is_fit))?;
    out.push_str(", ")?;
    Ok(())
}

// Prints whether a pool contains the address, and whom it is reserved for.
fn put_places(
    out: &mut String,
    question: &Question<'_>,
    address: Option<u32>,
) -> Result<(), AllocError>
    ensures { let q = asking question.now in
        OnOk result (string_bytes out.new
        ≡ string_bytes out.old ++ place_words q (serving_subnet q) address) }
{
    out.push_str(pool_phrase(question, address))?;
    out.push_str(", ")?;
    out.push_str(reserved_phrase(question, address))?;
    Ok(())
}

fn pool_phrase(question: &Question<'_>, address: Option<u32>) -> &'static str
    ensures { let q = asking question.now in
        result.now ≡ pool_word (passes_in (pooled q.names) (serving_subnet q) address)
        (passes_in contained (serving_subnet q) address) }
{
    if is_given(question, address) {
        "in a pool"
    } else if is_in_range(question, address) {
        "in a pool of another class"
    } else {
        "in no pool"
    }
}

// Reports whether a pool of the subnet that serves a message has an address for its client.
fn is_given(question: &Question<'_>, address: Option<u32>) -> bool
    ensures { let q = asking question.now in
        result ≡ passes_in (pooled q.names) (serving_subnet q) address }
{
    match (question.subnet, address) {
        (Some(subnet), Some(address)) => in_pools(question.names, subnet, address),
        _ => false,
    }
}

// Reports whether a pool of the subnet that serves a message contains an address, whoever may have
// it.
fn is_in_range(question: &Question<'_>, address: Option<u32>) -> bool
    ensures { result ≡ passes_in contained (serving_subnet (asking question.now)) address }
{
    match (question.subnet, address) {
        (Some(subnet), Some(address)) => contains(subnet, address),
        _ => false,
    }
}

fn reserved_phrase(question: &Question<'_>, address: Option<u32>) -> &'static str
    ensures { let q = asking question.now in
        result.now ≡ reserved_word
        (passes_in (λ s a. same_address (address_reserved q.config q.names q.message s) a)
        (serving_subnet q) address)
        (passes_in reserved_for_circuit (serving_subnet q) address)
        (passes_in (reserved_in_classes q.message) (serving_subnet q) address)
        (passes (reserved_anywhere q.config) address) }
{
    if is_its(question, address) {
        "reserved for the client"
    } else if is_for_circuit(question, address) {
        "reserved for a circuit"
    } else if is_in_classes(question, address) {
        "reserved for the client in its classes"
    } else if is_withheld(question, address) {
        "reserved otherwise"
    } else {
        "not reserved"
    }
}

// Reports whether an address is reserved for the client in the subnet that serves its message.
fn is_its(question: &Question<'_>, address: Option<u32>) -> bool
    ensures { let q = asking question.now in
        result ≡ passes_in (λ s a. same_address (address_reserved q.config q.names q.message s) a)
        (serving_subnet q) address }
{
    match (question.subnet, address) {
        (Some(subnet), Some(address)) => is_reserved_for(question, subnet, address),
        _ => false,
    }
}

fn is_reserved_for(question: &Question<'_>, subnet: &Subnet, address: u32) -> bool
    ensures { let q = asking question.now in
        result ≡ same_address (address_reserved q.config q.names q.message subnet.now) address }
{
    match reservation_of(question.config, question.names, question.message, subnet) {
        Some(reservation) => is_of_address(reservation, address),
        None => false,
    }
}

// Reports whether a reservation has this address.
fn is_of_address(reservation: &Reservation, address: u32) -> bool
    ensures { result ≡ has_reserved address reservation.now }
{
    match reservation.address {
        Some(own) => own == address,
        None => false,
    }
}

// Reports whether the reservation of an address, in the subnet that serves a message, is for a
// circuit.
fn is_for_circuit(question: &Question<'_>, address: Option<u32>) -> bool
    ensures { result
        ≡ passes_in reserved_for_circuit (serving_subnet (asking question.now)) address }
{
    match (question.subnet, address) {
        (Some(subnet), Some(address)) => is_circuits(subnet, address),
        _ => false,
    }
}

fn is_circuits(subnet: &Subnet, address: u32) -> bool
    ensures { result ≡ reserved_for_circuit subnet.now address }
{
    match subnet.reservations.of_address(address) {
        Some(reservation) => names_circuit(reservation),
        None => false,
    }
}

// Reports whether a reservation is for a circuit.
fn names_circuit(reservation: &Reservation) -> bool
    ensures { result ≡ is_some (if_for_circuit (Some reservation.now)) }
{
    match reservation.identity {
        Identity::Circuit(_) => true,
        _ => false,
    }
}

// Reports whether the reservation of an address, in the subnet that serves a message, is for the client
// in some classes.
fn is_in_classes(question: &Question<'_>, address: Option<u32>) -> bool
    ensures { let q = asking question.now in
        result ≡ passes_in (reserved_in_classes q.message) (serving_subnet q) address }
{
    match (question.subnet, address) {
        (Some(subnet), Some(address)) => has_in_classes(question.message, subnet, address),
        _ => false,
    }
}

fn has_in_classes(message: &Message<'_>, subnet: &Subnet, address: u32) -> bool
    ensures { result ≡ reserved_in_classes message.now subnet.now address }
{
    match subnet.reservations.of_address(address) {
        Some(reservation) => is_own_in_some(message, reservation),
        None => false,
    }
}

// Reports whether an address is reserved, for anybody.
fn is_withheld(question: &Question<'_>, address: Option<u32>) -> bool
    ensures { result ≡ passes (reserved_anywhere (asking question.now).config) address }
{
    match address {
        Some(address) => is_reserved(question.config, address),
        None => false,
    }
}

// Prints whether an address is free for the client.
pub(crate) fn put_free(out: &mut String, is_free: bool) -> Result<(), AllocError>
    ensures { OnOk result (string_bytes out.new ≡ string_bytes out.old ++ free_line is_free) }
{
    out.push_str("check free: ")?;
    out.push_str(yes_or_no(is_free))?;
    out.push_str("\n")?;
    Ok(())
}

// Prints whether the client holds an address.
pub(crate) fn put_held(out: &mut String, is_held: bool) -> Result<(), AllocError>
    ensures { OnOk result (string_bytes out.new ≡ string_bytes out.old ++ held_line is_held) }
{
    out.push_str("check held: ")?;
    out.push_str(yes_or_no(is_held))?;
    out.push_str("\n")?;
    Ok(())
}
