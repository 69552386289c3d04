ghost use Rattle.std.specs.Prelude.{◌≡◌, ◌==◌, ◌++◌, ℕ, IfOk, List, OnOk, Some, codes, decimal, option_copied, string_bytes};
ghost use Rattle.kd_text.specs.Text.{bytes_text};
ghost use Rattle.kd_explain.specs.Lifetimes.{IsLifetimeOrigin};
ghost use Rattle.kd_explain.specs.OutcomeLines.{AreOptionLines, AreOptionsOf, IsConfiguredWord, IsRequiredWord, IsSentLine, IsSourceWord};
ghost use Rattle.kd_explain.specs.OutcomeLines.{lifetime_word, origin_class, options_address, origin_word, required_word, room_word, term_in, written};

use crate::lifetime_origins::lifetime_origin_of;
use crate::origins::{Origin, origin_of};
use crate::text::Scene;
use crate::words::put_name;
use kd_classes::{ClassDef, Classes};
use kd_config::Subnet;
use kd_lease::{Plan, PlanKind};
use kd_options::codes::{OPTION_CLIENT_IDENTIFIER, OPTION_LEASE_TIME, OPTION_RELAY_INFORMATION};
use kd_options::{Item, Message};
use kd_text::put_bytes;
use std::alloc::{AllocError, Global};
use std::fmt::Write;

// The least room of a reply, in bytes.
const LEAST_ROOM: u16 = 548;

// Where the options of a reply come from, and the reply in the form in which it is written.
#[derive(Clone, Copy)]
pub(crate) struct Sources<'a> {
    scene: &'a Scene<'a>,
    // The address that the configured options are given at.
    address: u32,
    reply: &'a Message<'a>,
}

// Prints a line for each option of a planned reply: its code, its value, where it comes from, and
// whether the written reply has no room for it.
pub(crate) fn put_options(
    out: &mut String,
    scene: &Scene<'_>,
    plan: &Plan,
) -> Result<(), AllocError>
    ensures { OnOk result ((text : List ℕ)
        × AreOptionsOf scene.now.config.now scene.now.message.now scene.now.explanation.now plan.now
        text
        × (string_bytes out.new ≡ string_bytes out.old ++ text)) }
{
    let bytes = bytes_of(scene.alloc, plan)?;
    match Message::read(scene.alloc, bytes.as_slice()) {
        Ok(reply) => {
            let sources = Sources {
                scene,
                address: address_in(plan, scene.message),
                reply: &reply,
            };
            put_items(out, &sources, plan.reply.items.as_slice())
        }
        // A written reply can be read, unless memory runs out.
        Err(_) => Err(AllocError),
    }
}

// Returns the bytes of a planned reply.
fn bytes_of(alloc: Global, plan: &Plan) -> Result<Vec<u8>, AllocError>
    ensures { IfOk result (λ bytes. bytes.items ≡ written plan.now) }
{
    match plan.reply.write(alloc, plan.room.max(LEAST_ROOM)) {
        Ok(bytes) => Ok(bytes),
        // A planned reply fits its room.
        Err(_) => Err(AllocError),
    }
}

// Returns the address that the options and the boot fields of a reply are chosen for: the one that
// it gives, or the one that its client has.
pub(crate) fn address_in(plan: &Plan, message: &Message<'_>) -> u32
    ensures { result
        ≡ options_address plan.now.kind plan.now.yiaddr message.now.header.ciaddr }
{
    match plan.kind {
        PlanKind::InformAck => message.header().ciaddr,
        _ => plan.yiaddr,
    }
}

fn put_items(out: &mut String, sources: &Sources<'_>, items: &[Item]) -> Result<(), AllocError>
    ensures { OnOk result ((text : List ℕ)
        × AreOptionLines (IsSentLine sources.now.scene.now.config.now
        sources.now.scene.now.message.now sources.now.scene.now.explanation.now
        sources.now.address sources.now.reply.now) items.now text
        × (string_bytes out.new ≡ string_bytes out.old ++ text)) }
{
    for item in items {
        put_item(out, sources, item)?;
    }
    Ok(())
}

fn put_item(out: &mut String, sources: &Sources<'_>, item: &Item) -> Result<(), AllocError>
    ensures { OnOk result ((line : List ℕ)
        × IsSentLine sources.now.scene.now.config.now sources.now.scene.now.message.now
        sources.now.scene.now.explanation.now sources.now.address sources.now.reply.now item.now
        line
        × (string_bytes out.new ≡ string_bytes out.old ++ line)) }
{
    put_value(sources.scene.alloc, out, item)?;
    put_source(out, sources, item)?;
    put_room(out, sources.reply.option(item.code))
}

fn put_value(alloc: Global, out: &mut String, item: &Item) -> Result<(), AllocError>
    ensures { OnOk result (string_bytes out.new ≡ string_bytes out.old
        ++ (codes "option " ++ decimal item.now.code ++ codes " " ++ bytes_text item.now.value
        ++ codes " ")) }
{
    let code = item.code;
    write!(out, "option {code} ")?;
    put_bytes(alloc, out, item.value.as_slice())?;
    out.push_str(" ")
}

// Prints whether the written reply has an option.
fn put_room(out: &mut String, value: Option<&[u8]>) -> Result<(), AllocError>
    ensures { OnOk result (string_bytes out.new
        ≡ string_bytes out.old ++ room_word (option_copied value.entry)) }
{
    match value {
        Some(_) => out.push_str("\n"),
        None => out.push_str(": no room\n"),
    }
}

// Prints where an option comes from: the rules for replies, the message, or the configuration.
fn put_source(out: &mut String, sources: &Sources<'_>, item: &Item) -> Result<(), AllocError>
    ensures { OnOk result ((word : List ℕ)
        × IsSourceWord sources.now.scene.now.config.now sources.now.scene.now.message.now
        sources.now.scene.now.explanation.now.names
        (option_copied sources.now.scene.now.explanation.now.subnet) sources.now.address
        item.now.obligatory item.now.code word
        × (string_bytes out.new ≡ string_bytes out.old ++ word)) }
{
    if item.obligatory {
        put_required(out, sources, item.code)
    } else {
        put_configured(out, sources, item.code)
    }
}

// Prints where an option that the reply must have comes from.
fn put_required(out: &mut String, sources: &Sources<'_>, code: u8) -> Result<(), AllocError>
    ensures { OnOk result ((word : List ℕ)
        × IsRequiredWord sources.now.scene.now.config.now
        sources.now.scene.now.explanation.now.names
        (option_copied sources.now.scene.now.explanation.now.subnet) sources.now.address
        (code == 51) code word
        × (string_bytes out.new ≡ string_bytes out.old ++ word)) }
{
    if code == OPTION_LEASE_TIME {
        put_lifetime(out, sources.scene, origin_of_lifetime(sources))
    } else {
        out.push_str(required_by(code))
    }
}

// Returns where the lifetime comes from, unless it is that of the whole server.
fn origin_of_lifetime(sources: &Sources<'_>) -> Option<Origin>
    ensures { IsLifetimeOrigin sources.now.scene.now.config.now
        (term_in sources.now.scene.now.config.now
        (option_copied sources.now.scene.now.explanation.now.subnet) sources.now.address)
        sources.now.scene.now.explanation.now.names result }
{
    let scene = sources.scene;
    match scene.explanation.subnet {
        Some(subnet) => lifetime_origin_of(
            scene.config,
            subnet,
            &scene.explanation.names,
            sources.address,
        ),
        None => None,
    }
}

// Prints where the lifetime comes from.
fn put_lifetime(
    out: &mut String,
    scene: &Scene<'_>,
    origin: Option<Origin>,
) -> Result<(), AllocError>
    ensures { OnOk result (string_bytes out.new
        ≡ string_bytes out.old ++ lifetime_word scene.now.config.now.classes origin) }
{
    match origin {
        Some(_) => put_origin(scene.alloc, out, scene.config.classes(), origin),
        None => out.push_str("reply"),
    }
}

fn required_by(code: u8) -> &'static str
    ensures { result.now ≡ required_word code }
{
    if code == OPTION_CLIENT_IDENTIFIER || code == OPTION_RELAY_INFORMATION {
        "message"
    } else {
        "reply"
    }
}

fn put_configured(out: &mut String, sources: &Sources<'_>, code: u8) -> Result<(), AllocError>
    ensures { OnOk result ((word : List ℕ)
        × IsConfiguredWord sources.now.scene.now.config.now
        sources.now.scene.now.message.now sources.now.scene.now.explanation.now.names
        (option_copied sources.now.scene.now.explanation.now.subnet) sources.now.address code word
        × (string_bytes out.new ≡ string_bytes out.old ++ word)) }
{
    match sources.scene.explanation.subnet {
        Some(subnet) => put_given(out, sources, subnet, code),
        None => out.push_str("-"),
    }
}

// Prints where a configured option comes from in a subnet.
fn put_given(
    out: &mut String,
    sources: &Sources<'_>,
    subnet: &Subnet,
    code: u8,
) -> Result<(), AllocError>
    ensures { OnOk result ((word : List ℕ)
        × IsConfiguredWord sources.now.scene.now.config.now
        sources.now.scene.now.message.now sources.now.scene.now.explanation.now.names
        (Some subnet.now) sources.now.address code word
        × (string_bytes out.new ≡ string_bytes out.old ++ word)) }
{
    let scene = sources.scene;
    let names = &scene.explanation.names;
    let origin = origin_of(
        scene.config,
        subnet,
        names,
        scene.message,
        sources.address,
        code,
    );
    put_origin(scene.alloc, out, scene.config.classes(), origin)
}

// Prints where a configured option, or the value of a boot field, comes from.
pub(crate) fn put_origin(
    alloc: Global,
    out: &mut String,
    classes: &Classes,
    origin: Option<Origin>,
) -> Result<(), AllocError>
    ensures { OnOk result (string_bytes out.new
        ≡ string_bytes out.old ++ origin_word classes.now origin) }
{
    match origin {
        Some(Origin::Reservation) => out.push_str("reservation"),
        Some(Origin::Pool) => out.push_str("pool"),
        Some(Origin::Subnet) => out.push_str("subnet"),
        Some(Origin::Network) => out.push_str("network"),
        Some(Origin::Class(index)) => {
            out.push_str("class ")?;
            put_class(alloc, out, classes.def_at(index))
        }
        Some(Origin::Global) => out.push_str("all"),
        Some(Origin::Mask) => out.push_str("mask"),
        None => out.push_str("-"),
    }
}

fn put_class(alloc: Global, out: &mut String, class: Option<&ClassDef>) -> Result<(), AllocError>
    ensures { OnOk result (string_bytes out.new
        ≡ string_bytes out.old ++ origin_class (option_copied class.entry)) }
{
    match class {
        Some(class) => put_name(alloc, out, class.name.as_slice()),
        None => out.push_str("-"),
    }
}
