ghost use Rattle.std.specs.Prelude.{◌≡◌, ◌++◌, ℕ, List, OnOk, option_copied, string_bytes};
ghost use Rattle.kd_explain.specs.BootLines.{field_text, field_words};
ghost use Rattle.kd_explain.specs.OutcomeLines.{AreBootLines, AreFieldLines, AreServedLines, IsBootLine, boot_line};

use crate::boot_origins::{BootField, boot_origin_of};
use crate::option_lines::{address_in, put_origin};
use crate::origins::Origin;
use crate::text::Scene;
use crate::words::put_name;
use kd_config::Subnet;
use kd_lease::{Plan, PlanKind};
use kd_text::put_address;
use kd_wire::Header;
use std::alloc::{AllocError, Global};

// Prints a line for each boot field of a planned reply to which something gives a value: its name,
// its value, and where that comes from.
pub(crate) fn put_boot_fields(
    out: &mut String,
    scene: &Scene<'_>,
    plan: &Plan,
) -> Result<(), AllocError>
    ensures { OnOk result ((text : List ℕ)
        × AreBootLines scene.now.config.now scene.now.message.now scene.now.explanation.now plan.now
        text
        × (string_bytes out.new ≡ string_bytes out.old ++ text)) }
{
    match plan.kind {
        PlanKind::Nak => Ok(()),
        PlanKind::Offer | PlanKind::Ack | PlanKind::InformAck => put_served(out, scene, plan),
    }
}

// Prints these lines if a subnet serves the message.
fn put_served(out: &mut String, scene: &Scene<'_>, plan: &Plan) -> Result<(), AllocError>
    ensures { OnOk result ((text : List ℕ)
        × AreServedLines scene.now.config.now (option_copied scene.now.explanation.now.subnet)
        scene.now.explanation.now.names scene.now.message.now plan.now text
        × (string_bytes out.new ≡ string_bytes out.old ++ text)) }
{
    match scene.explanation.subnet {
        Some(subnet) => put_fields(out, scene, subnet, plan),
        None => Ok(()),
    }
}

// Prints these lines for a message that a subnet serves.
fn put_fields(
    out: &mut String,
    scene: &Scene<'_>,
    subnet: &Subnet,
    plan: &Plan,
) -> Result<(), AllocError>
    ensures { OnOk result ((text : List ℕ)
        × AreFieldLines scene.now.config.now subnet.now scene.now.explanation.now.names
        scene.now.message.now plan.now text
        × (string_bytes out.new ≡ string_bytes out.old ++ text)) }
{
    put_field(out, scene, subnet, plan, BootField::Siaddr)?;
    put_field(out, scene, subnet, plan, BootField::Sname)?;
    put_field(out, scene, subnet, plan, BootField::File)
}

// Prints the line of a boot field if something gives it a value.
fn put_field(
    out: &mut String,
    scene: &Scene<'_>,
    subnet: &Subnet,
    plan: &Plan,
    field: BootField,
) -> Result<(), AllocError>
    ensures { OnOk result ((line : List ℕ)
        × IsBootLine scene.now.config.now subnet.now scene.now.explanation.now.names
        scene.now.message.now plan.now field line
        × (string_bytes out.new ≡ string_bytes out.old ++ line)) }
{
    let names = &scene.explanation.names;
    let address = address_in(plan, scene.message);
    let origin = boot_origin_of(scene.config, subnet, names, scene.message, address, field);
    put_line(out, scene, &plan.reply.header, field, origin)
}

// Prints the line of a boot field whose value comes from an origin, if it has one.
fn put_line(
    out: &mut String,
    scene: &Scene<'_>,
    header: &Header,
    field: BootField,
    origin: Option<Origin>,
) -> Result<(), AllocError>
    ensures { OnOk result (string_bytes out.new ≡ string_bytes out.old
        ++ boot_line scene.now.config.now.classes header.now field origin) }
{
    match origin {
        Some(_) => {
            put_value(scene.alloc, out, header, field)?;
            out.push_str(" ")?;
            put_origin(scene.alloc, out, scene.config.classes(), origin)?;
            out.push_str("\n")
        }
        None => Ok(()),
    }
}

// Prints the name and the value of a boot field.
fn put_value(
    alloc: Global,
    out: &mut String,
    header: &Header,
    field: BootField,
) -> Result<(), AllocError>
    ensures { OnOk result (string_bytes out.new
        ≡ string_bytes out.old ++ field_words field header.now) }
{
    match field {
        BootField::Siaddr => {
            out.push_str("siaddr ")?;
            put_address(out, header.siaddr)
        }
        BootField::Sname => {
            out.push_str("sname ")?;
            put_text(alloc, out, &header.sname)
        }
        BootField::File => {
            out.push_str("file ")?;
            put_text(alloc, out, &header.file)
        }
    }
}

// Prints the text in a field that zeros fill up.
fn put_text(alloc: Global, out: &mut String, field: &[u8]) -> Result<(), AllocError>
    ensures { OnOk result (string_bytes out.new ≡ string_bytes out.old ++ field_text field.now) }
{
    for byte in field {
        if *byte != 0 {
            put_name(alloc, out, &[*byte])?;
        }
    }
    Ok(())
}
