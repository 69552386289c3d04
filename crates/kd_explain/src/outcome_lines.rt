ghost use Rattle.std.specs.Prelude.{◌≡◌, ◌++◌, ℕ, List, OnOk, codes, string_bytes};
ghost use Rattle.kd_text.specs.Text.{address_text};
ghost use Rattle.kd_explain.specs.OutcomeLines.{AreBootLines, AreOptionsOf, IsEndText, silence_line, ends_line, row_word, set_line};

use crate::boot_lines::put_boot_fields;
use crate::option_lines::put_options;
use crate::text::Scene;
use kd_event::Reason;
use kd_lease::{Plan, PlanKind};
use kd_listing::put_row;
use kd_rows::Row;
use kd_text::put_address;
use std::alloc::{AllocError, Global};
use std::fmt::Write;

// Prints how a message ends: the reply, its boot fields and its options, or why there is none.
pub(crate) fn put_end(out: &mut String, scene: &Scene<'_>) -> Result<(), AllocError>
    ensures { OnOk result ((text : List ℕ)
        × IsEndText scene.now.config.now scene.now.message.now scene.now.explanation.now
        scene.now.explanation.now.decision.answer text
        × (string_bytes out.new ≡ string_bytes out.old ++ text)) }
{
    match &scene.explanation.decision.answer {
        Ok(plan) => put_plan(out, scene, plan),
        Err(reason) => put_reason(out, *reason),
    }
}

fn put_reason(out: &mut String, reason: Reason) -> Result<(), AllocError>
    ensures { OnOk result (string_bytes out.new ≡ string_bytes out.old ++ silence_line reason) }
{
    let number = reason.number();
    writeln!(out, "ends quiet {number} {reason}")
}

fn put_plan(out: &mut String, scene: &Scene<'_>, plan: &Plan) -> Result<(), AllocError>
    ensures { OnOk result ((boot : List ℕ) × (options : List ℕ)
        × AreBootLines scene.now.config.now scene.now.message.now scene.now.explanation.now plan.now
        boot
        × AreOptionsOf scene.now.config.now scene.now.message.now scene.now.explanation.now plan.now
        options
        × (string_bytes out.new ≡ string_bytes out.old
        ++ (ends_line plan.now.kind plan.now.yiaddr ++ boot ++ options))) }
{
    put_reply(out, plan)?;
    put_boot_fields(out, scene, plan)?;
    put_options(out, scene, plan)
}

// Prints the type of the reply, and the address that it gives.
fn put_reply(out: &mut String, plan: &Plan) -> Result<(), AllocError>
    ensures { OnOk result (string_bytes out.new
        ≡ string_bytes out.old ++ ends_line plan.now.kind plan.now.yiaddr) }
{
    match plan.kind {
        PlanKind::Offer => put_given(out, "ends OFFER ", plan.yiaddr),
        PlanKind::Ack => put_given(out, "ends ACK ", plan.yiaddr),
        PlanKind::InformAck => out.push_str("ends ACK\n"),
        PlanKind::Nak => out.push_str("ends NAK\n"),
    }
}

fn put_given(out: &mut String, words: &str, address: u32) -> Result<(), AllocError>
    ensures { OnOk result (string_bytes out.new
        ≡ string_bytes out.old ++ (words.now ++ address_text address ++ codes "\n")) }
{
    out.push_str(words)?;
    put_address(out, address)?;
    out.push_str("\n")
}

// Prints the row that a message sets.
pub(crate) fn put_row_set(
    alloc: Global,
    out: &mut String,
    row: &Option<Row>,
) -> Result<(), AllocError>
    ensures { OnOk result (string_bytes out.new ≡ string_bytes out.old ++ set_line row.now) }
{
    out.push_str("row ")?;
    put_row_found(alloc, out, row)?;
    out.push_str("\n")
}

fn put_row_found(alloc: Global, out: &mut String, row: &Option<Row>) -> Result<(), AllocError>
    ensures { OnOk result (string_bytes out.new ≡ string_bytes out.old ++ row_word row.now) }
{
    match row {
        Some(row) => put_row(alloc, out, row),
        None => out.push_str("-"),
    }
}
