ghost use Rattle.std.specs.Prelude.{◌≡◌, ◌++◌, ℕ, List, OnOk, codes, string_bytes};
ghost use Rattle.kd_lease.specs.Change.{asked_for};
ghost use Rattle.kd_lease.specs.Rules.{asking};
ghost use Rattle.kd_explain.specs.CheckLines.{TellsClient, TellsRule, rule_line, end_line, made_lines};
ghost use Rattle.kd_explain.specs.FoundLines.{reaches_rule};
ghost use Rattle.kd_explain.specs.Account.{IsCheckedText};

use crate::finding_lines::{
    put_address_found, put_client_found, put_fits, put_free, put_held, put_lasts, put_offer,
    put_owner, put_prefix_found, put_row_found, put_sender, put_server, put_subnet_found,
};
use crate::moving_lines::{awaited_of, put_stays};
use crate::text::Scene;
use kd_event::Reason;
use kd_lease::{Check, Ending, Ground, Line, Matter, Plan, Question, ending_of, holds, server_of};
use kd_rows::Row;
use kd_wire::Bytes;
use std::alloc::{AllocError, Global};

// Prints a line for each check that the rules make, up to the one at which the message ends (RFC
// 2131 section 4.3). The checks before its type have a line only if the message ends there.
pub(crate) fn put_checks(out: &mut String, scene: &Scene<'_>) -> Result<(), AllocError>
    ensures { OnOk result ((text : List ℕ)
        × IsCheckedText scene.now.config.now scene.now.rows.now.rows scene.now.message.now
        scene.now.moment scene.now.explanation.now text
        × (string_bytes out.new ≡ string_bytes out.old ++ text)) }
{
    match &scene.explanation.decision.answer {
        Err(Reason::NotRequest) => put_sender(out, scene.message),
        Err(Reason::NoIdentity) => out.push_str("check identity: none\n"),
        Err(Reason::DropClass) => out.push_str("check class: the client is in DROP\n"),
        Err(Reason::ReplyTooLong) => put_room(out, scene),
        _ => put_client(out, scene),
    }
}

// Reports whether no check before its type ends the message.
pub(crate) fn is_ruled(answer: &Result<Plan, Reason>) -> bool
    ensures { result ≡ reaches_rule answer.now }
{
    match answer {
        Err(Reason::NotRequest) => false,
        Err(Reason::NoIdentity) => false,
        Err(Reason::DropClass) => false,
        _ => true,
    }
}

// Prints the same of a message whose reply is too long, with a line for its room.
fn put_room(out: &mut String, scene: &Scene<'_>) -> Result<(), AllocError>
    ensures { OnOk result ((text : List ℕ)
        × ((rule : List ℕ) × TellsClient (asked_for scene.now.config.now scene.now.rows.now.rows
        scene.now.explanation.now.names scene.now.message.now scene.now.moment)
        scene.now.explanation.now.decision.row scene.now.explanation.now.client rule
        × (text ≡ rule ++ codes "check room: too small for the options that the reply must have\n"))
        × (string_bytes out.new ≡ string_bytes out.old ++ text)) }
{
    put_client(out, scene)?;
    out.push_str("check room: too small for the options that the reply must have\n")?;
    Ok(())
}

// Prints what is checked by the rule of a message that has a client.
fn put_client(out: &mut String, scene: &Scene<'_>) -> Result<(), AllocError>
    ensures { OnOk result ((text : List ℕ)
        × TellsClient (asked_for scene.now.config.now scene.now.rows.now.rows
        scene.now.explanation.now.names scene.now.message.now scene.now.moment)
        scene.now.explanation.now.decision.row scene.now.explanation.now.client text
        × (string_bytes out.new ≡ string_bytes out.old ++ text)) }
{
    match &scene.explanation.client {
        Some(client) => put_asked(out, scene, client),
        None => Ok(()),
    }
}

fn put_asked(out: &mut String, scene: &Scene<'_>, client: &Bytes) -> Result<(), AllocError>
    ensures { OnOk result ((text : List ℕ)
        × TellsRule (asked_for scene.now.config.now scene.now.rows.now.rows
        scene.now.explanation.now.names scene.now.message.now scene.now.moment client.now)
        scene.now.explanation.now.decision.row text
        × (string_bytes out.new ≡ string_bytes out.old ++ text)) }
{
    let over = Ground::of(scene.config, scene.rows);
    let names = &scene.explanation.names;
    let question = Question::new(over, names, scene.message, client.as_slice(), scene.moment);
    put_rule(scene.alloc, out, &question, &scene.explanation.decision.row)
}

fn put_rule(
    alloc: Global,
    out: &mut String,
    question: &Question<'_>,
    set: &Option<Row>,
) -> Result<(), AllocError>
    ensures { OnOk result ((text : List ℕ) × TellsRule (asking question.now) set.now text
        × (string_bytes out.new ≡ string_bytes out.old ++ text)) }
{
    let matter = Matter::new(question);
    put_made(alloc, out, &matter, matter.rule.checks())?;
    put_end_of(out, ending_of(&matter), set)
}

// Prints the lines of the checks that are made of a message.
#[tactic(auto, unfolding(crate::specs::CheckLines::made_lines))]
fn put_made(
    alloc: Global,
    out: &mut String,
    matter: &Matter<'_>,
    lines: &[Line],
) -> Result<(), AllocError>
    ensures { OnOk result (string_bytes out.new ≡ string_bytes out.old
        ++ made_lines (asking matter.now.question.now) matter.now.rule matter.now.address
        lines.now) }
{
    let mut left = lines;
    while let [line, rest @ ..] = left {
        put_check(alloc, out, matter, line.0)?;
        if !holds(matter, line.0) {
            return Ok(());
        }
        left = rest;
    }
    Ok(())
}

// Prints the offer that is given back, if a message ends so.
fn put_end_of(out: &mut String, ending: Ending, set: &Option<Row>) -> Result<(), AllocError>
    ensures { OnOk result (string_bytes out.new ≡ string_bytes out.old ++ end_line ending set.now) }
{
    match ending {
        Ending::GiveBack => put_offer(out, set),
        _ => Ok(()),
    }
}

// Prints the line of a check.
fn put_check(
    alloc: Global,
    out: &mut String,
    matter: &Matter<'_>,
    check: Check,
) -> Result<(), AllocError>
    ensures { OnOk result (string_bytes out.new ≡ string_bytes out.old
        ++ rule_line (asking matter.now.question.now) matter.now.rule matter.now.address check) }
{
    let Matter { question, .. } = *matter;
    match check {
        Check::Server => put_server(out, holds(matter, check), server_of(question.message)),
        Check::Address => put_address_found(out, matter),
        Check::Choice => Ok(()),
        Check::Subnet => put_subnet_found(out, question.subnet),
        Check::Prefix => put_prefix_found(out, holds(matter, check)),
        Check::Client => {
            let is_authoritative = question.config.extensions().is_authoritative;
            put_client_found(out, is_authoritative, holds(matter, check))
        }
        Check::Owner => {
            put_row_found(alloc, out, matter)?;
            put_owner(out, holds(matter, check))
        }
        Check::Fits => put_fits(out, matter, holds(matter, check)),
        Check::Lasts => put_lasts(out, matter, holds(matter, check)),
        Check::Free => {
            put_row_found(alloc, out, matter)?;
            put_free(out, holds(matter, check))
        }
        Check::Stays => put_stays(
            out,
            holds(matter, check),
            awaited_of(question, matter.address),
        ),
        Check::Held => {
            put_row_found(alloc, out, matter)?;
            put_held(out, holds(matter, check))
        }
    }
}
