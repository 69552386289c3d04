ghost use Rattle.std.specs.Prelude.{◌≡◌, ℕ, ◌<◌, ◌^◌, IfOk, IfSome};
ghost use Rattle.kd_lease.specs.Change.{AnswersTo, Decides, WhereFits, fits_in};
ghost use Rattle.kd_lease.specs.Client.{reply_room};
ghost use Rattle.kd_lease.specs.Decided.{IsAnswerTo, outcome_in, reply_in};
ghost use Rattle.kd_lease.specs.Rules.{IsSetAt, asking};

use crate::booting::fields_for;
use crate::client::{is_from_server, room_of};
use crate::effects::effect_of;
use crate::grounds::Ground;
use crate::identities::identity_for;
use crate::items::reply_items;
use crate::plan::{Outline, Plan};
use crate::question::Question;
use crate::reply::{fits_room, reply_header};
use crate::verdict::{Decision, Verdict, quiet};
use kd_config::Config;
use kd_event::Reason;
use kd_machine::Held;
use kd_options::{Message, Reply};
use kd_rows::{Row, Rows};
use std::alloc::{AllocError, Global};

/// Decides what a message, whose classes have these names, changes and gets at a given time, in
/// seconds (RFC 2131 section 4.3): the row to set in the table, if any, and the reply to send, or
/// the reason why there is none.
///
/// # Errors
///
/// Out of memory for the client's identity, the row or the reply.
pub fn decide(
    alloc: Global,
    config: &Config,
    rows: &Rows,
    message: &Message<'_>,
    names: &Held,
    moment: u64,
) -> Result<Decision, AllocError>
    requires { moment < 2 ^ 40 }
    ensures decides { IfOk result
        (λ d. Decides config.now rows.now.rows names.now message.now moment d.row
        (outcome_in d.answer)) }
    ensures replies { IfOk result (λ d. IsAnswerTo message.now d.answer) }
    ensures set { IfOk result (λ d. IfSome d.row (IsSetAt moment)) }
{
    decide_on(alloc, Ground::of(config, rows), message, names, moment)
}

/// Decides the same on a ground, which may know the reserved addresses.
///
/// # Errors
///
/// The same as those of `decide`.
pub fn decide_on(
    alloc: Global,
    over: Ground<'_>,
    message: &Message<'_>,
    names: &Held,
    moment: u64,
) -> Result<Decision, AllocError>
    requires { moment < 2 ^ 40 }
    ensures decides { IfOk result
        (λ d. Decides over.entry.config.now over.entry.rows.now.rows names.now message.now moment
        d.row (outcome_in d.answer)) }
    ensures replies { IfOk result (λ d. IsAnswerTo message.now d.answer) }
    ensures set { IfOk result (λ d. IfSome d.row (IsSetAt moment)) }
{
    if is_from_server(message) {
        return Ok(quiet(Reason::NotRequest));
    }
    let Some(client) = identity_for(alloc, over.config, message)? else {
        return Ok(quiet(Reason::NoIdentity));
    };
    if names.contains(b"DROP") {
        return Ok(quiet(Reason::DropClass));
    }
    let question = Question::new(over, names, message, client.as_slice(), moment);
    answer_for(alloc, &question)
}

// Decides what a client's message changes and gets, by the rule of its type.
fn answer_for(alloc: Global, question: &Question<'_>) -> Result<Decision, AllocError>
    requires { question.now.moment < 2 ^ 40 }
    ensures answers { IfOk result
        (λ d. AnswersTo (asking question.now) d.row (outcome_in d.answer)) }
    ensures replies { IfOk result (λ d. IsAnswerTo question.now.message.now d.answer) }
    ensures set { IfOk result (λ d. IfSome d.row (IsSetAt question.now.moment)) }
{
    let Verdict { row, answer } = effect_of(alloc, question)?;
    match answer {
        Ok(outline) => answer_with(alloc, question, row, outline),
        Err(reason) => Ok(Verdict {
            row,
            answer: Err(reason),
        }),
    }
}

// Builds the reply of an outline, with the row to set; there is neither if the reply's mandatory
// options do not fit.
fn answer_with(
    alloc: Global,
    question: &Question<'_>,
    row: Option<Row>,
    outline: Outline,
) -> Result<Decision, AllocError>
    ensures answers { let reply = reply_in (asking question.now) outline.kind outline.yiaddr in
        IfOk result
        (λ d. WhereFits (fits_in (reply_room question.now.message.now) reply) row reply d.row
        (outcome_in d.answer)) }
    ensures replies { IfOk result (λ d. IsAnswerTo question.now.message.now d.answer) }
    ensures set { (moment : ℕ) → IfSome row (IsSetAt moment)
        → IfOk result (λ d. IfSome d.row (IsSetAt moment)) }
{
    let Outline { kind, yiaddr } = outline;
    let room = room_of(question.message);
    let reply = Reply {
        header: reply_header(
            kind,
            yiaddr,
            fields_for(question, kind, yiaddr),
            question.message.header(),
        ),
        items: reply_items(alloc, question, kind, yiaddr)?,
    };
    if !fits_room(&reply, room) {
        return Ok(quiet(Reason::ReplyTooLong));
    }
    Ok(Verdict {
        row,
        answer: Ok(Plan {
            kind,
            yiaddr,
            reply,
            room,
        }),
    })
}
