ghost use Rattle.std.specs.Prelude.{◌≡◌, ℕ, ◌<◌, ◌^◌, IfOk, IfSome, Err, Ok, Option, Some, option_map};
ghost use Rattle.kd_config.specs.Sound.{IsSound};
ghost use Rattle.kd_lease.specs.Decided.{outcome_for};
ghost use Rattle.kd_lease.specs.Laws.{IsFounded};
ghost use Rattle.kd_lease.specs.Rules.{Does, IsNewest, IsSetAt, Makes, asking, leased_row, offered_to, released_row, row_of_offer};
ghost use Rattle.kd_lease.specs.declared.plan.PlanKind.TheVariants as kinds;

use crate::ages::newest;
use crate::changes::{make_declined_row, make_leased_row, make_released_row, offer_row};
use crate::checks::ending_of;
use crate::matter::Matter;
use crate::plan::{Outline, PlanKind};
use crate::question::Question;
use crate::rule::Ending;
use crate::search::Sought;
use crate::verdict::{Verdict, quiet};
use kd_config::Config;
use kd_event::Reason;
use kd_rows::Row;
use std::alloc::{AllocError, Global};

/// Returns the effect of a message (RFC 2131 section 4.3): the row of the table to set, if any, and
/// the outline of its reply, or the reason why there is none. The checks that come before the
/// message type are not made here.
///
/// # Errors
///
/// Out of memory for the client's identity in the row.
pub fn effect_of(alloc: Global, question: &Question<'_>) -> Result<Verdict<Outline>, AllocError>
    requires { question.now.moment < 2 ^ 40 }
    ensures does { let q = asking question.now in
        IfOk result (λ v. Does q v.row (outcome_for q v.answer)) }
    ensures set { IfOk result (λ v. IfSome v.row (IsSetAt question.now.moment)) }
{
    let verdict = effect(alloc, question)?;
    be_sound(question.config);
    Ok(verdict)
}

// States that a configuration is sound; it does nothing else.
fn be_sound(config: &Config)
    ensures { IsSound config.now }
{
    config.times();
}

// Returns the effect of a message: what the end makes that the checks of its rule give.
fn effect(alloc: Global, question: &Question<'_>) -> Result<Verdict<Outline>, AllocError>
    requires { question.now.moment < 2 ^ 40 }
    ensures { let q = asking question.now in
        IfOk result (λ v. Does q v.row (outcome_for q v.answer)) }
{
    let matter = Matter::new(question);
    effect_by(alloc, &matter, ending_of(&matter))
}

// Returns the effect of a message that ends in this way.
fn effect_by(
    alloc: Global,
    matter: &Matter<'_>,
    ending: Ending,
) -> Result<Verdict<Outline>, AllocError>
    requires early { matter.now.question.now.moment < 2 ^ 40 }
    requires founded { IsFounded (asking matter.now.question.now) matter.now.kind matter.now.address
        ending }
    ensures { let q = asking matter.now.question.now in
        IfOk result (λ v. Makes q matter.now.address ending v.row (outcome_for q v.answer)) }
{
    let question = matter.question;
    match (ending, matter.address) {
        (Ending::Offer, Some(address)) => offer(alloc, question, address),
        (Ending::Lease, Some(address)) => lease(alloc, question, address),
        (Ending::Withhold, Some(address)) => {
            let row = make_declined_row(alloc, question, address);
            Ok(silent(Some(row), Reason::Declined))
        }
        (Ending::Release, Some(address)) => {
            let row = make_released_row(alloc, question, address)?;
            Ok(silent(Some(row), Reason::Released))
        }
        (Ending::GiveBack, _) => Ok(silent(newest_offer(alloc, question)?, Reason::OtherServer)),
        (Ending::Nak, _) => Ok(reply(None, PlanKind::Nak, 0)),
        (Ending::Inform, _) => Ok(reply(None, PlanKind::InformAck, 0)),
        (Ending::Quiet(reason), _) => Ok(quiet(reason)),
        (_, None) => unreachable!(),
    }
}

// Offers an address to the client.
fn offer(
    alloc: Global,
    question: &Question<'_>,
    address: u32,
) -> Result<Verdict<Outline>, AllocError>
    requires { question.now.moment < 2 ^ 40 }
    ensures { IfOk result
        (λ v. v
        ≡ record {
          row = row_of_offer (asking question.now) address;
          answer = Ok (record { kind = kinds.Offer; yiaddr = address });
        }) }
{
    let row = offer_row(alloc, question, address)?;
    Ok(reply(row, PlanKind::Offer, address))
}

// Leases an address to the client.
fn lease(
    alloc: Global,
    question: &Question<'_>,
    address: u32,
) -> Result<Verdict<Outline>, AllocError>
    requires { question.now.moment < 2 ^ 40 }
    ensures { IfOk result
        (λ v. v
        ≡ record {
          row = Some (leased_row (asking question.now) address);
          answer = Ok (record { kind = kinds.Ack; yiaddr = address });
        }) }
{
    let row = make_leased_row(alloc, question, address)?;
    Ok(reply(Some(row), PlanKind::Ack, address))
}

// Returns the row that releases the newest offer to the client, if there is one.
fn newest_offer(alloc: Global, question: &Question<'_>) -> Result<Option<Row>, AllocError>
    ensures { let q = asking question.now in
        IfOk result (λ row. (offer : Option ℕ) × IsNewest q.rows (offered_to q) offer
        × (row ≡ option_map (released_row q) offer)) }
{
    match newest(question, &Sought::Offer) {
        Some(address) => Ok(Some(make_released_row(alloc, question, address)?)),
        None => Ok(None),
    }
}

// Sets a row, or none, and sends a reply.
fn reply(row: Option<Row>, kind: PlanKind, yiaddr: u32) -> Verdict<Outline>
    ensures { result ≡ record { row = row; answer = Ok (record { kind = kind; yiaddr = yiaddr }) } }
{
    Verdict {
        row,
        answer: Ok(Outline { kind, yiaddr }),
    }
}

// Sets a row, or none, and sends no reply, for a reason.
fn silent(row: Option<Row>, reason: Reason) -> Verdict<Outline>
    ensures { result ≡ record { row = row; answer = Err reason } }
{
    Verdict {
        row,
        answer: Err(reason),
    }
}
