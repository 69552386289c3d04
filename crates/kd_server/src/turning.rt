ghost use Rattle.std.specs.Prelude.{◌≡◌, ◌≤◌, ◌<◌, ◌^◌, IfErr, IfOk, IfSome, OnErr};
ghost use Rattle.kd_lease.specs.Change.{after};
ghost use Rattle.kd_lease.specs.Decided.{IsAnswerTo, outcome_in};
ghost use Rattle.kd_lease.specs.Rules.{IsSetAt};
ghost use Rattle.kd_options.specs.Reply.{ItemsFit};
ghost use Rattle.kd_loops.specs.Text.{IsSmall};
ghost use Rattle.kd_server.specs.Batch.{LeavesOut};
ghost use Rattle.kd_server.specs.Server.{HasHeader, StepsTo};
ghost use Rattle.kd_server.specs.Step.{Responds};
ghost use Rattle.kd_server.specs.Turn.{IsSent, IsTurn, Turns};
ghost use Rattle.kd_server.specs.Unkept.{IsSettable};

use kd_event::{Handled, Ports, Reason, Response};
use kd_lease::{Ground, Plan, Verdict, classes_held, decide_on, destination};
use kd_loops::ServeFault;
use kd_options::{Message, ReadFault, WriteFault};
use kd_rows::{MOMENTS, Row};
use kd_wire::Bytes;
use std::alloc::{AllocError, Global};

// What an event does: the row that it sets, if any, and what is answered. A time before the latest
// change counts as that of the change.
//
// Errors: `MomentTooLarge` if the time is not below 2^40, and `Memory` if memory runs out.
pub(crate) fn step(
    alloc: Global,
    ports: Ports,
    over: Ground<'_>,
    moment: u64,
    bytes: &[u8],
) -> Result<(Option<Row>, Handled), ServeFault>
    ensures steps { IfOk result (λ t. StepsTo over.entry.config.now ports over.entry.rows.now.rows
        (record { moment = moment; bytes = bytes.now }) t.1 (after over.entry.rows.now.rows t.0)) }
    ensures set { IfOk result (λ t. IfSome t.0 (IsSettable over.entry.rows.now.rows)) }
    ensures small { IfOk result (λ t. IsSmall t.1.response) }
    ensures early { IfOk result (λ t. t.1.now < 2 ^ 40) }
    ensures failed { IfErr result (λ fault. LeavesOut over.entry.rows.now.rows
        (record { moment = moment; bytes = bytes.now }) fault over.entry.rows.now.rows) }
{
    if moment >= MOMENTS {
        return Err(ServeFault::MomentTooLarge);
    }
    let now = moment.max(over.rows.latest());
    let (row, response) = turn_at(alloc, ports, over, now, bytes)?;
    Ok((row, Handled { now, response }))
}

// What a datagram does at this time: the row that it sets, if any, and what is sent. No memory is
// allocated before its header is read.
#[tactic(auto, using(crate::proofs::Headed::message_headed))]
fn turn_at(
    alloc: Global,
    ports: Ports,
    over: Ground<'_>,
    moment: u64,
    bytes: &[u8],
) -> Result<(Option<Row>, Response), AllocError>
    requires { moment < 2 ^ 40 }
    ensures found { IfOk result
        (λ t. IsTurn over.entry.config.now ports over.entry.rows.now.rows moment bytes.now
        t.0 t.1) }
    ensures small { IfOk result (λ t. IsSmall t.1) }
    ensures set { IfOk result (λ t. IfSome t.0 (IsSetAt moment)) }
    ensures memory { OnErr result (HasHeader bytes.now) }
{
    match Message::read(alloc, bytes) {
        Ok(message) => turn_of(alloc, ports, over, moment, &message),
        Err(ReadFault::Memory) => Err(AllocError),
        Err(_) => Ok((None, Response::Quiet(Reason::Unreadable))),
    }
}

// What a message does at this time.
fn turn_of(
    alloc: Global,
    ports: Ports,
    over: Ground<'_>,
    moment: u64,
    message: &Message<'_>,
) -> Result<(Option<Row>, Response), AllocError>
    requires { moment < 2 ^ 40 }
    ensures found { IfOk result
        (λ t. Turns over.entry.config.now ports over.entry.rows.now.rows moment message.now
        t.0 t.1) }
    ensures small { IfOk result (λ t. IsSmall t.1) }
    ensures set { IfOk result (λ t. IfSome t.0 (IsSetAt moment)) }
{
    let names = classes_held(alloc, over, message, moment)?;
    let Verdict { row, answer } = decide_on(alloc, over, message, &names, moment)?;
    let response = response_to(alloc, ports, message, &answer)?;
    Ok((row, response))
}

// What is sent for an answer to a message.
fn response_to(
    alloc: Global,
    ports: Ports,
    message: &Message<'_>,
    answer: &Result<Plan, Reason>,
) -> Result<Response, AllocError>
    requires { IsAnswerTo message.now answer.now }
    ensures found { IfOk result (Responds ports message.now (outcome_in answer.now)) }
    ensures small { IfOk result IsSmall }
{
    match answer {
        Ok(plan) => sent_reply(alloc, ports, message, plan),
        Err(reason) => Ok(Response::Quiet(*reason)),
    }
}

// A planned reply in the form in which it is sent.
fn sent_reply(
    alloc: Global,
    ports: Ports,
    message: &Message<'_>,
    plan: &Plan,
) -> Result<Response, AllocError>
    requires fits { ItemsFit plan.now.room plan.now.reply.items }
    requires least { 300 ≤ plan.now.room }
    requires most { plan.now.room ≤ 1472 }
    ensures found { IfOk result (IsSent ports message.now plan.now) }
    ensures small { IfOk result IsSmall }
{
    match plan.reply.write(alloc, plan.room) {
        Ok(bytes) => Ok(Response::Reply(destination(message, plan, ports), Bytes::own(bytes))),
        Err(WriteFault::Memory) => Err(AllocError),
        Err(WriteFault::TooLong) => unreachable!(),
    }
}
