ghost use Rattle.std.specs.Prelude.{◌≡◌, ◌<◌, ◌^◌, IfOk, None, option_copied};
ghost use Rattle.kd_lease.specs.Change.{asked_for};
ghost use Rattle.kd_lease.specs.Rules.{asking};
ghost use Rattle.kd_explain.specs.Explaining.{AreFoundFor, AreFoundIn, Explains, IsReservedIn};

use crate::classes::{Trace, trace_classes};
use kd_config::{Config, Reservation, Subnet};
use kd_lease::{
    Decision, Ground, Question, Ranks, decide, identity_for, names_before, ranks_of,
    reservation_of, subnet_kept_for, subnet_or,
};
use kd_machine::{Held, Outcome};
use kd_options::Message;
use kd_rows::Rows;
use kd_wire::Bytes;
use std::alloc::{AllocError, Global};

/// What a message is, and what the rules do with it.
#[derive(Drop)]
pub struct Explanation<'a> {
    /// The identity of its client, if it has one, in the configuration (RFC 2131 section 4.2).
    pub client: Option<Bytes>,
    /// For each class of the configuration, in order, the result of its test; `None` if it has no
    /// test.
    pub outcomes: Vec<Option<Outcome>>,
    /// The names of the classes that the message is in.
    pub names: Held,
    /// The subnet in which its client keeps the lease that it renews, if it does.
    pub kept: Option<&'a Subnet>,
    /// The subnet that serves it, if one does. A shared network serves as one subnet.
    pub subnet: Option<&'a Subnet>,
    /// The reservation for its client in that subnet, if there is one.
    pub reservation: Option<&'a Reservation>,
    /// The first address of each rank, if a subnet serves the message and it has a client.
    pub ranks: Option<Ranks>,
    /// The row that it sets, and the answer to it.
    pub decision: Decision,
}

/// Explains a message at a time, in seconds, over a table of leases.
///
/// # Errors
///
/// Out of memory.
pub fn explain<'a>(
    alloc: Global,
    config: &'a Config,
    rows: &'a Rows,
    message: &'a Message<'a>,
    moment: u64,
) -> Result<Explanation<'a>, AllocError>
    requires { moment < 2 ^ 40 }
    ensures explains { IfOk result (Explains config.now rows.now.rows message.now moment) }
{
    let over = Ground::of(config, rows);
    let start = names_before(alloc, over, message, moment)?;
    let Trace { outcomes, names } = trace_classes(alloc, config.classes(), message, start)?;
    let client = identity_for(alloc, config, message)?;
    let kept = subnet_kept_for(over, message, &client, moment);
    let subnet = subnet_or(kept, config, &names, message);
    let reservation = reservation_in(config, &names, message, subnet);
    let asked = Asked {
        config,
        rows,
        message,
        moment,
    };
    let ranks = found_for(asked, &names, &client, subnet);
    let decision = decide(alloc, config, rows, message, &names, moment)?;
    Ok(Explanation {
        client,
        outcomes,
        names,
        kept,
        subnet,
        reservation,
        ranks,
        decision,
    })
}

// Returns the reservation for the client of a message in a subnet, if there is one.
fn reservation_in<'a>(
    config: &Config,
    names: &Held,
    message: &Message<'_>,
    subnet: Option<&'a Subnet>,
) -> Option<&'a Reservation>
    ensures { IsReservedIn config.now names.now message.now (option_copied subnet.entry)
        (option_copied result) }
{
    match subnet {
        Some(subnet) => reservation_of(config, names, message, subnet),
        None => None,
    }
}

// A question to the rules, without the client and the names of its classes.
#[derive(Clone, Copy)]
struct Asked<'a> {
    config: &'a Config,
    rows: &'a Rows,
    message: &'a Message<'a>,
    moment: u64,
}

// Makes the question for a client whose classes have these names.
fn question_of<'a>(asked: Asked<'a>, names: &'a Held, client: &'a Bytes) -> Question<'a>
    ensures { asking result ≡ asked_for asked.entry.config.now asked.entry.rows.now.rows
        names.now asked.entry.message.now asked.entry.moment client.now }
{
    Question::new(
        Ground::of(asked.config, asked.rows),
        names,
        asked.message,
        client.as_slice(),
        asked.moment,
    )
}

// Returns the first address of each rank for a client in a subnet, if there are both.
fn found_for(
    asked: Asked<'_>,
    names: &Held,
    client: &Option<Bytes>,
    subnet: Option<&Subnet>,
) -> Option<Ranks>
    ensures { AreFoundFor client.now (asked_for asked.entry.config.now asked.entry.rows.now.rows
        names.now asked.entry.message.now asked.entry.moment)
        (option_copied subnet.entry) result }
{
    match client {
        Some(client) => found_in(&question_of(asked, names, client), subnet),
        None => None,
    }
}

// Returns the first address of each rank in a subnet, if there is one.
fn found_in(question: &Question<'_>, subnet: Option<&Subnet>) -> Option<Ranks>
    ensures { AreFoundIn (asking question.now) (option_copied subnet.entry) result }
{
    match subnet {
        Some(subnet) => Some(ranks_of(question, subnet)),
        None => None,
    }
}
