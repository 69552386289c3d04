// The decision for a message, from only its configuration and table.

use crate::fields::{DIRECT, bytes_of};
use crate::support::act_on;
use kd_config::Config;
use kd_lease::{Decision, Plan, PlanKind, decide};
use kd_options::Message;
use kd_rows::{Row, Rows, State};
use std::alloc::Global;
use std::process::Abort;
use std::test::Fail;
use test_tables::offer_bytes;

// 192.0.2.10, the first address of the built-in pool.
const FIRST: u32 = 0xc000_020a;

// Returns the decision for the DISCOVER of the client 0a0000000001 at time 100, over an empty table
// of the built-in configuration.
fn first_decision(alloc: Global) -> Result<Decision, Fail> {
    act_on(Config::builtin(alloc), |config| decided_by(alloc, config))?
}

// Does the same with a configuration.
fn decided_by(alloc: Global, config: &Config) -> Result<Decision, Fail> {
    let made = Rows::new(Vec::new(alloc));
    act_on(made, |rows| decided_over(alloc, config, rows))?
}

// Does the same over a table.
fn decided_over(alloc: Global, config: &Config, rows: &Rows) -> Result<Decision, Fail> {
    let bytes = bytes_of(alloc, &DIRECT)?;
    let message = Message::read(alloc, bytes.as_slice())?;
    decided_for(alloc, config, rows, &message)
}

// Does the same for a message.
fn decided_for(
    alloc: Global,
    config: &Config,
    rows: &Rows,
    message: &Message<'_>,
) -> Result<Decision, Fail> {
    let names = config.classes().held(alloc, message)?;
    Ok(decide(alloc, config, rows, message, &names, 100)?)
}

// Reports whether the row holds the first address for the client, for a minute.
fn is_held(row: &Row) -> bool {
    row.address == FIRST
        && row.client.as_slice() == [0, 1, 10, 0, 0, 0, 0, 1].as_slice()
        && row.state == State::Offered
        && row.changed == 100
        && row.ends == 160
}

// The room for a client that does not say how much it accepts.
const ROOM: u16 = 548;

// Reports whether the plan is an OFFER of the first address with these bytes.
fn is_offered(alloc: Global, plan: &Plan) -> Result<bool, Fail> {
    let written = plan.reply.write(alloc, ROOM)?;
    let is_first = plan.kind == PlanKind::Offer && plan.yiaddr == FIRST && plan.room == ROOM;
    Ok(is_first && written.as_slice() == offer_bytes(alloc)?.as_slice())
}

#[test]
fn a_discover_over_an_empty_table_sets_a_row_and_is_offered_its_address(
    rt: HostRuntime,
) -> Result<(), Fail> {
    let decision = first_decision(rt.alloc())?;
    expect_offer(&rt, rt.alloc(), &decision)
}

// Checks that a decision sets the row and is that offer.
fn expect_offer(rt: &impl Abort, alloc: Global, decision: &Decision) -> Result<(), Fail> {
    match (&decision.row, &decision.answer) {
        (Some(row), Ok(plan)) => {
            assert!(rt; is_held(row));
            assert!(rt; is_offered(alloc, plan)?);
            Ok(())
        }
        _ => Err("no row or no plan".into()),
    }
}
