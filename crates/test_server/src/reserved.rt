// What clients are offered over a table that withholds the reserved addresses.

use crate::days::Fault;
use crate::fields::{DIRECT, Fields, bytes_of};
use crate::scenes::{BEHIND, Layout, MOMENT, OWNER, POOL, Place, Scene, config_of, leases_of};
use crate::support::act_on;
use kd_config::Config;
use kd_event::Reason;
use kd_lease::{Decision, Leases, Plan, PlanKind, Verdict, decide_on};
use kd_options::{Message, ReadFault};
use kd_rows::{Row, Rows};
use std::alloc::Global;
use std::test::Fail;

// Clients that send a DISCOVER one after another, and the address that each is offered, if any.
type Offers = &'static [(u32, Option<u32>)];

// Two clients without a row and without a reservation.
const STRANGER: u32 = 200_000;

const NEXT: u32 = 200_001;

// Pools of some thousands of addresses, with three hundred reservations.
const LARGE: [(Scene, Offers); 9] = [
    // In an empty pool the reserved addresses are passed over; each is available for its client.
    (
        (4000, Layout::Empty, 300, Place::First),
        &[
            (STRANGER, Some(POOL + 300)),
            (NEXT, Some(POOL + 301)),
            (7, Some(POOL + 7)),
            (299, Some(POOL + 299)),
            (7, Some(POOL + 7)),
            (STRANGER, Some(POOL + 300)),
        ],
    ),
    // The first three hundred gaps are reserved.
    (
        (4000, Layout::Gaps, 300, Place::Vacant),
        &[
            (STRANGER, Some(POOL + 1203)),
            (NEXT, Some(POOL + 1207)),
            (0, Some(POOL + 3)),
            (299, Some(POOL + 1199)),
        ],
    ),
    // The first three hundred addresses are reserved, and three in four of them are leased. The
    // client for which such an address is reserved does not get it, and the client that leases it
    // does not keep it.
    (
        (4000, Layout::Gaps, 300, Place::First),
        &[
            (STRANGER, Some(POOL + 303)),
            (3, Some(POOL + 3)),
            (4, Some(POOL + 307)),
            (OWNER + 4, Some(POOL + 311)),
            (OWNER + 301, Some(POOL + 301)),
        ],
    ),
    // The first three hundred addresses whose rows have ended are reserved. A client gets back the
    // one that it had, unless it is reserved for another.
    (
        (4000, Layout::Ended, 300, Place::Vacant),
        &[
            (STRANGER, Some(POOL + 1203)),
            (NEXT, Some(POOL + 1207)),
            (0, Some(POOL + 3)),
            (OWNER + 1215, Some(POOL + 1215)),
            (OWNER + 7, Some(POOL + 1211)),
        ],
    ),
    // Each address is leased.
    (
        (4000, Layout::Full, 300, Place::Vacant),
        &[
            (STRANGER, None),
            (0, None),
            (OWNER + 3, None),
            (OWNER + 4, Some(POOL + 4)),
        ],
    ),
    // All gaps and all addresses whose rows have ended are reserved.
    (
        (1200, Layout::Gaps, 300, Place::Vacant),
        &[(STRANGER, None), (299, Some(POOL + 1199))],
    ),
    (
        (1200, Layout::Ended, 300, Place::Vacant),
        &[
            (STRANGER, None),
            (OWNER + 1199, None),
            (299, Some(POOL + 1199)),
        ],
    ),
    // The reserved addresses are in no pool.
    (
        (4000, Layout::Empty, 300, Place::Behind),
        &[
            (STRANGER, Some(POOL)),
            (7, Some(BEHIND + 7)),
            (NEXT, Some(POOL + 1)),
        ],
    ),
    (
        (4000, Layout::Full, 300, Place::Behind),
        &[(STRANGER, None), (7, Some(BEHIND + 7))],
    ),
];

// The same with 24 addresses and four reservations.
const SMALL: [(Scene, Offers); 4] = [
    (
        (24, Layout::Empty, 4, Place::First),
        &[(STRANGER, Some(POOL + 4)), (2, Some(POOL + 2))],
    ),
    (
        (24, Layout::Gaps, 4, Place::Vacant),
        &[
            (STRANGER, Some(POOL + 19)),
            (NEXT, Some(POOL + 23)),
            (0, Some(POOL + 3)),
        ],
    ),
    (
        (24, Layout::Ended, 4, Place::Vacant),
        &[
            (STRANGER, Some(POOL + 19)),
            (OWNER + 23, Some(POOL + 23)),
            (1, Some(POOL + 7)),
        ],
    ),
    (
        (24, Layout::Full, 4, Place::Behind),
        &[(STRANGER, None), (0, Some(BEHIND))],
    ),
];

// Returns the decision for a datagram.
fn decided(alloc: Global, leases: &Leases, bytes: &[u8]) -> Result<Decision, Fault> {
    match Message::read(alloc, bytes) {
        Ok(message) => decided_for(alloc, leases, &message),
        Err(ReadFault::Memory) => Err(Fault::Memory),
        Err(_) => Err(Fault::Other),
    }
}

// Returns the decision for a message.
fn decided_for(alloc: Global, leases: &Leases, message: &Message<'_>) -> Result<Decision, Fault> {
    let names = leases.config().classes().held(alloc, message)?;
    let decision = decide_on(alloc, leases.ground(), message, &names, MOMENT)?;
    Ok(decision)
}

// Returns the address in an OFFER, or `None` if there is no address for the client.
fn address_in(answer: &Result<Plan, Reason>) -> Result<Option<u32>, Fault> {
    match answer {
        Ok(plan) if plan.kind == PlanKind::Offer => Ok(Some(plan.yiaddr)),
        Err(Reason::NoAddress) => Ok(None),
        _ => Err(Fault::Other),
    }
}

// Sets a row.
fn set(leases: &mut Leases, row: Row) -> Result<(), Fault> {
    if !row.is_in_range() || row.changed < leases.rows().latest() {
        return Err(Fault::Other);
    }
    if leases.prepare(&row)? {
        leases.set(row);
    }
    Ok(())
}

// Returns what a client is offered for a DISCOVER. The row of the offer is set.
fn offered(alloc: Global, leases: &mut Leases, client: u32) -> Result<Option<u32>, Fault> {
    let bytes = bytes_of(alloc, &Fields { client, ..DIRECT })?;
    let Verdict { row, answer } = decided(alloc, leases, bytes.as_slice())?;
    if let Some(row) = row {
        set(leases, row)?;
    }
    address_in(&answer)
}

// Returns the number of rows, and a sum of what is in them.
fn sum_of(rows: &Rows) -> (usize, u64) {
    let mut sum = 0u64;
    for i in 0..rows.len() {
        if let Some(row) = rows.at(i) {
            let fields = [u64::from(row.address), row.changed, row.ends];
            for field in fields {
                sum = sum.wrapping_mul(31).wrapping_add(field);
            }
        }
    }
    (rows.len(), sum)
}

// Does the same again if there was no memory for it, which must leave the leases as they were.
fn offered_again(alloc: Global, leases: &mut Leases, client: u32) -> Result<Option<u32>, Fault> {
    let before = sum_of(leases.rows());
    match offered(alloc, leases, client) {
        Err(Fault::Memory) => {
            if sum_of(leases.rows()) == before {
                offered(alloc, leases, client)
            } else {
                Err(Fault::Other)
            }
        }
        other => other,
    }
}

// Makes the leases of a scene over its configuration, again if there was no memory for them.
fn leases_over(alloc: Global, scene: &Scene, config: Config) -> Result<Leases, Fault> {
    match leases_of(alloc, scene, config) {
        Err((Fault::Memory, config)) => leases_of(alloc, scene, config).map_err(cause_of),
        other => other.map_err(cause_of),
    }
}

// Returns why there are no leases, and drops their configuration.
fn cause_of(refusal: (Fault, Config)) -> Fault {
    refusal.0
}

// Returns how many clients were offered the expected address, up to the first that was not.
fn right_in(
    alloc: Global,
    leases: &mut Leases,
    offers: &[(u32, Option<u32>)],
) -> Result<usize, Fault> {
    for (right, (client, want)) in offers.iter().enumerate() {
        if offered_again(alloc, leases, *client)? != *want {
            return Ok(right);
        }
    }
    Ok(offers.len())
}

// Does the same in a scene.
fn as_worked_out(
    alloc: Global,
    scene: &Scene,
    offers: &[(u32, Option<u32>)],
) -> Result<usize, Fault> {
    match config_of(alloc, scene) {
        Ok(config) => act_on(leases_over(alloc, scene, config), |leases| {
            right_in(alloc, leases, offers)
        })?,
        Err(fault) => Err(fault),
    }
}

#[test]
fn reserved_addresses_are_passed_over(rt: HostRuntime) -> Result<(), Fail> {
    for (scene, offers) in &LARGE {
        let right = as_worked_out(rt.alloc(), scene, offers)?;
        assert!(rt; right == offers.len(), "{right} of {}", offers.len());
    }
    Ok(())
}

// If a memory request is refused, the call reports it and the leases are as they were; the same
// call repeated gives the same as with enough memory.
#[test]
fn want_of_memory_is_answered_as_such(rt: HostRuntime) -> Result<(), Fail> {
    for (scene, offers) in &SMALL {
        match as_worked_out(rt.alloc(), scene, offers) {
            Ok(right) => assert!(rt; right == offers.len()),
            Err(fault) => assert!(rt; fault == Fault::Memory),
        }
        assert!(rt; as_worked_out(rt.alloc(), scene, offers)? == offers.len());
    }
    Ok(())
}
