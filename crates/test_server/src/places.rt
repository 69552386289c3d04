use crate::days::opened;
use crate::fields::{DIRECT, Fields, bytes_of};
use crate::support::{PORTS, act_on};
use kd_event::{Destination, Mode, Reason, Response};
use kd_lease::{Plan, PlanKind, destination};
use kd_options::{Items, Message, Reply};
use kd_server::Server;
use std::alloc::Global;
use std::test::Fail;
use test_tables::Fused;

// A message's relay, client's address and flags, and the kind of its reply; how that is sent, and
// to which address and port.
type Way = (u32, u32, u16, PlanKind, (Mode, u32, u16));

const WAYS: [Way; 6] = [
    (
        0xc000_02fe,
        0xc000_024d,
        0x8000,
        PlanKind::Nak,
        (Mode::Relay, 0xc000_02fe, 67),
    ),
    (
        0,
        0xc000_024d,
        0,
        PlanKind::Nak,
        (Mode::Broadcast, 0xffff_ffff, 68),
    ),
    (
        0,
        0xc000_024d,
        0x8000,
        PlanKind::Ack,
        (Mode::Unicast, 0xc000_024d, 68),
    ),
    (
        0,
        0,
        0x8000,
        PlanKind::Ack,
        (Mode::Broadcast, 0xffff_ffff, 68),
    ),
    (
        0,
        0,
        0x7fff,
        PlanKind::Ack,
        (Mode::Hardware, 0xc000_020a, 68),
    ),
    (0, 0, 0, PlanKind::Offer, (Mode::Hardware, 0xc000_020a, 68)),
];

// Returns where the reply to a message with these fields goes. The reply gives 192.0.2.10.
fn sent_to(alloc: Global, way: Way) -> Result<Destination, Fail> {
    let (giaddr, ciaddr, flags, kind, _) = way;
    let fields = Fields {
        giaddr,
        ciaddr,
        flags,
        ..DIRECT
    };
    let bytes = bytes_of(alloc, &fields)?;
    let message = Message::read(alloc, bytes.as_slice())?;
    let plan = Plan {
        kind,
        yiaddr: 0xc000_020a,
        reply: Reply {
            header: *message.header(),
            items: Items::own(Vec::new(alloc)),
        },
        room: 548,
    };
    Ok(destination(&message, &plan, PORTS))
}

#[test]
fn a_reply_goes_where_the_message_says(rt: HostRuntime) -> Result<(), Fail> {
    for way in &WAYS {
        let (_, _, _, _, (mode, address, port)) = *way;
        let found = sent_to(rt.alloc(), *way)?;
        assert!(rt; found.mode == mode && found.address == address && found.port == port);
    }
    Ok(())
}

// A DISCOVER's relay, and how it is answered. Its place is the relay's address, or the server's if
// there is no relay.
const RELAYS: [(u32, Result<Mode, Reason>); 3] = [
    (0, Ok(Mode::Hardware)),
    (0xc000_02fe, Ok(Mode::Relay)),
    (0xc633_6401, Err(Reason::NoSubnet)),
];

// Returns how a DISCOVER through this relay is answered.
fn answered(alloc: Global, giaddr: u32) -> Result<Result<Mode, Reason>, Fail> {
    act_on(opened(alloc, 10), |server| answer_of(alloc, server, giaddr))?
}

// Does the same with a server.
fn answer_of(
    alloc: Global,
    server: &mut Server<Fused>,
    giaddr: u32,
) -> Result<Result<Mode, Reason>, Fail> {
    let bytes = bytes_of(alloc, &Fields { giaddr, ..DIRECT })?;
    match server.handle(100, bytes.as_slice())?.response {
        Response::Reply(destination, _) => Ok(Ok(destination.mode)),
        Response::Quiet(reason) => Ok(Err(reason)),
    }
}

#[test]
fn a_message_comes_from_its_relay(rt: HostRuntime) -> Result<(), Fail> {
    for (giaddr, way) in &RELAYS {
        assert!(rt; answered(rt.alloc(), *giaddr)? == *way);
    }
    Ok(())
}
