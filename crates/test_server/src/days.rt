use crate::fields::{DIRECT, Fields, bytes_of};
use crate::support::{PORTS, act_on, server_of};
use kd_config::Config;
use kd_event::{Mode, Reason, Response};
use kd_keeps::{Cause, StoreFault};
use kd_loops::ServeFault;
use kd_server::Server;
use std::alloc::{AllocError, Global};
use std::test::Fail;
use test_tables::Fused;

/// Why a call returns nothing.
#[derive(Clone, Copy, Debug, PartialEq, Eq)]
pub(crate) enum Fault {
    /// Out of memory.
    Memory,
    /// Any other cause.
    Other,
}

impl From<AllocError> for Fault {
    fn from(_fault: AllocError) -> Fault {
        Fault::Memory
    }
}

// A message: its time, the number at the end of its client's hardware address, its options after
// the cookie, and ciaddr.
type Sent = (u64, u32, &'static [u8], u32);

// The result: the type of a reply, its yiaddr and how it is sent; or the reason why there is none.
#[derive(Clone, Copy, PartialEq, Eq)]
enum Got {
    Reply(u8, u32, Mode),
    Quiet(Reason),
}

// A day: messages, and the result for each.
type Day = &'static [(Sent, Got)];

// The two addresses of the pool. The server's is 192.0.2.1.
const POOL: [u32; 2] = [0xc000_020a, 0xc000_020b];

const DISCOVER: &[u8] = b"\x35\x01\x01\xff";

// A DISCOVER that requests 192.0.2.10, and one that requests .11.
const DISCOVER_10: &[u8] = b"\x35\x01\x01\x32\x04\xc0\x00\x02\x0a\xff";

// REQUESTs to this server for .10 and .11; to 192.0.2.99; and without a server, for .10 and for
// 198.51.100.7.
const SELECT_10: &[u8] = b"\x35\x01\x03\x36\x04\xc0\x00\x02\x01\x32\x04\xc0\x00\x02\x0a\xff";

const SELECT_11: &[u8] = b"\x35\x01\x03\x36\x04\xc0\x00\x02\x01\x32\x04\xc0\x00\x02\x0b\xff";

const OTHER: &[u8] = b"\x35\x01\x03\x36\x04\xc0\x00\x02\x63\x32\x04\xc0\x00\x02\x0a\xff";

const REBOOT_10: &[u8] = b"\x35\x01\x03\x32\x04\xc0\x00\x02\x0a\xff";

const REBOOT_FAR: &[u8] = b"\x35\x01\x03\x32\x04\xc6\x33\x64\x07\xff";

const RENEW: &[u8] = b"\x35\x01\x03\xff";

const RELEASE: &[u8] = b"\x35\x01\x07\xff";

const DECLINE_10: &[u8] = b"\x35\x01\x04\x32\x04\xc0\x00\x02\x0a\xff";

const INFORM: &[u8] = b"\x35\x01\x08\xff";

// An address is offered while it is free, the next client gets the next one, and a third gets none.
// An address that is not requested in time goes to the third.
const OFFERS: Day = &[
    (
        (100, 1, DISCOVER, 0),
        Got::Reply(2, POOL[0], Mode::Hardware),
    ),
    (
        (110, 2, DISCOVER, 0),
        Got::Reply(2, POOL[1], Mode::Hardware),
    ),
    ((120, 3, DISCOVER, 0), Got::Quiet(Reason::NoAddress)),
    (
        (130, 2, SELECT_11, 0),
        Got::Reply(5, POOL[1], Mode::Hardware),
    ),
    ((159, 3, DISCOVER, 0), Got::Quiet(Reason::NoAddress)),
    (
        (160, 3, DISCOVER, 0),
        Got::Reply(2, POOL[0], Mode::Hardware),
    ),
];

// A client that takes another server's offer gives ours back, and the next client gets it.
const OTHERS: Day = &[
    (
        (100, 1, DISCOVER, 0),
        Got::Reply(2, POOL[0], Mode::Hardware),
    ),
    ((105, 1, OTHER, 0), Got::Quiet(Reason::OtherServer)),
    (
        (106, 2, DISCOVER_10, 0),
        Got::Reply(2, POOL[0], Mode::Hardware),
    ),
];

// A client without a row gets no reply; one that requests an address elsewhere gets a NAK.
const STRANGERS: Day = &[
    ((200, 1, REBOOT_FAR, 0), Got::Reply(6, 0, Mode::Broadcast)),
    ((200, 4, REBOOT_10, 0), Got::Quiet(Reason::NoRecord)),
    ((200, 4, RENEW, 0), Got::Quiet(Reason::NoRequested)),
];

// A lease is renewed, even at a time that goes back, but only by its client; it is released once;
// an address that is declined is held back.
const LEASES: Day = &[
    (
        (990, 1, DISCOVER, 0),
        Got::Reply(2, POOL[0], Mode::Hardware),
    ),
    (
        (1000, 1, SELECT_10, 0),
        Got::Reply(5, POOL[0], Mode::Hardware),
    ),
    (
        (10, 1, RENEW, POOL[0]),
        Got::Reply(5, POOL[0], Mode::Unicast),
    ),
    ((10, 2, RENEW, POOL[0]), Got::Quiet(Reason::NoRecord)),
    ((1050, 2, SELECT_10, 0), Got::Reply(6, 0, Mode::Broadcast)),
    ((1100, 1, RELEASE, POOL[0]), Got::Quiet(Reason::Released)),
    ((1100, 1, RELEASE, POOL[0]), Got::Quiet(Reason::NotHeld)),
    ((1100, 1, RELEASE, 0), Got::Quiet(Reason::NoCiaddr)),
    (
        (1200, 1, DISCOVER, 0),
        Got::Reply(2, POOL[0], Mode::Hardware),
    ),
    ((1201, 1, DECLINE_10, 0), Got::Quiet(Reason::Declined)),
    ((1201, 1, DECLINE_10, 0), Got::Quiet(Reason::NotHeld)),
    (
        (1202, 1, DISCOVER, 0),
        Got::Reply(2, POOL[1], Mode::Hardware),
    ),
    (
        (1203, 1, INFORM, 0xc000_024d),
        Got::Reply(5, 0, Mode::Unicast),
    ),
];

/// Opens a server with the built-in configuration, over an empty store on which `calls` calls
/// succeed.
pub(crate) fn opened(alloc: Global, calls: u64) -> Result<Server<Fused>, Fault> {
    match Config::builtin(alloc) {
        Ok(config) => server_of(alloc, config, PORTS, calls).map_err(cause_of),
        Err(AllocError) => Err(Fault::Memory),
    }
}

// Returns why a server returns nothing: out of memory for the event or within its store, or another
// cause.
fn cause_of(fault: ServeFault) -> Fault {
    match fault {
        ServeFault::Memory => Fault::Memory,
        ServeFault::Store(StoreFault::Sql(Cause::OutOfMemory)) => Fault::Memory,
        _ => Fault::Other,
    }
}

// Returns the datagram of a message.
fn datagram(alloc: Global, message: Sent) -> Result<Vec<u8>, AllocError> {
    let (_, client, options, ciaddr) = message;
    bytes_of(
        alloc,
        &Fields {
            client,
            options,
            ciaddr,
            ..DIRECT
        },
    )
}

// Returns the byte at a position, and 0 after the end.
fn byte_at(bytes: &[u8], at: usize) -> u8 {
    match bytes.get(at) {
        Some(byte) => *byte,
        None => 0,
    }
}

// Returns the address that a reply gives, its bytes 16 to 19.
fn yiaddr_of(bytes: &[u8]) -> u32 {
    u32::from_be_bytes([
        byte_at(bytes, 16),
        byte_at(bytes, 17),
        byte_at(bytes, 18),
        byte_at(bytes, 19),
    ])
}

// Returns the result that a response is.
fn received(response: &Response) -> Got {
    match response {
        Response::Quiet(reason) => Got::Quiet(*reason),
        Response::Reply(destination, reply) => {
            let bytes = reply.as_slice();
            Got::Reply(byte_at(bytes, 242), yiaddr_of(bytes), destination.mode)
        }
    }
}

// Returns the result for a message.
fn sent(alloc: Global, server: &mut Server<Fused>, message: Sent) -> Result<Got, Fault> {
    let bytes = datagram(alloc, message)?;
    match server.handle(message.0, bytes.as_slice()) {
        Ok(handled) => Ok(received(&handled.response)),
        Err(fault) => Err(cause_of(fault)),
    }
}

// Returns how many messages of a day had the expected result, up to the first that did not.
fn as_worked_out(alloc: Global, day: &[(Sent, Got)]) -> Result<usize, Fault> {
    act_on(opened(alloc, 1000), |server| right_in(alloc, server, day))?
}

// Does the same over a server.
fn right_in(
    alloc: Global,
    server: &mut Server<Fused>,
    day: &[(Sent, Got)],
) -> Result<usize, Fault> {
    for (right, (message, want)) in day.iter().enumerate() {
        if sent(alloc, server, *message)? != *want {
            return Ok(right);
        }
    }
    Ok(day.len())
}

#[test]
fn an_offer_holds_its_address(rt: HostRuntime) -> Result<(), Fail> {
    assert!(rt; as_worked_out(rt.alloc(), OFFERS)? == 6);
    Ok(())
}

#[test]
fn an_offer_is_given_back_for_that_of_another_server(rt: HostRuntime) -> Result<(), Fail> {
    assert!(rt; as_worked_out(rt.alloc(), OTHERS)? == 3);
    Ok(())
}

#[test]
fn strangers_are_refused_or_not_answered(rt: HostRuntime) -> Result<(), Fail> {
    assert!(rt; as_worked_out(rt.alloc(), STRANGERS)? == 3);
    Ok(())
}

#[test]
fn leases_are_renewed_given_back_and_declined(rt: HostRuntime) -> Result<(), Fail> {
    assert!(rt; as_worked_out(rt.alloc(), LEASES)? == 13);
    Ok(())
}

// Reports whether a server over a store that fails at its second put answers an offer, then reports
// the fault, and then reports failure at the next event.
fn stops_so(alloc: Global, server: &mut Server<Fused>) -> Result<bool, Fault> {
    let first = sent(alloc, server, (100, 1, DISCOVER, 0))?;
    let bytes = datagram(alloc, (110, 2, DISCOVER, 0))?;
    let second = server.handle(110, bytes.as_slice()).map(|_| ());
    let third = server.handle(111, bytes.as_slice()).map(|_| ());
    Ok(
        first == Got::Reply(2, POOL[0], Mode::Hardware)
            && second.map_err(|fault| fault.number()) == Err(92)
            && third == Err(ServeFault::Failed),
    )
}

// Does the same with a server that is opened.
fn stops(alloc: Global) -> Result<bool, Fault> {
    act_on(opened(alloc, 2), |server| stops_so(alloc, server))?
}

#[test]
fn no_reply_is_sent_once_the_store_has_failed(rt: HostRuntime) -> Result<(), Fail> {
    assert!(rt; stops(rt.alloc())?);
    Ok(())
}

// If a memory request is refused, the call reports it; the same day repeated gives the same as with
// enough memory.
#[test]
fn want_of_memory_is_answered_as_such(rt: HostRuntime) -> Result<(), Fail> {
    match as_worked_out(rt.alloc(), OFFERS) {
        Ok(right) => assert!(rt; right == 6),
        Err(fault) => assert!(rt; fault == Fault::Memory),
    }
    assert!(rt; as_worked_out(rt.alloc(), OFFERS)? == 6);
    Ok(())
}
