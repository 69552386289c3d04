use crate::support::{PORTS, Work, datagram, look_at, server_of, with_server};
use kd_config::Config;
use kd_event::{Event, Handled, Reason, Response};
use kd_loops::ServeFault;
use kd_server::Server;
use kd_wire::Bytes;
use std::alloc::{AllocError, Global};
use std::test::Fail;
use test_tables::Fused;

// Makes an INFORM from 192.0.2.77.
fn inform(alloc: Global) -> Result<Vec<u8>, AllocError> {
    datagram(alloc, 1, [192, 0, 2, 77], 8)
}

// Reports whether a server returns its configuration when it is closed.
fn gives_back(alloc: Global) -> Result<bool, ServeFault> {
    match Config::builtin(alloc) {
        Ok(config) => look_at(parts_of(alloc, config), is_given_back),
        Err(AllocError) => Err(ServeFault::Memory),
    }
}

// Returns the configuration and the store that a server returns when it is closed.
fn parts_of(alloc: Global, config: Config) -> Result<(Config, Fused), ServeFault> {
    server_of(alloc, config, PORTS, u64::MAX).map(Server::close)
}

// Reports whether such a configuration has its address and its subnet.
fn is_given_back(closed: &(Config, Fused)) -> bool {
    let (config, _) = closed;
    config.server() == 0xc000_0201 && config.subnets().len() == 1
}

#[test]
fn a_server_gives_its_configuration_back(rt: HostRuntime) -> Result<(), Fail> {
    assert!(rt; gives_back(rt.alloc())?);
    Ok(())
}

// Makes an event at this time with these bytes.
fn event(moment: u64, bytes: Vec<u8>) -> Event {
    Event {
        moment,
        bytes: Bytes::own(bytes),
    }
}

// Returns how many events were handled, and the fault. The first is a reply and the others are
// unreadable.
fn run(server: &mut Server<Fused>, events: &[Event]) -> (usize, Option<ServeFault>) {
    let (list, fault) = server.run(events);
    for (index, handled) in list.iter().enumerate() {
        let is_as_wanted = match &handled.response {
            Response::Reply(..) => index == 0,
            Response::Quiet(reason) => index > 0 && *reason == Reason::Unreadable,
        };
        if !is_as_wanted {
            return (usize::MAX, fault);
        }
    }
    (list.len(), fault)
}

// Makes an INFORM at time 1, and datagrams without bytes at these times.
fn events(alloc: Global, moments: &[u64]) -> Result<Vec<Event>, AllocError> {
    let mut events = Vec::new(alloc);
    put_events(alloc, &mut events, moments)?;
    Ok(events)
}

// Adds them at the end of a list.
fn put_events(alloc: Global, events: &mut Vec<Event>, moments: &[u64]) -> Result<(), AllocError> {
    events.push(event(1, inform(alloc)?))?;
    for moment in moments {
        events.push(event(*moment, Vec::new(alloc)))?;
    }
    Ok(())
}

// Reports whether this many events of such a list are handled, followed by this fault.
fn runs_to(
    alloc: Global,
    server: &mut Server<Fused>,
    moments: &[u64],
    want: (usize, Option<ServeFault>),
) -> Result<bool, AllocError> {
    let events = events(alloc, moments)?;
    Ok(run(server, &events) == want)
}

// Finds whether events that are run together give what they give one by one, and a fault ends the
// list.
#[derive(Drop)]
struct Runs;

impl Work for Runs {
    type Found = bool;

    fn done(self, alloc: Global, server: &mut Server<Fused>) -> Result<bool, Fail> {
        let late = (2, Some(ServeFault::MomentTooLarge));
        let is_whole = runs_to(alloc, server, &[2], (2, None))?;
        Ok(is_whole && runs_to(alloc, server, &[2, 1 << 40, 3], late)?)
    }
}

// No event is left out.
#[test]
fn a_run_ends_at_the_first_fault(rt: HostRuntime) -> Result<(), Fail> {
    assert!(rt; with_server(rt.alloc(), PORTS, Runs)?);
    Ok(())
}

// Returns the time at which the answer to an INFORM was handled.
fn handled(
    alloc: Global,
    server: &mut Server<Fused>,
    moment: u64,
) -> Result<Option<u64>, ServeFault> {
    let bytes = inform(alloc)?;
    let handled = server.handle(moment, bytes.as_slice())?;
    Ok(answered(&handled))
}

// Returns the time at which an event was handled that is answered.
fn answered(handled: &Handled) -> Option<u64> {
    match handled.response {
        Response::Reply(..) => Some(handled.now),
        Response::Quiet(_) => None,
    }
}

// Reports whether an event that is run is handled, or memory was refused; and is handled when it is
// run again.
fn runs_twice(server: &mut Server<Fused>, events: &[Event]) -> bool {
    let first = run(server, events);
    let is_right = first == (0, Some(ServeFault::Memory)) || first == (1, None);
    is_right && run(server, events) == (1, None)
}

// Reports whether an INFORM is answered, or memory was refused; and is answered when it comes again.
fn answers_twice(alloc: Global, server: &mut Server<Fused>) -> Result<bool, Fail> {
    let first = handled(alloc, server, 5);
    let is_right = first == Err(ServeFault::Memory) || first == Ok(Some(5));
    Ok(is_right && handled(alloc, server, 1_000)? == Some(1_000))
}

// Finds whether a run and an event report out of memory when it is refused, and the same call
// repeated gives the same as with enough memory.
#[derive(Drop)]
struct Twice;

impl Work for Twice {
    type Found = bool;

    fn done(self, alloc: Global, server: &mut Server<Fused>) -> Result<bool, Fail> {
        let events = events(alloc, &[])?;
        Ok(runs_twice(server, &events) && answers_twice(alloc, server)?)
    }
}

#[test]
fn want_of_memory_is_answered_as_such(rt: HostRuntime) -> Result<(), Fail> {
    assert!(rt; with_server(rt.alloc(), PORTS, Twice)?);
    Ok(())
}
