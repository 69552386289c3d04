ghost use Rattle.std.specs.Prelude.{◌≡◌, ◌≤◌, [], IfNone, IfOk, IfSome, OnErr, OnOk, false, true, length, take};
ghost use Rattle.kd_loops.specs.Answering.{ArrivesAt, IsArrived};
ghost use Rattle.kd_loops.specs.Arriving.{datagram_room};

use crate::ends::EndFailed;
use crate::link::Link;
use std::alloc::{AllocError, Global};
use std::marker::Model;

// One byte more than the longest datagram that reads as a message, so that a longer one does not
// read as a message.
const DATAGRAM_ROOM: usize = 4_097;

/// An event in a reusable buffer: a datagram of at most 4,097 bytes, and the time of its arrival.
#[derive(Drop)]
pub struct Arrived {
    buffer: Vec<u8>,
    len: usize,
    moment: u64,
}

impl Model for Arrived {
    ghost use Rattle.std.specs.Prelude.{◌≡◌, ◌≤◌, length, take};
    ghost use Rattle.kd_event.specs.declared.event.Event.{Event};
    ghost use Rattle.kd_loops.specs.Arriving.{datagram_room};

    ghost Value = { Event };

    ghost view = { λ a. record { moment = a.moment; bytes = take a.len a.buffer.items } };

    ghost invariant = { λ a. (length a.buffer.items ≡ datagram_room) × (a.len ≤ datagram_room) };
}

impl Arrived {
    /// Makes an event with no bytes, at time 0.
    ///
    /// # Errors
    ///
    /// Out of memory for its buffer.
    pub fn new(alloc: Global) -> Result<Arrived, AllocError>
        ensures { IfOk result (λ event. event ≡ record { moment = 0; bytes = [] }) }
    {
        Arrived::holding(alloc, 0, b"")
    }

    /// Makes the event of a time and a datagram; the datagram is cut off after 4,097 bytes.
    ///
    /// # Errors
    ///
    /// Out of memory for its buffer.
    pub fn holding(alloc: Global, moment: u64, bytes: &[u8]) -> Result<Arrived, AllocError>
        ensures { IfOk result
            (λ event. event ≡ record { moment = moment; bytes = take datagram_room bytes.now }) }
    {
        let len = bytes.len().min(DATAGRAM_ROOM);
        let mut buffer = Vec::with_capacity(alloc, DATAGRAM_ROOM)?;
        buffer.extend_from_slice(&bytes[..len])?;
        buffer.resize(DATAGRAM_ROOM, 0)?;
        Ok(Arrived {
            buffer,
            len,
            moment,
        })
    }

    /// Returns the time of the event, in whole seconds.
    pub fn moment(&self) -> u64
        ensures { result ≡ self.now.moment }
    {
        self.moment
    }

    /// Returns the datagram of the event, at most 4,097 bytes.
    pub fn bytes(&self) -> &[u8]
        ensures value { result.now ≡ self.now.bytes }
        ensures room { length result.now ≤ datagram_room }
    {
        &self.buffer[..self.len]
    }

    // Waits for the next datagram, and reads the clock once it has come.
    pub(crate) fn arrive<L: Link>(&mut self, link: &mut L) -> Result<(), EndFailed>
        ensures came { OnOk result
            (ArrivesAt true (L.trace link.old) (L.trace link.new) self.new) }
        ensures none { OnErr result (L.trace link.new ≡ L.trace link.old) }
        ensures failed { OnErr result (L.has_failed link.new ≡ true) }
    {
        let (len, moment) = receive(link, self.buffer.as_mut_slice())?;
        self.len = len;
        self.moment = moment;
        Ok(())
    }

    // Receives a datagram that has come already, like `arrive`, and reports whether there was one.
    pub(crate) fn arrive_waiting<L: Link>(&mut self, link: &mut L) -> bool
        ensures { IsArrived result (L.trace link.old) (L.trace link.new) self.new }
    {
        let Some((len, moment)) = receive_waiting(link, self.buffer.as_mut_slice()) else {
            return false;
        };
        self.len = len;
        self.moment = moment;
        true
    }
}

// Waits for a datagram and then reads the clock; returns its length in the buffer and its time.
#[tactic(auto, using(crate::proofs::Arrivals::arrives, crate::proofs::Arrivals::bytes_take))]
fn receive<L: Link>(link: &mut L, buffer: &mut [u8]) -> Result<(usize, u64), EndFailed>
    requires { length buffer.old ≡ datagram_room }
    ensures within { IfOk result (λ came. came.0 ≤ length buffer.new) }
    ensures came { IfOk result (λ came. ArrivesAt true (L.trace link.old) (L.trace link.new)
        (record { moment = came.1; bytes = take came.0 buffer.new })) }
    ensures none { OnErr result (L.trace link.new ≡ L.trace link.old) }
    ensures failed { OnErr result (L.has_failed link.new ≡ true) }
{
    let len = link.receive(buffer)?;
    let moment = link.now();
    Ok((len, moment))
}

// Does the same for a datagram that has come already, if there is one; if there is none, the clock
// is not read.
#[tactic(auto, using(crate::proofs::Arrivals::arrives, crate::proofs::Arrivals::bytes_take))]
fn receive_waiting<L: Link>(link: &mut L, buffer: &mut [u8]) -> Option<(usize, u64)>
    requires { length buffer.old ≡ datagram_room }
    ensures within { IfSome result (λ came. came.0 ≤ length buffer.new) }
    ensures came { IfSome result (λ came. ArrivesAt false (L.trace link.old) (L.trace link.new)
        (record { moment = came.1; bytes = take came.0 buffer.new })) }
    ensures none { IfNone result (L.trace link.new ≡ L.trace link.old) }
{
    let len = link.receive_waiting(buffer)?;
    let moment = link.now();
    Some((len, moment))
}
