ghost use Rattle.std.specs.Prelude.{◌≡◌, ◌<◌, ◌≤◌, ◌∷◌, [], length, option_map, take, true};
ghost use Rattle.kd_loops.specs.Posting.{IsPosted, IsPosted-prop};
ghost use Rattle.kd_loops.specs.Trace.{Comes, Grows};
ghost use Rattle.kd_loops.specs.declared.happening.Happening.TheVariants as happens;

use crate::ends::EndFailed;
use crate::happening::{Happening, Packet};
use crate::link::Link;
use kd_event::{Destination, Event};
use kd_wire::Bytes;
use std::alloc::Global;
use std::marker::{Brand, PhantomData};

// The input of a post, so that a proof can name it.
pub(crate) trait Given {
    ghost use Rattle.std.specs.Prelude.{List};
    ghost use Rattle.kd_event.specs.declared.event.Event.{Event};

    ghost given: { List Event };
}

impl Given for Brand {
    ghost use Rattle.std.specs.Prelude.{[]};

    ghost given = { [] };
}

// An input in memory, as a link: both clocks give the time of the event that came last, or 0, and
// every reply is sent.
#[derive(Drop)]
pub(crate) struct Post<'a, I: Given> {
    pub(crate) alloc: Global,
    pub(crate) input: &'a [Event],
    // How many of the events have come.
    pub(crate) next: usize,
    // How many come after each that was waited for, without being waited for.
    pub(crate) waiting: usize,
    // How many of these are still to come.
    pub(crate) behind: usize,
    pub(crate) moment: u64,
    // What happened, as long as there is memory to keep it.
    pub(crate) log: Option<Vec<Happening>>,
    pub(crate) failed: bool,
    pub(crate) of: PhantomData<I>,
    ghost posted: { IsPosted I.given input.now next moment (option_map (λ log. log.items) log) } by { IsPosted-prop I.given input.now next moment (option_map (λ log. log.items) log) },
}

impl<I: Given> Link for Post<'_, I> {
    ghost use Rattle.std.specs.Prelude.{option_map};

    ghost trace = { λ post. option_map (λ log. log.items) post.log };

    ghost has_failed = { λ post. post.failed };

    fn receive(&mut self, buf: &mut [u8]) -> Result<usize, EndFailed> {
        if self.next >= self.input.len() {
            self.failed = true;
            return Err(EndFailed);
        }
        self.behind = self.waiting;
        Ok(self.give(true, buf))
    }

    fn receive_waiting(&mut self, buf: &mut [u8]) -> Option<usize> {
        if self.behind == 0 || self.next >= self.input.len() {
            return None;
        }
        self.behind -= 1;
        Some(self.give(false, buf))
    }

    fn now(&mut self) -> u64 {
        note(&mut self.log, Happening::Said(self.moment));
        self.moment
    }

    fn steady(&mut self) -> u64 {
        note(&mut self.log, Happening::Passed(self.moment));
        self.moment
    }

    fn send(&mut self, bytes: &[u8], to: Destination) -> Result<(), EndFailed> {
        note_packet(self.alloc, &mut self.log, bytes, to);
        Ok(())
    }
}

impl<I: Given> Post<'_, I> {
    // Delivers the next event: its datagram to the start of the buffer, and its time to the clock;
    // returns the number of bytes delivered.
    fn give(&mut self, waited: bool, buf: &mut [u8]) -> usize
        requires { self.old.next < length self.old.input.now }
        ensures count { result ≤ length buf.new }
        ensures came { Comes waited (option_map (λ log. log.items) self.old.log)
            (option_map (λ log. log.items) self.new.log) (length buf.new) (take result buf.new) }
        ensures failed { self.new.failed ≡ self.old.failed }
    {
        let event = &self.input[self.next];
        self.next += 1;
        self.moment = event.moment;
        let bytes = event.bytes.as_slice();
        deliver(self.alloc, &mut self.log, waited, bytes, buf)
    }
}

// Copies a datagram to the start of a buffer, as far as it fits, notes that it came, and returns
// the number of bytes copied.
fn deliver(
    alloc: Global,
    log: &mut Option<Vec<Happening>>,
    waited: bool,
    datagram: &[u8],
    buf: &mut [u8],
) -> usize
    ensures count { result ≤ length buf.new }
    ensures front { take result buf.new ≡ take (length buf.new) datagram.now }
    ensures noted { Grows (option_map (λ log. log.items) log.old)
        (option_map (λ log. log.items) log.new) (happens.Came waited datagram.now ∷ []) }
{
    match Vec::from_slice(alloc, datagram) {
        Ok(copy) => note(log, Happening::Came(waited, Bytes::own(copy))),
        Err(_) => *log = None,
    }
    copy_front(datagram, buf)
}

// Copies bytes to the start of a buffer, as far as they fit, and returns how many.
fn copy_front(bytes: &[u8], buf: &mut [u8]) -> usize
    ensures count { result ≤ length buf.new }
    ensures front { take result buf.new ≡ take (length buf.new) bytes.now }
{
    let count = bytes.len().min(buf.len());
    buf[..count].copy_from_slice(&bytes[..count]);
    count
}

// Notes that a reply was handed over and sent.
fn note_packet(alloc: Global, log: &mut Option<Vec<Happening>>, bytes: &[u8], to: Destination)
    ensures { Grows (option_map (λ log. log.items) log.old)
        (option_map (λ log. log.items) log.new)
        (happens.Went (record { destination = to; bytes = bytes.now; sent = true }) ∷ []) }
{
    match Vec::from_slice(alloc, bytes) {
        Ok(copy) => note(
            log,
            Happening::Went(Packet {
                destination: to,
                bytes: Bytes::own(copy),
                sent: true,
            }),
        ),
        Err(_) => *log = None,
    }
}

// Notes what happened, or drops the whole log if there is no memory for it.
fn note(log: &mut Option<Vec<Happening>>, happening: Happening)
    ensures { Grows (option_map (λ log. log.items) log.old)
        (option_map (λ log. log.items) log.new) (happening ∷ []) }
{
    if let Some(mut list) = log.take() {
        if let Ok(()) = list.push(happening) {
            *log = Some(list);
        }
    }
}
