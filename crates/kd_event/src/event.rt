use crate::destination::Destination;
use crate::reason::Reason;
use kd_wire::Bytes;

/// A datagram and the time at which it came.
#[derive(Drop)]
pub struct Event {
    /// The time at which it came, in whole seconds; a server accepts times below 2^40.
    pub moment: u64,
    /// The datagram, of any length.
    pub bytes: Bytes,
}

/// What the server did with an event.
#[derive(Drop)]
pub struct Handled {
    /// The time that counts for the event, in whole seconds: the event's own time, or the time of
    /// the latest change of a lease if that is later.
    pub now: u64,
    /// What is sent, or why nothing is sent.
    pub response: Response,
}

/// What is sent for an event, or why nothing is sent.
#[derive(Drop)]
pub enum Response {
    /// A reply: where it goes and its bytes.
    Reply(Destination, Bytes),
    /// Nothing is sent, for this reason.
    Quiet(Reason),
}
