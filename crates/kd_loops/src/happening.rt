use kd_event::Destination;
use kd_wire::Bytes;

/// A reply that was handed over to be sent.
#[derive(Drop)]
pub struct Packet {
    /// Where it goes.
    pub destination: Destination,
    /// Its bytes.
    pub bytes: Bytes,
    /// Whether it was sent.
    pub sent: bool,
}

/// What happened at a link.
#[derive(Drop)]
pub enum Happening {
    /// A datagram came: whether it was waited for, and all its bytes.
    Came(bool, Bytes),
    /// The clock gave this time, in whole seconds.
    Said(u64),
    /// The steady clock had counted this many whole seconds.
    Passed(u64),
    /// A reply was handed over to be sent.
    Went(Packet),
}
