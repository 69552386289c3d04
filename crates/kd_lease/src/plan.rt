use kd_options::Reply;

/// The kind of a planned reply (RFC 2131 sections 3.1 and 4.3).
#[derive(Clone, Copy, PartialEq, Eq)]
pub enum PlanKind {
    /// An OFFER of an address.
    Offer,
    /// An ACK that grants an address.
    Ack,
    /// An ACK of an INFORM, which grants only settings.
    InformAck,
    /// A NAK.
    Nak,
}

/// The outline of a reply, from which its options follow.
#[derive(Clone, Copy, PartialEq, Eq)]
pub struct Outline {
    /// The kind of the reply.
    pub kind: PlanKind,
    /// The client's new address, or zero.
    pub yiaddr: u32,
}

/// A reply before it is encoded and sent.
#[derive(Drop)]
pub struct Plan {
    /// The kind of the reply.
    pub kind: PlanKind,
    /// The client's new address, or zero.
    pub yiaddr: u32,
    /// The reply.
    pub reply: Reply,
    /// The room for the reply, in bytes: 548 to 1472.
    pub room: u16,
}
