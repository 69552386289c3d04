/// How a reply is sent (RFC 2131 section 4.1).
#[derive(Clone, Copy, PartialEq, Eq)]
pub enum Mode {
    /// To the relay that the message came through.
    Relay,
    /// To the client's own address.
    Unicast,
    /// To all hosts on the link.
    Broadcast,
    /// To the client's hardware address, with the IP address that the client is assigned.
    Hardware,
}

/// Where a reply goes.
#[derive(Clone, Copy, PartialEq, Eq)]
pub struct Destination {
    /// How it is sent.
    pub mode: Mode,
    /// The IPv4 address, as a number in host byte order.
    pub address: u32,
    /// The UDP port.
    pub port: u16,
}
