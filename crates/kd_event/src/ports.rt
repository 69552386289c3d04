/// The UDP ports of a server and its clients (RFC 2131 section 4.1).
#[derive(Clone, Copy, PartialEq, Eq)]
pub struct Ports {
    /// The port on which servers and relays receive: 67 unless set otherwise.
    pub server: u16,
    /// The port on which clients receive: 68 unless set otherwise.
    pub client: u16,
}

impl Ports {
    /// The ports of DHCP (RFC 2131 section 4.1).
    pub const STANDARD: Ports = Ports {
        server: 67,
        client: 68,
    };
}
