ghost use Rattle.std.specs.Prelude.{◌≡◌};
ghost use Rattle.kd_event.specs.Reason.{reason_name, reason_number};

use std::fmt;

/// Why a datagram gets no reply.
#[derive(Clone, Copy, PartialEq, Eq)]
pub enum Reason {
    /// The datagram cannot be read as a DHCP message.
    Unreadable,
    /// It is a message that servers send, not clients.
    NotRequest,
    /// Its client has neither a client identifier nor a hardware address.
    NoIdentity,
    /// It is in the class DROP.
    DropClass,
    /// The configuration has no subnet for the client.
    NoSubnet,
    /// No address is left for the client.
    NoAddress,
    /// The message does not name the address that the client asks for or declines.
    NoRequested,
    /// The message is meant for another server.
    OtherServer,
    /// The server has no lease of this client in its subnet.
    NoRecord,
    /// The client does not say which address it has.
    NoCiaddr,
    /// The options that a reply must have do not fit.
    ReplyTooLong,
    /// The client released its lease, which has ended.
    Released,
    /// The address is held back because the client found it in use.
    Declined,
    /// The client releases or declines a lease that it does not hold.
    NotHeld,
}

impl Reason {
    /// Returns the number that is printed, 1 to 14.
    pub fn number(self) -> u8
        ensures { result ≡ reason_number self }
    {
        match self {
            Reason::Unreadable => 1,
            Reason::NotRequest => 2,
            Reason::NoIdentity => 3,
            Reason::DropClass => 4,
            Reason::NoSubnet => 5,
            Reason::NoAddress => 6,
            Reason::NoRequested => 7,
            Reason::OtherServer => 8,
            Reason::NoRecord => 9,
            Reason::NoCiaddr => 10,
            Reason::ReplyTooLong => 11,
            Reason::Released => 12,
            Reason::Declined => 13,
            Reason::NotHeld => 14,
        }
    }

    /// Returns the name that is printed, in ASCII.
    pub fn name(self) -> &'static str
        ensures { result.now ≡ reason_name self }
    {
        match self {
            Reason::Unreadable => "Unreadable",
            Reason::NotRequest => "NotRequest",
            Reason::NoIdentity => "NoIdentity",
            Reason::DropClass => "DropClass",
            Reason::NoSubnet => "NoSubnet",
            Reason::NoAddress => "NoAddress",
            Reason::NoRequested => "NoRequested",
            Reason::OtherServer => "OtherServer",
            Reason::NoRecord => "NoRecord",
            Reason::NoCiaddr => "NoCiaddr",
            Reason::ReplyTooLong => "ReplyTooLong",
            Reason::Released => "Released",
            Reason::Declined => "Declined",
            Reason::NotHeld => "NotHeld",
        }
    }
}

impl fmt::Display for Reason {
    ghost use Rattle.std.specs.Prelude.{Some};
    ghost use Rattle.kd_event.specs.Reason.{reason_name};

    ghost output = { λ reason. Some (reason_name reason) };

    fn fmt<W: fmt::Write>(&self, f: &mut fmt::Formatter<W>) -> fmt::Result {
        let name = self.name();
        write!(f, "{name}")
    }
}
