ghost use Rattle.std.specs.Prelude.{◌≡◌, ◌≤◌};
ghost use Rattle.kd_options.specs.Kind.{type_number};

/// The type of a DHCP message (RFC 2132 section 9.6).
#[derive(Clone, Copy, PartialEq, Eq)]
pub enum MessageType {
    /// A client looks for servers.
    Discover,
    /// A server offers an address.
    Offer,
    /// A client asks for an address, or for more time with the address that it has.
    Request,
    /// A client found the address in use.
    Decline,
    /// A server grants the request.
    Ack,
    /// A server refuses the request.
    Nak,
    /// A client gives its address back.
    Release,
    /// A client asks only for settings.
    Inform,
}

impl MessageType {
    /// Returns the number on the wire, 1 to 8.
    pub fn number(self) -> u8
        ensures { result ≡ type_number self }
    {
        match self {
            MessageType::Discover => 1,
            MessageType::Offer => 2,
            MessageType::Request => 3,
            MessageType::Decline => 4,
            MessageType::Ack => 5,
            MessageType::Nak => 6,
            MessageType::Release => 7,
            MessageType::Inform => 8,
        }
    }
}

// Returns the type with this number.
pub(crate) fn type_of_number(number: u8) -> MessageType
    requires least { 1 ≤ number }
    requires greatest { number ≤ 8 }
    ensures { type_number result ≡ number }
{
    match number {
        1 => MessageType::Discover,
        2 => MessageType::Offer,
        3 => MessageType::Request,
        4 => MessageType::Decline,
        5 => MessageType::Ack,
        6 => MessageType::Nak,
        7 => MessageType::Release,
        _ => MessageType::Inform,
    }
}
