ghost use Rattle.std.specs.Prelude.{◌≡◌};
ghost use Rattle.kd_options.specs.Joined.{value_of};
ghost use Rattle.std.specs.Option.{option_copied};
ghost use Rattle.kd_lease.specs.Client.{circuit_of, client_bytes, duid_in, wants_option, greatest_by, server_message, reply_room};

use kd_config::IdentityKind;
use kd_options::codes::{
    OPTION_CLIENT_IDENTIFIER, OPTION_MAXIMUM_MESSAGE_SIZE, OPTION_PARAMETER_REQUEST_LIST,
};
use kd_options::{Message, MessageType};

// The type of a client identifier that has a DUID in it (RFC 4361 section 6.1).
const DUID_TYPE: u8 = 255;
// The sub-option of relay information with the circuit (RFC 3046 section 3.1).
const CIRCUIT: u8 = 1;

// Reports whether the message is one that servers send.
pub(crate) fn is_from_server(message: &Message<'_>) -> bool
    ensures { result ≡ server_message message.now }
{
    if message.header().op == 2 {
        return true;
    }
    match message.kind() {
        MessageType::Offer => true,
        MessageType::Ack => true,
        MessageType::Nak => true,
        _ => false,
    }
}

/// Reports whether the message asks for the option with this code: option 55 lists it, or is absent
/// (RFC 2132 section 9.8).
pub fn asks_for(message: &Message<'_>, code: u8) -> bool
    ensures { result ≡ wants_option code message.now }
{
    match message.option(OPTION_PARAMETER_REQUEST_LIST) {
        Some(list) => list.contains(&code),
        None => true,
    }
}

// Returns what a message says of its client by a kind of identity.
pub(crate) fn identity_bytes<'a>(message: &'a Message<'_>, kind: IdentityKind) -> Option<&'a [u8]>
    ensures { option_copied result ≡ client_bytes message.now kind }
{
    match kind {
        IdentityKind::Hardware => Some(message.mac()),
        IdentityKind::Duid => duid_behind(message.option(OPTION_CLIENT_IDENTIFIER)),
        IdentityKind::Circuit => circuit(message),
        IdentityKind::ClientId => message.option(OPTION_CLIENT_IDENTIFIER),
    }
}

// Returns the DUID in a client identifier (RFC 4361 section 6.1), if there is one.
fn duid_behind(identifier: Option<&[u8]>) -> Option<&[u8]>
    ensures { option_copied result ≡ duid_in (option_copied identifier.entry) }
{
    match identifier {
        Some([DUID_TYPE, _, _, _, _, duid @ ..]) if !duid.is_empty() => Some(duid),
        _ => None,
    }
}

// Returns the circuit from which the relay of a message has it (RFC 3046 section 3.1), if a relay
// passed it on.
fn circuit<'a>(message: &'a Message<'_>) -> Option<&'a [u8]>
    ensures { option_copied result ≡ circuit_of message.now }
{
    if message.header().giaddr == 0 {
        None
    } else {
        message.relay(CIRCUIT)
    }
}

// Returns the room for the reply, in bytes: 548 to 1472.
pub(crate) fn room_of(message: &Message<'_>) -> u16
    ensures { result ≡ reply_room message.now }
{
    (greatest_of(message).max(576) - 28).min(1472)
}

// Returns the longest message that the client accepts, including the IP and UDP headers.
fn greatest_of(message: &Message<'_>) -> u16
    ensures { result ≡ greatest_by (value_of 57 message.now.options) }
{
    match message.option(OPTION_MAXIMUM_MESSAGE_SIZE) {
        Some([high, low]) => u16::from(*high) * 256 + u16::from(*low),
        _ => 576,
    }
}
