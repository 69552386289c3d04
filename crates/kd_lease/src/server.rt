ghost use Rattle.std.specs.Prelude.{◌≡◌};
ghost use Rattle.kd_lease.specs.Client.{named_server, set_identifier};
ghost use Rattle.kd_lease.specs.Rules.{renewed_address};
ghost use Rattle.kd_lease.specs.Server.{identifier_set, names_another, other_server, server_identifier};

use crate::fit::{address_in, requested_of};
use kd_config::Config;
use kd_options::Message;
use kd_options::codes::OPTION_SERVER_IDENTIFIER;

// The sub-option of relay information with the server identifier that a relay sets (RFC 5107
// section 4).
const SERVER_IDENTIFIER: u8 = 11;

/// Returns the server that a message names in option 54, in host order (RFC 2132 section 9.7).
pub fn server_of(message: &Message<'_>) -> Option<u32>
    ensures { result ≡ named_server message.now }
{
    address_in(message.option(OPTION_SERVER_IDENTIFIER))
}

/// Returns the server identifier of the reply to a message, as an address in host order: the one that
/// its relay sets (RFC 5107), if the configuration lets relays do so, or else the server's address.
pub fn server_identifier_of(config: &Config, message: &Message<'_>) -> u32
    ensures { result ≡ server_identifier config.now message.now }
{
    match identifier_of(config, message) {
        Some(identifier) => identifier,
        None => config.server(),
    }
}

// Returns the server identifier that the relay of a message sets, if the configuration lets relays do
// so.
fn identifier_of(config: &Config, message: &Message<'_>) -> Option<u32>
    ensures { result ≡ identifier_set config.now message.now }
{
    if config.extensions().sets_server && message.header().giaddr != 0 {
        identifier_in(message)
    } else {
        None
    }
}

// Returns the server identifier in sub-option 11 of the relay information.
fn identifier_in(message: &Message<'_>) -> Option<u32>
    ensures { result ≡ set_identifier message.now }
{
    address_in(message.relay(SERVER_IDENTIFIER))
}

// Reports whether a message names a server that is not this one.
pub(crate) fn is_for_another(config: &Config, message: &Message<'_>) -> bool
    ensures { result ≡ names_another config.now message.now }
{
    let named = server_of(message);
    is_other(config.server(), named) && is_other(server_identifier_of(config, message), named)
}

// Reports whether a server is named, and it is not this one.
fn is_other(server: u32, named: Option<u32>) -> bool
    ensures { result ≡ other_server server named }
{
    match named {
        Some(named) => named != server,
        None => false,
    }
}

/// Returns the address of a REQUEST that names no server, in host order: the address that the
/// client has, or else the one that it asks for (RFC 2131 section 4.3.2).
pub fn renewed_of(message: &Message<'_>) -> Option<u32>
    ensures { result ≡ renewed_address message.now }
{
    let ciaddr = message.header().ciaddr;
    if ciaddr == 0 {
        requested_of(message)
    } else {
        Some(ciaddr)
    }
}
