ghost use Rattle.std.specs.Prelude.{◌≡◌, ◌++◌, IfOk, None};
ghost use Rattle.kd_options.specs.Joined.{value_of};
ghost use Rattle.kd_lease.specs.Client.{client_identity, hardware_identity, identity_by, identity_by_hardware, identity_under};

use kd_config::Config;
use kd_options::Message;
use kd_options::codes::OPTION_CLIENT_IDENTIFIER;
use kd_wire::Bytes;
use std::alloc::{AllocError, Global};

/// Returns the identity of a message's client (RFC 2131 section 4.2, RFC 2132 section 9.14): 1
/// followed by its client identifier, if it sends one that is not empty; otherwise 0, its hardware
/// type and its hardware address; none if it has neither.
///
/// # Errors
///
/// Out of memory.
pub fn identity(alloc: Global, message: &Message<'_>) -> Result<Option<Bytes>, AllocError>
    ensures { IfOk result (λ found. found ≡ client_identity message.now) }
{
    match identifier(alloc, message)? {
        Some(client) => Ok(Some(client)),
        None => by_hardware(alloc, message.header().htype, message.mac()),
    }
}

/// Returns the identity of a message's client in a configuration: the same, or where client
/// identifiers are ignored, 0 with its hardware type and its hardware address, and only if it has
/// none by its client identifier (Kea Administrator Reference Manual, Using Client Identifier and
/// Hardware Address).
///
/// # Errors
///
/// Out of memory.
pub fn identity_for(
    alloc: Global,
    config: &Config,
    message: &Message<'_>,
) -> Result<Option<Bytes>, AllocError>
    ensures { IfOk result (λ found. found ≡ identity_under config.now message.now) }
{
    if config.extensions().ignores_client_ids {
        identity_first_by_hardware(alloc, message)
    } else {
        identity(alloc, message)
    }
}

// Returns the identity of a client by its hardware, or else by its identifier.
fn identity_first_by_hardware(
    alloc: Global,
    message: &Message<'_>,
) -> Result<Option<Bytes>, AllocError>
    ensures { IfOk result (λ found. found ≡ hardware_identity message.now) }
{
    match by_hardware(alloc, message.header().htype, message.mac())? {
        Some(client) => Ok(Some(client)),
        None => identifier(alloc, message),
    }
}

// Returns 1 followed by the client identifier of a message, if it has one that is not empty.
fn identifier(alloc: Global, message: &Message<'_>) -> Result<Option<Bytes>, AllocError>
    ensures { IfOk result
        (λ found. found ≡ identity_by (value_of 61 message.now.options) None) }
{
    match message.option(OPTION_CLIENT_IDENTIFIER) {
        Some([first, rest @ ..]) => Ok(Some(join_bytes(alloc, &[1, *first], rest)?)),
        _ => Ok(None),
    }
}

// Returns the identity by hardware type and address, if there is an address.
fn by_hardware(alloc: Global, htype: u8, mac: &[u8]) -> Result<Option<Bytes>, AllocError>
    ensures { IfOk result (λ found. found ≡ identity_by_hardware htype mac.now) }
{
    match mac {
        [] => Ok(None),
        [first, rest @ ..] => Ok(Some(join_bytes(alloc, &[0, htype, *first], rest)?)),
    }
}

// Joins two lists of bytes.
fn join_bytes(alloc: Global, front: &[u8], back: &[u8]) -> Result<Bytes, AllocError>
    ensures { IfOk result (λ bytes. bytes ≡ front.now ++ back.now) }
{
    let mut bytes = Vec::with_capacity(alloc, front.len().saturating_add(back.len()))?;
    bytes.extend_from_slice(front)?;
    bytes.extend_from_slice(back)?;
    Ok(Bytes::own(bytes))
}
