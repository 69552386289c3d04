use kd_event::Response;
use kd_keeps::Keeps;
use kd_loops::ServeFault;
use kd_server::Server;
use std::alloc::{AllocError, Global};

/// The options of a DISCOVER, after the cookie.
pub(crate) const DISCOVER: &[u8] = b"\x35\x01\x01\xff";

/// What a reply says: its op, xid and yiaddr (RFC 2131 section 2), and its type, which is its first
/// option (RFC 2132 section 9.6).
#[derive(Clone, Copy, PartialEq, Eq)]
pub(crate) struct Reply {
    pub(crate) op: u8,
    pub(crate) xid: u32,
    pub(crate) yiaddr: u32,
    pub(crate) option: [u8; 3],
}

/// The first option of an OFFER.
pub(crate) const OFFER: [u8; 3] = [53, 1, 2];

// Returns the hardware address of a client.
fn hardware(client: u32) -> [u8; 6] {
    let [a, b, c, d] = client.to_be_bytes();
    [10, 0, a, b, c, d]
}

/// Returns the identity of a client that sends only its hardware address.
pub(crate) fn identity(client: u32) -> [u8; 8] {
    let [a, b, c, d, e, f] = hardware(client);
    [0, 1, a, b, c, d, e, f]
}

// Returns the datagram of a client's message, with the client's number as xid.
fn datagram(alloc: Global, client: u32, options: &[u8]) -> Result<Vec<u8>, AllocError> {
    let mut bytes = Vec::from_slice(alloc, &[1, 1, 6, 0])?;
    bytes.extend_from_slice(&client.to_be_bytes())?;
    bytes.resize(28, 0)?;
    bytes.extend_from_slice(&hardware(client))?;
    bytes.resize(236, 0)?;
    bytes.extend_from_slice(&[99, 130, 83, 99])?;
    bytes.extend_from_slice(options)?;
    Ok(bytes)
}

// Returns the byte at a position, and 0 after the end.
fn byte_at(bytes: &[u8], at: usize) -> u8 {
    match bytes.get(at) {
        Some(byte) => *byte,
        None => 0,
    }
}

// Returns the number in the four bytes from a position on.
fn number_at(bytes: &[u8], at: u8) -> u32 {
    let at = usize::from(at);
    u32::from_be_bytes([
        byte_at(bytes, at),
        byte_at(bytes, at + 1),
        byte_at(bytes, at + 2),
        byte_at(bytes, at + 3),
    ])
}

// Returns what the bytes of a reply say.
fn reply_in(bytes: &[u8]) -> Reply {
    Reply {
        op: byte_at(bytes, 0),
        xid: number_at(bytes, 4),
        yiaddr: number_at(bytes, 16),
        option: [
            byte_at(bytes, 240),
            byte_at(bytes, 241),
            byte_at(bytes, 242),
        ],
    }
}

/// Returns what a server replies to a client's message at a time, if it does.
pub(crate) fn answer<S: Keeps>(
    alloc: Global,
    server: &mut Server<S>,
    moment: u64,
    client: u32,
    options: &[u8],
) -> Result<Option<Reply>, ServeFault> {
    let bytes = datagram(alloc, client, options)?;
    match server.handle(moment, bytes.as_slice())?.response {
        Response::Reply(_, reply) => Ok(Some(reply_in(reply.as_slice()))),
        Response::Quiet(_) => Ok(None),
    }
}
