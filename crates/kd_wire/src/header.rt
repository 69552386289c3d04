ghost use Rattle.std.specs.Prelude.{◌≡◌, ◌≤◌, IfOk, length};
ghost use Rattle.kd_wire.specs.Header.{header_of, header_read, fault_number};

use byteorder::{BigEndian, ByteOrder};
use std::fmt;
use thiserror::Error;

/// The fields of a DHCP message from `op` to `file` (RFC 2131 section 2), in the order of the
/// datagram. Addresses are numbers in host byte order.
#[derive(Clone, Copy, PartialEq, Eq)]
pub struct Header {
    /// 1 from a client, 2 from a server.
    pub op: u8,
    /// The type of link-layer address; 1 is Ethernet.
    pub htype: u8,
    /// The length in bytes that the sender states for its link-layer address; may exceed 16.
    pub hlen: u8,
    /// The number of relays that passed the message on.
    pub hops: u8,
    /// The transaction ID, which the client chose.
    pub xid: u32,
    /// The seconds since the client began, as the client counts them.
    pub secs: u16,
    /// The flags; the leftmost bit asks for a broadcast reply.
    pub flags: u16,
    /// The address that the client says it has.
    pub ciaddr: u32,
    /// "Your" address, which the server assigns.
    pub yiaddr: u32,
    /// The next server to use in booting.
    pub siaddr: u32,
    /// The address of the relay that the message came through, or zero.
    pub giaddr: u32,
    /// The client's link-layer address and the bytes that fill the field.
    pub chaddr: [u8; 16],
    /// The server's name, or options (option 52, RFC 2132 section 9.3).
    pub sname: [u8; 64],
    /// The boot file's name, or options (option 52, RFC 2132 section 9.3).
    pub file: [u8; 128],
}

/// Why bytes do not have the header of a DHCP message.
#[derive(Clone, Copy, PartialEq, Eq, Error)]
pub enum WireFault {
    /// The datagram has fewer than the 240 bytes of the header and the cookie.
    #[error("Short")]
    Short,
    /// The datagram has more than 4,096 bytes.
    #[error("Long")]
    Long,
    /// The four bytes after the header are not 99, 130, 83, 99 (RFC 2131 section 3).
    #[error("Cookie")]
    Cookie,
    /// The field `op` is neither 1 nor 2.
    #[error("BadOp")]
    BadOp,
}

impl fmt::Debug for WireFault {
    fn fmt<W: fmt::Write>(&self, f: &mut fmt::Formatter<W>) -> fmt::Result {
        fmt::Display::fmt(self, f)
    }
}

impl WireFault {
    /// Returns the fault's number, 1 to 4.
    pub fn number(self) -> u8
        ensures { result ≡ fault_number self }
    {
        match self {
            WireFault::Short => 1,
            WireFault::Long => 2,
            WireFault::Cookie => 3,
            WireFault::BadOp => 4,
        }
    }
}

const HEADER_AND_COOKIE: usize = 240;

const LONGEST_DATAGRAM: usize = 4096;

pub(crate) const COOKIE: u32 = 0x6382_5363;

impl Header {
    /// Returns the header of a datagram of 240 to 4,096 bytes that has the cookie of RFC 2131
    /// section 3.
    ///
    /// # Errors
    ///
    /// The first of `Short`, `Long`, `Cookie` and `BadOp` that applies.
    #[tactic(auto, unfolding(crate::specs::Header::header_read))]
    pub fn read(bytes: &[u8]) -> Result<Header, WireFault>
        ensures read { result ≡ header_read bytes.now }
        ensures room { IfOk result (λ _. (240 ≤ length bytes.now) × (length bytes.now ≤ 4096)) }
    {
        if bytes.len() < HEADER_AND_COOKIE {
            return Err(WireFault::Short);
        }
        if bytes.len() > LONGEST_DATAGRAM {
            return Err(WireFault::Long);
        }
        if BigEndian::read_u32(&bytes[236..240]) != COOKIE {
            return Err(WireFault::Cookie);
        }
        if bytes[0] != 1 && bytes[0] != 2 {
            return Err(WireFault::BadOp);
        }
        Ok(fields_of(bytes))
    }
}

// Reads each field at its offset.
#[tactic(auto, unfolding(crate::specs::Header::header_of))]
fn fields_of(bytes: &[u8]) -> Header
    requires { 240 ≤ length bytes.now }
    ensures { result ≡ header_of bytes.now }
{
    let mut chaddr = [0; 16];
    chaddr.copy_from_slice(&bytes[28..44]);
    let mut sname = [0; 64];
    sname.copy_from_slice(&bytes[44..108]);
    let mut file = [0; 128];
    file.copy_from_slice(&bytes[108..236]);
    Header {
        op: bytes[0],
        htype: bytes[1],
        hlen: bytes[2],
        hops: bytes[3],
        xid: BigEndian::read_u32(&bytes[4..8]),
        secs: BigEndian::read_u16(&bytes[8..10]),
        flags: BigEndian::read_u16(&bytes[10..12]),
        ciaddr: BigEndian::read_u32(&bytes[12..16]),
        yiaddr: BigEndian::read_u32(&bytes[16..20]),
        siaddr: BigEndian::read_u32(&bytes[20..24]),
        giaddr: BigEndian::read_u32(&bytes[24..28]),
        chaddr,
        sname,
        file,
    }
}
