ghost use Rattle.std.specs.Prelude.{◌≡◌, ◌+◌, ◌<◌, ◌≤◌, ◌∷◌, [], ◌++◌, drop, length};
ghost use Rattle.byteorder.specs.Endian.{big_bytes};
ghost use Rattle.kd_wire.specs.Area.{IsCode, piece, spelled};
ghost use Rattle.kd_wire.specs.Header.{header_bytes};
ghost use Rattle.kd_wire.specs.Put.{with_bytes_at};

use crate::header::{COOKIE, Header};
use byteorder::{BigEndian, ByteOrder};

/// Writes a header and the cookie over the first 240 bytes of `out` (RFC 2131 sections 2 and 3).
pub fn write_header(out: &mut [u8], header: &Header)
    requires { 240 ≤ length out.old }
    ensures written { out.new ≡ header_bytes header.now ++ drop 240 out.old }
    ensures len { length (header_bytes header.now) ≡ 240 }
{
    put_bytes(out, 0, &[header.op, header.htype, header.hlen, header.hops]);
    put_u32(out, 4, header.xid);
    put_u16(out, 8, header.secs);
    put_u16(out, 10, header.flags);
    put_u32(out, 12, header.ciaddr);
    put_u32(out, 16, header.yiaddr);
    put_u32(out, 20, header.siaddr);
    put_u32(out, 24, header.giaddr);
    put_bytes(out, 28, &header.chaddr);
    put_bytes(out, 44, &header.sname);
    put_bytes(out, 108, &header.file);
    put_u32(out, 236, COOKIE);
}

/// Writes a piece of an option (code, length and value) at the offset `at`, and returns the offset
/// after it (RFC 2132 section 2).
pub fn put_piece(out: &mut [u8], at: usize, code: u8, value: &[u8]) -> usize
    requires code { IsCode code }
    requires few { length value.now ≤ 255 }
    requires room { at + 2 + length value.now ≤ length out.old }
    ensures written { out.new ≡ with_bytes_at at (spelled (piece code value.now)) out.old }
    ensures next { result ≡ at + 2 + length value.now }
{
    put_bytes(out, at, &[code, value.len() as u8]);
    put_bytes(out, at + 2, value);
    at + 2 + value.len()
}

/// Writes an End at the offset `at`, and returns the offset after it (RFC 2132 section 3.2).
pub fn put_end(out: &mut [u8], at: usize) -> usize
    requires { at < length out.old }
    ensures written { out.new ≡ with_bytes_at at (255 ∷ []) out.old }
    ensures next { result ≡ at + 1 }
{
    put_bytes(out, at, &[255]);
    at + 1
}

// Writes bytes at an offset.
fn put_bytes(out: &mut [u8], at: usize, bytes: &[u8])
    requires { at + length bytes.now ≤ length out.old }
    ensures { out.new ≡ with_bytes_at at bytes.now out.old }
{
    out[at..at + bytes.len()].copy_from_slice(bytes);
}

// Writes a 2-byte number at an offset.
fn put_u16(out: &mut [u8], at: usize, number: u16)
    requires { at + 2 ≤ length out.old }
    ensures { out.new ≡ with_bytes_at at (big_bytes 2 number) out.old }
{
    BigEndian::write_u16(&mut out[at..at + 2], number);
}

// Writes a 4-byte number at an offset.
fn put_u32(out: &mut [u8], at: usize, number: u32)
    requires { at + 4 ≤ length out.old }
    ensures { out.new ≡ with_bytes_at at (big_bytes 4 number) out.old }
{
    BigEndian::write_u32(&mut out[at..at + 4], number);
}
