use crate::support::{COOKIE, expect, is_written};
use kd_wire::{Bytes, Cut, Header, Pieces, pieces, put_end, put_piece, write_header};
use std::alloc::AllocError;
use std::test::Fail;

// Each byte after op is its own offset.
#[test]
fn a_header_stands_at_its_offsets_and_is_written_there(rt: HostRuntime) -> Result<(), Fail> {
    let mut bytes = Vec::new(rt.alloc());
    put_offsets(&mut bytes)?;
    expect_header(&mut bytes)
}

// Checks the header that is read from these bytes, and that it is written there.
fn expect_header(bytes: &mut Vec<u8>) -> Result<(), Fail> {
    let header = Header::read(bytes)?;
    expect_offsets(&header)?;
    let mut out = [9; 241];
    write_header(&mut out, &header);
    bytes.push(9)?;
    expect(out.as_slice() == bytes.as_slice(), "the header written")
}

// Writes op, 235 offsets and the cookie at the end of an empty vector.
fn put_offsets(bytes: &mut Vec<u8>) -> Result<(), AllocError> {
    bytes.push(2)?;
    for i in 1..236u8 {
        bytes.push(i)?;
    }
    bytes.extend_from_slice(&COOKIE)
}

// Checks the offsets of the last three fields of a header.
fn expect_offsets(header: &Header) -> Result<(), Fail> {
    expect([header.chaddr[0], header.chaddr[15]] == [28, 43], "chaddr")?;
    expect([header.sname[0], header.sname[63]] == [44, 107], "sname")?;
    expect([header.file[0], header.file[127]] == [108, 235], "file")
}

#[test]
fn pieces_are_walked_to_their_end_and_written_in_place(rt: HostRuntime) -> Result<(), Fail> {
    expect_pieces()?;
    let mut out = [9; 8];
    assert!(rt; put_piece(&mut out, 1, 60, b"kd") == 5);
    assert!(rt; put_end(&mut out, 5) == 6);
    assert!(rt; out == [9, 60, 2, 107, 100, 255, 9, 9]);
    Ok(())
}

// Checks a walk over three pieces, and that it stays at its end.
fn expect_pieces() -> Result<(), Fail> {
    let mut list = pieces(b"\x00\x35\x01\x01\x00\x3c\x00\x3d\x02ab\xff\x3c\x09")?;
    expect_piece(&mut list, 53, b"\x01")?;
    expect_piece(&mut list, 60, b"")?;
    expect_piece(&mut list, 61, b"ab")?;
    expect(list.next().is_none(), "the end")?;
    expect(list.next().is_none(), "the end again")
}

// Checks the code and the value of the next piece.
fn expect_piece(list: &mut Pieces<'_>, code: u8, value: &[u8]) -> Result<(), Fail> {
    expect(list.next() == Some((code, value)), "the next piece")
}

// A cut of an area, which no command prints by itself, says its position.
#[test]
fn bytes_keep_their_vector(rt: HostRuntime) -> Result<(), Fail> {
    assert!(rt; is_written(rt.alloc(), Cut { at: 3 }, "Cut 3")?);
    let bytes = Bytes::own(Vec::from_slice(rt.alloc(), b"kd")?);
    assert!(rt; bytes.as_slice() == b"kd".as_slice());
    assert!(rt; bytes.into_vec().as_slice() == b"kd".as_slice());
    Ok(())
}
