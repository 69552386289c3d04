ghost use Rattle.kd_wire.specs.Area.{IsCode};
ghost use Rattle.std.specs.Prelude.{◌≤◌};

use crate::support::{expect, is_written};
use kd_options::{Item, Items, Reply, WriteFault};
use kd_wire::{Bytes, Header};
use std::alloc::{AllocError, Global};
use std::test::Fail;

// An obligatory option.
fn item(alloc: Global, code: u8, value: &[u8]) -> Result<Item, AllocError>
    requires { IsCode code }
{
    let value = Bytes::own(Vec::from_slice(alloc, value)?);
    Ok(Item {
        code,
        value,
        obligatory: true,
    })
}

// Adds an option to a list.
fn put_item(alloc: Global, list: &mut Vec<Item>, code: u8, value: &[u8]) -> Result<(), AllocError>
    requires { IsCode code }
{
    list.push(item(alloc, code, value)?)?;
    Ok(())
}

// The options of an ACK with a client identifier of 100 bytes.
fn two_items(alloc: Global) -> Result<Items, AllocError> {
    let mut list = Vec::new(alloc);
    put_two(alloc, &mut list)?;
    Ok(Items::own(list))
}

// Adds those options.
fn put_two(alloc: Global, list: &mut Vec<Item>) -> Result<(), AllocError> {
    put_item(alloc, list, 53, b"\x05")?;
    put_item(alloc, list, 61, &[7; 100])
}

// An ACK with a client identifier of 100 bytes. With the cookie and the end option it has 346
// bytes.
fn ack(alloc: Global) -> Result<Reply, AllocError> {
    let items = two_items(alloc)?;
    Ok(Reply {
        header: Header {
            op: 2,
            htype: 1,
            hlen: 6,
            hops: 0,
            xid: 1,
            secs: 0,
            flags: 0,
            ciaddr: 0xc000_024d,
            yiaddr: 0,
            siaddr: 0,
            giaddr: 0,
            chaddr: [0; 16],
            sname: [0; 64],
            file: [0; 128],
        },
        items,
    })
}

#[test]
fn a_reply_fits_or_is_too_long(rt: HostRuntime) -> Result<(), Fail> {
    assert!(rt; WriteFault::TooLong.number() == 10);
    assert!(rt; is_written(rt.alloc(), WriteFault::TooLong, "TooLong")?);
    assert!(rt; two_items(rt.alloc())?.into_vec().len() == 2);
    let reply = ack(rt.alloc())?;
    expect_limit(rt.alloc(), &reply)
}

// Checks the lengths that a reply of 346 bytes fits, and its options.
fn expect_limit(alloc: Global, reply: &Reply) -> Result<(), Fail> {
    expect(reply.fits(346), "a reply of the most bytes")?;
    expect(measure(alloc, reply, 346)? == 346, "its text")?;
    expect(!reply.fits(345), "a reply of one byte too many")?;
    let fault = measure(alloc, reply, 345).err();
    expect(fault == Some(WriteFault::TooLong), "a reply too long")?;
    expect(reply.items.as_slice().len() == 2, "two options")
}

// Returns how many bytes a reply's text has, of at most this many.
fn measure(alloc: Global, reply: &Reply, most: u16) -> Result<usize, WriteFault>
    requires { 300 ≤ most }
{
    Ok(reply.write(alloc, most)?.len())
}
