use crate::support::{DISCOVER, Fault, base_of, datagram, expect, is};
use kd_machine::Held;
use kd_options::Message;
use std::alloc::{AllocError, Global};
use std::test::Fail;

// Returns the names that a DISCOVER of vendor class `kd` holds before any definition.
fn base(alloc: Global) -> Result<Held, Fault> {
    let bytes = datagram(alloc, DISCOVER)?;
    base_over(alloc, &bytes)
}

// Returns the names that the message in a datagram holds before any definition.
fn base_over(alloc: Global, bytes: &[u8]) -> Result<Held, Fault> {
    let message = Message::read(alloc, bytes)?;
    base_of(alloc, &message)
}

// Names that are added, and the names held afterwards.
const ADDED: [&[u8]; 7] = [b"B", b"A", b"ALL", b"B", b"VENDOR_CLASS_kd", b"", b""];

const HELD: [&[u8]; 5] = [b"ALL", b"VENDOR_CLASS_kd", b"B", b"A", b""];

// Reports whether each name is held once it is added.
fn holds_each(held: &mut Held) -> Result<bool, AllocError> {
    for name in &ADDED {
        held.add(name)?;
        if !held.contains(name) {
            return Ok(false);
        }
    }
    Ok(true)
}

// Reports whether exactly these names are held, in this order.
fn are(held: &Held, names: &[&[u8]]) -> bool {
    for (index, name) in names.iter().enumerate() {
        if !is(held.name_at(index), name) {
            return false;
        }
    }
    held.name_at(names.len()).is_none() && held.name_at(usize::MAX).is_none()
}

#[test]
fn a_name_is_added_once_and_last(rt: HostRuntime) -> Result<(), Fail> {
    let mut held = base(rt.alloc())?;
    expect_added(&mut held)
}

// Checks the names that are held before and after each is added.
fn expect_added(held: &mut Held) -> Result<(), Fail> {
    let has_all = held.contains(b"ALL") && !held.contains(b"");
    expect(has_all, "the names before any is added")?;
    expect(holds_each(held)?, "each name that is added")?;
    expect(are(held, &HELD), "the names in their order")
}
