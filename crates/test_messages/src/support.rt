use kd_expr::{Expr, ExprFault, TypeFault, Typed, read, type_of};
use kd_machine::Held;
use kd_options::{Message, ReadFault};
use std::alloc::{AllocError, Global};
use std::fmt::Display;
use std::test::Fail;

/// Why a call returns nothing.
#[derive(Clone, Copy, Debug, PartialEq, Eq)]
pub(crate) enum Fault {
    /// Out of memory.
    Memory,
    /// Any other cause.
    Other,
}

impl From<AllocError> for Fault {
    fn from(_fault: AllocError) -> Fault {
        Fault::Memory
    }
}

impl From<ReadFault> for Fault {
    fn from(fault: ReadFault) -> Fault {
        match fault {
            ReadFault::Memory => Fault::Memory,
            _ => Fault::Other,
        }
    }
}

impl From<ExprFault> for Fault {
    fn from(fault: ExprFault) -> Fault {
        match fault {
            ExprFault::Memory => Fault::Memory,
            _ => Fault::Other,
        }
    }
}

/// The bytes 236 to 239 of a datagram.
pub(crate) const COOKIE: [u8; 4] = [99, 130, 83, 99];

/// The options of a DISCOVER of vendor class `kd`.
pub(crate) const DISCOVER: &[u8] = b"\x35\x01\x01\x3c\x02kd\xff";

/// Makes a datagram with these options, op 1, htype 1, hlen 6, xid 1, the hardware address
/// 0a0000000001, and zeros otherwise.
pub(crate) fn datagram(alloc: Global, options: &[u8]) -> Result<Vec<u8>, AllocError> {
    let mut bytes = Vec::new(alloc);
    put_datagram(&mut bytes, options)?;
    Ok(bytes)
}

// Writes that datagram at the end of an empty vector.
fn put_datagram(bytes: &mut Vec<u8>, options: &[u8]) -> Result<(), AllocError> {
    bytes.extend_from_slice(&[1, 1, 6, 0, 0, 0, 0, 1])?;
    bytes.resize(28, 0)?;
    bytes.extend_from_slice(b"\x0a\x00\x00\x00\x00\x01")?;
    bytes.resize(236, 0)?;
    bytes.extend_from_slice(&COOKIE)?;
    bytes.extend_from_slice(options)
}

/// Returns the class test in a text.
pub(crate) fn typed_of(alloc: Global, text: &[u8]) -> Result<Typed, Fault> {
    type_of(read(alloc, text)?).map_err(cause_of_type)
}

// Returns why an expression is no class test, and drops the expression.
fn cause_of_type(_refusal: (TypeFault, Expr)) -> Fault {
    Fault::Other
}

/// Returns the names that a message has before any definition.
pub(crate) fn base_of(alloc: Global, message: &Message<'_>) -> Result<Held, Fault> {
    Ok(Held::base(alloc, message)?)
}

/// Fails a test, naming what does not hold.
pub(crate) fn expect(holds: bool, what: &str) -> Result<(), Fail> {
    if holds { Ok(()) } else { Err(what.into()) }
}

/// Reports whether a fault is written as this text.
pub(crate) fn is_written<D: Display + Drop>(
    alloc: Global,
    fault: D,
    want: &str,
) -> Result<bool, AllocError> {
    let text = format!(in alloc; "{fault}")?;
    Ok(text.as_str() == want)
}

/// Reports whether a value is present and has these bytes.
pub(crate) fn is(value: Option<&[u8]>, want: &[u8]) -> bool {
    match value {
        Some(value) => value == want,
        None => false,
    }
}
