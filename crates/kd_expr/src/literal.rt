ghost use Rattle.std.specs.Prelude.{◌≡◌, ◌<◌, ◌++◌, OnOk, IfOk};
ghost use Rattle.kd_expr.specs.Grammar.{hex_digit_value, hex_pairs, hex_bytes};

use kd_wire::Bytes;
use std::alloc::{AllocError, Global};

// Returns a copy of these bytes.
pub(crate) fn bytes_of(alloc: Global, bytes: &[u8]) -> Result<Bytes, AllocError>
    ensures { IfOk result (λ copy. copy ≡ bytes.now) }
{
    Ok(Bytes::own(Vec::from_slice(alloc, bytes)?))
}

// Returns the bytes of hexadecimal digits, two digits per byte, after a leading 0 if their number
// is odd.
pub(crate) fn hex_bytes_of(alloc: Global, digits: &[u8]) -> Result<Bytes, AllocError>
    ensures { IfOk result (λ bytes. bytes ≡ hex_bytes digits.now) }
{
    let mut bytes = Vec::new(alloc);
    match digits {
        [first, rest @ ..] if digits.len() % 2 == 1 => {
            bytes.push(hex_digit(*first))?;
            push_pairs(&mut bytes, rest)?;
        }
        _ => push_pairs(&mut bytes, digits)?,
    }
    Ok(Bytes::own(bytes))
}

// Appends the bytes of an even number of hexadecimal digits.
fn push_pairs(bytes: &mut Vec<u8>, digits: &[u8]) -> Result<(), AllocError>
    ensures { OnOk result (bytes.new.items ≡ bytes.old.items ++ hex_pairs digits.now) }
{
    let mut rest = digits;
    while let [high, low, after @ ..] = rest {
        bytes.push(16 * hex_digit(*high) + hex_digit(*low))?;
        rest = after;
    }
    Ok(())
}

// Returns the value of a hexadecimal digit, or 0 for any other byte.
fn hex_digit(d: u8) -> u8
    ensures value { result ≡ hex_digit_value d }
    ensures small { result < 16 }
{
    match d {
        b'0'..=b'9' => d - b'0',
        b'A'..=b'F' => d - b'A' + 10,
        b'a'..=b'f' => d - b'a' + 10,
        _ => 0,
    }
}
