ghost use Rattle.std.specs.Prelude.{◌≡◌, IfOk};
ghost use Rattle.std.specs.List.{filter};
ghost use Rattle.kd_values.specs.Digits.{digits_behind_0x, hexadecimal_spelled, is_no_separator};

use crate::signs::some_if_any;
use hex::FromHexError;
use kd_wire::Bytes;
use std::alloc::{AllocError, Global};

// Reads one or more bytes in hexadecimal.
#[tactic(auto, unfolding(crate::specs::Digits::hexadecimal_spelled))]
pub(crate) fn bytes_of(alloc: Global, text: &[u8]) -> Result<Option<Bytes>, AllocError>
    ensures { IfOk result (λ value. value ≡ hexadecimal_spelled text.now) }
{
    let digits = without_separators(alloc, text)?;
    match hex::decode(alloc, without_prefix(&digits)) {
        Ok(bytes) => Ok(some_if_any(bytes)),
        Err(error) => match error {
            FromHexError::OutOfMemory => Err(AllocError),
            FromHexError::OddLength => Ok(None),
            FromHexError::InvalidStringLength => Ok(None),
            FromHexError::InvalidHexCharacter { .. } => Ok(None),
        },
    }
}

// Removes spaces and colons from a text.
fn without_separators(alloc: Global, text: &[u8]) -> Result<Vec<u8>, AllocError>
    ensures { IfOk result (λ digits. digits.items ≡ filter is_no_separator text.now) }
{
    let mut digits = Vec::with_capacity(alloc, text.len())?;
    for b in text {
        if *b != b' ' && *b != b':' {
            digits.push(*b)?;
        }
    }
    Ok(digits)
}

// Strips a prefix `0x` or `0X` from digits.
fn without_prefix(text: &[u8]) -> &[u8]
    ensures { result.now ≡ digits_behind_0x text.now }
{
    match text {
        [b'0', b'x', digits @ ..] => digits,
        [b'0', b'X', digits @ ..] => digits,
        _ => text,
    }
}
