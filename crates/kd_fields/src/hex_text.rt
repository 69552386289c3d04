ghost use Rattle.std.specs.Prelude.{◌≡◌, IfOk};
ghost use Rattle.std.specs.List.{filter};
ghost use Rattle.kd_fields.specs.HexText.{bytes_spelled, counts, digits_after_prefix};

use hex::FromHexError;
use kd_wire::Bytes;
use std::alloc::{AllocError, Global};

// Returns the bytes of a hexadecimal text, or none if it is not one.
#[tactic(auto, unfolding(crate::specs::HexText::bytes_spelled))]
pub(crate) fn bytes_of(alloc: Global, text: &[u8]) -> Result<Option<Bytes>, AllocError>
    ensures { IfOk result (λ bytes. bytes ≡ bytes_spelled text.now) }
{
    let digits = without_separators(alloc, text)?;
    match hex::decode(alloc, without_prefix(&digits)) {
        Ok(bytes) => Ok(Some(Bytes::own(bytes))),
        Err(error) => match error {
            FromHexError::OutOfMemory => Err(AllocError),
            FromHexError::OddLength => Ok(None),
            FromHexError::InvalidStringLength => Ok(None),
            FromHexError::InvalidHexCharacter { .. } => Ok(None),
        },
    }
}

// Removes spaces and colons from a text.
fn without_separators(alloc: Global, text: &[u8]) -> Result<Vec<u8>, AllocError>
    ensures { IfOk result (λ digits. digits.items ≡ filter counts text.now) }
{
    let mut digits = Vec::with_capacity(alloc, text.len())?;
    for b in text {
        if *b != b' ' && *b != b':' {
            digits.push(*b)?;
        }
    }
    Ok(digits)
}

// Strips a prefix `0x` or `0X` from digits.
fn without_prefix(text: &[u8]) -> &[u8]
    ensures { result.now ≡ digits_after_prefix text.now }
{
    match text {
        [b'0', b'x', digits @ ..] => digits,
        [b'0', b'X', digits @ ..] => digits,
        _ => text,
    }
}
