ghost use Rattle.std.specs.Prelude.{◌≡◌, ℕ, ◌++◌, List, Some, Ok, IfOk, IfSome, MatchOption, OnOk, string_bytes};
ghost use Rattle.hex.specs.Hex.{IsBytes, decode_of};
ghost use Rattle.kd_text.specs.Text.{bytes_text};

use hex::FromHexError;
use kd_wire::Bytes;
use std::alloc::{AllocError, Global};

/// Appends bytes in hexadecimal, or a dash if there are none.
///
/// # Errors
///
/// Out of memory.
pub fn put_bytes(alloc: Global, out: &mut String, bytes: &[u8]) -> Result<(), AllocError>
    ensures { OnOk result (string_bytes out.new ≡ string_bytes out.old ++ bytes_text bytes.now) }
{
    if bytes.is_empty() {
        return out.push_str("-");
    }
    let text = hex::encode(alloc, bytes)?;
    out.push_str(text.as_str())
}

/// Returns the bytes of a text that gives them in hexadecimal, or that is a dash for no bytes. For
/// any other text the result, if there is one, is bytes too, and nothing else is promised.
///
/// # Errors
///
/// Out of memory.
pub fn bytes_of_word(alloc: Global, word: &[u8]) -> Result<Option<Bytes>, AllocError>
    ensures only { (bytes : List ℕ) → IsBytes bytes → word.now ≡ bytes_text bytes
        → IfOk result (λ found. found ≡ Some bytes) }
    ensures bytes { IfOk result (λ found. IfSome found IsBytes) }
{
    if word == b"-".as_slice() {
        return Ok(Some(Bytes::own(Vec::new(alloc))));
    }
    bytes_of_hex(alloc, word)
}

/// Decodes the bytes of a hexadecimal text, in upper or lower case, if it is one.
///
/// # Errors
///
/// Out of memory.
pub fn bytes_of_hex(alloc: Global, text: &[u8]) -> Result<Option<Bytes>, AllocError>
    ensures found { IfOk result (λ found. MatchOption found
        ((bytes : List ℕ) → ¬ (decode_of text.now ≡ Ok bytes))
        (λ bytes. decode_of text.now ≡ Ok bytes)) }
    ensures bytes { IfOk result (λ found. IfSome found IsBytes) }
{
    match hex::decode(alloc, text) {
        Ok(bytes) => Ok(Some(Bytes::own(bytes))),
        Err(error) => match error {
            FromHexError::OutOfMemory => Err(AllocError),
            FromHexError::OddLength => Ok(None),
            FromHexError::InvalidStringLength => Ok(None),
            FromHexError::InvalidHexCharacter { .. } => Ok(None),
        },
    }
}
