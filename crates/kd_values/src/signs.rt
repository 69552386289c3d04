ghost use Rattle.std.specs.Prelude.{◌≡◌, ◌≤◌, ◌∷◌, IfOk, IfSome, MatchOption, None, length, option_and_then};
ghost use Rattle.kd_values.specs.Numbers.{number_below};
ghost use Rattle.kd_values.specs.Signs.{flag_spelled, gives_type, if_any, is_the_number, is_word};
ghost use Rattle.kd_values.specs.Signs.{message_type_spelled, sign_before, signs_read};

use crate::number::{BYTES, number_of};
use crate::parts::some_bytes;
use kd_names::message_type_name;
use kd_wire::Bytes;
use std::alloc::{AllocError, Global};

// Reads a flag.
#[tactic(auto, unfolding(crate::specs::Signs::flag_spelled))]
pub(crate) fn flag_of(alloc: Global, text: &[u8]) -> Result<Option<Bytes>, AllocError>
    ensures { IfOk result (λ value. value ≡ flag_spelled text.now) }
{
    if has_letters(b"true", text) || has_letters(b"1", text) {
        some_bytes(alloc, &[1])
    } else if has_letters(b"false", text) || has_letters(b"0", text) {
        some_bytes(alloc, &[0])
    } else {
        Ok(None)
    }
}

// Whether a text is a word, in upper or lower case.
fn has_letters(word: &[u8], text: &[u8]) -> bool
    ensures { result ≡ is_word word.now text.now }
{
    if word.len() != text.len() {
        return false;
    }
    for i in 0..word.len() {
        if !word[i].eq_ignore_ascii_case(&text[i]) {
            return false;
        }
    }
    true
}

// Reads a message type.
#[tactic(auto, unfolding(crate::specs::Signs::message_type_spelled))]
pub(crate) fn message_type_of(alloc: Global, text: &[u8]) -> Result<Option<Bytes>, AllocError>
    ensures { IfOk result (λ value. value ≡ message_type_spelled text.now) }
{
    for number in [1, 2, 3, 4, 5, 6, 7, 8] {
        if is_message_type(alloc, text, number)? {
            return some_bytes(alloc, &[number]);
        }
    }
    Ok(None)
}

// Whether a text gives a message type, by its number, or by its number and its name.
fn is_message_type(alloc: Global, text: &[u8], number: u8) -> Result<bool, AllocError>
    ensures { IfOk result (λ is_type. is_type ≡ gives_type text.now number) }
{
    let name = message_type_name(u32::from(number));
    let printed = format!(in alloc; "{number} {name}")?;
    Ok(is_number(text, number) || text == printed.as_bytes())
}

// Whether a text gives a number.
fn is_number(text: &[u8], number: u8) -> bool
    ensures { result ≡ is_the_number number (number_below 256 text.now) }
{
    match number_of(text, BYTES) {
        Some(found) => found == u64::from(number),
        None => false,
    }
}

// Reads a text of one byte or more, in which each comma has a backslash before it.
pub(crate) fn text_of(alloc: Global, text: &[u8]) -> Result<Option<Bytes>, AllocError>
    ensures { IfOk result (λ value. value ≡ option_and_then if_any (signs_read text.now)) }
{
    let mut signs = Vec::with_capacity(alloc, text.len())?;
    let mut left = text;
    while let [first, rest @ ..] = left {
        let Some((sign, behind)) = first_sign(*first, rest) else {
            return Ok(None);
        };
        signs.push(sign)?;
        left = behind;
    }
    Ok(some_if_any(signs))
}

// Returns the first sign of a text and what follows it, given its first byte and the rest: a
// backslash and a comma are a comma, and a comma alone is no sign.
fn first_sign(first: u8, rest: &[u8]) -> Option<(u8, &[u8])>
    ensures read { MatchOption result (signs_read (first ∷ rest.now) ≡ None)
        (λ x. signs_read (first ∷ rest.now) ≡ sign_before x.0 (signs_read x.1.now)) }
    ensures shorter { IfSome result (λ x. length x.1.now ≤ length rest.now) }
{
    if first == b',' {
        return None;
    }
    match rest {
        [b',', behind @ ..] if first == b'\\' => Some((b',', behind)),
        _ => Some((first, rest)),
    }
}

// Returns bytes as a value, if there are any.
pub(crate) fn some_if_any(bytes: Vec<u8>) -> Option<Bytes>
    ensures { result ≡ if_any bytes.items }
{
    if bytes.is_empty() {
        None
    } else {
        Some(Bytes::own(bytes))
    }
}
