ghost use Rattle.std.specs.Prelude.{◌≡◌, ◌*◌, ◌^◌, ◌<◌, ◌≤◌, ◌∷◌, [], IfOk, IfSome, option_map};
ghost use Rattle.std.specs.Int.{to_be_bytes, w16, w32};
ghost use Rattle.kd_values.specs.Numbers.{based_number, digit_in, number_below, number_given, signed_number};
ghost use Rattle.kd_values.specs.Numbers.{one_byte_spelled, two_bytes_spelled, four_bytes_spelled};
ghost use Rattle.kd_values.specs.Numbers.{signed_byte_spelled, signed_short_spelled, signed_spelled};

use crate::parts::some_bytes;
use kd_wire::Bytes;
use std::alloc::{AllocError, Global};

// How many numbers of one, two and four bytes there are.
pub(crate) const BYTES: u64 = 0x100;

const SHORTS: u64 = 0x1_0000;

const LONGS: u64 = 0x1_0000_0000;

// Reads a number of one byte.
pub(crate) fn byte_of(alloc: Global, text: &[u8]) -> Result<Option<Bytes>, AllocError>
    ensures { IfOk result (λ value. value ≡ one_byte_spelled text.now) }
{
    one_byte(alloc, given_number(text, BYTES))
}

// Reads a number of two bytes.
pub(crate) fn short_of(alloc: Global, text: &[u8]) -> Result<Option<Bytes>, AllocError>
    ensures { IfOk result (λ value. value ≡ two_bytes_spelled text.now) }
{
    two_bytes(alloc, given_number(text, SHORTS))
}

// Reads a number of four bytes.
pub(crate) fn long_of(alloc: Global, text: &[u8]) -> Result<Option<Bytes>, AllocError>
    ensures { IfOk result (λ value. value ≡ four_bytes_spelled text.now) }
{
    four_bytes(alloc, given_number(text, LONGS))
}

// Reads a number of one byte in two's complement.
pub(crate) fn signed_byte_of(alloc: Global, text: &[u8]) -> Result<Option<Bytes>, AllocError>
    ensures { IfOk result (λ value. value ≡ signed_byte_spelled text.now) }
{
    one_byte(alloc, signed_number_of(text, BYTES / 2))
}

// Reads a number of two bytes in two's complement.
pub(crate) fn signed_short_of(alloc: Global, text: &[u8]) -> Result<Option<Bytes>, AllocError>
    ensures { IfOk result (λ value. value ≡ signed_short_spelled text.now) }
{
    two_bytes(alloc, signed_number_of(text, SHORTS / 2))
}

// Reads a number of four bytes in two's complement.
pub(crate) fn signed_of(alloc: Global, text: &[u8]) -> Result<Option<Bytes>, AllocError>
    ensures { IfOk result (λ value. value ≡ signed_spelled text.now) }
{
    four_bytes(alloc, signed_number_of(text, LONGS / 2))
}

// Returns a number as a value of one byte.
fn one_byte(alloc: Global, number: Option<u64>) -> Result<Option<Bytes>, AllocError>
    requires { IfSome number (λ n. n < 2 ^ 8) }
    ensures { IfOk result (λ value. value ≡ option_map (λ n. n ∷ []) number) }
{
    match number {
        Some(number) => some_bytes(alloc, &[number as u8]),
        None => Ok(None),
    }
}

// Returns a number as a value of two bytes, the highest first.
fn two_bytes(alloc: Global, number: Option<u64>) -> Result<Option<Bytes>, AllocError>
    requires { IfSome number (λ n. n < 2 ^ 16) }
    ensures { IfOk result (λ value. value ≡ option_map (to_be_bytes w16) number) }
{
    match number {
        Some(number) => some_bytes(alloc, &(number as u16).to_be_bytes()),
        None => Ok(None),
    }
}

// Returns a number as a value of four bytes, the highest first.
fn four_bytes(alloc: Global, number: Option<u64>) -> Result<Option<Bytes>, AllocError>
    requires { IfSome number (λ n. n < 2 ^ 32) }
    ensures { IfOk result (λ value. value ≡ option_map (to_be_bytes w32) number) }
{
    match number {
        Some(number) => some_bytes(alloc, &(number as u32).to_be_bytes()),
        None => Ok(None),
    }
}

// Returns the number from -half up to half - 1 that a text gives, in two's complement, where there
// are twice half numbers.
fn signed_number_of(text: &[u8], half: u64) -> Option<u64>
    requires low { 0 < half }
    requires high { half ≤ 2 ^ 31 }
    ensures spelled { result ≡ signed_number half text.now }
    ensures below { IfSome result (λ number. number < 2 * half) }
{
    match text {
        [b'-', digits @ ..] => {
            let number = number_of_digits(10, digits, half + 1)?;
            Some((2 * half - number) % (2 * half))
        }
        [_, ..] => given_number(text, half),
        [] => given_number(text, half),
    }
}

// Returns the number that a text gives, perhaps behind a plus sign, if it is below the limit.
fn given_number(text: &[u8], limit: u64) -> Option<u64>
    requires low { 0 < limit }
    requires high { limit ≤ 2 ^ 32 }
    ensures spelled { result ≡ number_given limit text.now }
    ensures below { IfSome result (λ number. number < limit) }
{
    match text {
        [b'+', number @ ..] => number_of(number, limit),
        _ => number_of(text, limit),
    }
}

// Returns the number that decimal digits, or hexadecimal ones after 0x, give, if it is below the
// limit.
pub(crate) fn number_of(text: &[u8], limit: u64) -> Option<u64>
    requires low { 0 < limit }
    requires high { limit ≤ 2 ^ 32 }
    ensures spelled { result ≡ number_below limit text.now }
    ensures below { IfSome result (λ number. number < limit) }
{
    match text {
        [b'0', b'x', digits @ ..] => number_of_digits(16, digits, limit),
        [b'0', b'X', digits @ ..] => number_of_digits(16, digits, limit),
        _ => number_of_digits(10, text, limit),
    }
}

// Returns the number that digits of a base give, if there are any and it is below the limit.
#[tactic(auto, unfolding(crate::specs::Numbers::based_number))]
pub(crate) fn number_of_digits(base: u64, digits: &[u8], limit: u64) -> Option<u64>
    requires base { base ≤ 16 }
    requires low { 0 < limit }
    requires high { limit ≤ 2 ^ 32 }
    ensures spelled { result ≡ based_number base limit digits.now }
    ensures below { IfSome result (λ number. number < limit) }
{
    if digits.is_empty() {
        return None;
    }
    let mut number = 0;
    for digit in digits {
        number = base * number + digit_of(base, *digit)?;
        if number >= limit {
            return None;
        }
    }
    Some(number)
}

// Returns the value of a digit of a base.
fn digit_of(base: u64, digit: u8) -> Option<u64>
    requires { base ≤ 16 }
    ensures spelled { result ≡ digit_in base digit }
    ensures below { IfSome result (λ value. value < base) }
{
    let value = match digit {
        b'A'..=b'F' => digit - b'A' + 10,
        b'a'..=b'f' => digit - b'a' + 10,
        b'0'..=b'9' => digit - b'0',
        _ => return None,
    };
    let value = u64::from(value);
    if value < base { Some(value) } else { None }
}
