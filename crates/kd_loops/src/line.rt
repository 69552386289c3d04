ghost use Rattle.std.specs.Prelude.{◌≡◌, ℕ, ◌+◌, ◌-◌, ◌*◌, ◌^◌, ◌<◌, ◌≤◌, ◌&&◌, ◌++◌, ◌∷◌, Some, None, IfOk, MatchOption, OnErr, length, nat_lt, if◌then◌else◌};
ghost use Rattle.std.specs.Char.{is_ascii_digit};
ghost use Rattle.kd_event.specs.declared.event.Event.{Event};
ghost use Rattle.kd_text.specs.Words.{HasNo};
ghost use Rattle.kd_loops.specs.Lines.{HasMoment, IsEventLine, IsMoment, line_limit};

use kd_event::Event;
use kd_text::bytes_of_hex;
use memchr::memchr;
use std::alloc::{AllocError, Global};

const MOST_DIGITS: usize = 20;

// Parses the event of a line, if the line is one. Allocates memory only for the event's bytes.
pub(crate) fn event_in(alloc: Global, line: &[u8]) -> Result<Option<Event>, AllocError>
    requires { length line.now ≤ line_limit }
    ensures found { IfOk result (λ found. MatchOption found
        ((event : Event) → ¬ IsEventLine line.now event) (λ event. IsEventLine line.now event)) }
    ensures memory { OnErr result (HasMoment line.now) }
{
    let Some((digits, text)) = at_space(line) else {
        return Ok(None);
    };
    let Some(moment) = moment_in(digits) else {
        return Ok(None);
    };
    let Some(bytes) = bytes_of_hex(alloc, text)? else {
        return Ok(None);
    };
    Ok(Some(Event { moment, bytes }))
}

// Splits a line at the first space, if there is one.
fn at_space(line: &[u8]) -> Option<(&[u8], &[u8])>
    ensures { MatchOption result (HasNo 32 line.now)
        (λ parts. (line.now ≡ parts.0.now ++ 32 ∷ parts.1.now) × HasNo 32 parts.0.now) }
{
    match memchr(b' ', line) {
        Some(at) => Some((&line[..at], &line[at + 1..])),
        None => None,
    }
}

// Parses a time in decimal digits.
fn moment_in(digits: &[u8]) -> Option<u64>
    ensures { MatchOption result
        ((moment : ℕ) → ¬ IsMoment digits.now moment) (λ moment. IsMoment digits.now moment) }
{
    if digits.is_empty() || digits.len() > MOST_DIGITS {
        return None;
    }
    let mut number = 0;
    for digit in digits {
        number = with_digit(number, *digit)?;
    }
    Some(number)
}

// Appends one decimal digit to a number.
fn with_digit(number: u64, digit: u8) -> Option<u64>
    ensures { result ≡ (if is_ascii_digit digit && nat_lt (number * 10 + (digit - 48)) (2 ^ 64)
        then Some (number * 10 + (digit - 48)) else None) }
{
    if !digit.is_ascii_digit() {
        return None;
    }
    number.checked_mul(10)?.checked_add(u64::from(digit - b'0'))
}
