ghost use Rattle.std.specs.Prelude.{◌≡◌, ◌<◌, ◌∷◌, [], IfOk, IfSome, MatchOption, Some, length, option_map, reverse};
ghost use Rattle.std.specs.List.{slice_split};
ghost use Rattle.kd_expr.specs.Lexical.{a_blank};
ghost use Rattle.kd_expr.specs.Lexing.{behind_of};
ghost use Rattle.kd_values.specs.Parts.{halves_at, trimmed};
ghost use Rattle.memchr.specs.Find.{is_byte};

use kd_wire::Bytes;
use memchr::memchr;
use std::alloc::{AllocError, Global};

// Returns bytes as a value.
pub(crate) fn some_bytes(alloc: Global, bytes: &[u8]) -> Result<Option<Bytes>, AllocError>
    ensures { IfOk result (λ value. value ≡ Some bytes.now) }
{
    Ok(Some(Bytes::own(Vec::from_slice(alloc, bytes)?)))
}

/// Returns a text without the blanks (spaces, tabs, line feeds and carriage returns) before it and
/// behind it, which do not count around a value.
pub fn trim(text: &[u8]) -> &[u8]
    ensures { result.now ≡ trimmed text.now }
{
    without_last_blanks(without_first_blanks(text))
}

// Strips leading blanks.
fn without_first_blanks(text: &[u8]) -> &[u8]
    ensures { result.now ≡ behind_of a_blank text.now }
{
    let mut left = text;
    while let [first, rest @ ..] = left {
        if !is_blank(*first) {
            return left;
        }
        left = rest;
    }
    left
}

// Strips trailing blanks.
fn without_last_blanks(text: &[u8]) -> &[u8]
    ensures { result.now ≡ reverse (behind_of a_blank (reverse text.now)) }
{
    let mut left = text;
    while let [rest @ .., last] = left {
        if !is_blank(*last) {
            return left;
        }
        left = rest;
    }
    left
}

// Whether a byte is a space, tab, carriage return or line feed.
fn is_blank(b: u8) -> bool
    ensures { result ≡ a_blank b }
{
    b == b' ' || b == b'\t' || b == b'\r' || b == b'\n'
}

/// Splits a text at the first occurrence of a byte, if it has one: what precedes it, and what
/// follows it.
pub fn first_part(byte: u8, text: &[u8]) -> (&[u8], Option<&[u8]>)
    ensures parts { MatchOption result.1 (slice_split (is_byte byte) text.now ≡ result.0.now ∷ [])
        (λ rest. slice_split (is_byte byte) text.now
        ≡ result.0.now ∷ slice_split (is_byte byte) rest.now) }
    ensures shorter { IfSome result.1 (λ rest. length rest.now < length text.now) }
{
    match memchr(byte, text) {
        Some(at) => (&text[..at], Some(&text[at + 1..])),
        None => (text, None),
    }
}

// Splits a text at the only occurrence of a byte.
pub(crate) fn halves_of(byte: u8, text: &[u8]) -> Option<(&[u8], &[u8])>
    ensures { option_map (λ x. (x.0.now, x.1.now)) result ≡ halves_at byte text.now }
{
    let (front, rest) = first_part(byte, text);
    match rest {
        Some(rest) => match first_part(byte, rest) {
            (back, None) => Some((front, back)),
            (_, Some(_)) => None,
        },
        None => None,
    }
}
