ghost use Rattle.std.specs.Prelude.{◌≡◌, ◌≤◌, length, true, false, MatchOption};
ghost use Rattle.std.specs.List.{prefix_len};
ghost use Rattle.kd_expr.specs.Address.{a_digit};
ghost use Rattle.kd_expr.specs.Lexical.{a_blank, a_letter, a_sign};
ghost use Rattle.kd_expr.specs.Lexing.{class_test, front_of, behind_of, all_pass};
ghost use Rattle.kd_expr.specs.View.{sign_byte};

use crate::token::Sign;

// A class of bytes that words consist of.
#[derive(Clone, Copy)]
pub(crate) enum Class {
    Digit,
    HexDigit,
    InRun,
    InName,
    InString,
}

// Whether a byte is of the class.
fn is_of(class: Class, b: u8) -> bool
    ensures { result ≡ class_test class b }
{
    match class {
        Class::Digit => is_digit(b),
        Class::HexDigit => is_digit(b) || (b'A' <= b && b <= b'F') || (b'a' <= b && b <= b'f'),
        Class::InRun => is_digit(b) || is_letter(b) || b == b'.',
        Class::InName => is_letter(b) || is_digit(b) || b == b'_' || b == b'-',
        Class::InString => !(b == b'\'' || b == b'\n'),
    }
}

// Whether a byte is a digit 0 to 9.
pub(crate) fn is_digit(b: u8) -> bool
    ensures { result ≡ a_digit b }
{
    b'0' <= b && b <= b'9'
}

// Whether a byte is an ASCII letter.
pub(crate) fn is_letter(b: u8) -> bool
    ensures { result ≡ a_letter b }
{
    (b'A' <= b && b <= b'Z') || (b'a' <= b && b <= b'z')
}

// Whether a byte is a space, tab, carriage return or line feed.
pub(crate) fn is_blank(b: u8) -> bool
    ensures { result ≡ a_blank b }
{
    b == b' ' || b == b'\t' || b == b'\r' || b == b'\n'
}

// Returns the sign that is one byte, if the byte is one: a bracket, comma, dot or plus.
pub(crate) fn sign_of(b: u8) -> Option<Sign>
    ensures { MatchOption result (a_sign b ≡ false) (λ s. (a_sign b ≡ true) × (sign_byte s ≡ b)) }
{
    match b {
        b'(' => Some(Sign::Open),
        b')' => Some(Sign::Close),
        b'[' => Some(Sign::Left),
        b']' => Some(Sign::Right),
        b',' => Some(Sign::Comma),
        b'.' => Some(Sign::Dot),
        b'+' => Some(Sign::Plus),
        _ => None,
    }
}

// Returns how many of the first bytes are of the class.
fn count_of(class: Class, bytes: &[u8]) -> usize
    ensures count { result ≡ prefix_len (class_test class) bytes.now }
    ensures within { result ≤ length bytes.now }
{
    bytes.iter().take_while(|b| is_of(class, **b)).count()
}

// Returns the first bytes that are of the class, and what follows them.
pub(crate) fn split(class: Class, bytes: &[u8]) -> (&[u8], &[u8])
    ensures front { result.0.now ≡ front_of (class_test class) bytes.now }
    ensures behind { result.1.now ≡ behind_of (class_test class) bytes.now }
{
    bytes.split_at(count_of(class, bytes))
}

// Whether all bytes are of the class.
pub(crate) fn all_of(class: Class, bytes: &[u8]) -> bool
    ensures { result ≡ all_pass (class_test class) bytes.now }
{
    match split(class, bytes) {
        (_, []) => true,
        _ => false,
    }
}
