ghost use Rattle.std.specs.Prelude.{◌≡◌, ℕ, List, IfSome, Some, option_map};
ghost use Rattle.kd_expr.specs.Address.{IsAddress};
ghost use Rattle.kd_expr.specs.Lexing.{part_at_front, part_after_dot, address_read};

use crate::class::{Class, split};
use crate::number::number;

/// Reads the four bytes of an IPv4 address, written as decimal numbers with dots between them.
/// Leading zeros are allowed, as long as a number has at most three digits.
pub fn read_address(text: &[u8]) -> Option<[u8; 4]>
    ensures found { IfSome result (λ address. IsAddress text.now address) }
    ensures only { (address : List ℕ) → IsAddress text.now address → result ≡ Some address }
    ensures spelled { result ≡ address_read text.now }
{
    address_of(text)
}

// Reads the four parts of an address.
#[tactic(auto, unfolding(crate::specs::Lexing::address_read))]
pub(crate) fn address_of(text: &[u8]) -> Option<[u8; 4]>
    ensures { result ≡ address_read text.now }
{
    let (a, rest) = part(text)?;
    let (b, rest) = next_part(rest)?;
    let (c, rest) = next_part(rest)?;
    let (d, rest) = next_part(rest)?;
    match rest {
        [] => Some([a, b, c, d]),
        _ => None,
    }
}

// Reads a dot and the part after it.
#[tactic(auto, unfolding(crate::specs::Lexing::part_after_dot))]
fn next_part(text: &[u8]) -> Option<(u8, &[u8])>
    ensures { option_map (λ x. (x.0, x.1.now)) result ≡ part_after_dot text.now }
{
    match text {
        [b, rest @ ..] if *b == b'.' => part(rest),
        _ => None,
    }
}

// Reads the part at the beginning, and returns it with what follows it.
#[tactic(auto, unfolding(crate::specs::Lexing::part_at_front))]
fn part(text: &[u8]) -> Option<(u8, &[u8])>
    ensures { option_map (λ x. (x.0, x.1.now)) result ≡ part_at_front text.now }
{
    let (digits, rest) = split(Class::Digit, text);
    match number(digits) {
        Some(n) if digits.len() >= 1 && digits.len() <= 3 && n <= 255 => Some((n as u8, rest)),
        _ => None,
    }
}
