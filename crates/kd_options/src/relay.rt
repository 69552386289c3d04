ghost use Rattle.std.specs.Prelude.{◌≡◌, ◌<◌, IsSome, ◌∷◌, ℕ, [], true, false, MatchOption, length, slice_index_or, nat_eq, option_copied, option_map, slice_get};
ghost use Rattle.std.specs.Map.{lookup};
ghost use Rattle.kd_options.specs.Relay.{firsts};
ghost use Rattle.kd_options.specs.RelayWalk.{are_whole_from, subs_from, sub_options_of};
ghost use Rattle.kd_options.specs.RelayFront.{IsRelayFront};

use std::marker::Model;

// The sub-options of a value in which none is cut off (RFC 3046 section 2).
#[derive(Drop)]
struct SubOptions<'a> {
    left: &'a [u8],
}

impl<'a> Model for SubOptions<'a> {
    ghost use Rattle.std.specs.Prelude.{◌≡◌, ℕ, List, true};
    ghost use Rattle.kd_options.specs.RelayWalk.{are_whole_from, subs_from};

    ghost Value = { List (ℕ × List ℕ) };

    ghost view = { λ s. subs_from 0 s.left.now };

    ghost invariant = { λ s. are_whole_from 0 s.left.now ≡ true };
}

impl<'a> Iterator for SubOptions<'a> {
    ghost use Rattle.std.specs.Iterator.{YieldsFirstBy, item_count};

    type Item = (u8, &'a [u8]);

    ghost next_gives = { YieldsFirstBy (λ x. (x.0, x.1.now)) (λ s. s) };

    ghost remaining = { item_count (λ s. s) };

    fn next(&mut self) -> Option<(u8, &'a [u8])> {
        let (code, value, rest) = first_of(self.left)?;
        self.left = rest;
        Some((code, value))
    }
}

// Returns the first sub-option of a value in which none is cut off, and the remaining bytes.
fn first_of(value: &[u8]) -> Option<(u8, &[u8], &[u8])>
    requires { are_whole_from 0 value.now ≡ true }
    ensures { MatchOption result (subs_from 0 value.now ≡ [])
        (λ p. (subs_from 0 value.now ≡ (p.0, p.1.now) ∷ subs_from 0 p.2.now)
        × (are_whole_from 0 p.2.now ≡ true)) }
{
    match front_of(value) {
        RelayFront::End => None,
        RelayFront::SubOption(code, sub, rest) => Some((code, sub, rest)),
        RelayFront::Cut => unreachable!(),
    }
}

// What a value begins with: its end, a sub-option, or one that is cut off.
enum RelayFront<'a> {
    End,
    SubOption(u8, &'a [u8], &'a [u8]),
    Cut,
}

fn front_of(value: &[u8]) -> RelayFront<'_>
    ensures { IsRelayFront result value.now }
{
    match value {
        [] => RelayFront::End,
        [_] => RelayFront::Cut,
        [code, n, bytes @ ..] => {
            let n = usize::from(*n);
            if bytes.len() < n {
                return RelayFront::Cut;
            }
            let (value, rest) = bytes.split_at(n);
            RelayFront::SubOption(*code, value, rest)
        }
    }
}

// Whether no sub-option is cut off.
fn is_whole(value: &[u8]) -> bool
    ensures { result ≡ are_whole_from 0 value.now }
{
    let mut left = value;
    loop {
        match front_of(left) {
            RelayFront::End => return true,
            RelayFront::SubOption(_, _, rest) => left = rest,
            RelayFront::Cut => return false,
        }
    }
}

// Returns the sub-options of a value, or none if one is cut off.
fn sub_options(value: &[u8]) -> SubOptions<'_>
    ensures { result ≡ sub_options_of value.now }
{
    if is_whole(value) {
        SubOptions { left: value }
    } else {
        SubOptions { left: &value[..0] }
    }
}

// Returns the first sub-option with a code, if there is one.
pub(crate) fn sub_option(value: &[u8], code: u8) -> Option<&[u8]>
    ensures { option_copied result ≡ lookup (nat_eq code) (sub_options_of value.now) }
{
    let mut found = None;
    for (own, sub) in sub_options(value) {
        if own == code {
            found = Some(sub);
            break;
        }
    }
    found
}

// Returns a table in which no code is marked as seen.
fn no_codes() -> [bool; 256]
    ensures none { (k : ℕ) → slice_index_or result k false ≡ false }
    ensures len { length result ≡ 256 }
{
    [false; 256]
}

// Returns the sub-option at an index. Each code counts once, in order of first appearance.
pub(crate) fn sub_option_at(value: &[u8], index: usize) -> Option<(u8, &[u8])>
    ensures value { option_map (λ p. (p.0, p.1.now)) result
        ≡ slice_get (firsts (sub_options_of value.now)) index }
    ensures within { IsSome result → index < 256 }
{
    let mut seen = no_codes();
    let mut before = index;
    for (code, sub) in sub_options(value) {
        if seen[usize::from(code)] {
            continue;
        }
        if before == 0 {
            return Some((code, sub));
        }
        before -= 1;
        seen[usize::from(code)] = true;
    }
    None
}
