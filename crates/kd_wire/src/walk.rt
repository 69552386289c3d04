ghost use Rattle.std.specs.Prelude.{◌≡◌, ◌∷◌, [], true, MatchOption};
ghost use Rattle.kd_wire.specs.Area.{IsCode};
ghost use Rattle.kd_wire.specs.Front.{IsFront};
ghost use Rattle.kd_wire.specs.Walk.{pieces_from, is_whole_from};

use std::marker::Model;

/// The pieces of an area in which no option is cut off. Each has a code from 1 to 254 and a value
/// of at most 255 bytes.
#[derive(Drop)]
pub struct Pieces<'a> {
    left: &'a [u8],
}

impl<'a> Model for Pieces<'a> {
    ghost use Rattle.std.specs.Prelude.{◌≡◌, ℕ, List, true};
    ghost use Rattle.kd_wire.specs.Walk.{pieces_from, is_whole_from};

    ghost Value = { List (ℕ × List ℕ) };

    ghost view = { λ p. pieces_from 0 p.left.now };

    ghost invariant = { λ p. is_whole_from 0 p.left.now ≡ true };
}

impl<'a> Iterator for Pieces<'a> {
    ghost use Rattle.std.specs.Iterator.{YieldsFirstBy, item_count};

    type Item = (u8, &'a [u8]);

    ghost next_gives = { YieldsFirstBy (λ x. (x.0, x.1.now)) (λ p. p) };

    ghost remaining = { item_count (λ p. p) };

    fn next(&mut self) -> Option<(u8, &'a [u8])> {
        let (code, value, rest) = first_piece(self.left)?;
        self.left = rest;
        Some((code, value))
    }
}

// Returns the iterator over an area in which no option is cut off.
pub(crate) fn pieces_over(area: &[u8]) -> Pieces<'_>
    requires { is_whole_from 0 area.now ≡ true }
    ensures { result ≡ pieces_from 0 area.now }
{
    Pieces { left: area }
}

// What an area begins with: its end, a pad, a piece, or a piece that is cut off.
pub(crate) enum Front<'a> {
    End,
    Pad(&'a [u8]),
    Piece(u8, &'a [u8], &'a [u8]),
    Cut,
}

pub(crate) fn front_of(area: &[u8]) -> Front<'_>
    ensures { IsFront result area.now }
{
    let [code, rest @ ..] = area else {
        return Front::End;
    };
    match *code {
        0 => Front::Pad(rest),
        255 => Front::End,
        code => piece_of(code, rest),
    }
}

// Returns the piece of this code, whose length byte and value `rest` begins with.
fn piece_of(code: u8, rest: &[u8]) -> Front<'_>
    requires { IsCode code }
    ensures { IsFront result (code ∷ rest.now) }
{
    let [n, bytes @ ..] = rest else {
        return Front::Cut;
    };
    let n = usize::from(*n);
    if bytes.len() < n {
        return Front::Cut;
    }
    let (value, after) = bytes.split_at(n);
    Front::Piece(code, value, after)
}

// Returns the first piece of an area without a cut, and the remaining bytes.
fn first_piece(area: &[u8]) -> Option<(u8, &[u8], &[u8])>
    requires { is_whole_from 0 area.now ≡ true }
    ensures { MatchOption result (pieces_from 0 area.now ≡ [])
        (λ p. (pieces_from 0 area.now ≡ (p.0, p.1.now) ∷ pieces_from 0 p.2.now)
        × (is_whole_from 0 p.2.now ≡ true)) }
{
    let mut left = area;
    loop {
        match front_of(left) {
            Front::End => return None,
            Front::Cut => unreachable!(),
            Front::Pad(rest) => left = rest,
            Front::Piece(code, value, rest) => return Some((code, value, rest)),
        }
    }
}
