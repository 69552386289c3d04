ghost use Rattle.std.specs.Prelude.{◌≡◌, ◌<◌, List, length, IfOk, IfErr, IsOkAnd};
ghost use Rattle.kd_wire.specs.Area.{Piece, IsArea, IsCutAt};

use crate::walk::{Front, Pieces, front_of, pieces_over};
use std::fmt;
use thiserror::Error;

/// An option has no length byte, or its length is more than the bytes that follow it.
#[derive(Clone, Copy, PartialEq, Eq, Error)]
#[error("Cut {at}")]
pub struct Cut {
    /// The offset of the option's code byte in the area.
    pub at: usize,
}

impl fmt::Debug for Cut {
    fn fmt<W: fmt::Write>(&self, f: &mut fmt::Formatter<W>) -> fmt::Result {
        fmt::Display::fmt(self, f)
    }
}

/// Returns the pieces of an option area, in order, without pads and End (RFC 2132 sections 3.1 and
/// 3.2). Bytes after an End are ignored, and an area may end without one.
///
/// # Errors
///
/// `Cut` if the area holds an option that is cut off.
pub fn pieces(area: &[u8]) -> Result<Pieces<'_>, Cut>
    ensures found { IfOk result (λ list. IsArea area.now list) }
    ensures cut { IfErr result (λ fault. IsCutAt area.now fault.at) }
    ensures within { IfErr result (λ fault. fault.at < length area.now) }
    ensures only { (list : List Piece) → IsArea area.now list
        → IsOkAnd result (λ found. found ≡ list) }
{
    let mut left = area;
    let mut at = 0;
    loop {
        match front_of(left) {
            Front::End => return Ok(pieces_over(area)),
            Front::Pad(rest) => {
                left = rest;
                at += 1;
            }
            Front::Piece(_, value, rest) => {
                left = rest;
                at += 2 + value.len();
            }
            Front::Cut => return Err(Cut { at }),
        }
    }
}
