//! The bytes of a DHCP message: its header (RFC 2131 section 2) and its areas of options
//! (RFC 2132 section 2).
//!
//! What this layer promises to the one above: a header that is read has the numbers at the offsets
//! of RFC 2131's figure, or the result is the first of four faults (`specs/Header.antt`); an area's
//! pieces are the standard's list, or the result is the place where a piece is cut off
//! (`specs/Area.antt`). Nothing here takes memory.
#![tactic(auto)]

mod area;
mod entries;
mod field;
mod header;
mod put;
mod walk;

pub use area::{Cut, pieces};
pub use entries::{Bytes, Entries};
pub use field::Field;
pub use header::{Header, WireFault};
pub use put::{put_end, put_piece, write_header};
pub use walk::Pieces;
