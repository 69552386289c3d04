ghost use Rattle.std.specs.Prelude.{◌≡◌, ◌+◌, ◌^◌, ◌<◌, ◌≤◌, ◌↔◌, ◌++◌, IfErr, IfOk, IsTrue, MatchOption, OnOk, drop, length, replicate};
ghost use Rattle.kd_wire.specs.Area.{IsCode};
ghost use Rattle.kd_wire.specs.Put.{with_bytes_at};
ghost use Rattle.kd_options.specs.Reply.{ItemsFit, IsWriteFault, base_cost, cost_of, first_text, item_cost, items_text, kept, optional_cost, piece_count, pieces_of, pieces_text, reply_text, unpadded};

use crate::fault::WriteFault;
use crate::item::{Item, Items};
use kd_wire::{Header, put_end, put_piece, write_header};
use std::alloc::{AllocError, Global};

/// A reply before it is written: its header and its options in order.
#[derive(Drop)]
pub struct Reply {
    /// The header; `op` is 1 or 2.
    pub header: Header,
    /// The options.
    pub items: Items,
}

// The length of the longest piece of a value, and of the shortest reply, in bytes.
const PIECE: usize = 255;

const LEAST: usize = 300;

impl Reply {
    /// Whether the obligatory options fit in `room` bytes, with header, cookie and End.
    pub fn fits(&self, room: u16) -> bool
        ensures { IsTrue result ↔ ItemsFit room self.now.items }
    {
        room_left(self.items.as_slice(), usize::from(room)).is_some()
    }

    /// Returns the bytes of the reply: header and cookie, the obligatory options and each other
    /// option that fits beside them and the options kept before it, all in order, then End, and
    /// zeros up to 300 bytes. A value of more than 255 bytes is written in pieces (RFC 3396). Takes
    /// memory for the whole room.
    ///
    /// # Errors
    ///
    /// `TooLong` exactly when `fits` is false, or `Memory`.
    pub fn write(&self, alloc: Global, room: u16) -> Result<Vec<u8>, WriteFault>
        requires { 300 ≤ room }
        ensures found { IfOk result
            (λ bytes. bytes.items ≡ reply_text self.now.header room self.now.items) }
        ensures within { IfOk result (λ bytes. length bytes.items ≤ room) }
        ensures fits { OnOk result (ItemsFit room self.now.items) }
        ensures fault { IfErr result (IsWriteFault room self.now.items) }
    {
        let items = self.items.as_slice();
        let Some(left) = room_left(items, usize::from(room)) else {
            return Err(WriteFault::TooLong);
        };
        let mut out = zeros(alloc, usize::from(room))?;
        let end = write_into(out.as_mut_slice(), &self.header, items, left);
        out.truncate(end.max(LEAST));
        Ok(out)
    }
}

// Returns `len` zeros.
fn zeros(alloc: Global, len: usize) -> Result<Vec<u8>, AllocError>
    ensures { IfOk result (λ bytes. bytes.items ≡ replicate len 0) }
{
    vec![in alloc; 0; len]
}

// Writes header, cookie, the kept items and End, and returns the offset after them.
fn write_into(out: &mut [u8], header: &Header, items: &[Item], room_left: usize) -> usize
    requires most { length out.old < 2 ^ 16 }
    requires room { room_left + base_cost items.now + 1 ≡ length out.old }
    ensures written { out.new
        ≡ unpadded header.now (length out.old) items.now ++ drop result out.old }
    ensures next { result ≡ length (unpadded header.now (length out.old) items.now) }
    ensures within { result ≤ length out.old }
{
    write_header(out, header);
    let end = put_items(out, items, room_left);
    put_end(out, end)
}

// Returns the room that remains beside header, cookie, all obligatory options and End.
fn room_left(items: &[Item], room: usize) -> Option<usize>
    requires { room < 2 ^ 16 }
    ensures { MatchOption result (room < base_cost items.now + 1)
        (λ left. left + base_cost items.now + 1 ≡ room) }
{
    let mut left = room.checked_sub(241)?;
    for item in items {
        if item.obligatory {
            left = less_cost(left, item.value.as_slice().len())?;
        }
    }
    Some(left)
}

// Returns the room that remains after an option whose value has `len` bytes.
fn less_cost(left: usize, len: usize) -> Option<usize>
    requires { left < 2 ^ 16 }
    ensures { MatchOption result (left < cost_of len) (λ rest. rest + cost_of len ≡ left) }
{
    let rest = left.checked_sub(len)?;
    rest.checked_sub(2 * pieces(len))
}

// Returns the number of pieces that a value of `len` bytes has.
fn pieces(len: usize) -> usize
    requires { len < 2 ^ 16 }
    ensures { result ≡ piece_count len }
{
    len.div_ceil(PIECE).max(1)
}

// Writes the kept items after the header, and returns the offset after them. `room_left` is the
// room that the obligatory items leave.
fn put_items(out: &mut [u8], items: &[Item], room_left: usize) -> usize
    requires most { length out.old < 2 ^ 16 }
    requires room { room_left + base_cost items.now + 1 ≡ length out.old }
    ensures written { out.new
        ≡ with_bytes_at 240 (items_text (kept (length out.old) items.now)) out.old }
    ensures next { result ≡ 240 + length (items_text (kept (length out.old) items.now)) }
    ensures within { result < length out.old }
{
    let mut at = 240;
    let mut left = room_left;
    for item in items {
        let Some(less) = left_beside(left, item) else {
            continue;
        };
        left = less;
        at = put_item(out, at, item);
    }
    at
}

// Returns what an item leaves of the room beside the obligatory items. An obligatory item takes
// none of it.
fn left_beside(left: usize, item: &Item) -> Option<usize>
    requires { left < 2 ^ 16 }
    ensures { MatchOption result (left < optional_cost item.now)
        (λ less. less + optional_cost item.now ≡ left) }
{
    if item.obligatory {
        Some(left)
    } else {
        less_cost(left, item.value.as_slice().len())
    }
}

// Writes an item's pieces at an offset, and returns the offset after them.
fn put_item(out: &mut [u8], at: usize, item: &Item) -> usize
    requires code { IsCode item.now.code }
    requires few { length item.now.value < 2 ^ 16 }
    requires room { at + item_cost item.now ≤ length out.old }
    ensures written { out.new ≡ with_bytes_at at (pieces_text (pieces_of item.now)) out.old }
    ensures next { result ≡ at + item_cost item.now }
{
    put_value(out, at, item.code, item.value.as_slice())
}

// Writes a value in pieces of 255 bytes and a last piece of at most 255, and returns the offset
// after them.
fn put_value(out: &mut [u8], at: usize, code: u8, value: &[u8]) -> usize
    requires code { IsCode code }
    requires few { length value.now < 2 ^ 16 }
    requires room { at + cost_of (length value.now) ≤ length out.old }
    ensures written { out.new
        ≡ with_bytes_at at (first_text code value.now (piece_count (length value.now))) out.old }
    ensures next { result ≡ at + cost_of (length value.now) }
{
    let mut next = at;
    for k in 0..pieces(value.len()) {
        let from = k * PIECE;
        let to = value.len().min(from + PIECE);
        next = put_piece(out, next, code, &value[from..to]);
    }
    next
}
