ghost use Rattle.std.specs.Prelude.{◌≡◌, ◌+◌, ◌<◌, [], length, None, OnOk, is_some, if◌then◌else◌, slice_index_or};
ghost use Rattle.kd_rows.specs.Index.{IsBound, IsBounded, IsLower, IsNow, IsPlace, IsRowPlace, block_number, bound_row, end_at};
ghost use Rattle.kd_rows.specs.Table.{Rise, row_at, with_row};

use crate::addresses::is_among;
use crate::numbers::number_of;
use crate::open_rows::OpenRows;
use crate::search::first_past;
use crate::tiered::Tiered;
use std::alloc::{AllocError, Global};
use std::marker::Model;

// The number of addresses in a block.
pub(crate) const BLOCK: u32 = 64;

// Returns the block of an address.
pub(crate) fn block_of(address: u32) -> u32
    ensures { result ≡ block_number address }
{
    address / BLOCK
}

// A block and a time before which none of its rows ends.
#[derive(Clone, Copy)]
pub(crate) struct Bound {
    pub(crate) block: u32,
    pub(crate) least: u64,
}

// The bounds of the blocks that have rows, in ascending order of the blocks. A bound stays in the
// slot in which it was put: when another is inserted, only the slot numbers move.
#[derive(Drop)]
pub(crate) struct Blocks {
    slots: Vec<Bound>,
    // The slot numbers, in ascending order of their blocks.
    order: Tiered,
}

impl Model for Blocks {
    ghost use Rattle.std.specs.Prelude.{◌-◌, map, min, vec_capacity, vec_len};
    ghost use Rattle.kd_rows.specs.Index.{Bounds, IsByAddress, bound_row, rows_in};

    ghost Value = { Bounds };

    ghost view = { λ s. record {
      rows = rows_in (map bound_row s.slots.items) s.order.numbers;
      room = min (vec_capacity s.slots - vec_len s.slots) s.order.room;
    } };

    ghost invariant = { λ s. IsByAddress (map bound_row s.slots.items) s.order.numbers };
}

impl Blocks {
    // Makes an empty list of bounds.
    pub(crate) fn new(alloc: Global) -> Blocks
        ensures { result.rows ≡ [] }
    {
        Blocks {
            slots: Vec::new(alloc),
            order: Tiered::new(alloc),
        }
    }

    // Returns the number of bounds.
    pub(crate) fn len(&self) -> usize
        ensures { result ≡ length self.now.rows }
    {
        self.order.len()
    }

    // Returns the bound at an index.
    pub(crate) fn at(&self, place: usize) -> Bound
        requires { place < length self.now.rows }
        ensures { bound_row result ≡ slice_index_or self.now.rows place (bound_row result) }
    {
        self.slots[self.order.at(place) as usize]
    }

    // Returns the index of the first bound that belongs to this block or one above it.
    pub(crate) fn place_of(&self, block: u32) -> usize
        requires { Rise self.now.rows }
        ensures { IsPlace self.now.rows block result }
    {
        first_past(0, self.len(), |place| self.at(place).block < block)
    }

    // Returns the bound of a block, if it has one.
    pub(crate) fn find(&self, block: u32) -> Option<u64>
        requires { Rise self.now.rows }
        ensures { result ≡ end_at self.now.rows block }
    {
        let place = self.place_of(block);
        if place < self.len() && self.at(place).block == block {
            Some(self.at(place).least)
        } else {
            None
        }
    }

    // Returns the number of further bounds for which there is room.
    pub(crate) fn room(&self) -> usize
        ensures { result ≡ self.now.room }
    {
        let slots = self.slots.capacity() - self.slots.len();
        slots.min(self.order.room())
    }

    // Makes room for one more bound.
    pub(crate) fn reserve(&mut self) -> Result<(), AllocError>
        ensures rows { self.new.rows ≡ self.old.rows }
        ensures room { OnOk result (0 < self.new.room) }
    {
        self.slots.reserve(1)?;
        self.order.reserve()
    }

    // Sets a bound: replaces that of its block, or inserts it where its block belongs.
    pub(crate) fn set(&mut self, bound: Bound)
        requires rise { Rise self.old.rows }
        requires room { row_at self.old.rows bound.block ≡ None → 0 < self.old.room }
        ensures rows { self.new.rows ≡ with_row (bound_row bound) self.old.rows }
        ensures room { self.new.room + (if is_some (row_at self.old.rows bound.block) then 0 else 1)
            ≡ self.old.room }
    {
        let place = self.place_of(bound.block);
        if place < self.len() && self.at(place).block == bound.block {
            self.replace(place, bound);
        } else {
            self.insert_bound(place, bound);
        }
    }

    // Replaces the bound of a block.
    fn replace(&mut self, place: usize, bound: Bound)
        requires { IsRowPlace self.old.rows bound.block place }
        ensures rows { self.new.rows ≡ with_row (bound_row bound) self.old.rows }
        ensures room { self.new.room ≡ self.old.room }
    {
        let number = self.order.at(place) as usize;
        self.slots[number] = bound;
    }

    // Inserts a bound where its block, which has none, belongs.
    fn insert_bound(&mut self, place: usize, bound: Bound)
        requires place { IsPlace self.old.rows bound.block place }
        requires none { row_at self.old.rows bound.block ≡ None }
        requires room { 0 < self.old.room }
        ensures rows { self.new.rows ≡ with_row (bound_row bound) self.old.rows }
        ensures room { self.new.room + 1 ≡ self.old.room }
    {
        let number = number_of(self.slots.len(), bound.block);
        self.order.put_at(place, number);
        self.slots.push_reserved(bound);
    }
}

// Returns a time before which no row in the block of an address ends: the least end of these rows,
// or the greatest time if there are none.
pub(crate) fn least_beside(rows: &OpenRows, address: u32) -> u64
    ensures { IsBound rows.now (block_number address) result }
{
    let block = block_of(address);
    let mut least = u64::MAX;
    for place in rows.all.place_of(block * BLOCK)..rows.all.len() {
        let row = rows.all.row(place);
        if block < block_of(row.address) {
            return least;
        }
        if !is_among(rows.withheld, row.address) {
            least = row.ends.min(least);
        }
    }
    least
}

// Sets the bound of each block that has rows.
pub(crate) fn bound_all(blocks: &mut Blocks, rows: &OpenRows) -> Result<(), AllocError>
    requires { blocks.old.rows ≡ [] }
    ensures { OnOk result (IsBounded rows.now blocks.new.rows) }
{
    for place in 0..rows.all.len() {
        let address = rows.all.row(place).address;
        if place == 0 || block_of(rows.all.row(place - 1).address) != block_of(address) {
            blocks.reserve()?;
            blocks.set(Bound {
                block: block_of(address),
                least: least_beside(rows, address),
            });
        }
    }
    Ok(())
}

// Returns what remains of a block's bound after a row is set: nothing if the replaced row ended at
// the bound and the new row ends later, so that the bound may rise.
pub(crate) fn kept_bound(held: Option<u64>, replaced: Option<u64>, ends: u64) -> Option<u64>
    ensures { IsLower held ends result }
{
    match held {
        None => None,
        Some(least) => {
            if least < ends && replaced.unwrap_or(u64::MAX) == least {
                None
            } else {
                Some(ends.min(least))
            }
        }
    }
}

// Returns the bound of the block of an address: what remains of the old one, or the least end of
// its rows.
pub(crate) fn bound_now(rows: &OpenRows, address: u32, kept: Option<u64>) -> u64
    ensures { IsNow rows.now (block_number address) kept result }
{
    match kept {
        Some(least) => least,
        None => least_beside(rows, address),
    }
}
