ghost use Rattle.std.specs.Prelude.{◌≡◌, ◌≤◌, ◌<◌, ◌+◌, [], IfOk, IfSome, IsSome, List, length, slice_index_or};
ghost use Rattle.kd_rows.specs.Full.{AreFull, HasAll};
ghost use Rattle.kd_rows.specs.declared.row.Row.{Row};
ghost use Rattle.kd_rows.specs.Table.{Rise, row_at};

use crate::sorted::Sorted;
use std::alloc::{AllocError, Global};
use std::marker::Model;

// The greatest number of runs.
const MOST: usize = 64;

// The addresses from one to another.
#[derive(Clone, Copy)]
pub(crate) struct Run {
    pub(crate) first: u32,
    pub(crate) last: u32,
}

// Runs of addresses that all have rows, so that a search need not look at full ranges. Rows are
// never removed, so a run stays true. If an address comes between two runs they are joined. Not
// every address that has a row is in a run.
#[derive(Drop)]
pub(crate) struct Full {
    runs: Vec<Run>,
}

impl Model for Full {
    ghost use Rattle.std.specs.Prelude.{◌≤◌, List, vec_capacity};
    ghost use Rattle.kd_rows.specs.declared.full.Run.{Run};

    ghost Value = { List Run };

    ghost view = { λ s. s.runs.items };

    ghost invariant = { λ s. 64 ≤ vec_capacity s.runs };
}

impl Full {
    // Makes an empty list of runs.
    pub(crate) fn new(alloc: Global) -> Result<Full, AllocError>
        ensures { IfOk result (λ full. full ≡ []) }
    {
        Ok(Full {
            runs: Vec::with_capacity(alloc, MOST)?,
        })
    }

    // Returns the last address of a run that contains this one.
    pub(crate) fn last_from(&self, address: u32) -> Option<u32>
        ensures { (rows : List Row) → AreFull rows self.now
            → IfSome result (λ last. (address ≤ last) × HasAll rows address last) }
    {
        for run in self.runs.as_slice() {
            if run.first <= address && address <= run.last {
                return Some(run.last);
            }
        }
        None
    }

    // Records that an address has a row. If `new` is false, it already had one and nothing changes.
    pub(crate) fn add(&mut self, address: u32, new: bool)
        ensures { (rows : List Row) → AreFull rows self.old → IsSome (row_at rows address)
            → AreFull rows self.new }
    {
        if new {
            match self.ending_before(address) {
                Some(place) => self.lengthen(place, address),
                None => self.begin(address),
            }
        }
    }

    // Extends a run that ends right before an address that has a row. If another run begins right
    // after the address, the two are joined.
    fn lengthen(&mut self, place: usize, address: u32)
        requires place { place < length self.old }
        requires ends { (d : Run) → (slice_index_or self.old place d).last + 1 ≡ address }
        ensures { (rows : List Row) → AreFull rows self.old → IsSome (row_at rows address)
            → AreFull rows self.new }
    {
        if let Some(after) = self.beginning_after(address) {
            self.runs[place].last = self.runs[after].last;
            self.runs.swap_remove(after);
        } else {
            self.runs[place].last = address;
        }
    }

    // Begins a run at an address that has a row.
    fn begin(&mut self, address: u32)
        ensures { (rows : List Row) → AreFull rows self.old → IsSome (row_at rows address)
            → AreFull rows self.new }
    {
        match self.beginning_after(address) {
            Some(place) => self.runs[place].first = address,
            None if self.runs.len() < MOST => self.runs.push_reserved(Run {
                first: address,
                last: address,
            }),
            None => {}
        }
    }

    // Returns the index of a run that ends right before an address.
    fn ending_before(&self, address: u32) -> Option<usize>
        ensures { IfSome result (λ place. (place < length self.now)
            × ((d : Run) → (slice_index_or self.now place d).last + 1 ≡ address)) }
    {
        for place in 0..self.runs.len() {
            if self.runs[place].last.checked_add(1) == Some(address) {
                return Some(place);
            }
        }
        None
    }

    // Returns the index of a run that begins right after an address.
    fn beginning_after(&self, address: u32) -> Option<usize>
        ensures { IfSome result (λ place. (place < length self.now)
            × ((d : Run) → (slice_index_or self.now place d).first ≡ address + 1)) }
    {
        for place in 0..self.runs.len() {
            if address.checked_add(1) == Some(self.runs[place].first) {
                return Some(place);
            }
        }
        None
    }
}

// Returns runs of the addresses of rows.
#[tactic(auto, using(crate::proofs::Fulls::has_at))]
pub(crate) fn full_of(alloc: Global, rows: &Sorted) -> Result<Full, AllocError>
    requires { Rise rows.now.rows }
    ensures { IfOk result (λ full. AreFull rows.now.rows full) }
{
    let mut full = Full::new(alloc)?;
    for place in 0..rows.len() {
        full.add(rows.row(place).address, true);
    }
    Ok(full)
}
