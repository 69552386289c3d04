ghost use Rattle.std.specs.Prelude.{◌≡◌, ◌+◌, ◌-◌, ◌≤◌, ◌<◌, ◌^◌, ◌↔◌, ◌≢◌, length, IfOk, IsTrue, OnErr, OnOk, false, is_some, if◌then◌else◌, min, true, slice_get};
ghost use Rattle.std.specs.List.{All};
ghost use Rattle.std.specs.Option.{option_copied};
ghost use Rattle.kd_rows.specs.Row.{IsInRange};
ghost use Rattle.kd_rows.specs.Index.{end_at};
ghost use Rattle.kd_rows.specs.Table.{IsFirstGap, IsNewestRow, IsNext, IsNextEnded, IsNextOf, Rise, addresses_of, is_aged, latest_of, least_of, row_at, room_for_row, with_row};

use crate::across::newest_in;
use crate::blocks::{Blocks, Bound, block_of, bound_all, bound_now, kept_bound};
use crate::ended::next_ended;
use crate::find::{find, gap_in};
use crate::full::{Full, full_of};
use crate::holds::{Holds, holds_in};
use crate::index::{next_of, nth_of};
use crate::open_rows::OpenRows;
use crate::put::put_row;
use crate::row::{Row, State};
use crate::sorted::Sorted;
use std::alloc::AllocError;
use std::marker::Model;

/// The table of leases: one row per address, found by address and by client.
#[derive(Drop)]
pub struct Rows {
    rows: Sorted,
    // The bound of each block that has rows.
    blocks: Blocks,
    // Runs of addresses that all have rows.
    full: Full,
    latest: u64,
    least: u64,
    holds: Holds,
    // A number of new addresses for which both rows and blocks have room.
    room: usize,
}

impl Model for Rows {
    ghost use Rattle.std.specs.Prelude.{min};
    ghost use Rattle.kd_rows.specs.Index.{IsKept};
    ghost use Rattle.kd_rows.specs.Table.{Table};

    ghost Value = { Table };

    ghost view = { λ t. record { rows = t.rows.rows; least = t.least; room = t.room } };

    ghost invariant = { λ t. IsKept t.rows t.latest t.least t.holds t.blocks.rows t.full
        t.room (min t.rows.room t.blocks.room) };
}

impl Rows {
    /// Whether rows can form a table: in ascending order of address, one per address, and in range.
    pub fn accepts(rows: &[Row]) -> bool
        ensures { IsTrue result ↔ Rise rows.now × All IsInRange rows.now }
    {
        for i in 0..rows.len() {
            if !rows[i].is_in_range() {
                return false;
            }
            if i > 0 && rows[i].address <= rows[i - 1].address {
                return false;
            }
        }
        true
    }

    /// Makes a table of rows that are in ascending order of address, one per address.
    ///
    /// # Errors
    ///
    /// There is no memory for the indexes of the rows.
    pub fn new(rows: Vec<Row>) -> Result<Rows, AllocError>
        requires rise { Rise rows.items }
        requires ranges { All IsInRange rows.items }
        ensures rows { IfOk result (λ t. t.rows ≡ rows.items) }
        ensures least { IfOk result (λ t. t.least ≡ least_of rows.items) }
    {
        let cuts = Vec::new(*rows.allocator());
        Rows::with_cuts(rows, cuts)
    }

    /// Makes the same table, with its addresses divided into zones at `cuts`. If there are cuts at
    /// `first` and right after `last`, `newest_of` steps over none of the client's rows outside
    /// that range.
    ///
    /// # Errors
    ///
    /// As for `new`.
    pub fn with_cuts(rows: Vec<Row>, cuts: Vec<u32>) -> Result<Rows, AllocError>
        requires rise { Rise rows.items }
        requires ranges { All IsInRange rows.items }
        ensures rows { IfOk result (λ t. t.rows ≡ rows.items) }
        ensures least { IfOk result (λ t. t.least ≡ least_of rows.items) }
    {
        let latest = latest_in(&rows);
        let least = least_in(&rows);
        let holds = holds_in(&rows);
        let alloc = *rows.allocator();
        let mut blocks = Blocks::new(alloc);
        let sorted = Sorted::new(rows, cuts)?;
        bound_all(&mut blocks, &OpenRows::all(&sorted))?;
        let full = full_of(alloc, &sorted)?;
        Ok(Rows {
            room: sorted.room().min(blocks.room()),
            rows: sorted,
            blocks,
            full,
            latest,
            least,
            holds,
        })
    }

    // Returns the rows in ascending order of address.
    pub(crate) fn as_sorted(&self) -> &Sorted
        ensures rows { result.now.rows ≡ self.now.rows }
        ensures rise { Rise result.now.rows }
    {
        &self.rows
    }

    // Returns the least number of new addresses for which there is room.
    pub(crate) fn room(&self) -> usize
        ensures { result ≡ self.now.room }
    {
        self.room
    }

    /// Returns the number of rows. They are in ascending order of address, and their times are in
    /// range.
    pub fn len(&self) -> usize
        ensures len { result ≡ length self.now.rows }
        ensures rise { Rise self.now.rows }
        ensures ranges { All IsInRange self.now.rows }
        ensures bounded { All (λ row. row.address < 2 ^ 32) self.now.rows }
    {
        self.rows.have_bounds();
        self.rows.len()
    }

    /// Returns the row at an index, in ascending order of address, if there is one.
    pub fn at(&self, i: usize) -> Option<&Row>
        ensures { option_copied result ≡ slice_get self.now.rows i }
    {
        self.rows.get(i)
    }

    /// Returns the row at an address, if there is one.
    pub fn get(&self, address: u32) -> Option<&Row>
        ensures { option_copied result ≡ row_at self.now.rows address }
    {
        match find(&self.rows, address) {
            Some(place) => Some(self.rows.row(place)),
            None => None,
        }
    }

    /// Whether the table has exactly this row, so that setting it would change nothing.
    pub fn has(&self, row: &Row) -> bool
        ensures { IsTrue result ↔ (with_row row.now self.now.rows ≡ self.now.rows) }
    {
        match find(&self.rows, row.address) {
            Some(place) => is_same(self.rows.row(place), row),
            None => false,
        }
    }

    /// Returns the latest time at which a row was set, or 0 if there are no rows.
    pub fn latest(&self) -> u64
        ensures latest { result ≡ latest_of self.now.rows }
        ensures early { result < 2 ^ 40 }
    {
        self.latest
    }

    /// Returns a time before which no row ends: the least end of the rows that the table was made
    /// from and of all that were set since.
    pub fn least_end(&self) -> u64
        ensures least { result ≡ self.now.least }
        ensures bound { All (λ row. result ≤ row.ends) self.now.rows }
    {
        self.least
    }

    /// Returns how many seconds, at most, a row of a state holds after it was set. This counts
    /// every row that was set, including those that were replaced.
    pub fn longest(&self, state: State) -> u64
        ensures { All (λ row. row.state ≡ state → row.ends ≤ row.changed + result) self.now.rows }
    {
        self.holds.of(state)
    }

    /// Returns the address at an index among a client's addresses, which are in ascending order.
    pub fn of_client(&self, client: &[u8], i: usize) -> Option<u32>
        ensures { result ≡ slice_get (addresses_of client.now self.now.rows) i }
    {
        nth_of(&self.rows, client, i)
    }

    /// Returns the lowest address from `first` to `last` that has no row, if there is one.
    #[tactic(auto, using(crate::proofs::Fulls::gap_after))]
    pub fn first_gap(&self, first: u32, last: u32) -> Option<u32>
        requires { first ≤ last }
        ensures { IsFirstGap self.now.rows first last result }
    {
        let mut from = first;
        'full: while let Some(end) = self.full.last_from(from) {
            if end >= last {
                return None;
            }
            from = end + 1;
        }
        gap_in(&self.rows, from, last)
    }

    /// Returns the row with the lowest address that is this one or above it, if there is one.
    pub fn next_from(&self, address: u32) -> Option<&Row>
        ensures { IsNext self.now.rows address (option_copied result) }
    {
        self.at(self.rows.place_of(address))
    }

    /// Returns a client's row with the lowest address from `first` to `last`, if there is one.
    pub fn next_of_client(&self, client: &[u8], first: u32, last: u64) -> Option<&Row>
        ensures { IsNextOf self.now.rows client.now first last (option_copied result) }
    {
        next_of(&self.rows, client, first, last)
    }

    /// Returns the newest of a client's rows in a state from `first` to `last`: the one set last,
    /// and the lowest address among those set at the same time. With `before`, returns the newest
    /// of the rows that come after it in this order.
    pub fn newest_of(
        &self,
        client: &[u8],
        state: State,
        first: u32,
        last: u32,
        before: Option<&Row>,
    ) -> Option<&Row>
        ensures { IsNewestRow self.now.rows
            (is_aged client.now state first last (option_copied before.entry))
            (option_copied result) }
    {
        newest_in(&self.rows, client, state, first, last, before)
    }

    /// Returns the row with the lowest address from `first` to `last` that has ended at a time, if
    /// there is one.
    pub fn next_ended(&self, first: u32, last: u32, moment: u64) -> Option<&Row>
        ensures { IsNextEnded self.now.rows first last moment (option_copied result) }
    {
        if moment < self.least {
            return None;
        }
        next_ended(
            &OpenRows::all(&self.rows),
            &self.blocks,
            first,
            last,
            moment,
        )
    }

    /// Whether a row can be set without taking memory: its address has a row, or there is room for
    /// one more.
    pub fn spare(&self, row: &Row) -> bool
        ensures { result ≡ room_for_row self.now row.now }
    {
        find(&self.rows, row.address).is_some() || self.room > 0
    }

    /// Whether setting a row would change the table. If so, makes room so that it can be set without
    /// taking memory.
    ///
    /// # Errors
    ///
    /// The row would change the table, there was no room, and there is no memory for more; the rows
    /// stay as they are.
    #[tactic(auto, using(crate::proofs::Sets::stays_spare))]
    pub fn prepare(&mut self, row: &Row) -> Result<bool, AllocError>
        ensures rows { self.new.rows ≡ self.old.rows }
        ensures least { self.new.least ≡ self.old.least }
        ensures same { IfOk result (λ changes. (changes ≡ false)
            ↔ (with_row row.now self.old.rows ≡ self.old.rows)) }
        ensures spare { OnOk result (room_for_row self.new row.now ≡ true) }
        ensures needed { OnErr result (room_for_row self.old row.now ≡ false) }
        ensures changed { OnErr result (with_row row.now self.old.rows ≢ self.old.rows) }
    {
        if self.has(row) {
            return Ok(false);
        }
        self.reserve(row)?;
        Ok(true)
    }

    // Makes room so that a row can be set without taking memory. An error says that there was no
    // room, and that there is no memory for more.
    pub(crate) fn reserve(&mut self, row: &Row) -> Result<(), AllocError>
        ensures rows { self.new.rows ≡ self.old.rows }
        ensures least { self.new.least ≡ self.old.least }
        ensures spare { OnOk result (room_for_row self.new row.now ≡ true) }
        ensures needed { OnErr result (room_for_row self.old row.now ≡ false) }
    {
        if !self.spare(row) {
            self.rows.reserve()?;
            self.blocks.reserve()?;
            self.room = self.rows.room().min(self.blocks.room());
        }
        Ok(())
    }

    /// Sets a row: replaces the row at its address, or inserts it where its address belongs. Takes
    /// no memory.
    pub fn set(&mut self, row: Row)
        requires spare { room_for_row self.old row ≡ true }
        requires changed { latest_of self.old.rows ≤ row.changed }
        requires range { IsInRange row }
        ensures rows { self.new.rows ≡ with_row row self.old.rows }
        ensures least { self.new.least ≡ min self.old.least row.ends }
        ensures room { self.new.room
            ≡ self.old.room - (if is_some (row_at self.old.rows row.address) then 0 else 1) }
    {
        self.exchange(row);
    }

    // Does the same, and returns the end of the row that was there.
    pub(crate) fn exchange(&mut self, row: Row) -> Option<u64>
        requires spare { room_for_row self.old row ≡ true }
        requires changed { latest_of self.old.rows ≤ row.changed }
        requires range { IsInRange row }
        ensures rows { self.new.rows ≡ with_row row self.old.rows }
        ensures least { self.new.least ≡ min self.old.least row.ends }
        ensures room { self.new.room
            ≡ self.old.room - (if is_some (row_at self.old.rows row.address) then 0 else 1) }
        ensures replaced { result ≡ end_at self.old.rows row.address }
        ensures rise { Rise self.old.rows }
    {
        let address = row.address;
        let block = block_of(address);
        let replaced = ends_at(&self.rows, address);
        let kept = kept_bound(self.blocks.find(block), replaced, row.ends);
        self.room = room_after(self.room, replaced);
        self.latest = row.changed;
        self.least = self.least.min(row.ends);
        self.holds = self.holds.with(&row);
        put_row(&mut self.rows, row);
        let least = bound_now(&OpenRows::all(&self.rows), address, kept);
        self.blocks.set(Bound { block, least });
        self.full.add(address, replaced.is_none());
        replaced
    }
}

// Returns the end of the row at an address, if there is one.
fn ends_at(rows: &Sorted, address: u32) -> Option<u64>
    requires { Rise rows.now.rows }
    ensures { result ≡ end_at rows.now.rows address }
{
    match find(rows, address) {
        Some(place) => Some(rows.row(place).ends),
        None => None,
    }
}

// Returns the number of new addresses for which there is room after a row was set: a new address
// takes one place.
pub(crate) fn room_after(room: usize, replaced: Option<u64>) -> usize
    ensures { result ≡ room - (if is_some replaced then 0 else 1) }
{
    match replaced {
        Some(_) => room,
        None => room.saturating_sub(1),
    }
}

// Whether two rows are the same.
fn is_same(a: &Row, b: &Row) -> bool
    ensures { IsTrue result ↔ (a.now ≡ b.now) }
{
    a.address == b.address
        && a.state == b.state
        && a.changed == b.changed
        && a.ends == b.ends
        && a.client.as_slice() == b.client.as_slice()
}

// Returns the latest time at which a row was set, or 0 if there are no rows.
fn latest_in(rows: &[Row]) -> u64
    ensures { result ≡ latest_of rows.now }
{
    let mut latest = 0;
    for row in rows {
        latest = row.changed.max(latest);
    }
    latest
}

// Returns the earliest time at which a row ends, or the greatest time if there are no rows.
fn least_in(rows: &[Row]) -> u64
    ensures least { result ≡ least_of rows.now }
    ensures bound { All (λ row. result ≤ row.ends) rows.now }
{
    let mut least = u64::MAX;
    for row in rows {
        least = row.ends.min(least);
    }
    least
}
