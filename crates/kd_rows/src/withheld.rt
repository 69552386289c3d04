ghost use Rattle.std.specs.Prelude.{◌≡◌, ◌≢◌, ◌↔◌, ◌-◌, ◌≤◌, ℕ, IfOk, OnErr, OnOk, false, if◌then◌else◌, is_some, min, true};
ghost use Rattle.std.specs.Option.{option_copied};
ghost use Rattle.kd_rows.specs.Row.{IsInRange};
ghost use Rattle.kd_rows.specs.Table.{latest_of, room_for_row, row_at, with_row};
ghost use Rattle.kd_rows.specs.Withheld.{IsFirstFree, IsNextOpenEnded, is_withheld};

use crate::addresses::{in_order, is_among, take_out, without_rows};
use crate::blocks::{Blocks, Bound, block_of, bound_all, bound_now, kept_bound};
use crate::ended::next_ended;
use crate::free::free_in;
use crate::open_rows::OpenRows;
use crate::row::Row;
use crate::rows::{Rows, room_after};
use std::alloc::AllocError;
use std::marker::Model;

/// A table of leases with withheld addresses: each of these is for one client and no other.
#[derive(Drop)]
pub struct Withheld {
    rows: Rows,
    // The withheld addresses, in ascending order.
    list: Vec<u32>,
    // Those of them that have no row, in ascending order.
    bare: Vec<u32>,
    // The bound of each block that has rows at addresses that are not withheld.
    others: Blocks,
    // A number of new addresses for which both rows and bounds have room.
    room: usize,
}

impl Model for Withheld {
    ghost use Rattle.kd_rows.specs.Open.{IsWithheldKept};
    ghost use Rattle.kd_rows.specs.Withheld.{WithheldTable};

    ghost Value = { WithheldTable };

    ghost view = { λ t. record {
      table = record { rows = t.rows.rows; least = t.rows.least; room = t.room };
      withheld = t.list.items;
    } };

    ghost invariant = { λ t. IsWithheldKept t.rows t.list.items t.bare.items t.others t.room };
}

impl Withheld {
    /// Makes a table with withheld addresses. They may come in any order, and more than once.
    ///
    /// # Errors
    ///
    /// There is no memory for the withheld addresses without a row, or for the bounds of the rows.
    pub fn new(rows: Rows, withheld: Vec<u32>) -> Result<Withheld, AllocError>
        ensures rows { IfOk result (λ t. t.table.rows ≡ rows.rows) }
        ensures least { IfOk result (λ t. t.table.least ≡ rows.least) }
        ensures withheld { IfOk result (λ t. (a : ℕ) → is_withheld t.withheld a
            ≡ is_withheld withheld.items a) }
    {
        let alloc = *withheld.allocator();
        let list = in_order(withheld);
        let bare = without_rows(&list, rows.as_sorted())?;
        let mut others = Blocks::new(alloc);
        bound_all(
            &mut others,
            &OpenRows::beside(rows.as_sorted(), list.as_slice()),
        )?;
        Ok(Withheld {
            room: rows.room().min(others.room()),
            rows,
            list,
            bare,
            others,
        })
    }

    /// Returns the table of rows by itself, which may have more room.
    pub fn rows(&self) -> &Rows
        ensures rows { result.now.rows ≡ self.now.table.rows }
        ensures least { result.now.least ≡ self.now.table.least }
        ensures room { self.now.table.room ≤ result.now.room }
    {
        &self.rows
    }

    /// Returns the lowest address from `first` to `last` that has no row and is not withheld, if
    /// there is one.
    pub fn first_free(&self, first: u32, last: u32) -> Option<u32>
        requires { first ≤ last }
        ensures { IsFirstFree self.now.table.rows self.now.withheld first last result }
    {
        match self.rows.first_gap(first, last) {
            Some(gap) if is_among(self.bare.as_slice(), gap) => {
                free_in(self.rows.as_sorted(), self.bare.as_slice(), gap, last)
            }
            gap => gap,
        }
    }

    /// Returns the row with the lowest address from `first` to `last` that has ended at a time, in
    /// seconds, and is not withheld, if there is one.
    pub fn next_ended(&self, first: u32, last: u32, moment: u64) -> Option<&Row>
        ensures { IsNextOpenEnded self.now.table.rows self.now.withheld first last moment
            (option_copied result) }
    {
        if moment < self.rows.least_end() {
            return None;
        }
        let rows = OpenRows::beside(self.rows.as_sorted(), self.list.as_slice());
        next_ended(&rows, &self.others, first, last, moment)
    }

    /// Whether a row can be set without taking memory: its address has a row, or there is room for
    /// one more.
    pub fn spare(&self, row: &Row) -> bool
        ensures { result ≡ room_for_row self.now.table row.now }
    {
        self.rows.get(row.address).is_some() || self.room > 0
    }

    /// Whether setting a row would change the table. If so, makes room so that it can be set without
    /// taking memory.
    ///
    /// # Errors
    ///
    /// The row would change the table, there was no room, and there is no memory for more; the rows
    /// stay as they are.
    #[tactic(auto, using(crate::proofs::Sets::stays_spare))]
    pub fn prepare(&mut self, row: &Row) -> Result<bool, AllocError>
        ensures rows { self.new.table.rows ≡ self.old.table.rows }
        ensures least { self.new.table.least ≡ self.old.table.least }
        ensures withheld { self.new.withheld ≡ self.old.withheld }
        ensures same { IfOk result (λ changes. (changes ≡ false)
            ↔ (with_row row.now self.old.table.rows ≡ self.old.table.rows)) }
        ensures spare { OnOk result (room_for_row self.new.table row.now ≡ true) }
        ensures needed { OnErr result (room_for_row self.old.table row.now ≡ false) }
        ensures changed { OnErr result
            (with_row row.now self.old.table.rows ≢ self.old.table.rows) }
    {
        if self.rows.has(row) {
            return Ok(false);
        }
        self.reserve(row)?;
        Ok(true)
    }

    // Makes room so that a row can be set without taking memory. An error says that there was no
    // room, and that there is no memory for more.
    fn reserve(&mut self, row: &Row) -> Result<(), AllocError>
        ensures rows { self.new.table.rows ≡ self.old.table.rows }
        ensures least { self.new.table.least ≡ self.old.table.least }
        ensures withheld { self.new.withheld ≡ self.old.withheld }
        ensures spare { OnOk result (room_for_row self.new.table row.now ≡ true) }
        ensures needed { OnErr result (room_for_row self.old.table row.now ≡ false) }
    {
        if !self.spare(row) {
            self.rows.reserve(row)?;
            self.others.reserve()?;
            self.room = self.rows.room().min(self.others.room());
        }
        Ok(())
    }

    /// Sets a row: replaces the row at its address, or inserts it where its address belongs. Takes
    /// no memory.
    pub fn set(&mut self, row: Row)
        requires spare { room_for_row self.old.table row ≡ true }
        requires changed { latest_of self.old.table.rows ≤ row.changed }
        requires range { IsInRange row }
        ensures rows { self.new.table.rows ≡ with_row row self.old.table.rows }
        ensures least { self.new.table.least ≡ min self.old.table.least row.ends }
        ensures room { self.new.table.room ≡ self.old.table.room
            - (if is_some (row_at self.old.table.rows row.address) then 0 else 1) }
        ensures withheld { self.new.withheld ≡ self.old.withheld }
    {
        let address = row.address;
        let ends = row.ends;
        let replaced = self.rows.exchange(row);
        self.room = room_after(self.room, replaced);
        if is_among(self.list.as_slice(), address) {
            take_out(&mut self.bare, address);
        } else {
            let block = block_of(address);
            let kept = kept_bound(self.others.find(block), replaced, ends);
            let rows = OpenRows::beside(self.rows.as_sorted(), self.list.as_slice());
            let least = bound_now(&rows, address, kept);
            self.others.set(Bound { block, least });
        }
    }
}
