ghost use Rattle.std.specs.Prelude.{◌≡◌, ◌+◌, ◌<◌, ◌≤◌, ◌^◌, length, IfOk, None, OnOk, Some, slice_get, slice_index, slice_index_or, vec_capacity, vec_len};
ghost use Rattle.std.specs.List.{All, insert, remove};
ghost use Rattle.std.specs.Option.{option_copied};
ghost use Rattle.kd_rows.specs.Heads.{IsHeadAt};
ghost use Rattle.kd_rows.specs.Index.{IsRowPlace, IsIndex, IsPlace, age_of, client_of, row_in};
ghost use Rattle.kd_rows.specs.Table.{Rise, row_at, with_row};

use crate::heads::{addresses_by_slot, head_of, heads_by_slot};
use crate::numbers::{number_of, numbers_by_address, numbers_by_age, numbers_by_client};
use crate::row::Row;
use crate::search::first_past;
use crate::tiered::Tiered;
use crate::zones::Zones;
use std::alloc::AllocError;
use std::marker::Model;

// Rows in ascending order of address, with two indexes of their addresses. A row stays in the slot
// in which it was put: when another is inserted, only the slot numbers move.
#[derive(Drop)]
pub(crate) struct Sorted {
    slots: Vec<Row>,
    // The addresses of the rows in the slots.
    addresses: Vec<u32>,
    // The heads of their clients. A search compares these, and looks at a row only if they are
    // equal.
    heads: Vec<u64>,
    // The slot numbers, in ascending order of the rows' addresses.
    by_address: Tiered,
    // The slot numbers, ordered by client and address.
    by_client: Tiered,
    // The slot numbers, ordered by client, state, zone, time (latest first) and address.
    by_age: Tiered,
    zones: Zones,
}

impl Model for Sorted {
    ghost use Rattle.std.specs.Prelude.{◌-◌, min, vec_capacity, vec_len};
    ghost use Rattle.kd_rows.specs.Index.{IsStored, Ordered, addresses_in, rows_in};

    ghost Value = { Ordered };

    ghost view = { λ s. record {
      rows = rows_in s.slots.items s.by_address.numbers;
      index = addresses_in s.slots.items s.by_client.numbers;
      ages = addresses_in s.slots.items s.by_age.numbers;
      cuts = s.zones;
      room = min (min (vec_capacity s.slots - vec_len s.slots)
          (min (vec_capacity s.addresses - vec_len s.addresses)
          (vec_capacity s.heads - vec_len s.heads)))
          (min s.by_address.room (min s.by_client.room s.by_age.room));
    } };

    ghost invariant = { λ s. IsStored s.slots.items s.addresses.items s.heads.items
        s.by_address.numbers s.by_client.numbers s.by_age.numbers };
}

impl Sorted {
    // Stores rows that are in ascending order of address, each in the slot of its index, and zones
    // between cuts.
    pub(crate) fn new(rows: Vec<Row>, cuts: Vec<u32>) -> Result<Sorted, AllocError>
        requires { Rise rows.items }
        ensures rows { IfOk result (λ s. s.rows ≡ rows.items) }
        ensures indexed { IfOk result (λ s. IsIndex client_of s.rows s.index) }
        ensures aged { IfOk result (λ s. IsIndex (age_of s.cuts) s.rows s.ages) }
    {
        let alloc = *rows.allocator();
        let addresses = addresses_by_slot(&rows)?;
        let heads = heads_by_slot(&rows)?;
        let by_address = numbers_by_address(&rows)?;
        let by_client = numbers_by_client(&rows)?;
        let zones = Zones::between(cuts);
        let by_age = numbers_by_age(&zones, &rows)?;
        Ok(Sorted {
            slots: rows,
            addresses,
            heads,
            by_address: Tiered::of(alloc, by_address.as_slice())?,
            by_client: Tiered::of(alloc, by_client.as_slice())?,
            by_age: Tiered::of(alloc, by_age.as_slice())?,
            zones,
        })
    }

    // Returns the number of rows.
    pub(crate) fn len(&self) -> usize
        ensures { result ≡ length self.now.rows }
    {
        self.by_address.len()
    }

    // Does nothing; its contract states that the addresses have 32 bits.
    pub(crate) fn have_bounds(&self)
        ensures { All (λ row. row.address < 2 ^ 32) self.now.rows }
    {
        let _ = &self.slots;
    }

    // Returns the number of addresses in the client index.
    pub(crate) fn index_len(&self) -> usize
        ensures { result ≡ length self.now.index }
    {
        self.by_client.len()
    }

    // Returns the number of addresses in the age index.
    pub(crate) fn ages_len(&self) -> usize
        ensures { result ≡ length self.now.ages }
    {
        self.by_age.len()
    }

    // Returns the zones of addresses.
    pub(crate) fn zones(&self) -> &Zones
        ensures { result.now ≡ self.now.cuts }
    {
        &self.zones
    }

    // Returns the row at an index.
    pub(crate) fn row(&self, place: usize) -> &Row
        requires { place < length self.now.rows }
        ensures { result.now ≡ slice_index_or self.now.rows place result.now }
    {
        &self.slots[self.by_address.at(place) as usize]
    }

    // Returns the row of the `i`-th address of the client index.
    pub(crate) fn row_by_client(&self, i: usize) -> &Row
        requires { i < length self.now.index }
        ensures at { result.now.address ≡ slice_index self.now.index i }
        ensures found { row_at self.now.rows result.now.address ≡ Some result.now }
    {
        &self.slots[self.by_client.at(i) as usize]
    }

    // Returns the row of the `i`-th address of the age index.
    pub(crate) fn row_by_age(&self, i: usize) -> &Row
        requires { i < length self.now.ages }
        ensures at { result.now.address ≡ slice_index self.now.ages i }
        ensures found { row_at self.now.rows result.now.address ≡ Some result.now }
    {
        &self.slots[self.by_age.at(i) as usize]
    }

    // Returns the address of the row at an index.
    pub(crate) fn address(&self, place: usize) -> u32
        requires { place < length self.now.rows }
        ensures { result ≡ (row_in self.now.rows place).address }
    {
        self.addresses[self.by_address.at(place) as usize]
    }

    // Returns the head of the `i`-th client of the client index.
    pub(crate) fn head_by_client(&self, i: usize) -> u64
        requires { i < length self.now.index }
        ensures { IsHeadAt self.now.rows (slice_index self.now.index i) result }
    {
        self.heads[self.by_client.at(i) as usize]
    }

    // Returns the head of the `i`-th client of the age index.
    pub(crate) fn head_by_age(&self, i: usize) -> u64
        requires { i < length self.now.ages }
        ensures { IsHeadAt self.now.rows (slice_index self.now.ages i) result }
    {
        self.heads[self.by_age.at(i) as usize]
    }

    // Returns the row at an index, or `None` if there are no more.
    pub(crate) fn get(&self, place: usize) -> Option<&Row>
        ensures { option_copied result ≡ slice_get self.now.rows place }
    {
        if place < self.len() {
            Some(self.row(place))
        } else {
            None
        }
    }

    // Returns the index of the first row at this address or above it.
    pub(crate) fn place_of(&self, address: u32) -> usize
        ensures { IsPlace self.now.rows address result }
    {
        first_past(
            0,
            self.by_address.len(),
            |place| self.address(place) < address,
        )
    }

    // Returns the number of further rows for which there is room.
    pub(crate) fn room(&self) -> usize
        ensures { result ≡ self.now.room }
    {
        let addresses = self.addresses.capacity() - self.addresses.len();
        let heads = self.heads.capacity() - self.heads.len();
        let slots = (self.slots.capacity() - self.slots.len()).min(addresses.min(heads));
        let indexes = self.by_client.room().min(self.by_age.room());
        slots.min(self.by_address.room().min(indexes))
    }

    // Makes room for one more row.
    pub(crate) fn reserve(&mut self) -> Result<(), AllocError>
        ensures rows { self.new.rows ≡ self.old.rows }
        ensures index { self.new.index ≡ self.old.index }
        ensures ages { self.new.ages ≡ self.old.ages }
        ensures cuts { self.new.cuts ≡ self.old.cuts }
        ensures room { OnOk result (0 < self.new.room) }
    {
        self.slots.reserve(1)?;
        self.addresses.reserve(1)?;
        self.heads.reserve(1)?;
        self.by_address.reserve()?;
        self.by_client.reserve()?;
        self.by_age.reserve()
    }

    // Replaces the row at its address.
    pub(crate) fn replace(&mut self, place: usize, row: Row)
        requires { IsRowPlace self.old.rows row.address place }
        ensures rows { self.new.rows ≡ with_row row self.old.rows }
        ensures index { self.new.index ≡ self.old.index }
        ensures ages { self.new.ages ≡ self.old.ages }
        ensures cuts { self.new.cuts ≡ self.old.cuts }
        ensures room { self.new.room ≡ self.old.room }
    {
        let number = self.by_address.at(place) as usize;
        self.heads[number] = head_of(row.client.as_slice());
        self.slots[number] = row;
    }

    // Moves an address of the client index from one index to another, which is counted without it.
    pub(crate) fn move_key(&mut self, from: usize, to: usize)
        requires from { from < length self.old.index }
        requires to { to < length self.old.index }
        ensures rows { self.new.rows ≡ self.old.rows }
        ensures index { self.new.index
            ≡ insert (remove self.old.index from) to (slice_index self.old.index from) }
        ensures ages { self.new.ages ≡ self.old.ages }
        ensures cuts { self.new.cuts ≡ self.old.cuts }
        ensures room { self.new.room ≡ self.old.room }
    {
        let number = self.by_client.take_at(from);
        self.by_client.put_at(to, number);
    }

    // Moves an address of the age index from one index to another, which is counted without it.
    pub(crate) fn move_age(&mut self, from: usize, to: usize)
        requires from { from < length self.old.ages }
        requires to { to < length self.old.ages }
        ensures rows { self.new.rows ≡ self.old.rows }
        ensures index { self.new.index ≡ self.old.index }
        ensures ages { self.new.ages
            ≡ insert (remove self.old.ages from) to (slice_index self.old.ages from) }
        ensures cuts { self.new.cuts ≡ self.old.cuts }
        ensures room { self.new.room ≡ self.old.room }
    {
        let number = self.by_age.take_at(from);
        self.by_age.put_at(to, number);
    }

    // Inserts a row where its address belongs, and inserts its address at an index of each of the
    // two indexes.
    pub(crate) fn insert_row(&mut self, key: usize, age: usize, row: Row)
        requires none { row_at self.old.rows row.address ≡ None }
        requires key { key ≤ length self.old.index }
        requires age { age ≤ length self.old.ages }
        requires room { 0 < self.old.room }
        ensures rows { self.new.rows ≡ with_row row self.old.rows }
        ensures index { self.new.index ≡ insert self.old.index key row.address }
        ensures ages { self.new.ages ≡ insert self.old.ages age row.address }
        ensures cuts { self.new.cuts ≡ self.old.cuts }
        ensures room { self.new.room + 1 ≡ self.old.room }
    {
        let place = self.place_of(row.address);
        let number = number_of(self.slots.len(), row.address);
        self.by_address.put_at(place, number);
        self.by_client.put_at(key, number);
        self.by_age.put_at(age, number);
        self.addresses.push_reserved(row.address);
        self.heads.push_reserved(head_of(row.client.as_slice()));
        self.slots.push_reserved(row);
    }
}
