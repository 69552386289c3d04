ghost use Rattle.std.specs.Prelude.{◌≡◌, ◌+◌, ◌*◌, ◌<◌, ◌≤◌, ◌++◌, ◌∷◌, [], IfOk, OnOk, length, slice_index_or};
ghost use Rattle.std.specs.List.{flat_map, insert, remove};
ghost use Rattle.std.specs.Option.{option_to_list};
ghost use Rattle.std.specs.VecDeque.{deque_capacity, deque_items};
ghost use Rattle.kd_rows.specs.Tiers.{AreTiers};

use std::alloc::{AllocError, Global};
use std::collections::VecDeque;
use std::marker::Model;

// The number of numbers for which a tier has room.
const SIZE: usize = 4096;

// A list of numbers in tiers of equal size, each as full as it can be. When a number is inserted,
// the numbers after it in its tier move up, and the last number of each full tier becomes the first
// of the next.
#[derive(Drop)]
pub(crate) struct Tiered {
    tiers: Vec<VecDeque<u32>>,
    len: usize,
    // The number of further numbers for which there is room.
    room: usize,
}

impl Model for Tiered {
    ghost use Rattle.std.specs.List.{flat_map};
    ghost use Rattle.std.specs.VecDeque.{deque_capacity, deque_items};
    ghost use Rattle.kd_rows.specs.Tiers.{IsTiered, Roomy};

    ghost Value = { Roomy };

    ghost view = { λ s. record { numbers = flat_map deque_items s.tiers.items; room = s.room } };

    ghost invariant = { λ s. IsTiered deque_items deque_capacity s.tiers.items s.len s.room };
}

impl Tiered {
    // Makes an empty list.
    pub(crate) fn new(alloc: Global) -> Tiered
        ensures { result.numbers ≡ [] }
    {
        Tiered {
            tiers: Vec::new(alloc),
            len: 0,
            room: 0,
        }
    }

    // Makes a list of these numbers.
    pub(crate) fn of(alloc: Global, numbers: &[u32]) -> Result<Tiered, AllocError>
        ensures { IfOk result (λ tiered. tiered.numbers ≡ numbers.now) }
    {
        let mut tiered = Tiered::new(alloc);
        for number in numbers {
            tiered.reserve()?;
            let len = tiered.len();
            tiered.put_at(len, *number);
        }
        Ok(tiered)
    }

    // Returns how many numbers there are.
    pub(crate) fn len(&self) -> usize
        ensures { result ≡ length self.now.numbers }
    {
        self.len
    }

    // Returns the number at an index.
    pub(crate) fn at(&self, place: usize) -> u32
        requires { place < length self.now.numbers }
        ensures { result ≡ slice_index_or self.now.numbers place result }
    {
        self.tiers[place / SIZE][place % SIZE]
    }

    // Returns how many further numbers there is room for.
    pub(crate) fn room(&self) -> usize
        ensures { result ≡ self.now.room }
    {
        self.room
    }

    // Makes room for one more number.
    pub(crate) fn reserve(&mut self) -> Result<(), AllocError>
        ensures numbers { self.new.numbers ≡ self.old.numbers }
        ensures room { OnOk result (0 < self.new.room) }
    {
        if self.room > 0 {
            return Ok(());
        }
        if self.len > usize::MAX - SIZE {
            return Err(AllocError);
        }
        let tier = VecDeque::with_capacity(*self.tiers.allocator(), SIZE)?;
        self.tiers.push(tier)?;
        self.room = SIZE;
        Ok(())
    }

    // Inserts a number at an index.
    pub(crate) fn put_at(&mut self, place: usize, number: u32)
        requires place { place ≤ length self.old.numbers }
        requires room { 0 < self.old.room }
        ensures numbers { self.new.numbers ≡ insert self.old.numbers place number }
        ensures room { self.new.room + 1 ≡ self.old.room }
    {
        put_among(&mut self.tiers, place, number);
        self.len += 1;
        self.room -= 1;
    }

    // Removes the number at an index and returns it.
    pub(crate) fn take_at(&mut self, place: usize) -> u32
        requires { place < length self.old.numbers }
        ensures value { result ≡ slice_index_or self.old.numbers place result }
        ensures numbers { self.new.numbers ≡ remove self.old.numbers place }
        ensures room { self.new.room ≡ self.old.room + 1 }
    {
        let number = take_among(&mut self.tiers, place);
        self.len -= 1;
        self.room += 1;
        number
    }
}

// Inserts a number at an index of tiers that have room for one more.
fn put_among(tiers: &mut Vec<VecDeque<u32>>, place: usize, number: u32)
    requires tiers { AreTiers deque_items deque_capacity tiers.old.items }
    requires place { place ≤ length (flat_map deque_items tiers.old.items) }
    requires room { length (flat_map deque_items tiers.old.items) < 4096 * length tiers.old.items }
    ensures tiers { AreTiers deque_items deque_capacity tiers.new.items }
    ensures count { length tiers.new.items ≡ length tiers.old.items }
    ensures numbers { flat_map deque_items tiers.new.items
        ≡ insert (flat_map deque_items tiers.old.items) place number }
{
    let mut tier = place / SIZE;
    let mut over = put(&mut tiers[tier], place % SIZE, number);
    while let Some(last) = over {
        tier += 1;
        over = push(&mut tiers[tier], last);
    }
}

// Removes the number at an index of tiers and returns it.
fn take_among(tiers: &mut Vec<VecDeque<u32>>, place: usize) -> u32
    requires tiers { AreTiers deque_items deque_capacity tiers.old.items }
    requires place { place < length (flat_map deque_items tiers.old.items) }
    ensures tiers { AreTiers deque_items deque_capacity tiers.new.items }
    ensures count { length tiers.new.items ≡ length tiers.old.items }
    ensures value { result ≡ slice_index_or (flat_map deque_items tiers.old.items) place result }
    ensures numbers { flat_map deque_items tiers.new.items
        ≡ remove (flat_map deque_items tiers.old.items) place }
{
    let tier = place / SIZE;
    let number = take(&mut tiers[tier], place % SIZE);
    for next in tier + 1..tiers.len() {
        if tiers[next].is_empty() {
            return number;
        }
        match tiers[next].pop_front() {
            Some(first) => tiers[next - 1].push_back_reserved(first),
            None => unreachable!(),
        }
    }
    number
}

// Inserts a number at an index of a tier. If the tier is full, removes its last number and returns
// it.
fn put(tier: &mut VecDeque<u32>, place: usize, number: u32) -> Option<u32>
    requires room { 4096 ≤ deque_capacity tier.old }
    requires len { length tier.old.items ≤ 4096 }
    requires place { place ≤ length tier.old.items }
    requires within { place < 4096 }
    ensures items { insert tier.old.items place number ≡ tier.new.items ++ option_to_list result }
    ensures room { 4096 ≤ deque_capacity tier.new }
    ensures len { length tier.new.items + length (option_to_list result)
        ≡ length tier.old.items + 1 }
    ensures full { length tier.new.items ≤ 4096 }
    ensures over { 0 < length (option_to_list result) → length tier.new.items ≡ 4096 }
{
    let over = last_of_full(tier);
    match tier.insert(place, number) {
        Ok(()) => over,
        Err(_) => unreachable!(),
    }
}

// Removes the last number of a full tier and returns it.
fn last_of_full(tier: &mut VecDeque<u32>) -> Option<u32>
    requires { length tier.old.items ≤ 4096 }
    ensures items { tier.old.items ≡ tier.new.items ++ option_to_list result }
    ensures room { deque_capacity tier.new ≡ deque_capacity tier.old }
    ensures len { length tier.new.items < 4096 }
    ensures full { 0 < length (option_to_list result) → length tier.old.items ≡ 4096 }
{
    if tier.len() == SIZE {
        tier.pop_back()
    } else {
        None
    }
}

// Inserts a number as the first of a tier. If the tier is full, removes its last number and returns
// it.
fn push(tier: &mut VecDeque<u32>, number: u32) -> Option<u32>
    requires room { 4096 ≤ deque_capacity tier.old }
    requires len { length tier.old.items ≤ 4096 }
    ensures items { number ∷ tier.old.items ≡ tier.new.items ++ option_to_list result }
    ensures room { 4096 ≤ deque_capacity tier.new }
    ensures len { length tier.new.items + length (option_to_list result)
        ≡ length tier.old.items + 1 }
    ensures full { length tier.new.items ≤ 4096 }
    ensures over { 0 < length (option_to_list result) → length tier.new.items ≡ 4096 }
{
    let over = last_of_full(tier);
    tier.push_front_reserved(number);
    over
}

// Removes the number at an index of a tier and returns it.
fn take(tier: &mut VecDeque<u32>, place: usize) -> u32
    requires { place < length tier.old.items }
    ensures value { result ≡ slice_index_or tier.old.items place result }
    ensures items { tier.new.items ≡ remove tier.old.items place }
    ensures room { deque_capacity tier.new ≡ deque_capacity tier.old }
{
    match tier.remove(place) {
        Some(number) => number,
        None => unreachable!(),
    }
}
