ghost use Rattle.std.specs.Prelude.{◌≡◌, ◌<◌, ◌≤◌, ◌++◌, ◌∷◌, [], IsTrue, List, OnOk, Some, false, length, slice_get};
ghost use Rattle.std.specs.Vec.{vec_len};
ghost use Rattle.kd_classes.specs.declared.option_list.OptionData.{OptionData};
ghost use Rattle.kd_lease.specs.Valuing.{HasValues, HasOtherCode, IsCodePlace, marked};
ghost use Rattle.kd_lease.specs.declared.values.Coded.{Coded};

use kd_classes::OptionData;
use std::alloc::{AllocError, Global};

// A code, the value of its option, and whether it is sent to clients that do not ask for it.
#[derive(Clone, Copy)]
pub(crate) struct Coded<'a> {
    pub(crate) code: u8,
    pub(crate) value: &'a [u8],
    pub(crate) always: bool,
}

// The values of options, in ascending order of code: the first option put for a code wins. A code
// is sent to all clients if any of its options is.
#[derive(Drop)]
pub(crate) struct Values<'a> {
    pub(crate) list: Vec<Coded<'a>>,
}

impl<'a> Values<'a> {
    // Makes an empty list.
    pub(crate) fn new(alloc: Global) -> Values<'a>
        ensures { HasValues result.list.items [] }
    {
        Values {
            list: Vec::new(alloc),
        }
    }

    // Puts a value after those of other options.
    pub(crate) fn put(&mut self, code: u8, value: &'a [u8], always: bool) -> Result<(), AllocError>
        ensures { OnOk result ((options : List OptionData) → HasValues self.old.list.items options
            → HasValues self.new.list.items
            (options ++ record { code = code; value = value.now; always = always } ∷ [])) }
    {
        // These two are not codes of options.
        if code == 0 || code == 255 {
            return Ok(());
        }
        let place = self.place_of(code);
        if self.has_at(place, code) {
            self.mark(place, always);
            return Ok(());
        }
        let entry = Coded {
            code,
            value,
            always,
        };
        self.list.insert(place, entry)?;
        Ok(())
    }

    // Reports whether the entry at a place has a code.
    fn has_at(&self, place: usize, code: u8) -> bool
        ensures there { IsTrue result → (entry : Coded)
            × (slice_get self.now.list.items place ≡ Some entry) × (entry.code ≡ code) }
        ensures next { result ≡ false → HasOtherCode code self.now.list.items place }
    {
        match self.list.get(place) {
            Some(entry) => entry.code == code,
            None => false,
        }
    }

    // Marks the entry at a place as sent to all clients if one more option with its code is.
    fn mark(&mut self, place: usize, always: bool)
        requires { place < length self.now.list.items }
        ensures { self.new.list.items ≡ marked always place self.old.list.items }
    {
        if always {
            self.list[place].always = true;
        }
    }

    // Puts the values of options after those of others.
    pub(crate) fn put_all(&mut self, options: &'a [OptionData]) -> Result<(), AllocError>
        ensures { OnOk result ((before : List OptionData) → HasValues self.old.list.items before
            → HasValues self.new.list.items (before ++ options.now)) }
    {
        for option in options {
            self.put(option.code, option.value.as_slice(), option.always)?;
        }
        Ok(())
    }

    // Returns how many entries at the start have lesser codes.
    fn place_of(&self, code: u8) -> usize
        ensures place { IsCodePlace code self.now.list.items result }
        ensures within { result ≤ vec_len self.now.list }
    {
        for place in 0..self.list.len() {
            if self.list[place].code >= code {
                return place;
            }
        }
        self.list.len()
    }
}
