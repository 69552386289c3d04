ghost use Rattle.std.specs.Prelude.{◌≡◌, IfOk, OnErr, OnOk, length, option_copied, slice_get};
ghost use Rattle.std.specs.List.{IsDistinct};
ghost use Rattle.kd_machine.specs.Held.{base_names, with_name};
ghost use Rattle.kd_machine.specs.Parts.{is_held, same};
ghost use Rattle.kd_options.specs.Joined.{value_of};

use indexmap::IndexSet;
use kd_options::Message;
use kd_options::codes::OPTION_VENDOR_CLASS;
use std::alloc::{AllocError, Global};
use std::marker::Model;

/// The names of the classes that a message is in, without duplicates, in the order they were added.
#[derive(Drop)]
pub struct Held {
    alloc: Global,
    names: IndexSet<Vec<u8>>,
}

impl Model for Held {
    ghost use Rattle.std.specs.Prelude.{ℕ, List, map};
    ghost use Rattle.std.specs.List.{IsDistinct};
    ghost use Rattle.kd_machine.specs.Parts.{same};

    ghost Value = { List (List ℕ) };

    ghost view = { λ h. map (λ v. v.items) h.names.keys };

    ghost invariant = { λ h. IsDistinct same (map (λ v. v.items) h.names.keys) };
}

impl Held {
    /// Returns the names that a message has before any definition: `ALL` and, if option 60 is
    /// present, `VENDOR_CLASS_` followed by its value.
    ///
    /// # Errors
    ///
    /// Out of memory.
    pub fn base(alloc: Global, message: &Message<'_>) -> Result<Held, AllocError>
        ensures { IfOk result (λ h. h ≡ base_names (value_of 60 message.now.options)) }
    {
        let mut held = Held {
            alloc,
            names: IndexSet::new(alloc),
        };
        held.add(b"ALL")?;
        if let Some(class) = message.option(OPTION_VENDOR_CLASS) {
            let mut name = Vec::from_slice(alloc, b"VENDOR_CLASS_")?;
            name.extend_from_slice(class)?;
            held.add(&name)?;
        }
        Ok(held)
    }

    /// Adds a name; does nothing if it is held already.
    ///
    /// # Errors
    ///
    /// Out of memory; the names stay as they are.
    pub fn add(&mut self, name: &[u8]) -> Result<(), AllocError>
        ensures added { OnOk result (self.new ≡ with_name name.now self.old) }
        ensures kept { OnErr result (self.new ≡ self.old) }
    {
        if !self.contains(name) {
            let name = Vec::from_slice(self.alloc, name)?;
            self.names.insert(name)?;
        }
        Ok(())
    }

    /// Reports whether a name is held.
    pub fn contains(&self, name: &[u8]) -> bool
        ensures { result ≡ is_held name.now self.now }
    {
        self.names.contains(name)
    }

    /// Returns the number of names.
    pub fn len(&self) -> usize
        ensures { result ≡ length self.now }
    {
        self.names.len()
    }

    /// Returns the name at an index, in the order in which the names were added, if there is one.
    pub fn name_at(&self, index: usize) -> Option<&[u8]>
        ensures at { option_copied result ≡ slice_get self.now index }
        ensures distinct { IsDistinct same self.now }
    {
        match self.names.get_index(index) {
            Some(name) => Some(name.as_slice()),
            None => None,
        }
    }
}
