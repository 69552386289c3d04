ghost use Rattle.std.specs.Prelude.{◌≡◌, IfErr, IfOk, IsOk, length, option_copied, slice_get};
ghost use Rattle.kd_classes.specs.HeldSet.{HeldSet, JoinInOrder, Joins};
ghost use Rattle.kd_classes.specs.Order.{AreInOrder, IsFirstClassFault};

use crate::definition::ClassDef;
use crate::fault::ClassFault;
use crate::order::check;
use kd_machine::{Held, eval};
use kd_options::Message;
use std::alloc::{AllocError, Global};
use std::marker::Model;

/// Client class definitions in order: at most 256, each with a name of its own and a test that asks
/// only for known names.
#[derive(Drop)]
pub struct Classes {
    definitions: Vec<ClassDef>,
}

impl Model for Classes {
    ghost use Rattle.std.specs.Prelude.{List};
    ghost use Rattle.kd_classes.specs.Order.{AreInOrder};
    ghost use Rattle.kd_classes.specs.declared.definition.ClassDef.{ClassDef};

    ghost Value = { List ClassDef };

    ghost view = { λ c. c.definitions.items };

    ghost invariant = { λ c. AreInOrder c.definitions.items };
}

impl Classes {
    /// Checks these definitions and takes ownership of them; allocates no memory. On an error the
    /// definitions are dropped.
    ///
    /// # Errors
    ///
    /// `TooMany` for more than 256 definitions; otherwise the first fault in their order, and at
    /// one definition `Duplicate` before `UnknownMember`.
    pub fn new(definitions: Vec<ClassDef>) -> Result<Classes, ClassFault>
        ensures kept { IfOk result (λ c. c ≡ definitions.items) }
        ensures ordered { IfOk result (λ _. AreInOrder definitions.items) }
        ensures refused { IfErr result (λ fault. IsFirstClassFault definitions.items fault) }
        ensures only { AreInOrder definitions.items → IsOk result }
    {
        check(&definitions)?;
        Ok(Classes { definitions })
    }

    /// Returns the names of the classes that a message is in: the names before any definition and
    /// then, in order, the name of each definition whose test is true over the names held so far.
    /// Allocates memory for the names and for the values of the runs.
    ///
    /// # Errors
    ///
    /// Out of memory.
    pub fn held(&self, alloc: Global, message: &Message<'_>) -> Result<Held, AllocError>
        ensures { IfOk result (λ names. HeldSet message.now self.now names) }
    {
        let mut names = Held::base(alloc, message)?;
        self.join_all(alloc, message, &mut names)?;
        Ok(names)
    }

    /// Adds to the names that are held already, in order, the name of each definition whose test is
    /// true over the names held so far. Allocates memory for the names and for the values of the runs.
    ///
    /// # Errors
    ///
    /// Out of memory; some names may have been added.
    pub fn join_all(
        &self,
        alloc: Global,
        message: &Message<'_>,
        names: &mut Held,
    ) -> Result<(), AllocError>
        ensures { IfOk result (λ _. JoinInOrder message.now self.now names.old names.new) }
    {
        'definitions: for definition in &self.definitions {
            join(alloc, definition, message, names)?;
        }
        Ok(())
    }

    /// Returns the number of definitions, at most 256.
    pub fn len(&self) -> usize
        ensures count { result ≡ length self.now }
        ensures ordered { AreInOrder self.now }
    {
        self.definitions.len()
    }

    /// Returns the definition at an index, if there is one.
    pub fn def_at(&self, index: usize) -> Option<&ClassDef>
        ensures { option_copied result ≡ slice_get self.now index }
    {
        self.definitions.get(index)
    }
}

// Adds a definition's name to those held if its test is true.
fn join(
    alloc: Global,
    definition: &ClassDef,
    message: &Message<'_>,
    names: &mut Held,
) -> Result<(), AllocError>
    ensures { IfOk result (λ _. Joins message.now definition.now names.old names.new) }
{
    if let Some(test) = &definition.test {
        if eval(alloc, test, message, names)?.value {
            names.add(definition.name.as_slice())?;
        }
    }
    Ok(())
}
