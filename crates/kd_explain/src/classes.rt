ghost use Rattle.std.specs.Prelude.{IfOk};
ghost use Rattle.kd_classes.specs.HeldSet.{JoinInOrder};
ghost use Rattle.kd_explain.specs.Testing.{AreTested, IsTested};

use kd_classes::{ClassDef, Classes};
use kd_machine::{Held, Outcome, eval};
use kd_options::Message;
use std::alloc::{AllocError, Global};

/// How the classes of a configuration were tested over a message.
#[derive(Drop)]
pub struct Trace {
    /// For each class, in order, the result of its test; `None` if it has no test.
    pub outcomes: Vec<Option<Outcome>>,
    /// The names of the classes that the message is in.
    pub names: Held,
}

/// Tests the classes in order, each with the names that the message has before any test and those of
/// the classes before it that the message is in (Kea Administrator Reference Manual, chapter Client
/// Classification).
///
/// # Errors
///
/// Out of memory for the names or the values of a test.
pub fn trace_classes(
    alloc: Global,
    classes: &Classes,
    message: &Message<'_>,
    start: Held,
) -> Result<Trace, AllocError>
    ensures tested { IfOk result
        (λ t. AreTested message.now classes.now start t.outcomes.items t.names) }
    ensures joined { IfOk result (λ t. JoinInOrder message.now classes.now start t.names) }
{
    let mut names = start;
    let mut outcomes = Vec::new(alloc);
    for i in 0..classes.len() {
        match classes.def_at(i) {
            Some(class) => outcomes.push(test(alloc, class, message, &mut names)?)?,
            None => unreachable!(),
        }
    }
    Ok(Trace { outcomes, names })
}

// Tests a class with the names held so far, and adds its name to them if the test gives true.
fn test(
    alloc: Global,
    class: &ClassDef,
    message: &Message<'_>,
    names: &mut Held,
) -> Result<Option<Outcome>, AllocError>
    ensures { IfOk result
        (λ outcome. IsTested message.now class.now names.old outcome names.new) }
{
    let Some(test) = &class.test else {
        return Ok(None);
    };
    let outcome = eval(alloc, test, message, names)?;
    if outcome.value {
        names.add(class.name.as_slice())?;
    }
    Ok(Some(outcome))
}
