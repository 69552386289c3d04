ghost use Rattle.std.specs.Prelude.{◌≡◌, ℕ, IfSome, List, codes};
ghost use Rattle.kd_classes.specs.HeldSet.{HeldSet};
ghost use Rattle.kd_machine.specs.Parts.{is_held};

use kd_classes::{ClassDef, Classes, laws};
use kd_options::Message;
use std::alloc::Global;

/// Returns whether a message is in the class `DROP`, by these definitions.
pub fn is_dropped(alloc: Global, definitions: Vec<ClassDef>, message: &Message<'_>) -> Option<bool>
    ensures { (names : List (List ℕ)) → HeldSet message.now definitions.items names
        → IfSome result (λ dropped. dropped ≡ is_held (codes "DROP") names) }
{
    laws::one_held();
    let classes = Classes::new(definitions).ok()?;
    let held = classes.held(alloc, message).ok()?;
    Some(held.contains(b"DROP"))
}
