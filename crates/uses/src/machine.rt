ghost use Rattle.std.specs.Prelude.{◌≡◌, IfSome, codes, if◌then◌else◌};
ghost use Rattle.kd_machine.specs.Held.{with_name};
ghost use Rattle.kd_machine.specs.Run.{Run};
ghost use Rattle.kd_machine.specs.declared.run.Outcome.{Outcome};

use kd_machine::{Held, eval};
use kd_options::Message;
use kd_token::Verified;
use std::alloc::Global;

/// Runs a class test over a message, and adds the name `guest` to those held if it is true.
pub fn admit(alloc: Global, test: &Verified, message: &Message<'_>, held: &mut Held) -> Option<bool>
    ensures run { IfSome result (λ value. (o : Outcome) × (o.value ≡ value)
        × Run test.now message.now held.old o) }
    ensures held { IfSome result (λ value. held.new
        ≡ (if value then with_name (codes "guest") held.old else held.old)) }
{
    let value = eval(alloc, test, message, held).ok()?.value;
    if value {
        held.add(b"guest").ok()?;
    }
    Some(value)
}
