ghost use Rattle.std.specs.Prelude.{◌≡◌, IfSome};
ghost use Rattle.kd_compile.specs.Value.{truth};
ghost use Rattle.kd_expr.specs.View.{tree_of};

use kd_compile::compile;
use kd_expr::Typed;
use kd_machine::{Held, eval, laws};
use kd_options::Message;
use std::alloc::Global;

/// Returns the value of a class test, which its compiled program computes.
pub fn test_value(alloc: Global, test: &Typed, message: &Message<'_>, held: &Held) -> Option<bool>
    ensures { IfSome result (λ value. value ≡ truth message.now held.now (tree_of test.now)) }
{
    laws::one_end();
    // The contract of `len` states that some datagram reads as the message.
    let _len = message.len();
    let program = compile(alloc, test).ok()?;
    Some(eval(alloc, &program, message, held).ok()?.value)
}
