ghost use Rattle.std.specs.Prelude.{◌≡◌, IfSome, Ok};
ghost use Rattle.kd_expr.specs.Grammar.{Parses};
ghost use Rattle.kd_expr.specs.Size.{node_count};
ghost use Rattle.kd_expr.specs.Tree.{Tree};
ghost use Rattle.kd_expr.specs.Typing.{type_of as tree_type};
ghost use Rattle.kd_expr.specs.declared.typing.ValueType.TheVariants.{Bool};

use kd_expr::{read, type_of};
use std::alloc::Global;

/// Returns the number of nodes of a class test, if the text is one.
pub fn test_size(alloc: Global, text: &[u8]) -> Option<u32>
    ensures { IfSome result (λ nodes. (t : Tree) × Parses text.now t
        × (tree_type t ≡ Ok Bool) × (nodes ≡ node_count t)) }
{
    let expr = read(alloc, text).ok()?;
    let test = type_of(expr).ok()?;
    // The contract of `tree` states that the test has the type Bool.
    let _tree = test.tree();
    Some(test.nodes())
}
