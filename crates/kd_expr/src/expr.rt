ghost use Rattle.std.specs.Prelude.{◌≡◌, IfOk, Ok, Err, MatchResult};
ghost use Rattle.kd_expr.specs.Grammar.{HasText, Parses};
ghost use Rattle.kd_expr.specs.Size.{node_count};
ghost use Rattle.kd_expr.specs.Typing.{test_type};
ghost use Rattle.kd_expr.specs.View.{tree_of};

use crate::fault::TypeFault;
use crate::node::Node;
use crate::typing::{bool_operand, count};
use std::marker::Model;

/// An expression that is the tree of some text. Only `read` makes one.
#[derive(Drop)]
pub struct Expr {
    tree: Node,
}

impl Model for Expr {
    ghost use Rattle.kd_expr.specs.declared.node.Node.{Node};
    ghost use Rattle.kd_expr.specs.contracts.node.Node as node;
    ghost use Rattle.std.specs.Coded.{codes};
    ghost use Rattle.kd_expr.specs.Grammar.{HasText};
    ghost use Rattle.kd_expr.specs.View.{tree_of};

    ghost Value = { Node };

    ghost coded = { Prim.hlevel (codes, node.the_row.coded) };

    ghost view = { λ e. e.tree };

    ghost invariant = { λ e. HasText (tree_of e.tree) };
}

/// A whole expression that is a truth value: a class test.
#[derive(Drop)]
pub struct Typed {
    tree: Node,
}

impl Model for Typed {
    ghost use Rattle.std.specs.Prelude.{◌≡◌, Ok};
    ghost use Rattle.kd_expr.specs.declared.node.Node.{Node};
    ghost use Rattle.kd_expr.specs.contracts.node.Node as node;
    ghost use Rattle.std.specs.Coded.{codes};
    ghost use Rattle.kd_expr.specs.Grammar.{HasText};
    ghost use Rattle.kd_expr.specs.View.{tree_of};
    ghost use Rattle.kd_expr.specs.Typing.{type_of};
    ghost use Rattle.kd_expr.specs.declared.typing.ValueType.TheVariants.{Bool};

    ghost Value = { Node };

    ghost coded = { Prim.hlevel (codes, node.the_row.coded) };

    ghost view = { λ e. e.tree };

    ghost invariant = { λ e. HasText (tree_of e.tree) × (type_of (tree_of e.tree) ≡ Ok Bool) };
}

// Returns the expression of a text.
pub(crate) fn expr_of(tree: Node, text: &[u8]) -> Expr
    requires { Parses text.now (tree_of tree) }
    ensures { result ≡ tree }
{
    let _text = text;
    Expr { tree }
}

/// Checks that an expression is a class test, and returns it as one. Takes no memory.
///
/// # Errors
///
/// The first fault of its type, together with the expression.
pub fn type_of(expr: Expr) -> Result<Typed, (TypeFault, Expr)>
    ensures exact { MatchResult result
        (λ typed. (test_type (tree_of expr) ≡ Ok tt) × (typed ≡ expr))
        (λ refused. (test_type (tree_of expr) ≡ Err refused.0) × (refused.1 ≡ expr)) }
{
    match bool_operand(&expr.tree) {
        Ok(()) => Ok(Typed { tree: expr.tree }),
        Err(fault) => Err((fault, expr)),
    }
}

impl Typed {
    ghost use Rattle.kd_expr.specs.Typing.{type_of};
    ghost use Rattle.kd_expr.specs.declared.typing.ValueType.TheVariants.{Bool};

    /// Returns the expression's tree.
    pub fn tree(&self) -> &Node
        ensures same { result.now ≡ self.now }
        ensures text { HasText (tree_of self.now) }
        ensures typed { type_of (tree_of self.now) ≡ Ok Bool }
    {
        &self.tree
    }

    /// Returns the number of nodes in the tree; the numbers of a substring are not nodes.
    pub fn nodes(&self) -> u32
        ensures { result ≡ node_count (tree_of self.now) }
    {
        count(&self.tree)
    }
}
