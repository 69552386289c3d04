ghost use Rattle.std.specs.Prelude.{◌≡◌, ◌<◌, ◌≤◌, ◌↔◌, ◌⊎◌, IfErr, IfOk, MatchResult, length, Err, Ok};
ghost use Rattle.kd_expr.specs.FirstFault.{IsTextFault};
ghost use Rattle.kd_expr.specs.Gives.{ReadsAs};
ghost use Rattle.kd_expr.specs.Grammar.{Parses};
ghost use Rattle.kd_expr.specs.Lexing.{tokens_from};
ghost use Rattle.kd_expr.specs.Reading.{whole_at};
ghost use Rattle.kd_expr.specs.Tree.{Tree};
ghost use Rattle.kd_expr.specs.View.{tree_of};
ghost use Rattle.kd_expr.specs.declared.fault.ExprFault.TheVariants.{TooLong, Memory};

use crate::expr::{Expr, expr_of};
use crate::fault::{ExprFault, SyntaxFault, seen_outside};
use crate::lexer::tokens_of;
use crate::node::Node;
use crate::parser::{Joint, Source, chain_of};
use crate::take::unexpected_token;
use std::alloc::Global;

const LONGEST_TEXT: usize = 4096;

const DEEPEST_NESTING: u8 = 64;

/// Reads a text of at most 4,096 bytes as an expression. Takes memory for its tokens and its tree.
///
/// # Errors
///
/// `TooLong`. Otherwise the fault is at the first token that, with the text before it, does not
/// begin any expression, or at the end of the text: `BadToken`; `NumberTooLarge` or `UnknownName`
/// if another number or the name of an option could come there; `TooNested` at a bracket or `not`;
/// and `Expected` in all other cases. `Memory` may come in place of any of these except `TooLong`.
pub fn read(alloc: Global, text: &[u8]) -> Result<Expr, ExprFault>
    ensures found { IfOk result (λ expr. Parses text.now (tree_of expr)) }
    ensures only { (tree : Tree) → Parses text.now tree
        → MatchResult result (λ expr. tree_of expr ≡ tree) (λ fault. fault ≡ Memory) }
    ensures first { IfErr result (λ fault.
        (fault ≡ Memory) ⊎ ((fault ≡ TooLong) ⊎ IsTextFault text.now fault)) }
    ensures long { (result ≡ Err TooLong) ↔ (4096 < length text.now) }
{
    if text.len() > LONGEST_TEXT {
        return Err(ExprFault::TooLong);
    }
    match node_in(alloc, text) {
        Ok(tree) => Ok(expr_of(tree, text)),
        Err(fault) => Err(seen_outside(fault)),
    }
}

// Returns the tree of all tokens of a text.
#[tactic(auto, unfolding(crate::specs::Reading::whole_at, crate::specs::Reading::or_at))]
fn node_in(alloc: Global, text: &[u8]) -> Result<Node, SyntaxFault>
    ensures { ReadsAs tree_of result
        (whole_at (length text.now) (tokens_from (length text.now) 0 text.now)) }
{
    let tokens = tokens_of(alloc, text)?;
    let source = Source {
        alloc,
        end: text.len(),
    };
    let (tree, rest) = chain_of(source, Joint::Or, tokens.as_slice(), DEEPEST_NESTING)?;
    match rest {
        [] => Ok(tree),
        _ => Err(unexpected_token(rest, source.end)),
    }
}
