ghost use Rattle.std.specs.Prelude.{◌≡◌, ◌≤◌, ◌<◌, IfOk, IfSome, List, MatchResult, Ok, length, codes, bytes_eq, option_map};
ghost use Rattle.kd_expr.specs.Gives.{ReadsAs};
ghost use Rattle.kd_expr.specs.Grammar.{hex_bytes};
ghost use Rattle.kd_expr.specs.Joints.{joint_at, operand_at, tree_joined};
ghost use Rattle.kd_expr.specs.Lexical.{Lexeme};
ghost use Rattle.kd_expr.specs.Reading.{below, chain, compare_at, done, group_at, not_at, one, primary_at, seq};
ghost use Rattle.kd_expr.specs.Tree.{Literal, Not, Tree, at_of};
ghost use Rattle.kd_expr.specs.View.{lexemes, tree_of};
ghost use Rattle.kd_expr.specs.declared.fault.SyntaxFault.TheVariants as faults;

use crate::fault::SyntaxFault;
use crate::forms::{named_of, operand_before};
use crate::literal::{bytes_of, hex_bytes_of};
use crate::node::Node;
use crate::number::number;
use crate::take::{expect_sign, sign, unexpected_token, word};
use crate::token::{Kind, Sign, Token};
use std::alloc::Global;

// What a parse knows besides its tokens: where memory comes from, and where the text ends.
#[derive(Clone, Copy)]
pub(crate) struct Source {
    pub(crate) alloc: Global,
    pub(crate) end: usize,
}

// What joins two operands.
#[derive(Clone, Copy)]
pub(crate) enum Joint {
    // `or`
    Or,
    // `and`
    And,
    // `==`
    Equals,
    // `+`
    Plus,
}

// Puts two operands in boxes, and returns them with the place of the first.
fn box_node(
    alloc: Global,
    left: Node,
    right: Node,
) -> Result<(usize, Box<Node>, Box<Node>), SyntaxFault>
    ensures { MatchResult result
        (λ x. (x.0 ≡ at_of (tree_of left)) × ((x.1.value ≡ left) × (x.2.value ≡ right)))
        (λ fault. fault ≡ faults.Memory) }
{
    let at = left.at();
    let left = Box::new(alloc, left)?;
    Ok((at, left, Box::new(alloc, right)?))
}

// Makes two operands the node of their joint, at the place of the first.
fn joined(alloc: Global, joint: Joint, left: Node, right: Node) -> Result<Node, SyntaxFault>
    ensures { MatchResult result
        (λ node. tree_of node ≡ tree_joined joint (tree_of left) (tree_of right))
        (λ fault. fault ≡ faults.Memory) }
{
    let (at, left, right) = box_node(alloc, left, right)?;
    match joint {
        Joint::Or => Ok(Node::Or { at, left, right }),
        Joint::And => Ok(Node::And { at, left, right }),
        Joint::Equals => Ok(Node::Equal { at, left, right }),
        Joint::Plus => Ok(Node::Concat { at, left, right }),
    }
}

// Makes the negation of an operand, at this place.
fn negation(alloc: Global, at: usize, operand: Node) -> Result<Node, SyntaxFault>
    ensures { MatchResult result (λ node. tree_of node ≡ Not at (tree_of operand))
        (λ fault. fault ≡ faults.Memory) }
{
    let operand = Box::new(alloc, operand)?;
    Ok(Node::Not { at, operand })
}

// Takes this joint if it comes next, and returns its place and the remaining tokens.
fn joint_next<'t, 'a>(rest: &'t [Token<'a>], wanted: Joint) -> Option<(usize, &'t [Token<'a>])>
    ensures reads { option_map (λ x. (x.0, lexemes x.1.now)) result
        ≡ one (joint_at wanted) (lexemes rest.now) }
    ensures shorter { IfSome result (λ x. length x.1.now < length rest.now) }
{
    match wanted {
        Joint::Or => word(rest, b"or"),
        Joint::And => word(rest, b"and"),
        Joint::Equals => sign(rest, Sign::Equals),
        Joint::Plus => sign(rest, Sign::Plus),
    }
}

// Reads operands with this joint between them, or just one. `depth` is how many more brackets and
// `not`s may be nested. With `or` it is any expression.
#[cycle(parser)]
#[tactic(auto, unfolding(crate::specs::Reading::chain))]
pub(crate) fn chain_of<'t, 'a>(
    source: Source,
    joint: Joint,
    tokens: &'t [Token<'a>],
    depth: u8,
) -> Result<(Node, &'t [Token<'a>]), SyntaxFault>
    ensures reads { ReadsAs (λ x. (tree_of x.0, lexemes x.1.now)) result
        (chain (joint_at joint) (operand_at joint (below depth)) (tree_joined joint) source.end
        (lexemes tokens.now)) }
    ensures shorter { IfOk result (λ x. length x.1.now ≤ length tokens.now) }
{
    let (mut first, mut rest) = operand_of(source, joint, tokens, depth)?;
    while let Some((_, after)) = joint_next(rest, joint) {
        let (longer, behind) = joined_to(source, joint, first, after, depth)?;
        first = longer;
        rest = behind;
    }
    Ok((first, rest))
}

// Reads one operand of this joint.
#[cycle(parser)]
fn operand_of<'t, 'a>(
    source: Source,
    joint: Joint,
    tokens: &'t [Token<'a>],
    depth: u8,
) -> Result<(Node, &'t [Token<'a>]), SyntaxFault>
    ensures reads { ReadsAs (λ x. (tree_of x.0, lexemes x.1.now)) result
        (operand_at joint (below depth) source.end (lexemes tokens.now)) }
    ensures shorter { IfOk result (λ x. length x.1.now ≤ length tokens.now) }
{
    match joint {
        Joint::Or => chain_of(source, Joint::And, tokens, depth),
        Joint::And => not_of(source, tokens, depth),
        Joint::Equals => chain_of(source, Joint::Plus, tokens, depth),
        Joint::Plus => primary_of(source, tokens, depth),
    }
}

// Reads the operand after a joint, and joins it to the first.
#[cycle(parser)]
fn joined_to<'t, 'a>(
    source: Source,
    joint: Joint,
    first: Node,
    after: &'t [Token<'a>],
    depth: u8,
) -> Result<(Node, &'t [Token<'a>]), SyntaxFault>
    ensures reads { ReadsAs (λ x. (tree_of x.0, lexemes x.1.now)) result
        (seq (operand_at joint (below depth)) (λ b. done (tree_joined joint (tree_of first) b))
        source.end (lexemes after.now)) }
    ensures shorter { IfOk result (λ x. length x.1.now ≤ length after.now) }
{
    let (next, behind) = operand_of(source, joint, after, depth)?;
    Ok((joined(source.alloc, joint, first, next)?, behind))
}

// Reads a negation or a comparison.
#[cycle(parser)]
#[tactic(auto, unfolding(crate::specs::Reading::not_at))]
fn not_of<'t, 'a>(
    source: Source,
    tokens: &'t [Token<'a>],
    depth: u8,
) -> Result<(Node, &'t [Token<'a>]), SyntaxFault>
    ensures reads { ReadsAs (λ x. (tree_of x.0, lexemes x.1.now)) result
        (not_at (below depth) source.end (lexemes tokens.now)) }
    ensures shorter { IfOk result (λ x. length x.1.now ≤ length tokens.now) }
{
    match word(tokens, b"not") {
        Some((at, after)) => {
            let (operand, rest) = operand_deeper(source, after, depth, at)?;
            Ok((negation(source.alloc, at, operand)?, rest))
        }
        None => compare_of(source, tokens, depth),
    }
}

// Reads a comparison, or just a sum.
#[cycle(parser)]
#[tactic(auto, unfolding(crate::specs::Reading::compare_at))]
fn compare_of<'t, 'a>(
    source: Source,
    tokens: &'t [Token<'a>],
    depth: u8,
) -> Result<(Node, &'t [Token<'a>]), SyntaxFault>
    ensures reads { ReadsAs (λ x. (tree_of x.0, lexemes x.1.now)) result
        (compare_at (below depth) source.end (lexemes tokens.now)) }
    ensures shorter { IfOk result (λ x. length x.1.now ≤ length tokens.now) }
{
    let (first, rest) = operand_of(source, Joint::Equals, tokens, depth)?;
    match joint_next(rest, Joint::Equals) {
        Some((_, after)) => joined_to(source, Joint::Equals, first, after, depth),
        None => Ok((first, rest)),
    }
}

// Reads a literal, a number, a group, or what begins with a name.
#[cycle(parser)]
#[tactic(auto, unfolding(crate::specs::Reading::primary_at))]
fn primary_of<'t, 'a>(
    source: Source,
    tokens: &'t [Token<'a>],
    depth: u8,
) -> Result<(Node, &'t [Token<'a>]), SyntaxFault>
    ensures reads { ReadsAs (λ x. (tree_of x.0, lexemes x.1.now)) result
        (primary_at (below depth) source.end (lexemes tokens.now)) }
    ensures shorter { IfOk result (λ x. length x.1.now ≤ length tokens.now) }
{
    let [token, rest @ ..] = tokens else {
        return Err(SyntaxFault::Expected(source.end));
    };
    let Token { at, kind } = *token;
    match kind {
        Kind::Text(text) => literal_of(source.alloc, at, text, rest),
        Kind::Hex(digits) => hex_literal_of(source.alloc, at, digits, rest),
        Kind::Address(a, b, c, d) => literal_of(source.alloc, at, &[a, b, c, d], rest),
        Kind::Number(digits) => match number(digits) {
            Some(value) => Ok((Node::Int { at, value }, rest)),
            None => Err(SyntaxFault::NumberTooLarge(at)),
        },
        Kind::Name(name) => named_of(source, at, name, rest, depth),
        Kind::Sign(_) => group_of(source, tokens, depth),
        Kind::Minus(_) | Kind::Bad => Err(unexpected_token(tokens, source.end)),
    }
}

// Makes a literal of these bytes, with the tokens after it.
fn literal_of<'t, 'a>(
    alloc: Global,
    at: usize,
    bytes: &[u8],
    rest: &'t [Token<'a>],
) -> Result<(Node, &'t [Token<'a>]), SyntaxFault>
    ensures reads { ReadsAs {B = Tree × List Lexeme} (λ x. (tree_of x.0, lexemes x.1.now)) result
        (Ok (Literal at bytes.now, lexemes rest.now)) }
    ensures shorter { IfOk result (λ x. length x.1.now ≤ length rest.now) }
{
    let bytes = bytes_of(alloc, bytes)?;
    Ok((Node::Literal { at, bytes }, rest))
}

// Makes a literal of these hexadecimal digits, with the tokens after it.
fn hex_literal_of<'t, 'a>(
    alloc: Global,
    at: usize,
    digits: &[u8],
    rest: &'t [Token<'a>],
) -> Result<(Node, &'t [Token<'a>]), SyntaxFault>
    ensures reads { ReadsAs {B = Tree × List Lexeme} (λ x. (tree_of x.0, lexemes x.1.now)) result
        (Ok (Literal at (hex_bytes digits.now), lexemes rest.now)) }
    ensures shorter { IfOk result (λ x. length x.1.now ≤ length rest.now) }
{
    let bytes = hex_bytes_of(alloc, digits)?;
    Ok((Node::Literal { at, bytes }, rest))
}

// Reads an expression in brackets.
#[cycle(parser)]
#[tactic(auto, unfolding(crate::specs::Reading::group_at))]
fn group_of<'t, 'a>(
    source: Source,
    tokens: &'t [Token<'a>],
    depth: u8,
) -> Result<(Node, &'t [Token<'a>]), SyntaxFault>
    ensures reads { ReadsAs (λ x. (tree_of x.0, lexemes x.1.now)) result
        (group_at (below depth) source.end (lexemes tokens.now)) }
    ensures shorter { IfOk result (λ x. length x.1.now ≤ length tokens.now) }
{
    let (at, rest) = expect_sign(tokens, Sign::Open, source.end)?;
    let (operand, rest) = operand_before(source, rest, depth, at, Sign::Close)?;
    Ok((Node::Group { at, operand }, rest))
}

// Reads an expression after the bracket at this place, which nests it one level deeper.
#[cycle(parser)]
#[tactic(auto, unfolding(crate::specs::Reading::below))]
pub(crate) fn any_deeper<'t, 'a>(
    source: Source,
    tokens: &'t [Token<'a>],
    depth: u8,
    at: usize,
) -> Result<(Node, &'t [Token<'a>]), SyntaxFault>
    ensures reads { ReadsAs (λ x. (tree_of x.0, lexemes x.1.now)) result
        ((below depth).any at source.end (lexemes tokens.now)) }
    ensures shorter { IfOk result (λ x. length x.1.now ≤ length tokens.now) }
{
    if depth == 0 {
        return Err(SyntaxFault::TooNested(at));
    }
    chain_of(source, Joint::Or, tokens, depth - 1)
}

// Reads the operand of the `not` at this place, which nests it one level deeper.
#[cycle(parser)]
#[tactic(auto, unfolding(crate::specs::Reading::below))]
fn operand_deeper<'t, 'a>(
    source: Source,
    tokens: &'t [Token<'a>],
    depth: u8,
    at: usize,
) -> Result<(Node, &'t [Token<'a>]), SyntaxFault>
    ensures reads { ReadsAs (λ x. (tree_of x.0, lexemes x.1.now)) result
        ((below depth).operand at source.end (lexemes tokens.now)) }
    ensures shorter { IfOk result (λ x. length x.1.now ≤ length tokens.now) }
{
    if depth == 0 {
        return Err(SyntaxFault::TooNested(at));
    }
    not_of(source, tokens, depth - 1)
}
