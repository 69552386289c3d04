ghost use Rattle.std.specs.Prelude.{◌≡◌, ◌≤◌, ℤ, Option, IfOk, length, codes, bytes_eq};
ghost use Rattle.kd_expr.specs.Gives.{ReadsAs};
ghost use Rattle.kd_expr.specs.Reading.{below, done, named_at, form_at, operand_then, operand_in_brackets, operands_in_brackets, ifelse_at, length_of_part, seq, sign_here, signed, substring_after, wanted};
ghost use Rattle.kd_expr.specs.Refusals.{signed_refusal};
ghost use Rattle.kd_expr.specs.Tree.{Tree};
ghost use Rattle.kd_expr.specs.View.{lexemes, sign_byte, tree_of};

use crate::fault::SyntaxFault;
use crate::names::{field_of, length_of, member_of, option_of, packet_of, relay_of, signed_of};
use crate::node::Node;
use crate::parser::{Source, any_deeper};
use crate::take::expect_sign;
use crate::token::{Sign, Token};

// Reads what begins with the name at a place. `tokens` are those after the name.
#[cycle(parser)]
#[tactic(auto, unfolding(crate::specs::Reading::named_at))]
pub(crate) fn named_of<'t, 'a>(
    source: Source,
    at: usize,
    name: &'a [u8],
    tokens: &'t [Token<'a>],
    depth: u8,
) -> Result<(Node, &'t [Token<'a>]), SyntaxFault>
    ensures reads { ReadsAs (λ x. (tree_of x.0, lexemes x.1.now)) result
        (named_at (below depth) at name.now source.end (lexemes tokens.now)) }
    ensures shorter { IfOk result (λ x. length x.1.now ≤ length tokens.now) }
{
    if name == b"option".as_slice() {
        option_of(source, at, tokens)
    } else if name == b"relay4".as_slice() {
        relay_of(source, at, tokens)
    } else if name == b"pkt4".as_slice() {
        field_of(source, at, tokens)
    } else if name == b"pkt".as_slice() {
        packet_of(source, at, tokens)
    } else if name == b"member".as_slice() {
        member_of(source, at, tokens, depth)
    } else {
        form_of(source, at, name, tokens, depth)
    }
}

// Reads a form with operands.
#[cycle(parser)]
#[tactic(auto, unfolding(crate::specs::Reading::form_at))]
fn form_of<'t, 'a>(
    source: Source,
    at: usize,
    name: &'a [u8],
    tokens: &'t [Token<'a>],
    depth: u8,
) -> Result<(Node, &'t [Token<'a>]), SyntaxFault>
    ensures reads { ReadsAs (λ x. (tree_of x.0, lexemes x.1.now)) result
        (form_at (below depth) at name.now source.end (lexemes tokens.now)) }
    ensures shorter { IfOk result (λ x. length x.1.now ≤ length tokens.now) }
{
    if name == b"substring".as_slice() {
        substring_of(source, at, tokens, depth)
    } else if name == b"ifelse".as_slice() {
        ifelse_of(source, at, tokens, depth)
    } else if name == b"concat".as_slice() {
        let (left, right, rest) = two_operands(source, tokens, depth)?;
        Ok((Node::Concat { at, left, right }, rest))
    } else if name == b"hexstring".as_slice() {
        let (operand, separator, rest) = two_operands(source, tokens, depth)?;
        Ok((
            Node::HexString {
                at,
                operand,
                separator,
            },
            rest,
        ))
    } else if name == b"lcase".as_slice() {
        let (operand, rest) = one_operand(source, tokens, depth)?;
        Ok((Node::Lower { at, operand }, rest))
    } else if name == b"ucase".as_slice() {
        let (operand, rest) = one_operand(source, tokens, depth)?;
        Ok((Node::Upper { at, operand }, rest))
    } else if name == b"uint32totext".as_slice() {
        let (operand, rest) = one_operand(source, tokens, depth)?;
        Ok((Node::IntToText { at, operand }, rest))
    } else {
        Err(SyntaxFault::Expected(at))
    }
}

// Reads an operand after the bracket at this place, and the sign that must follow it.
#[cycle(parser)]
#[tactic(auto, unfolding(crate::specs::Reading::operand_then))]
pub(crate) fn operand_before<'t, 'a>(
    source: Source,
    tokens: &'t [Token<'a>],
    depth: u8,
    bracket: usize,
    wanted: Sign,
) -> Result<(Box<Node>, &'t [Token<'a>]), SyntaxFault>
    ensures reads { ReadsAs (λ x. (tree_of x.0.value, lexemes x.1.now)) result
        (operand_then (below depth) bracket (sign_byte wanted) source.end (lexemes tokens.now)) }
    ensures shorter { IfOk result (λ x. length x.1.now ≤ length tokens.now) }
{
    let (operand, rest) = any_deeper(source, tokens, depth, bracket)?;
    box_before(source, operand, rest, wanted)
}

// Takes the sign that must follow an operand, and puts the operand in a box.
fn box_before<'t, 'a>(
    source: Source,
    operand: Node,
    tokens: &'t [Token<'a>],
    wanted: Sign,
) -> Result<(Box<Node>, &'t [Token<'a>]), SyntaxFault>
    ensures reads { ReadsAs (λ x. (tree_of x.0.value, lexemes x.1.now)) result
        (seq (sign_here (sign_byte wanted)) (λ _. done (tree_of operand)) source.end
        (lexemes tokens.now)) }
    ensures shorter { IfOk result (λ x. length x.1.now ≤ length tokens.now) }
{
    let (_, rest) = expect_sign(tokens, wanted, source.end)?;
    Ok((Box::new(source.alloc, operand)?, rest))
}

// Reads an operand in brackets.
#[cycle(parser)]
#[tactic(auto, unfolding(crate::specs::Reading::operand_in_brackets))]
fn one_operand<'t, 'a>(
    source: Source,
    tokens: &'t [Token<'a>],
    depth: u8,
) -> Result<(Box<Node>, &'t [Token<'a>]), SyntaxFault>
    ensures reads { ReadsAs (λ x. (tree_of x.0.value, lexemes x.1.now)) result
        (operand_in_brackets (below depth) source.end (lexemes tokens.now)) }
    ensures shorter { IfOk result (λ x. length x.1.now ≤ length tokens.now) }
{
    let (open, rest) = expect_sign(tokens, Sign::Open, source.end)?;
    operand_before(source, rest, depth, open, Sign::Close)
}

// Reads two operands in brackets.
#[cycle(parser)]
#[tactic(auto, unfolding(crate::specs::Reading::operands_in_brackets))]
fn two_operands<'t, 'a>(
    source: Source,
    tokens: &'t [Token<'a>],
    depth: u8,
) -> Result<(Box<Node>, Box<Node>, &'t [Token<'a>]), SyntaxFault>
    ensures reads { ReadsAs (λ x. ((tree_of x.0.value, tree_of x.1.value), lexemes x.2.now)) result
        (operands_in_brackets (below depth) source.end (lexemes tokens.now)) }
    ensures shorter { IfOk result (λ x. length x.2.now ≤ length tokens.now) }
{
    let (open, rest) = expect_sign(tokens, Sign::Open, source.end)?;
    two_before(source, rest, depth, open)
}

// Reads two operands after the bracket at this place, and the closing bracket after them.
#[cycle(parser)]
fn two_before<'t, 'a>(
    source: Source,
    tokens: &'t [Token<'a>],
    depth: u8,
    bracket: usize,
) -> Result<(Box<Node>, Box<Node>, &'t [Token<'a>]), SyntaxFault>
    ensures reads { ReadsAs (λ x. ((tree_of x.0.value, tree_of x.1.value), lexemes x.2.now)) result
        (seq {B = Tree × Tree} (operand_then (below depth) bracket 44)
        (λ a. seq (operand_then (below depth) bracket 41) (λ b. done (a, b))) source.end
        (lexemes tokens.now)) }
    ensures shorter { IfOk result (λ x. length x.2.now ≤ length tokens.now) }
{
    let (first, rest) = operand_before(source, tokens, depth, bracket, Sign::Comma)?;
    let (second, rest) = operand_before(source, rest, depth, bracket, Sign::Close)?;
    Ok((first, second, rest))
}

// Reads what follows `ifelse`.
#[cycle(parser)]
#[tactic(auto, unfolding(crate::specs::Reading::ifelse_at))]
fn ifelse_of<'t, 'a>(
    source: Source,
    at: usize,
    tokens: &'t [Token<'a>],
    depth: u8,
) -> Result<(Node, &'t [Token<'a>]), SyntaxFault>
    ensures reads { ReadsAs (λ x. (tree_of x.0, lexemes x.1.now)) result
        (ifelse_at (below depth) at source.end (lexemes tokens.now)) }
    ensures shorter { IfOk result (λ x. length x.1.now ≤ length tokens.now) }
{
    let (open, rest) = expect_sign(tokens, Sign::Open, source.end)?;
    let (test, rest) = operand_before(source, rest, depth, open, Sign::Comma)?;
    let (yes, no, rest) = two_before(source, rest, depth, open)?;
    Ok((Node::IfElse { at, test, yes, no }, rest))
}

// Reads what follows `substring`.
#[cycle(parser)]
#[tactic(auto, unfolding(crate::specs::Reading::substring_after))]
fn substring_of<'t, 'a>(
    source: Source,
    at: usize,
    tokens: &'t [Token<'a>],
    depth: u8,
) -> Result<(Node, &'t [Token<'a>]), SyntaxFault>
    ensures reads { ReadsAs (λ x. (tree_of x.0, lexemes x.1.now)) result
        (substring_after (below depth) at source.end (lexemes tokens.now)) }
    ensures shorter { IfOk result (λ x. length x.1.now ≤ length tokens.now) }
{
    let (open, rest) = expect_sign(tokens, Sign::Open, source.end)?;
    let (operand, rest) = operand_before(source, rest, depth, open, Sign::Comma)?;
    let (start, length, rest) = part_before(source, rest)?;
    Ok((
        Node::Substring {
            at,
            operand,
            start,
            length,
        },
        rest,
    ))
}

// Reads the start and the length of a part, and the closing bracket after them.
fn part_before<'t, 'a>(
    source: Source,
    tokens: &'t [Token<'a>],
) -> Result<(i32, Option<i32>, &'t [Token<'a>]), SyntaxFault>
    ensures reads { (node : ℤ → Option ℤ → Tree)
        → ReadsAs (λ x. (node x.0 x.1, lexemes x.2.now)) result
        (seq (wanted signed signed_refusal)
        (λ start. seq (sign_here 44) (λ _. seq (wanted length_of_part signed_refusal)
        (λ len. seq (sign_here 41) (λ _. done (node start len))))) source.end
        (lexemes tokens.now)) }
    ensures shorter { IfOk result (λ x. length x.2.now ≤ length tokens.now) }
{
    let (start, rest) = signed_of(tokens, source.end)?;
    let (_, rest) = expect_sign(rest, Sign::Comma, source.end)?;
    let (length, rest) = length_of(rest, source.end)?;
    let (_, rest) = expect_sign(rest, Sign::Close, source.end)?;
    Ok((start, length, rest))
}
