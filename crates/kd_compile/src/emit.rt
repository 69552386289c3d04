ghost use Rattle.std.specs.Prelude.{[], ◌≡◌, ◌≤◌, ◌++◌, ◌∷◌, IfOk, OnOk, length};
ghost use Rattle.std.specs.List.{position};
ghost use Rattle.kd_compile.specs.Measures.{names, names_after, token_count};
ghost use Rattle.kd_compile.specs.Tokens.{code_of, in_bytes, index_of};
ghost use Rattle.kd_expr.specs.Tree.{IfElse};
ghost use Rattle.kd_expr.specs.View.{tree_of};
ghost use Rattle.kd_machine.specs.Held.{with_name};
ghost use Rattle.kd_machine.specs.Parts.{is_held, same};

use crate::measure::{four, is_number, tokens};
use kd_expr::Node;
use kd_token::Token;
use kd_wire::Bytes;
use std::alloc::{AllocError, Global};

// Returns the index of a name in a list of names, if it is there.
fn find(name: &[u8], names: &[Bytes]) -> Option<usize>
    ensures { result ≡ position (λ other. same name.now other) names.now }
{
    names.iter().position(|other| name == other.as_slice())
}

// Returns the index of a name in a list of names, or their number if it is not there.
fn place(name: &[u8], names: &[Bytes]) -> usize
    ensures at { result ≡ index_of name.now names.now }
    ensures within { result ≤ length names.now }
{
    find(name, names).unwrap_or(names.len())
}

// Whether a name is one of a list of names.
fn is_among(name: &[u8], names: &[Bytes]) -> bool
    ensures { result ≡ is_held name.now names.now }
{
    names.iter().any(|other| name == other.as_slice())
}

// Returns a copy of bytes.
fn copy(alloc: Global, bytes: &[u8]) -> Result<Bytes, AllocError>
    ensures { IfOk result (λ b. b ≡ bytes.now) }
{
    Ok(Bytes::own(Vec::from_slice(alloc, bytes)?))
}

// Adds a name, unless it is already there.
fn put_name(alloc: Global, name: &[u8], names: &mut Vec<Bytes>) -> Result<(), AllocError>
    ensures { OnOk result (names.new.items ≡ with_name name.now names.old.items) }
{
    if !is_among(name, names) {
        names.push(copy(alloc, name)?)?;
    }
    Ok(())
}

// Adds the names that an expression asks for.
fn put_names(alloc: Global, node: &Node, names: &mut Vec<Bytes>) -> Result<(), AllocError>
    ensures { OnOk result (names.new.items ≡ names_after names.old.items (tree_of node.now)) }
{
    match node {
        Node::Member { name, .. } => put_name(alloc, name.as_slice(), names),
        Node::Literal { .. }
        | Node::Int { .. }
        | Node::Option { .. }
        | Node::Relay { .. }
        | Node::Field { .. }
        | Node::OptionExists { .. }
        | Node::RelayExists { .. } => Ok(()),
        Node::Not { operand, .. }
        | Node::Group { operand, .. }
        | Node::Substring { operand, .. }
        | Node::Lower { operand, .. }
        | Node::Upper { operand, .. }
        | Node::IntToText { operand, .. } => put_names(alloc, operand, names),
        Node::Equal { left, right, .. }
        | Node::And { left, right, .. }
        | Node::Or { left, right, .. }
        | Node::Concat { left, right, .. } => {
            put_names(alloc, left, names)?;
            put_names(alloc, right, names)
        }
        Node::HexString {
            operand,
            separator,
            ..
        } => {
            put_names(alloc, operand, names)?;
            put_names(alloc, separator, names)
        }
        Node::IfElse { test, yes, no, .. } => {
            put_names(alloc, test, names)?;
            put_names(alloc, yes, names)?;
            put_names(alloc, no, names)
        }
    }
}

// Returns the names that an expression asks for.
pub(crate) fn member_names(alloc: Global, node: &Node) -> Result<Vec<Bytes>, AllocError>
    ensures { IfOk result (λ list. list.items ≡ names (tree_of node.now)) }
{
    let mut names = Vec::new(alloc);
    put_names(alloc, node, &mut names)?;
    Ok(names)
}

// Appends a token.
fn put(out: &mut Vec<Token>, token: Token) -> Result<(), AllocError>
    ensures { OnOk result (out.new.items ≡ out.old.items ++ (token ∷ [])) }
{
    Ok(out.push(token)?)
}

// Appends the tokens of an operand where a byte string is needed.
#[cycle(code)]
fn put_bytes(
    alloc: Global,
    node: &Node,
    names: &[Bytes],
    out: &mut Vec<Token>,
) -> Result<(), AllocError>
    requires few { token_count (tree_of node.now) ≤ 1024 }
    requires named { length names.now ≤ 64 }
    ensures { OnOk result
        (out.new.items ≡ out.old.items ++ code_of names.now (tree_of node.now)
        ++ in_bytes (tree_of node.now)) }
{
    put_code(alloc, node, names, out)?;
    if is_number(node) {
        put(out, Token::IntBytes)
    } else {
        Ok(())
    }
}

// Appends the tokens of an expression. `names` are the names of its program.
#[cycle(code)]
pub(crate) fn put_code(
    alloc: Global,
    node: &Node,
    names: &[Bytes],
    out: &mut Vec<Token>,
) -> Result<(), AllocError>
    requires few { token_count (tree_of node.now) ≤ 1024 }
    requires named { length names.now ≤ 64 }
    ensures { OnOk result (out.new.items ≡ out.old.items ++ code_of names.now (tree_of node.now)) }
{
    match node {
        Node::Literal { bytes, .. } => put(out, Token::PushBytes(copy(alloc, bytes.as_slice())?)),
        Node::Int { value, .. } => put(out, Token::PushInt(*value)),
        Node::Option { code, .. } => put(out, Token::PushOption(*code)),
        Node::Relay { code, .. } => put(out, Token::PushRelay(*code)),
        Node::Field { field, .. } => put(out, Token::PushField(*field)),
        Node::OptionExists { code, .. } => put(out, Token::OptionExists(*code)),
        Node::RelayExists { code, .. } => put(out, Token::RelayExists(*code)),
        Node::Member { name, .. } => put(out, Token::Member(place(name.as_slice(), names) as u8)),
        Node::Equal { left, right, .. } => put_both(alloc, left, right, names, out, Token::Equal),
        Node::Not { operand, .. } => put_then(alloc, operand, names, out, Token::Not),
        Node::And { left, right, .. } => {
            put_code(alloc, left, names, out)?;
            put(out, Token::BranchFalseElsePop(tokens(right) as u16))?;
            put_code(alloc, right, names, out)
        }
        Node::Or { left, right, .. } => {
            put_code(alloc, left, names, out)?;
            put(out, Token::BranchTrueElsePop(tokens(right) as u16))?;
            put_code(alloc, right, names, out)
        }
        Node::Group { operand, .. } => put_code(alloc, operand, names, out),
        Node::Concat { left, right, .. } => put_both(alloc, left, right, names, out, Token::Concat),
        Node::IfElse { test, yes, no, .. } => put_choice(alloc, test, yes, no, names, out),
        Node::Substring {
            operand,
            start,
            length: count,
            ..
        } => put_bytes_then(alloc, operand, names, out, Token::Substring(*start, *count)),
        Node::HexString {
            operand,
            separator,
            ..
        } => put_both(alloc, operand, separator, names, out, Token::HexString),
        Node::Lower { operand, .. } => put_bytes_then(alloc, operand, names, out, Token::Lower),
        Node::Upper { operand, .. } => put_bytes_then(alloc, operand, names, out, Token::Upper),
        Node::IntToText { operand, .. } => put_then(alloc, operand, names, out, Token::IntToText),
    }
}

// Appends the tokens of an operand, then a token.
#[cycle(code)]
fn put_then(
    alloc: Global,
    operand: &Node,
    names: &[Bytes],
    out: &mut Vec<Token>,
    token: Token,
) -> Result<(), AllocError>
    requires few { token_count (tree_of operand.now) ≤ 1024 }
    requires named { length names.now ≤ 64 }
    ensures { OnOk result
        (out.new.items ≡ out.old.items ++ code_of names.now (tree_of operand.now) ++ token ∷ []) }
{
    put_code(alloc, operand, names, out)?;
    put(out, token)
}

// Appends the tokens of an operand where a byte string is needed, then a token.
#[cycle(code)]
fn put_bytes_then(
    alloc: Global,
    operand: &Node,
    names: &[Bytes],
    out: &mut Vec<Token>,
    token: Token,
) -> Result<(), AllocError>
    requires few { token_count (tree_of operand.now) ≤ 1024 }
    requires named { length names.now ≤ 64 }
    ensures { OnOk result
        (out.new.items ≡ out.old.items ++ code_of names.now (tree_of operand.now)
        ++ in_bytes (tree_of operand.now) ++ token ∷ []) }
{
    put_bytes(alloc, operand, names, out)?;
    put(out, token)
}

// Appends the tokens of two operands where byte strings are needed, then a token.
#[cycle(code)]
fn put_both(
    alloc: Global,
    left: &Node,
    right: &Node,
    names: &[Bytes],
    out: &mut Vec<Token>,
    token: Token,
) -> Result<(), AllocError>
    requires few_left { token_count (tree_of left.now) ≤ 1024 }
    requires few_right { token_count (tree_of right.now) ≤ 1024 }
    requires named { length names.now ≤ 64 }
    ensures { OnOk result
        (out.new.items ≡ out.old.items ++ code_of names.now (tree_of left.now)
        ++ in_bytes (tree_of left.now)
        ++ (code_of names.now (tree_of right.now) ++ in_bytes (tree_of right.now)) ++ token ∷ []) }
{
    put_bytes(alloc, left, names, out)?;
    put_bytes(alloc, right, names, out)?;
    put(out, token)
}

// Appends the tokens of an `ifelse`.
#[cycle(code)]
fn put_choice(
    alloc: Global,
    test: &Node,
    yes: &Node,
    no: &Node,
    names: &[Bytes],
    out: &mut Vec<Token>,
) -> Result<(), AllocError>
    requires few_test { token_count (tree_of test.now) ≤ 1024 }
    requires few_yes { token_count (tree_of yes.now) ≤ 1024 }
    requires few_no { token_count (tree_of no.now) ≤ 1024 }
    requires named { length names.now ≤ 64 }
    ensures { OnOk result
        (out.new.items ≡ out.old.items
        ++ code_of names.now (IfElse 0 (tree_of test.now) (tree_of yes.now) (tree_of no.now))) }
{
    put_code(alloc, test, names, out)?;
    let yes_tokens = tokens(yes) + four(yes) + 1;
    put(out, Token::PopBranchFalse(yes_tokens as u16))?;
    put_bytes(alloc, yes, names, out)?;
    let no_tokens = tokens(no) + four(no);
    put(out, Token::Branch(no_tokens as u16))?;
    put_bytes(alloc, no, names, out)
}
