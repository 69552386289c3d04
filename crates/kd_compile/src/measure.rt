ghost use Rattle.std.specs.Prelude.{◌≡◌, ◌<◌, ◌^◌};
ghost use Rattle.kd_compile.specs.Measures.{stack_depth, four_more, branching, number_tree, number_part, step_count, token_count};
ghost use Rattle.kd_expr.specs.View.{tree_of};

use kd_expr::Node;
use kd_wire::Field;

// Whether a message field is a number.
fn is_number_part(field: Field) -> bool
    ensures { result ≡ number_part field }
{
    match field {
        Field::Mac | Field::Ciaddr | Field::Giaddr | Field::Yiaddr | Field::Siaddr => false,
        Field::Hlen | Field::Htype | Field::MessageType | Field::Transaction | Field::Length =>
            true,
    }
}

// Whether an expression is a number.
pub(crate) fn is_number(node: &Node) -> bool
    ensures { result ≡ number_tree (tree_of node.now) }
{
    match node {
        Node::Int { .. } => true,
        Node::Field { field, .. } => is_number_part(*field),
        _ => false,
    }
}

// Returns 1 if an operand is a number, for the token of its four bytes, otherwise 0.
pub(crate) fn four(node: &Node) -> u32
    ensures { result ≡ four_more (tree_of node.now) }
{
    if is_number(node) { 1 } else { 0 }
}

// Returns the number of tokens in an expression's program.
pub(crate) fn tokens(node: &Node) -> u32
    requires { token_count (tree_of node.now) < 2 ^ 32 }
    ensures { result ≡ token_count (tree_of node.now) }
{
    match node {
        Node::Literal { .. }
        | Node::Int { .. }
        | Node::Option { .. }
        | Node::Relay { .. }
        | Node::Field { .. }
        | Node::OptionExists { .. }
        | Node::RelayExists { .. }
        | Node::Member { .. } => 1,
        Node::Group { operand, .. } => tokens(operand),
        Node::Not { operand, .. } | Node::IntToText { operand, .. } => tokens(operand) + 1,
        Node::And { left, right, .. } | Node::Or { left, right, .. } => {
            tokens(left) + 1 + tokens(right)
        }
        Node::Equal { left, right, .. } | Node::Concat { left, right, .. } => {
            tokens(left) + four(left) + (tokens(right) + four(right)) + 1
        }
        Node::HexString {
            operand,
            separator,
            ..
        } => tokens(operand) + four(operand) + (tokens(separator) + four(separator)) + 1,
        Node::IfElse { test, yes, no, .. } => {
            tokens(test) + 1 + (tokens(yes) + four(yes)) + 1 + (tokens(no) + four(no))
        }
        Node::Substring { operand, .. }
        | Node::Lower { operand, .. }
        | Node::Upper { operand, .. } => tokens(operand) + four(operand) + 1,
    }
}

// Returns the greatest number of tokens that run.
pub(crate) fn steps(node: &Node) -> u32
    requires { step_count (tree_of node.now) < 2 ^ 32 }
    ensures { result ≡ step_count (tree_of node.now) }
{
    match node {
        Node::Literal { .. }
        | Node::Int { .. }
        | Node::Option { .. }
        | Node::Relay { .. }
        | Node::Field { .. }
        | Node::OptionExists { .. }
        | Node::RelayExists { .. }
        | Node::Member { .. } => 1,
        Node::Group { operand, .. } => steps(operand),
        Node::Not { operand, .. } | Node::IntToText { operand, .. } => steps(operand) + 1,
        Node::And { left, right, .. } | Node::Or { left, right, .. } => {
            steps(left) + 1 + steps(right)
        }
        Node::Equal { left, right, .. } | Node::Concat { left, right, .. } => {
            steps(left) + four(left) + (steps(right) + four(right)) + 1
        }
        Node::HexString {
            operand,
            separator,
            ..
        } => steps(operand) + four(operand) + (steps(separator) + four(separator)) + 1,
        Node::IfElse { test, yes, no, .. } => {
            steps(test) + 1 + (steps(yes) + four(yes) + 1).max(steps(no) + four(no))
        }
        Node::Substring { operand, .. }
        | Node::Lower { operand, .. }
        | Node::Upper { operand, .. } => steps(operand) + four(operand) + 1,
    }
}

// Returns the greatest number of values on the stack.
pub(crate) fn depth(node: &Node) -> u32
    requires { stack_depth (tree_of node.now) < 2 ^ 32 }
    ensures { result ≡ stack_depth (tree_of node.now) }
{
    match node {
        Node::Literal { .. }
        | Node::Int { .. }
        | Node::Option { .. }
        | Node::Relay { .. }
        | Node::Field { .. }
        | Node::OptionExists { .. }
        | Node::RelayExists { .. }
        | Node::Member { .. } => 1,
        Node::Not { operand, .. }
        | Node::Group { operand, .. }
        | Node::Substring { operand, .. }
        | Node::Lower { operand, .. }
        | Node::Upper { operand, .. }
        | Node::IntToText { operand, .. } => depth(operand),
        Node::And { left, right, .. } | Node::Or { left, right, .. } => {
            depth(left).max(depth(right))
        }
        Node::Equal { left, right, .. } | Node::Concat { left, right, .. } => {
            depth(left).max(1 + depth(right))
        }
        Node::HexString {
            operand,
            separator,
            ..
        } => depth(operand).max(1 + depth(separator)),
        Node::IfElse { test, yes, no, .. } => depth(test).max(depth(yes).max(depth(no))),
    }
}

// Whether `and`, `or` or `ifelse` occurs.
pub(crate) fn has_branches(node: &Node) -> bool
    ensures { result ≡ branching (tree_of node.now) }
{
    match node {
        Node::And { .. } | Node::Or { .. } | Node::IfElse { .. } => true,
        Node::Literal { .. }
        | Node::Int { .. }
        | Node::Option { .. }
        | Node::Relay { .. }
        | Node::Field { .. }
        | Node::OptionExists { .. }
        | Node::RelayExists { .. }
        | Node::Member { .. } => false,
        Node::Not { operand, .. }
        | Node::Group { operand, .. }
        | Node::Substring { operand, .. }
        | Node::Lower { operand, .. }
        | Node::Upper { operand, .. }
        | Node::IntToText { operand, .. } => has_branches(operand),
        Node::Equal { left, right, .. } | Node::Concat { left, right, .. } => {
            has_branches(left) || has_branches(right)
        }
        Node::HexString {
            operand,
            separator,
            ..
        } => has_branches(operand) || has_branches(separator),
    }
}
