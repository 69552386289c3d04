ghost use Rattle.std.specs.Prelude.{◌≡◌, ◌<◌, ◌^◌, Ok};
ghost use Rattle.kd_expr.specs.Size.{node_count};
ghost use Rattle.kd_expr.specs.Typing.{andthen, field_type, type_of, test_type, want_bool, want_bytes, want_int};
ghost use Rattle.kd_expr.specs.Tree.{at_of};
ghost use Rattle.kd_expr.specs.View.{tree_of};

use crate::fault::TypeFault;
use crate::node::Node;
use kd_wire::Field;

/// The type of an expression's value.
#[derive(Clone, Copy, PartialEq, Eq)]
pub enum ValueType {
    /// A truth value.
    Bool,
    /// A 32-bit number.
    Int,
    /// A byte string.
    Bytes,
}

// Returns the type of an expression, or its first fault.
#[cycle(typing)]
pub(crate) fn type_of_node(node: &Node) -> Result<ValueType, TypeFault>
    ensures { result ≡ type_of (tree_of node.now) }
{
    match node {
        Node::Literal { .. } | Node::Option { .. } | Node::Relay { .. } => Ok(ValueType::Bytes),
        Node::Int { .. } => Ok(ValueType::Int),
        Node::Field { field, .. } => Ok(type_of_field(*field)),
        Node::OptionExists { .. } | Node::RelayExists { .. } | Node::Member { .. } => Ok(
            ValueType::Bool,
        ),
        Node::Not { operand, .. } | Node::Group { operand, .. } => {
            bool_operand(operand)?;
            Ok(ValueType::Bool)
        }
        Node::And { left, right, .. } | Node::Or { left, right, .. } => {
            bool_operand(left)?;
            bool_operand(right)?;
            Ok(ValueType::Bool)
        }
        Node::Equal { left, right, .. } => type_over_bytes(left, right, ValueType::Bool),
        Node::Concat { left, right, .. } => type_over_bytes(left, right, ValueType::Bytes),
        Node::HexString {
            operand,
            separator,
            ..
        } => type_over_bytes(operand, separator, ValueType::Bytes),
        Node::IfElse { test, yes, no, .. } => {
            bool_operand(test)?;
            type_over_bytes(yes, no, ValueType::Bytes)
        }
        Node::Substring { operand, .. }
        | Node::Lower { operand, .. }
        | Node::Upper { operand, .. } => {
            bytes_operand(operand)?;
            Ok(ValueType::Bytes)
        }
        Node::IntToText { operand, .. } => {
            int_operand(operand)?;
            Ok(ValueType::Bytes)
        }
    }
}

// Returns `own`, the type of an expression, if its last two operands are byte strings; otherwise
// the first fault of these.
#[cycle(typing)]
fn type_over_bytes(left: &Node, right: &Node, own: ValueType) -> Result<ValueType, TypeFault>
    ensures { result
        ≡ andthen (want_bytes (at_of (tree_of left.now)) (type_of (tree_of left.now)))
        (andthen (want_bytes (at_of (tree_of right.now)) (type_of (tree_of right.now))) (Ok own)) }
{
    bytes_operand(left)?;
    bytes_operand(right)?;
    Ok(own)
}

// Checks an operand that must be a truth value.
#[cycle(typing)]
pub(crate) fn bool_operand(node: &Node) -> Result<(), TypeFault>
    ensures { result ≡ want_bool (at_of (tree_of node.now)) (type_of (tree_of node.now)) }
{
    match type_of_node(node)? {
        ValueType::Bool => Ok(()),
        _ => Err(TypeFault::WantsBool(node.at())),
    }
}

// Checks an operand that must be a byte string; a number may stand for one.
#[cycle(typing)]
fn bytes_operand(node: &Node) -> Result<(), TypeFault>
    ensures { result ≡ want_bytes (at_of (tree_of node.now)) (type_of (tree_of node.now)) }
{
    match type_of_node(node)? {
        ValueType::Bool => Err(TypeFault::WantsBytes(node.at())),
        _ => Ok(()),
    }
}

// Checks an operand that must be a number.
#[cycle(typing)]
fn int_operand(node: &Node) -> Result<(), TypeFault>
    ensures { result ≡ want_int (at_of (tree_of node.now)) (type_of (tree_of node.now)) }
{
    match type_of_node(node)? {
        ValueType::Int => Ok(()),
        _ => Err(TypeFault::WantsInt(node.at())),
    }
}

// Returns the type of a message field.
fn type_of_field(field: Field) -> ValueType
    ensures { result ≡ field_type field }
{
    match field {
        Field::Mac | Field::Ciaddr | Field::Giaddr | Field::Yiaddr | Field::Siaddr =>
            ValueType::Bytes,
        Field::Hlen | Field::Htype | Field::MessageType | Field::Transaction | Field::Length =>
            ValueType::Int,
    }
}

// Returns the number of nodes in an expression.
pub(crate) fn count(node: &Node) -> u32
    requires { node_count (tree_of node.now) < 2 ^ 32 }
    ensures { result ≡ node_count (tree_of node.now) }
{
    match node {
        Node::Literal { .. }
        | Node::Int { .. }
        | Node::Option { .. }
        | Node::Relay { .. }
        | Node::Field { .. }
        | Node::OptionExists { .. }
        | Node::RelayExists { .. }
        | Node::Member { .. } => 1,
        Node::Not { operand, .. }
        | Node::Group { operand, .. }
        | Node::Substring { operand, .. }
        | Node::Lower { operand, .. }
        | Node::Upper { operand, .. }
        | Node::IntToText { operand, .. } => 1 + count(operand),
        Node::Equal { left, right, .. }
        | Node::And { left, right, .. }
        | Node::Or { left, right, .. }
        | Node::Concat { left, right, .. } => 1 + count(left) + count(right),
        Node::HexString {
            operand,
            separator,
            ..
        } => 1 + count(operand) + count(separator),
        Node::IfElse { test, yes, no, .. } => 1 + count(test) + count(yes) + count(no),
    }
}
