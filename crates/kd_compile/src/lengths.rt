ghost use Rattle.std.specs.Prelude.{◌≡◌, ◌≤◌, max, min};
ghost use Rattle.kd_compile.specs.Measures.{bound, greatest, bound_of_part};
ghost use Rattle.kd_expr.specs.View.{tree_of};
ghost use Rattle.kd_token.specs.Shape.{bound_of_hex, bound_of_substring};

use kd_expr::Node;
use kd_wire::Field;

// One more than the greatest length that a program can declare; all greater lengths count as this.
const MOST: usize = 65_536;

// The greatest length of an expression's byte string, and of any byte string on the way to it.
#[derive(Clone, Copy)]
pub(crate) struct Longest {
    pub(crate) own: usize,
    pub(crate) greatest: usize,
}

// Returns the greatest length of the byte string of a message field.
fn part_bound(field: Field) -> usize
    ensures { result ≡ bound_of_part field }
{
    match field {
        Field::Mac => 16,
        Field::Hlen
        | Field::Htype
        | Field::Ciaddr
        | Field::Giaddr
        | Field::Yiaddr
        | Field::Siaddr
        | Field::MessageType
        | Field::Transaction
        | Field::Length => 4,
    }
}

// Returns the greatest length of the hexadecimal text of this many bytes with separators of this
// length, or `MOST` if it is greater.
fn hex_bound(bytes: usize, separator: usize) -> usize
    requires { (bytes ≤ 65536) × (separator ≤ 65536) }
    ensures { result ≡ min (bound_of_hex bytes separator) 65536 }
{
    if bytes == 0 {
        0
    } else {
        (2 * bytes + (bytes - 1) * separator).min(MOST)
    }
}

// Returns the greatest length of a substring of this many bytes.
fn substring_bound(bytes: usize, length: Option<i32>) -> usize
    ensures { result ≡ bound_of_substring bytes length }
{
    match length {
        Some(length) => bytes.min(length.unsigned_abs() as usize),
        None => bytes,
    }
}

// Returns the lengths of a byte string that is not made from others.
fn alone(length: usize) -> Longest
    ensures own { result.own ≡ min length 65536 }
    ensures greatest { result.greatest ≡ min length 65536 }
{
    let length = length.min(MOST);
    Longest {
        own: length,
        greatest: length,
    }
}

// Returns the lengths of an expression, each at most `MOST`.
pub(crate) fn lengths(node: &Node) -> Longest
    ensures own { result.own ≡ min (bound (tree_of node.now)) 65536 }
    ensures greatest { result.greatest ≡ min (greatest (tree_of node.now)) 65536 }
{
    match node {
        Node::Literal { bytes, .. } => alone(bytes.as_slice().len()),
        Node::Int { .. } => alone(4),
        Node::Option { .. } => alone(4096),
        Node::Relay { .. } => alone(255),
        Node::Field { field, .. } => alone(part_bound(*field)),
        Node::OptionExists { .. } | Node::RelayExists { .. } | Node::Member { .. } => alone(0),
        Node::Not { operand, .. } | Node::Group { operand, .. } => Longest {
            own: 0,
            greatest: lengths(operand).greatest,
        },
        Node::And { left, right, .. }
        | Node::Or { left, right, .. }
        | Node::Equal { left, right, .. } => Longest {
            own: 0,
            greatest: lengths(left).greatest.max(lengths(right).greatest),
        },
        Node::Concat { left, right, .. } => {
            let left = lengths(left);
            let right = lengths(right);
            over((left.own + right.own).min(MOST), left, right)
        }
        Node::HexString {
            operand,
            separator,
            ..
        } => hexadecimal(lengths(operand), lengths(separator)),
        Node::IfElse { test, yes, no, .. } => choice(lengths(test), lengths(yes), lengths(no)),
        Node::Substring {
            operand,
            length,
            ..
        } => part(lengths(operand), *length),
        Node::Lower { operand, .. } | Node::Upper { operand, .. } => lengths(operand),
        Node::IntToText { operand, .. } => Longest {
            own: 10,
            greatest: lengths(operand).greatest.max(10),
        },
    }
}

// Returns the lengths of a byte string that is made from two.
fn over(own: usize, left: Longest, right: Longest) -> Longest
    ensures own { result.own ≡ own }
    ensures greatest { result.greatest ≡ max own (max left.greatest right.greatest) }
{
    Longest {
        own,
        greatest: own.max(left.greatest.max(right.greatest)),
    }
}

// Returns the lengths of the hexadecimal text of a byte string.
fn hexadecimal(bytes: Longest, separator: Longest) -> Longest
    requires { (bytes.own ≤ 65536) × (separator.own ≤ 65536) }
    ensures own { result.own ≡ min (bound_of_hex bytes.own separator.own) 65536 }
    ensures greatest { result.greatest
        ≡ max (min (bound_of_hex bytes.own separator.own) 65536)
        (max bytes.greatest separator.greatest) }
{
    over(hex_bound(bytes.own, separator.own), bytes, separator)
}

// Returns the lengths of an `ifelse`.
fn choice(test: Longest, yes: Longest, no: Longest) -> Longest
    ensures own { result.own ≡ max yes.own no.own }
    ensures greatest { result.greatest ≡ max test.greatest (max yes.greatest no.greatest) }
{
    Longest {
        own: yes.own.max(no.own),
        greatest: test.greatest.max(yes.greatest.max(no.greatest)),
    }
}

// Returns the lengths of a substring.
fn part(whole: Longest, length: Option<i32>) -> Longest
    ensures own { result.own ≡ bound_of_substring whole.own length }
    ensures greatest { result.greatest ≡ whole.greatest }
{
    Longest {
        own: substring_bound(whole.own, length),
        greatest: whole.greatest,
    }
}
