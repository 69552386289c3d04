ghost use Rattle.std.specs.Prelude.{◌≡◌};
ghost use Rattle.kd_expr.specs.Tree.{at_of};
ghost use Rattle.kd_expr.specs.View.{tree_of};

use kd_wire::{Bytes, Field};

/// A node of an expression. `at` is the offset of its first byte in the text.
#[derive(Drop)]
pub enum Node {
    /// A byte string: a string, hexadecimal digits or an IPv4 address.
    Literal {
        at: usize,
        bytes: Bytes,
    },
    /// A number.
    Int {
        at: usize,
        value: u32,
    },
    /// `option[code].hex`.
    Option {
        at: usize,
        code: u8,
    },
    /// `relay4[code].hex`.
    Relay {
        at: usize,
        code: u8,
    },
    /// `pkt4.field` or `pkt.len`.
    Field {
        at: usize,
        field: Field,
    },
    /// `option[code].exists`.
    OptionExists {
        at: usize,
        code: u8,
    },
    /// `relay4[code].exists`.
    RelayExists {
        at: usize,
        code: u8,
    },
    /// `member('name')`.
    Member {
        at: usize,
        name: Bytes,
    },
    /// `left == right`.
    Equal {
        at: usize,
        left: Box<Node>,
        right: Box<Node>,
    },
    /// `not operand`.
    Not {
        at: usize,
        operand: Box<Node>,
    },
    /// `left and right`.
    And {
        at: usize,
        left: Box<Node>,
        right: Box<Node>,
    },
    /// `left or right`.
    Or {
        at: usize,
        left: Box<Node>,
        right: Box<Node>,
    },
    /// `(operand)`.
    Group {
        at: usize,
        operand: Box<Node>,
    },
    /// `left + right` or `concat(left, right)`.
    Concat {
        at: usize,
        left: Box<Node>,
        right: Box<Node>,
    },
    /// `ifelse(test, yes, no)`.
    IfElse {
        at: usize,
        test: Box<Node>,
        yes: Box<Node>,
        no: Box<Node>,
    },
    /// `substring(operand, start, length)`; `None` as the length is `all`.
    Substring {
        at: usize,
        operand: Box<Node>,
        start: i32,
        length: Option<i32>,
    },
    /// `hexstring(operand, separator)`.
    HexString {
        at: usize,
        operand: Box<Node>,
        separator: Box<Node>,
    },
    /// `lcase(operand)`.
    Lower {
        at: usize,
        operand: Box<Node>,
    },
    /// `ucase(operand)`.
    Upper {
        at: usize,
        operand: Box<Node>,
    },
    /// `uint32totext(operand)`.
    IntToText {
        at: usize,
        operand: Box<Node>,
    },
}

impl Node {
    /// Returns the offset of the node's first byte.
    pub fn at(&self) -> usize
        ensures { result ≡ at_of (tree_of self.now) }
    {
        match self {
            Node::Literal { at, .. }
            | Node::Int { at, .. }
            | Node::Option { at, .. }
            | Node::Relay { at, .. }
            | Node::Field { at, .. }
            | Node::OptionExists { at, .. }
            | Node::RelayExists { at, .. }
            | Node::Member { at, .. }
            | Node::Equal { at, .. }
            | Node::Not { at, .. }
            | Node::And { at, .. }
            | Node::Or { at, .. }
            | Node::Group { at, .. }
            | Node::Concat { at, .. }
            | Node::IfElse { at, .. }
            | Node::Substring { at, .. }
            | Node::HexString { at, .. }
            | Node::Lower { at, .. }
            | Node::Upper { at, .. }
            | Node::IntToText { at, .. } => *at,
        }
    }
}
