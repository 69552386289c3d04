ghost use Rattle.std.specs.Prelude.{◌≡◌, ◌≢◌};
ghost use Rattle.kd_expr.specs.Faults.{expr_fault_number, outer_fault, type_fault_number};
ghost use Rattle.kd_expr.specs.declared.fault.ExprFault.TheVariants as faults;
ghost use Rattle.kd_expr.specs.declared.fault.SyntaxFault.TheVariants as inner;

use crate::node::Node;
use std::alloc::{AllocError, AllocFailed};
use std::fmt;
use thiserror::Error;

/// Why a text is not an expression. A place is the offset of a token's first byte.
#[derive(Clone, Copy, PartialEq, Eq, Error)]
pub enum ExprFault {
    /// No token begins at this place.
    #[error("BadToken {0}")]
    BadToken(usize),
    /// Another token is needed at this place, or the text must not end here.
    #[error("Expected {0}")]
    Expected(usize),
    /// The number at this place is out of its range.
    #[error("NumberTooLarge {0}")]
    NumberTooLarge(usize),
    /// The bracket or `not` at this place is nested deeper than 64.
    #[error("TooNested {0}")]
    TooNested(usize),
    /// The text has more than 4,096 bytes.
    #[error("TooLong")]
    TooLong,
    /// No option has the name at this place.
    #[error("UnknownName {0}")]
    UnknownName(usize),
    /// There is no memory for the tree.
    #[error("Memory")]
    Memory,
}

impl fmt::Debug for ExprFault {
    fn fmt<W: fmt::Write>(&self, f: &mut fmt::Formatter<W>) -> fmt::Result {
        fmt::Display::fmt(self, f)
    }
}

impl ExprFault {
    /// Returns the fault's number: 20 to 25, or 91 if out of memory.
    pub fn number(self) -> u8
        ensures { result ≡ expr_fault_number self }
    {
        match self {
            ExprFault::BadToken(_) => 20,
            ExprFault::Expected(_) => 21,
            ExprFault::NumberTooLarge(_) => 22,
            ExprFault::TooNested(_) => 23,
            ExprFault::TooLong => 24,
            ExprFault::UnknownName(_) => 25,
            ExprFault::Memory => 91,
        }
    }
}

/// Why an expression is not a class test. A place is the offset of an operand's first byte.
#[derive(Clone, Copy, PartialEq, Eq, Error)]
pub enum TypeFault {
    /// A truth value is needed at this place.
    #[error("WantsBool {0}")]
    WantsBool(usize),
    /// A byte string, or a number that stands for its four bytes, is needed at this place.
    #[error("WantsBytes {0}")]
    WantsBytes(usize),
    /// A number is needed at this place.
    #[error("WantsInt {0}")]
    WantsInt(usize),
}

impl fmt::Debug for TypeFault {
    fn fmt<W: fmt::Write>(&self, f: &mut fmt::Formatter<W>) -> fmt::Result {
        fmt::Display::fmt(self, f)
    }
}

impl TypeFault {
    /// Returns the fault's number, 26 to 28.
    pub fn number(self) -> u8
        ensures { result ≡ type_fault_number self }
    {
        match self {
            TypeFault::WantsBool(_) => 26,
            TypeFault::WantsBytes(_) => 27,
            TypeFault::WantsInt(_) => 28,
        }
    }
}

// Why tokens are not an expression: any fault of a text but its length.
#[derive(Clone, Copy)]
pub(crate) enum SyntaxFault {
    BadToken(usize),
    Expected(usize),
    NumberTooLarge(usize),
    TooNested(usize),
    UnknownName(usize),
    Memory,
}

impl From<AllocError> for SyntaxFault {
    ghost use Rattle.kd_expr.specs.declared.fault.SyntaxFault.TheVariants.{Memory};

    ghost from_gives = { λ _ e. e ≡ Memory };

    fn from(_error: AllocError) -> SyntaxFault {
        SyntaxFault::Memory
    }
}

impl From<AllocFailed<Node>> for SyntaxFault {
    ghost use Rattle.kd_expr.specs.declared.fault.SyntaxFault.TheVariants.{Memory};

    ghost from_gives = { λ _ e. e ≡ Memory };

    fn from(_error: AllocFailed<Node>) -> SyntaxFault {
        SyntaxFault::Memory
    }
}

// Returns the fault as the caller sees it.
pub(crate) fn seen_outside(fault: SyntaxFault) -> ExprFault
    ensures same { result ≡ outer_fault fault }
    ensures never_long { result ≢ faults.TooLong }
    ensures memory { result ≢ faults.Memory → fault ≢ inner.Memory }
{
    match fault {
        SyntaxFault::BadToken(at) => ExprFault::BadToken(at),
        SyntaxFault::Expected(at) => ExprFault::Expected(at),
        SyntaxFault::NumberTooLarge(at) => ExprFault::NumberTooLarge(at),
        SyntaxFault::TooNested(at) => ExprFault::TooNested(at),
        SyntaxFault::UnknownName(at) => ExprFault::UnknownName(at),
        SyntaxFault::Memory => ExprFault::Memory,
    }
}
