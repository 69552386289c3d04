ghost use Rattle.std.specs.Prelude.{◌≡◌};
ghost use Rattle.kd_classes.specs.Order.{class_fault_number};

use std::fmt;
use thiserror::Error;

/// Why class definitions are refused: the first fault in their order. The payload is the index of
/// the definition.
#[derive(Clone, Copy, PartialEq, Eq, Error)]
pub enum ClassFault {
    /// An earlier definition has the same name.
    #[error("Duplicate {0}")]
    Duplicate(usize),
    /// The test asks for a name that no earlier definition has, that is not `ALL` and that does not
    /// begin with `VENDOR_CLASS_`.
    #[error("UnknownMember {0}")]
    UnknownMember(usize),
    /// There are more than 256 definitions.
    #[error("TooMany")]
    TooMany,
}

impl fmt::Debug for ClassFault {
    fn fmt<W: fmt::Write>(&self, f: &mut fmt::Formatter<W>) -> fmt::Result {
        fmt::Display::fmt(self, f)
    }
}

impl ClassFault {
    /// The fault's number, 60 to 62.
    pub fn number(self) -> u8
        ensures { result ≡ class_fault_number self }
    {
        match self {
            ClassFault::Duplicate(_) => 60,
            ClassFault::UnknownMember(_) => 61,
            ClassFault::TooMany => 62,
        }
    }
}
