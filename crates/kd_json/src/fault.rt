ghost use Rattle.std.specs.Prelude.{◌≡◌};
ghost use Rattle.kd_json.specs.Faults.{config_fault_number};

use kd_classes::ClassFault;
use kd_compile::CompileFault;
use kd_expr::{ExprFault, TypeFault};
use kd_token::{FileFault, VerifyFault};
use std::alloc::{AllocError, AllocFailed};
use std::fmt;
use thiserror::Error;

/// Why the text of a class's test has no program. It prints as the fault it contains.
#[derive(Clone, Copy, Error)]
pub enum TestFault {
    /// The text is not an expression.
    #[error("{0}")]
    Reading(ExprFault),
    /// The expression is not a class test.
    #[error("{0}")]
    Typing(TypeFault),
    /// The class test exceeds a limit of programs.
    #[error("{0}")]
    Compiling(CompileFault),
}

impl fmt::Debug for TestFault {
    fn fmt<W: fmt::Write>(&self, f: &mut fmt::Formatter<W>) -> fmt::Result {
        fmt::Display::fmt(self, f)
    }
}

/// Why the token file of a class's test has no program. It prints as the fault it contains.
#[derive(Clone, Copy, Error)]
pub enum FileTestFault {
    /// No file has the name.
    #[error("Absent")]
    Absent,
    /// The file's bytes are not a token file.
    #[error("{0}")]
    File(FileFault),
    /// The file's program is not accepted.
    #[error("{0}")]
    Verify(VerifyFault),
}

impl fmt::Debug for FileTestFault {
    fn fmt<W: fmt::Write>(&self, f: &mut fmt::Formatter<W>) -> fmt::Result {
        fmt::Display::fmt(self, f)
    }
}

/// Why a text is not a configuration. A path consists of the keys and list indexes from the root,
/// each after `/`.
#[derive(Drop, Error)]
pub enum ConfigFault {
    /// The text is not JSON.
    #[error("Json")]
    Json,
    /// A required key is missing; its path.
    #[error("Missing {0}")]
    Missing(String),
    /// A key is not known; its path, with control characters in the key written as `\xHH`.
    #[error("Unknown {0}")]
    Unknown(String),
    /// A value has the wrong type or is not allowed; its path, or `-` for the whole text.
    #[error("BadValue {0}")]
    BadValue(String),
    /// A pool or a reserved address is outside its subnet's prefix; its path.
    #[error("PoolOutside {0}")]
    PoolOutside(String),
    /// A pool shares an address with an earlier pool; its path.
    #[error("Overlap {0}")]
    Overlap(String),
    /// A reservation repeats the address of an earlier one, or the identity of an earlier one in
    /// its subnet; the path of the repeated value.
    #[error("DuplicateReservation {0}")]
    DuplicateReservation(String),
    /// The text of a class's test has no program; the index of the class, counted from 0, and why.
    #[error("Expression {0} {1}")]
    Expression(usize, TestFault),
    /// The token file of a class's test has no program; the index of the class, counted from 0, and
    /// why.
    #[error("Tokens {0} {1}")]
    Tokens(usize, FileTestFault),
    /// The classes are refused: the first fault in their order.
    #[error("Class {0}")]
    Class(ClassFault),
    /// There is not enough memory for the configuration.
    #[error("Memory")]
    Memory,
}

impl fmt::Debug for ConfigFault {
    fn fmt<W: fmt::Write>(&self, f: &mut fmt::Formatter<W>) -> fmt::Result {
        fmt::Display::fmt(self, f)
    }
}

impl ConfigFault {
    /// The fault's number: 70 to 79, or 91 for out of memory.
    pub fn number(&self) -> u8
        ensures { result ≡ config_fault_number self.now }
    {
        match self {
            ConfigFault::Json => 70,
            ConfigFault::Missing(_) => 71,
            ConfigFault::Unknown(_) => 72,
            ConfigFault::BadValue(_) => 73,
            ConfigFault::PoolOutside(_) => 74,
            ConfigFault::Overlap(_) => 75,
            ConfigFault::DuplicateReservation(_) => 76,
            ConfigFault::Expression(..) => 77,
            ConfigFault::Tokens(..) => 78,
            ConfigFault::Class(_) => 79,
            ConfigFault::Memory => 91,
        }
    }
}

impl From<AllocError> for ConfigFault {
    ghost use Rattle.kd_json.specs.declared.fault.ConfigFault.TheVariants.{Memory};

    ghost from_gives = { λ _ e. e ≡ Memory };

    fn from(_error: AllocError) -> ConfigFault {
        ConfigFault::Memory
    }
}

impl<T: Drop> From<AllocFailed<T>> for ConfigFault {
    ghost use Rattle.kd_json.specs.declared.fault.ConfigFault.TheVariants.{Memory};

    ghost from_gives = { λ _ e. e ≡ Memory };

    fn from(_error: AllocFailed<T>) -> ConfigFault {
        ConfigFault::Memory
    }
}
