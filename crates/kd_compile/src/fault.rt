ghost use Rattle.std.specs.Prelude.{◌≡◌};
ghost use Rattle.kd_compile.specs.Compiled.{compile_fault_number};

use std::alloc::{AllocError, AllocFailed};
use std::fmt;
use thiserror::Error;

/// Why a class test cannot be compiled: the first limit that its program would be over.
#[derive(Clone, Copy, PartialEq, Eq, Error)]
pub enum CompileFault {
    /// It would have more than 1,024 tokens.
    #[error("TooManyTokens")]
    TooManyTokens,
    /// More than 64 values would be on the stack.
    #[error("TooDeep")]
    TooDeep,
    /// A byte string could have more than 65,535 bytes.
    #[error("TooLong")]
    TooLong,
    /// It asks for more than 64 different names.
    #[error("TooManyNames")]
    TooManyNames,
    /// There is no memory for the program.
    #[error("Memory")]
    Memory,
}

impl fmt::Debug for CompileFault {
    fn fmt<W: fmt::Write>(&self, f: &mut fmt::Formatter<W>) -> fmt::Result {
        fmt::Display::fmt(self, f)
    }
}

impl CompileFault {
    /// Returns the fault's number: 51 to 54, or 91 if out of memory.
    pub fn number(self) -> u8
        ensures { result ≡ compile_fault_number self }
    {
        match self {
            CompileFault::TooManyTokens => 51,
            CompileFault::TooDeep => 52,
            CompileFault::TooLong => 53,
            CompileFault::TooManyNames => 54,
            CompileFault::Memory => 91,
        }
    }
}

impl From<AllocError> for CompileFault {
    ghost use Rattle.kd_compile.specs.declared.fault.CompileFault.TheVariants.{Memory};

    ghost from_gives = { λ _ e. e ≡ Memory };

    fn from(_error: AllocError) -> CompileFault {
        CompileFault::Memory
    }
}
