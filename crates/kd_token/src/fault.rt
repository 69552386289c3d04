ghost use Rattle.std.specs.Prelude.{◌≡◌};
ghost use Rattle.kd_token.specs.Faults.{file_fault_number, verify_fault_number};

use std::alloc::{AllocError, AllocFailed};
use std::fmt;
use thiserror::Error;

/// Why bytes are not a token file: the first fault from left to right. Places are offsets from the
/// file's first byte.
#[derive(Clone, Copy, PartialEq, Eq, Error)]
pub enum FileFault {
    /// The file does not begin with the four bytes `K4TK`.
    #[error("Magic")]
    Magic,
    /// The version byte is neither 1 nor 2.
    #[error("Version")]
    Version,
    /// The file ends within a field; the number is the offset of that field's first byte.
    #[error("Cut {0}")]
    Cut(usize),
    /// No token of the file's version has this opcode; the number is its offset.
    #[error("Opcode {0}")]
    Opcode(usize),
    /// A name's length is 0, a field's number is above 9, a substring's mode is above 1, or a
    /// branch goes beyond the end of the program; the number is the offset of the operand's first
    /// byte.
    #[error("Operand {0}")]
    Operand(usize),
    /// Bytes follow the last token; the number is the offset of the first of them.
    #[error("Rest {0}")]
    Rest(usize),
    /// The declared steps, the declared depth, the number of names or the number of tokens is over
    /// its limit: 1,024, 64, 64 or 1,024.
    #[error("Limit")]
    Limit,
    /// There is no memory for the program.
    #[error("Memory")]
    Memory,
}

impl fmt::Debug for FileFault {
    fn fmt<W: fmt::Write>(&self, f: &mut fmt::Formatter<W>) -> fmt::Result {
        fmt::Display::fmt(self, f)
    }
}

impl FileFault {
    /// Returns the fault's number: 30 to 36, or 91 if out of memory.
    pub fn number(self) -> u8
        ensures { result ≡ file_fault_number self }
    {
        match self {
            FileFault::Magic => 30,
            FileFault::Version => 31,
            FileFault::Cut(_) => 32,
            FileFault::Opcode(_) => 33,
            FileFault::Operand(_) => 34,
            FileFault::Rest(_) => 35,
            FileFault::Limit => 36,
            FileFault::Memory => 91,
        }
    }
}

impl From<AllocError> for FileFault {
    ghost use Rattle.kd_token.specs.declared.fault.FileFault.TheVariants.{Memory};

    ghost from_gives = { λ _ e. e ≡ Memory };

    fn from(_error: AllocError) -> FileFault {
        FileFault::Memory
    }
}

impl<T: Drop> From<AllocFailed<T>> for FileFault {
    ghost use Rattle.kd_token.specs.declared.fault.FileFault.TheVariants.{Memory};

    ghost from_gives = { λ _ e. e ≡ Memory };

    fn from(_error: AllocFailed<T>) -> FileFault {
        FileFault::Memory
    }
}

/// Why a program is not accepted: the first fault in the order of the tokens. Places are numbers of
/// tokens from 0; the number of tokens itself is the end.
#[derive(Clone, Copy, PartialEq, Eq, Error)]
pub enum VerifyFault {
    /// A token needs more values than the stack has.
    #[error("Short {0}")]
    Short(usize),
    /// A token needs a value of another kind, or two paths that meet there bring different shapes.
    #[error("Kind {0}")]
    Kind(usize),
    /// After this token the stack is deeper than the declared depth.
    #[error("Deep {0}")]
    Deep(usize),
    /// After this token a byte string may be longer than the declared length.
    #[error("Long {0}")]
    Long(usize),
    /// The longest path through the program has more steps than it declares.
    #[error("Steps")]
    Steps,
    /// The program does not end with one truth value.
    #[error("Finish")]
    Finish,
    /// A token refers to a name that the program does not have.
    #[error("Name {0}")]
    Name(usize),
    /// There is no memory for the table of shapes.
    #[error("Memory")]
    Memory,
}

impl fmt::Debug for VerifyFault {
    fn fmt<W: fmt::Write>(&self, f: &mut fmt::Formatter<W>) -> fmt::Result {
        fmt::Display::fmt(self, f)
    }
}

impl VerifyFault {
    /// Returns the fault's number: 40 to 46, or 91 if out of memory.
    pub fn number(self) -> u8
        ensures { result ≡ verify_fault_number self }
    {
        match self {
            VerifyFault::Short(_) => 40,
            VerifyFault::Kind(_) => 41,
            VerifyFault::Deep(_) => 42,
            VerifyFault::Long(_) => 43,
            VerifyFault::Steps => 44,
            VerifyFault::Finish => 45,
            VerifyFault::Name(_) => 46,
            VerifyFault::Memory => 91,
        }
    }
}

impl From<AllocError> for VerifyFault {
    ghost use Rattle.kd_token.specs.declared.fault.VerifyFault.TheVariants.{Memory};

    ghost from_gives = { λ _ e. e ≡ Memory };

    fn from(_error: AllocError) -> VerifyFault {
        VerifyFault::Memory
    }
}
