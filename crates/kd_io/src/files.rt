ghost use Rattle.std.specs.Prelude.{◌≡◌, ◌≤◌, IfOk, IfSome, length};
ghost use Rattle.kd_io.specs.Faults.{input_fault_number};
ghost use Rattle.kd_io.specs.declared.files.InputFault.TheVariants.{Memory};

use std::alloc::{AllocError, AllocFailed, Global};
use std::fs::File;
use std::io::{ErrorKind, Read};
use std::rt::Files;
use std::{fmt, io};
use thiserror::Error;

/// Why a file or a folder cannot be read.
#[derive(Clone, Copy, PartialEq, Eq, Error)]
pub enum InputFault {
    /// It cannot be opened or read, or a file is too long.
    #[error("Read")]
    Read,
    /// Memory ran out.
    #[error("Memory")]
    Memory,
}

impl fmt::Debug for InputFault {
    fn fmt<W: fmt::Write>(&self, f: &mut fmt::Formatter<W>) -> fmt::Result {
        fmt::Display::fmt(self, f)
    }
}

impl InputFault {
    /// Returns the fault's number: 94, or 91 if memory ran out.
    pub fn number(self) -> u8
        ensures { result ≡ input_fault_number self }
    {
        match self {
            InputFault::Read => 94,
            InputFault::Memory => 91,
        }
    }
}

impl From<io::Error> for InputFault {
    ghost use Rattle.std.specs.Prelude.{◌≡◌};
    ghost use Rattle.std.specs.IoError.{error_kind};
    ghost use Rattle.kd_io.specs.Faults.{input_fault_of};

    ghost from_gives = { λ error e. e ≡ input_fault_of (error_kind error) };

    fn from(error: io::Error) -> InputFault {
        match error.kind() {
            ErrorKind::OutOfMemory => InputFault::Memory,
            _ => InputFault::Read,
        }
    }
}

impl From<AllocError> for InputFault {
    ghost use Rattle.std.specs.Prelude.{◌≡◌};

    ghost from_gives = { λ _ e. e ≡ Memory };

    fn from(_error: AllocError) -> InputFault {
        InputFault::Memory
    }
}

impl<T: Drop> From<AllocFailed<T>> for InputFault {
    ghost use Rattle.std.specs.Prelude.{◌≡◌};

    ghost from_gives = { λ _ e. e ≡ Memory };

    fn from(_error: AllocFailed<T>) -> InputFault {
        InputFault::Memory
    }
}

/// The largest size in bytes of a file that an operator gives: 16 MiB.
pub const MOST_BYTES: u32 = 16_777_216;

/// Reads the remaining bytes of a reader, at most `most` of them.
///
/// # Errors
///
/// `Read` if it cannot be read or has more, and `Memory` if memory runs out.
pub fn read_whole<R: Read + Drop>(
    alloc: Global,
    reader: R,
    most: u32,
) -> Result<Vec<u8>, InputFault>
    ensures most { IfOk result (λ bytes. length bytes.items ≤ most) }
    ensures whole { IfOk result (λ bytes.
        IfSome (R.remaining reader) (λ input. bytes.items ≡ input)) }
{
    let mut front = reader.take(u64::from(most) + 1);
    let mut bytes = Vec::new(alloc);
    front.read_to_end(&mut bytes)?;
    if bytes.len() as u64 > u64::from(most) {
        return Err(InputFault::Read);
    }
    Ok(bytes)
}

/// Reads the file at a path, at most `most` bytes.
///
/// # Errors
///
/// `Read` if it cannot be opened or read or is longer, and `Memory` if memory runs out.
pub fn read_file<R: Files + AllocGlobal>(
    rt: &R,
    path: &str,
    most: u32,
) -> Result<Vec<u8>, InputFault>
    ensures { IfOk result (λ bytes. length bytes.items ≤ most) }
{
    let file = File::open(rt, path)?;
    read_whole(rt.alloc(), file, most)
}
