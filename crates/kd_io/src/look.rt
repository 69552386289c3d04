ghost use Rattle.std.specs.Prelude.{◌≡◌, Err, IfErr, IfOk};
ghost use Rattle.kd_io.specs.Faults.{look_fault_number};
ghost use Rattle.kd_io.specs.Looking.{IsCopyFault, IsSettledCopy, IsUnsettled, IsTry, most_tries};
ghost use Rattle.kd_io.specs.declared.look.LookFault.TheVariants as faults;

use crate::files::InputFault;
use kd_keeps::StoreFault;
use kd_wire::Bytes;
use std::fmt;
use thiserror::Error;

/// Why a look at a database finds no leases.
#[derive(Clone, Copy, PartialEq, Eq, Error)]
pub enum LookFault {
    /// The database or its log cannot be read.
    #[error("{0}")]
    Input(InputFault),
    /// The log was restarted at each try.
    #[error("Unsettled")]
    Unsettled,
    /// The database has no table of leases.
    #[error("Schema")]
    NoTable,
    /// What was read is not a store of leases.
    #[error("{0}")]
    Store(StoreFault),
}

impl fmt::Debug for LookFault {
    fn fmt<W: fmt::Write>(&self, f: &mut fmt::Formatter<W>) -> fmt::Result {
        fmt::Display::fmt(self, f)
    }
}

impl LookFault {
    /// Returns the fault's number: 80, 82, or that of the fault inside.
    pub fn number(self) -> u8
        ensures { result ≡ look_fault_number self }
    {
        match self {
            LookFault::Input(fault) => fault.number(),
            LookFault::Unsettled => 82,
            LookFault::NoTable => 80,
            LookFault::Store(fault) => fault.number(),
        }
    }
}

impl From<InputFault> for LookFault {
    ghost use Rattle.std.specs.Prelude.{◌≡◌};
    ghost use Rattle.kd_io.specs.declared.look.LookFault.TheVariants.{Input};

    ghost from_gives = { λ fault e. e ≡ Input fault };

    fn from(fault: InputFault) -> LookFault {
        LookFault::Input(fault)
    }
}

/// A part of a database and its log that was read.
#[derive(Drop)]
pub enum FilePart {
    /// The first 32 bytes of the log, or all of them if it has fewer.
    Header(Bytes),
    /// The whole database.
    Database(Bytes),
    /// The whole log.
    Log(Bytes),
}

/// A database and its log as they are read, part by part, while another process may write them.
pub trait Watched {
    ghost use Rattle.std.specs.Prelude.{IfOk, List, Option};
    ghost use Rattle.kd_io.specs.Looking.{IsReadAs};
    ghost use Rattle.kd_io.specs.declared.look.FilePart.{FilePart as Read};
    ghost use Rattle.kd_io.specs.declared.look.FilePart.TheVariants as parts;

    /// What was read, in order, if that is known.
    ghost trace: { Self → Option (List Read) };

    /// Returns the first 32 bytes of the log, or all of them if it has fewer.
    ///
    /// # Errors
    ///
    /// The log cannot be read.
    fn header(&mut self) -> Result<Bytes, InputFault>
        ensures { IfOk result (λ bytes.
            IsReadAs (parts.Header bytes) (trace self.old) (trace self.new)) };

    /// Returns the whole database.
    ///
    /// # Errors
    ///
    /// The database cannot be read.
    fn database(&mut self) -> Result<Bytes, InputFault>
        ensures { IfOk result (λ bytes.
            IsReadAs (parts.Database bytes) (trace self.old) (trace self.new)) };

    /// Returns the whole log.
    ///
    /// # Errors
    ///
    /// The log cannot be read.
    fn log(&mut self) -> Result<Bytes, InputFault>
        ensures { IfOk result (λ bytes.
            IsReadAs (parts.Log bytes) (trace self.old) (trace self.new)) };
}

/// A copy of a database and its log.
#[derive(Drop)]
pub struct Copied {
    /// The log.
    pub log: Bytes,
    /// The database.
    pub db: Bytes,
}

// How many times a copy is tried.
const TRIES: u32 = 100;

/// Copies a database and its log, and makes sure that the log was not restarted in between: its
/// header is read before and after both, and is the same (SQLite's file format, section 4). This
/// takes no lock, so another process may serve from the files in the meantime.
///
/// # Errors
///
/// `Input` if a part cannot be read, and `Unsettled` if the header changed at each of 100 tries.
#[tactic(auto, using(crate::proofs::Looks::none_yet, crate::proofs::Looks::once_more, crate::proofs::Looks::settled))]
pub fn settled_copy<W: Watched>(files: &mut W) -> Result<Copied, LookFault>
    ensures copied { IfOk result (λ copy.
        IsSettledCopy copy.log copy.db (W.trace files.old) (W.trace files.new)) }
    ensures unsettled { result ≡ Err faults.Unsettled
        → IsUnsettled most_tries (W.trace files.old) (W.trace files.new) }
    ensures of_copying { IfErr result IsCopyFault }
{
    for _ in 0..TRIES {
        if let Some(copy) = tried_copy(files)? {
            return Ok(copy);
        }
    }
    Err(LookFault::Unsettled)
}

// Makes a copy, and returns it if the header stayed the same in the meantime.
fn tried_copy<W: Watched>(files: &mut W) -> Result<Option<Copied>, InputFault>
    ensures { IfOk result (λ found. IsTry found (W.trace files.old) (W.trace files.new)) }
{
    let before = files.header()?;
    let db = files.database()?;
    let log = files.log()?;
    let after = files.header()?;
    if before.as_slice() == after.as_slice() {
        Ok(Some(Copied { log, db }))
    } else {
        Ok(None)
    }
}
