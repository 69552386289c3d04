ghost use Rattle.std.specs.Prelude.{IfErr};
ghost use Rattle.kd_io.specs.Looking.{IsCopyFault};

use crate::files::{InputFault, read_whole};
use crate::look::{Copied, LookFault, Watched, settled_copy};
use kd_wire::Bytes;
use std::alloc::{AllocError, Global};
use std::fs;
use std::fs::File;
use std::io::{ErrorKind, Read};
use std::rt::Files;

// The length of the header of a log, in bytes (SQLite's file format, section 4.1).
const HEADER: u64 = 32;

// A database and its log, by their paths.
#[derive(Drop)]
struct AtPaths<'a, R> {
    rt: &'a R,
    db: &'a str,
    log: &'a str,
}

impl<'a, R: Files + AllocGlobal> Watched for AtPaths<'a, R> {
    ghost use Rattle.std.specs.Prelude.{None};

    ghost trace = { λ _. None };

    fn header(&mut self) -> Result<Bytes, InputFault> {
        match File::open(self.rt, self.log) {
            Ok(file) => whole(self.rt.alloc(), file.take(HEADER)),
            Err(error) if error.kind() == ErrorKind::NotFound => Ok(nothing(self.rt.alloc())),
            Err(error) => Err(InputFault::from(error)),
        }
    }

    fn database(&mut self) -> Result<Bytes, InputFault> {
        whole(self.rt.alloc(), File::open(self.rt, self.db)?)
    }

    fn log(&mut self) -> Result<Bytes, InputFault> {
        match File::open(self.rt, self.log) {
            Ok(file) => whole(self.rt.alloc(), file),
            Err(error) if error.kind() == ErrorKind::NotFound => Ok(nothing(self.rt.alloc())),
            Err(error) => Err(InputFault::from(error)),
        }
    }
}

// No bytes.
fn nothing(alloc: Global) -> Bytes {
    Bytes::own(Vec::new(alloc))
}

// Reads all bytes of a reader, fewer than 4 GiB.
fn whole<R: Read + Drop>(alloc: Global, reader: R) -> Result<Bytes, InputFault> {
    Ok(Bytes::own(read_whole(alloc, reader, u32::MAX)?))
}

/// Copies the database at a path and its log without a lock: see `settled_copy`. A log that does
/// not exist has no bytes. If the path is a link, both are taken from where it leads, as by a
/// server that opens them.
///
/// # Errors
///
/// Those of `settled_copy`; the database does not exist, or has 4 GiB or more.
pub fn copy_at<R: Files + AllocGlobal>(rt: &R, path: &str) -> Result<Copied, LookFault>
    ensures { IfErr result IsCopyFault }
{
    let real = fs::canonicalize(rt, path).map_err(InputFault::from)?;
    let log = log_path(rt.alloc(), real.as_str()).map_err(InputFault::from)?;
    settled_copy(&mut AtPaths {
        rt,
        db: real.as_str(),
        log: log.as_str(),
    })
}

// Returns the path of the log of the database at a path.
fn log_path(alloc: Global, path: &str) -> Result<String, AllocError> {
    let mut log = String::new(alloc);
    log.push_str(path)?;
    log.push_str("-wal")?;
    Ok(log)
}
