ghost use Rattle.std.specs.Prelude.{◌≡◌, ◌<◌, ◌≤◌, ◌^◌, IfErr, IfOk, IsTrue, false};
ghost use Rattle.sqlite_wal.specs.PageSize.{bytes_of};
ghost use Rattle.sqlite_wal.specs.Recovery.{IsLogFor, frame_at};
ghost use Rattle.kd_database.specs.Tail.{AreLeftOut, IsNoCount, IsOwnFrame};

use crate::read_only::ReadOnly;
use kd_keeps::{Cause, StoreFault};
use sqlite_disk::Files;
use sqlite_wal::{Error, PageSize, probe_frames, probe_page_size};
use std::alloc::Global;

// The lengths in bytes of a log's header and of a frame's.
const LOG_HEADER: usize = 32;

const FRAME_HEADER: usize = 24;

// The offsets of the salts in a log's header and in a frame's.
const SALTS_OF_LOG: usize = 16;

const SALTS_OF_FRAME: usize = 8;

const SALTS: usize = 8;

/// Returns the number of bytes of a log that a start leaves out, if a frame of this same log begins
/// after the last one that the start takes: that frame, or a later one, was damaged. This counts
/// neither what a stop in the middle of a commit leaves nor the frames of an earlier log, and it
/// says nothing of a log whose header is damaged (SQLite's file format, section 4).
///
/// # Errors
///
/// `Sql`, and only if the header is that of a log: memory runs out, a start refuses the log, or it
/// has more frames than 32 bits can number.
pub fn left_out(alloc: Global, log: &[u8]) -> Result<Option<usize>, StoreFault>
    ensures counted { IfOk result (AreLeftOut log.now) }
    ensures refused { IfErr result (IsNoCount log.now) }
{
    let mut files = Files {
        log: ReadOnly::new(log),
        db: ReadOnly::new(b""),
    };
    match probe_page_size(&mut files) {
        Ok(Some(size)) => left_out_of(alloc, log, size),
        Ok(None) => Ok(None),
        Err(_) => unreachable!(),
    }
}

// Does the same for a log with pages of this size.
fn left_out_of(alloc: Global, log: &[u8], size: PageSize) -> Result<Option<usize>, StoreFault>
    requires named { IsLogFor (bytes_of size) log.now }
    ensures counted { IfOk result (AreLeftOut log.now) }
    ensures refused { IfErr result (IsNoCount log.now) }
{
    let frames = match probe_frames(alloc, &mut ReadOnly::new(log), size) {
        Ok(pages) => pages.len(),
        Err(error) => return Err(StoreFault::Sql(cause_of(error))),
    };
    let end = frames_end(frames, size.bytes());
    if is_own_frame(log, end) {
        Ok(Some(log.len() - end))
    } else {
        Ok(None)
    }
}

// Returns the offset after this many frames of a log.
#[tactic(auto, unfolding(sqlite_wal::specs::Recovery::frames_len))]
fn frames_end(frames: usize, page_size: usize) -> usize
    requires size { page_size ≤ 65536 }
    requires within { frame_at page_size frames < 2 ^ 64 }
    ensures { result ≡ frame_at page_size frames }
{
    LOG_HEADER + frames * (FRAME_HEADER + page_size)
}

// Whether a frame of this same log begins at an offset.
fn is_own_frame(log: &[u8], at: usize) -> bool
    ensures own { IsTrue result → IsOwnFrame log.now at }
    ensures other { result ≡ false → ¬ IsOwnFrame log.now at }
{
    if log.len() < FRAME_HEADER || log.len() - FRAME_HEADER < at {
        return false;
    }
    let salts = &log[at + SALTS_OF_FRAME..at + SALTS_OF_FRAME + SALTS];
    salts == &log[SALTS_OF_LOG..SALTS_OF_LOG + SALTS]
}

// Returns why a log could not be read. A file that only gives its bytes has no failures of its own.
fn cause_of(error: Error) -> Cause
    ensures memory { error ≡ Error.OutOfMemory → result ≡ Cause.OutOfMemory }
    ensures damaged { error ≡ Error.Corrupt → result ≡ Cause.DatabaseCorrupt }
    ensures long { error ≡ Error.Full → result ≡ Cause.TooBig }
{
    match error {
        Error::OutOfMemory => Cause::OutOfMemory,
        Error::Corrupt => Cause::DatabaseCorrupt,
        Error::Full => Cause::TooBig,
        _ => Cause::SystemIoFailure,
    }
}
