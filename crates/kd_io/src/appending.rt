ghost use Rattle.std.specs.Prelude.{◌≡◌, ◌≤◌, IfOk, IfSome, false, length};

use crate::streams::Output;
use kd_loops::EndFailed;
use memchr::memrchr;
use std::fs::{File, Metadata, OpenOptions};
use std::io::ErrorKind;
use std::os::unix::fs::{FileExt, MetadataExt, OpenOptionsExt};
use std::{fs, io};

// The names of the standard streams of this process, which lead to their files (Linux, proc(5)).
const STREAMS: [&str; 3] = ["/proc/self/fd/0", "/proc/self/fd/1", "/proc/self/fd/2"];

// How many bytes of a record are looked at together.
const PART: usize = 4_096;

/// A record that was opened to append lines to it.
#[derive(Drop)]
pub struct Appended<S> {
    /// Where its lines go.
    pub sink: S,
    /// How many bytes were removed at its end, because they were the beginning of a line.
    pub removed: u64,
}

/// Opens a sink that appends to the file at a path. It has not failed. If there is no such file, it
/// is created, and only its owner can read and write it. If the last line of the file is not whole,
/// as after a full disk or a power failure, the beginning of it is removed. On a full disk nothing
/// was handled of it. After a power failure it may have been, since a record is not synced; zero
/// bytes may then stand for it, or follow it.
///
/// # Errors
///
/// The file cannot be opened for writing, or has a last line that is not whole and cannot be read
/// or is not of a record; or it is one of the other files, or the file of a standard stream.
pub fn journal(
    rt: &HostRuntime,
    path: &str,
    others: &[&str],
) -> Result<Appended<Output<File>>, EndFailed>
    ensures { IfOk result (λ it. it.sink.failed ≡ false) }
{
    let removed = mended(rt, path, others)?;
    let mut how = OpenOptions::new();
    how.append(true).create(true).mode(0o600);
    match how.open(rt, path) {
        Ok(file) => Ok(Appended {
            sink: Output::over(file),
            removed,
        }),
        Err(_) => Err(EndFailed),
    }
}

// Removes the beginning of a line at the end of the file at a path, if it is a plain file, and
// returns how many bytes that were. What is no plain file, as a pipe, stays as it is.
fn mended(rt: &HostRuntime, path: &str, others: &[&str]) -> Result<u64, EndFailed> {
    match fs::metadata(rt, path) {
        Ok(found) if !found.is_file() => Ok(0),
        Ok(found) if is_any(rt, &found, others) || is_any(rt, &found, &STREAMS) => Err(EndFailed),
        Ok(found) => match cut_back(rt, path, found.len()) {
            Ok(Some(removed)) => Ok(removed),
            _ => Err(EndFailed),
        },
        Err(error) if error.kind() == ErrorKind::NotFound => Ok(0),
        Err(_) => Err(EndFailed),
    }
}

// Reports whether a file is the one at any of these paths.
fn is_any(rt: &HostRuntime, file: &Metadata, paths: &[&str]) -> bool {
    for path in paths {
        if let Ok(other) = fs::metadata(rt, *path) {
            if other.dev() == file.dev() && other.ino() == file.ino() {
                return true;
            }
        }
    }
    false
}

// Removes the beginning of a line at the end of the file of this length at a path, and returns how
// many bytes that were; `None` if they are not of a line of a record.
fn cut_back(rt: &HostRuntime, path: &str, len: u64) -> io::Result<Option<u64>> {
    if len == 0 {
        return Ok(Some(0));
    }
    cut_file(
        &OpenOptions::new().read(true).write(true).open(rt, path)?,
        len,
    )
}

// The same, of an open file.
fn cut_file(file: &File, len: u64) -> io::Result<Option<u64>> {
    let Some(end) = end_of_lines(file, len)? else {
        return Ok(None);
    };
    if end < len {
        file.set_len(end)?;
        file.sync_all()?;
    }
    Ok(Some(len.saturating_sub(end)))
}

// Returns where the last whole line of a file of this length ends; `None` if what follows is not of
// a line of a record.
fn end_of_lines(file: &File, len: u64) -> io::Result<Option<u64>> {
    let mut room = [0; PART];
    for number in (0..=len / PART as u64).rev() {
        let from = number.saturating_mul(PART as u64);
        let count = len.saturating_sub(from).min(PART as u64) as usize;
        let part = &mut room[..count];
        file.read_exact_at(part, from)?;
        match whole_lines(part) {
            Some(0) => {}
            Some(kept) => return Ok(Some(from.saturating_add(kept as u64))),
            None => return Ok(None),
        }
    }
    Ok(Some(0))
}

// Returns how many bytes at the front of a part are whole lines, 0 if there is no end of a line;
// `None` if what follows is not of a line of a record.
fn whole_lines(part: &[u8]) -> Option<usize>
    ensures { IfSome result (λ count. count ≤ length part.now) }
{
    let count = match memrchr(b'\n', part) {
        Some(at) => at + 1,
        None => 0,
    };
    if part[count..].iter().all(|byte| is_of_record(*byte)) {
        return Some(count);
    }
    None
}

// Reports whether a byte may stand in a line of a record: a time, a space and lowercase hexadecimal
// digits, or a zero byte, which a power failure leaves.
fn is_of_record(byte: u8) -> bool {
    byte.is_ascii_digit() || (b'a' <= byte && byte <= b'f') || byte == b' ' || byte == 0
}
