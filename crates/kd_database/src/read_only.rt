//! Existing bytes as a disk that can only be read.
ghost use Rattle.std.specs.Prelude.{◌≡◌, ◌+◌, ◌<◌, ◌≤◌, true, false, nat_lt, length, take, drop, refl, IsErr, OnErr, OnOk};
ghost use Rattle.sqlite_disk.specs.Disk.{CountsFault};
ghost use Rattle.sqlite_disk.specs.Refusal.{finds_no_room};

use sqlite_disk::{Disk, Tally};
use std::io;

/// Bytes as a file. Every write is refused, and after that every checked read as well.
#[derive(Drop)]
pub(crate) struct ReadOnly<'a> {
    bytes: &'a [u8],
    // The number of calls that were refused.
    refused: u64,
}

impl<'a> ReadOnly<'a> {
    pub(crate) fn new(bytes: &'a [u8]) -> ReadOnly<'a>
        ensures bytes { result.bytes.now ≡ bytes.now }
        ensures fresh { result.refused ≡ 0 }
    {
        ReadOnly { bytes, refused: 0 }
    }
}

impl<'a> Disk for ReadOnly<'a> {
    ghost seen = { λ file. file.bytes.now };

    ghost may_leave = { λ file left. left ≡ file.bytes.now };

    ghost is_usable = { λ _. true };

    ghost faults = { λ file. file.refused };

    ghost tally_of = { λ _. record { caught = 0; refused = 0 } };

    ghost is_clean = { λ _. true };

    ghost key_of = { λ _. 0 };

    ghost is_fair = { λ _ _. true };

    ghost is_rotten = { λ file _ _. nat_lt 0 file.refused };

    ghost fair_if_clean = { λ _ _ _. refl };

    ghost seen_may_stay = { λ _. refl };

    fn mixes(&self) -> bool {
        false
    }

    fn key(&self) -> u64 {
        0
    }

    fn tally(&self) -> Tally {
        Tally {
            caught: 0,
            refused: 0,
        }
    }

    fn may_be_used(&self) -> bool {
        true
    }

    fn len(&mut self) -> io::Result<usize> {
        Ok(self.bytes.len())
    }

    fn read_at(&mut self, at: usize, buf: &mut [u8]) -> io::Result<()> {
        copy_at(self.bytes, at, buf)
    }

    fn read_checked(&mut self, _key: u64, _want: u64, at: usize, buf: &mut [u8]) -> io::Result<()> {
        if self.refused > 0 {
            return refuse(&mut self.refused);
        }
        copy_at(self.bytes, at, buf)
    }

    fn write_at(&mut self, _at: usize, _bytes: &[u8]) -> io::Result<()> {
        refuse(&mut self.refused)
    }

    fn set_len(&mut self, _len: usize) -> io::Result<()> {
        refuse(&mut self.refused)
    }

    fn sync(&mut self) -> io::Result<()> {
        Ok(())
    }
}

// Copies the bytes from an offset on, as many as the buffer holds.
fn copy_at(bytes: &[u8], at: usize, buf: &mut [u8]) -> io::Result<()>
    ensures copied { OnOk result (buf.new ≡ take (length buf.old) (drop at bytes.now)) }
    ensures within { OnOk result (at + length buf.old ≤ length bytes.now) }
    ensures past { OnErr result (¬ at + length buf.old ≤ length bytes.now) }
{
    if at > bytes.len() || buf.len() > bytes.len() - at {
        return Err(io::ErrorKind::UnexpectedEof.into());
    }
    buf.copy_from_slice(&bytes[at..at + buf.len()]);
    Ok(())
}

// Returns the error of a call that would change the file, and counts the call.
fn refuse(refused: &mut u64) -> io::Result<()>
    ensures err { IsErr result }
    ensures kind { finds_no_room result ≡ false }
    ensures counted { CountsFault result refused.old refused.new }
    ensures some { 0 < refused.new }
{
    *refused = refused.saturating_add(1);
    Err(io::ErrorKind::PermissionDenied.into())
}
