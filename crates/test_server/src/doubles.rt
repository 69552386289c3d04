// Ends of a replay: a source that returns a slice, and a sink that keeps what it receives.
ghost use Rattle.std.specs.Prelude.{◌≡◌, ◌<◌, false};

use kd_loops::{EndFailed, Sink, Source};
use std::alloc::Global;

/// Returns at most `most` bytes a call; after them it ends, or fails.
#[derive(Drop)]
pub(crate) struct Giving<'a> {
    rest: &'a [u8],
    most: usize,
    fails: bool,
    failed: bool,
}

impl<'a> Giving<'a> {
    pub(crate) fn new(bytes: &'a [u8], most: usize, fails: bool) -> Giving<'a>
        ensures { result.failed ≡ false }
    {
        Giving {
            rest: bytes,
            most,
            fails,
            failed: false,
        }
    }
}

impl<'a> Source for Giving<'a> {
    ghost use Rattle.std.specs.Prelude.{None};

    ghost remaining = { λ _. None };

    ghost has_failed = { λ source. source.failed };

    fn read(&mut self, buf: &mut [u8]) -> Result<usize, EndFailed> {
        if self.rest.is_empty() && self.fails {
            self.failed = true;
            return Err(EndFailed);
        }
        let count = self.most.min(self.rest.len()).min(buf.len());
        let (front, behind) = self.rest.split_at(count);
        let (room, _) = buf.split_at_mut(count);
        room.copy_from_slice(front);
        self.rest = behind;
        Ok(count)
    }
}

/// Takes at most `most` bytes a call, and fails once it holds `until` bytes.
#[derive(Drop)]
pub(crate) struct Keeping {
    bytes: Vec<u8>,
    most: usize,
    until: usize,
    failed: bool,
    ghost some: { 0 < most },
}

impl Keeping {
    pub(crate) fn new(alloc: Global, most: usize, until: usize) -> Keeping
        requires { 0 < most }
        ensures { result.failed ≡ false }
    {
        Keeping {
            bytes: Vec::new(alloc),
            most,
            until,
            failed: false,
        }
    }

    pub(crate) fn as_slice(&self) -> &[u8] {
        self.bytes.as_slice()
    }
}

impl Sink for Keeping {
    ghost use Rattle.std.specs.Prelude.{None};

    ghost contents = { λ _. None };

    ghost has_failed = { λ sink. sink.failed };

    fn write(&mut self, bytes: &[u8]) -> Result<usize, EndFailed> {
        let room = self.until.saturating_sub(self.bytes.len());
        if bytes.is_empty() {
            return Ok(0);
        }
        if room == 0 {
            self.failed = true;
            return Err(EndFailed);
        }
        let count = self.most.min(bytes.len()).min(room);
        match self.bytes.extend_from_slice(&bytes[..count]) {
            Ok(()) => Ok(count),
            Err(_) => {
                self.failed = true;
                Err(EndFailed)
            }
        }
    }
}
