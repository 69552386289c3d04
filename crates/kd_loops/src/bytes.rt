ghost use Rattle.std.specs.Prelude.{◌≡◌, [], false, true};
ghost use Rattle.kd_loops.specs.Lines.{lines_of};
ghost use Rattle.kd_loops.specs.Replay.{Replays};

use crate::ends::{EndFailed, Sink, Source};
use crate::fault::ReplayFault;
use crate::replaying::replay;
use crate::serves::Serves;
use std::alloc::Global;

// Bytes in memory, as the source of a replay.
#[derive(Drop)]
struct Held<'a> {
    rest: &'a [u8],
}

impl Source for Held<'_> {
    ghost use Rattle.std.specs.Prelude.{Some, false};

    ghost remaining = { λ s. Some s.rest.now };

    ghost has_failed = { λ s. false };

    fn read(&mut self, buf: &mut [u8]) -> Result<usize, EndFailed> {
        let count = buf.len().min(self.rest.len());
        let (front, behind) = self.rest.split_at(count);
        buf[..count].copy_from_slice(front);
        self.rest = behind;
        Ok(count)
    }
}

/// A sink that keeps what is written in memory.
#[derive(Drop)]
pub struct MemorySink {
    /// What was written.
    pub bytes: Vec<u8>,
    /// Whether a write failed because there was not enough memory.
    pub failed: bool,
}

impl MemorySink {
    /// Makes a sink to which nothing is written.
    pub fn new(alloc: Global) -> MemorySink
        ensures bytes { result.bytes.items ≡ [] }
        ensures failed { result.failed ≡ false }
    {
        MemorySink {
            bytes: Vec::new(alloc),
            failed: false,
        }
    }
}

impl Sink for MemorySink {
    ghost use Rattle.std.specs.Prelude.{Some};

    ghost contents = { λ s. Some s.bytes.items };

    ghost has_failed = { λ s. s.failed };

    fn write(&mut self, bytes: &[u8]) -> Result<usize, EndFailed> {
        match self.bytes.extend_from_slice(bytes) {
            Ok(()) => Ok(bytes.len()),
            Err(_) => {
                self.failed = true;
                Err(EndFailed)
            }
        }
    }
}

/// Replays the events of an input in memory; returns what is written and how the replay ends. Its
/// contract makes no assumption about the source and the sink.
///
/// # Errors
///
/// Those of `replay`: `Read` if the input has more than 1,000,000 lines, and `Write` if there is
/// not enough memory for what is written.
pub fn replay_bytes<H: Serves>(
    alloc: Global,
    input: &[u8],
    server: &mut H,
) -> (Vec<u8>, Result<u64, ReplayFault>)
    ensures { Replays H.gives H.fails ⊥ result.1
        (lines_of input.now) server.old server.new [] result.0.items }
{
    let mut source = Held { rest: input };
    let mut sink = MemorySink::new(alloc);
    let done = replay(alloc, &mut source, &mut sink, server);
    let MemorySink { bytes, failed: _ } = sink;
    (bytes, done)
}
