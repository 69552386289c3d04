use std::fmt;
use thiserror::Error;

/// A source cannot be read, or a sink cannot be written.
#[derive(Clone, Copy, PartialEq, Eq, Error)]
#[error("EndFailed")]
pub struct EndFailed;

/// Where a replay reads its input.
pub trait Source {
    ghost use Rattle.std.specs.Prelude.{Bool, List, Option, ◌≡◌, ◌≤◌, ◌||◌, ℕ, length, IfOk, is_err};
    ghost use Rattle.std.specs.Io.KnownBytes.{ReadConsumes};

    /// What remains to be read, if that is known.
    ghost remaining: { Self → Option (List ℕ) };

    /// Whether a read has failed.
    ghost has_failed: { Self → Bool };

    /// Reads some bytes to the start of the buffer and returns how many: 0 only at the end of input
    /// or if the buffer has no room.
    fn read(&mut self, buf: &mut [u8]) -> Result<usize, EndFailed>
        ensures count { IfOk result (λ n. n ≤ length buf.new) }
        ensures bytes { ReadConsumes (remaining self.old) (remaining self.new) result buf.new }
        ensures failed { has_failed self.new ≡ (has_failed self.old || is_err result) };
}

impl fmt::Debug for EndFailed {
    fn fmt<W: fmt::Write>(&self, f: &mut fmt::Formatter<W>) -> fmt::Result {
        fmt::Display::fmt(self, f)
    }
}

/// Where a replay writes its lines.
pub trait Sink {
    ghost use Rattle.std.specs.Prelude.{Bool, List, Option, ◌≡◌, ◌<◌, ◌≤◌, ◌||◌, ℕ, length, IfOk, is_err};
    ghost use Rattle.std.specs.Io.KnownBytes.{WriteAppends};

    /// What was written to it, if that is known.
    ghost contents: { Self → Option (List ℕ) };

    /// Whether a write has failed.
    ghost has_failed: { Self → Bool };

    /// Writes some of the first bytes and returns how many: at least 1 unless there are none.
    fn write(&mut self, bytes: &[u8]) -> Result<usize, EndFailed>
        ensures count { IfOk result (λ n. n ≤ length bytes.now) }
        ensures some { IfOk result (λ n. 0 < length bytes.now → 0 < n) }
        ensures bytes { WriteAppends (contents self.old) (contents self.new) result bytes.now }
        ensures failed { has_failed self.new ≡ (has_failed self.old || is_err result) };
}
