ghost use Rattle.std.specs.Prelude.{◌≡◌};
ghost use Rattle.kd_loops.specs.Faults.{loop_fault_number, replay_fault_number, serve_fault_number};

use kd_keeps::StoreFault;
use std::alloc::AllocError;
use std::fmt;
use thiserror::Error;

/// Why an event is not handled.
#[derive(Clone, Copy, PartialEq, Eq, Error)]
pub enum ServeFault {
    /// The time is not below 2^40.
    #[error("MomentTooLarge")]
    MomentTooLarge,
    /// There is not enough memory for the event.
    #[error("Memory")]
    Memory,
    /// The lease store failed at this event: no reply is sent, and the store holds either the rows
    /// from before the event or those with its change.
    #[error("Store {0}")]
    Store(StoreFault),
    /// The lease store failed at an earlier event and was not opened again.
    #[error("Failed")]
    Failed,
}

impl fmt::Debug for ServeFault {
    fn fmt<W: fmt::Write>(&self, f: &mut fmt::Formatter<W>) -> fmt::Result {
        fmt::Display::fmt(self, f)
    }
}

impl ServeFault {
    /// The fault's number: 90 to 93.
    pub fn number(self) -> u8
        ensures { result ≡ serve_fault_number self }
    {
        match self {
            ServeFault::MomentTooLarge => 90,
            ServeFault::Memory => 91,
            ServeFault::Store(_) => 92,
            ServeFault::Failed => 93,
        }
    }
}

impl From<AllocError> for ServeFault {
    ghost use Rattle.kd_loops.specs.declared.fault.ServeFault.TheVariants.{Memory};

    ghost from_gives = { λ _ e. e ≡ Memory };

    fn from(_error: AllocError) -> ServeFault {
        ServeFault::Memory
    }
}

/// Why a replay ends before its input does.
#[derive(Clone, Copy, PartialEq, Eq, Error)]
pub enum ReplayFault {
    /// There is not enough memory for the lines or for an event.
    #[error("Memory")]
    Memory,
    /// The input cannot be read, or has more than 1,000,000 lines.
    #[error("Read")]
    Read,
    /// The output cannot be written.
    #[error("Write")]
    Write,
    /// An event is not handled, for a fault other than being out of memory.
    #[error("Serve {0}")]
    Serve(ServeFault),
    /// The line with this number, counted from 1, is not an event.
    #[error("BadLine {0}")]
    BadLine(u64),
}

impl fmt::Debug for ReplayFault {
    fn fmt<W: fmt::Write>(&self, f: &mut fmt::Formatter<W>) -> fmt::Result {
        fmt::Display::fmt(self, f)
    }
}

impl ReplayFault {
    /// The fault's number: 91, or 94 to 97.
    pub fn number(self) -> u8
        ensures { result ≡ replay_fault_number self }
    {
        match self {
            ReplayFault::Memory => 91,
            ReplayFault::Read => 94,
            ReplayFault::Write => 95,
            ReplayFault::Serve(_) => 96,
            ReplayFault::BadLine(_) => 97,
        }
    }
}

impl From<AllocError> for ReplayFault {
    ghost use Rattle.kd_loops.specs.declared.fault.ReplayFault.TheVariants.{Memory};

    ghost from_gives = { λ _ e. e ≡ Memory };

    fn from(_error: AllocError) -> ReplayFault {
        ReplayFault::Memory
    }
}

/// Why serving ends before its count is reached.
#[derive(Clone, Copy, PartialEq, Eq, Error)]
pub enum LoopFault {
    /// There is not enough memory to serve in, or for an event.
    #[error("Memory")]
    Memory,
    /// Nothing can be received.
    #[error("Read")]
    Read,
    /// The output cannot be written.
    #[error("Write")]
    Write,
    /// The record of received datagrams cannot be written.
    #[error("Record")]
    Record,
    /// The clock is ahead by more than the limit, or behind the latest change by more than the
    /// limit.
    #[error("Ahead")]
    Ahead,
    /// An event is not handled, for a fault other than being out of memory.
    #[error("Serve {0}")]
    Serve(ServeFault),
}

impl fmt::Debug for LoopFault {
    fn fmt<W: fmt::Write>(&self, f: &mut fmt::Formatter<W>) -> fmt::Result {
        fmt::Display::fmt(self, f)
    }
}

impl LoopFault {
    /// The fault's number: 91, 94 to 96, 100 or 101.
    pub fn number(self) -> u8
        ensures { result ≡ loop_fault_number self }
    {
        match self {
            LoopFault::Memory => 91,
            LoopFault::Read => 94,
            LoopFault::Write => 95,
            LoopFault::Serve(_) => 96,
            LoopFault::Record => 100,
            LoopFault::Ahead => 101,
        }
    }
}

impl From<AllocError> for LoopFault {
    ghost use Rattle.kd_loops.specs.declared.fault.LoopFault.TheVariants.{Memory};

    ghost from_gives = { λ _ e. e ≡ Memory };

    fn from(_error: AllocError) -> LoopFault {
        LoopFault::Memory
    }
}
