ghost use Rattle.std.specs.Prelude.{◌≡◌};
ghost use Rattle.kd_machine.specs.Faults.{eval_fault_number};

use std::alloc::AllocError;
use std::error::Error;
use std::fmt;

/// Why a run has no outcome.
#[derive(Clone, Copy, PartialEq, Eq)]
pub enum EvalFault {
    /// There is not enough memory for a value.
    Memory,
}

impl fmt::Debug for EvalFault {
    fn fmt<W: fmt::Write>(&self, f: &mut fmt::Formatter<W>) -> fmt::Result {
        fmt::Display::fmt(self, f)
    }
}

impl fmt::Display for EvalFault {
    ghost use Rattle.std.specs.Prelude.{Some};
    ghost use Rattle.kd_machine.specs.Faults.{eval_fault_name};

    ghost output = { λ fault. Some (eval_fault_name fault) };

    fn fmt<W: fmt::Write>(&self, f: &mut fmt::Formatter<W>) -> fmt::Result {
        match self {
            EvalFault::Memory => f.write_str("Memory"),
        }
    }
}

impl Error for EvalFault {}

impl EvalFault {
    /// The fault's number: 91, out of memory.
    pub fn number(self) -> u8
        ensures { result ≡ eval_fault_number self }
    {
        match self {
            EvalFault::Memory => 91,
        }
    }
}

impl From<AllocError> for EvalFault {
    ghost use Rattle.kd_machine.specs.declared.fault.EvalFault.TheVariants.{Memory};

    ghost from_gives = { λ _ e. e ≡ Memory };

    fn from(_error: AllocError) -> EvalFault {
        EvalFault::Memory
    }
}

// For callers whose only fault is being out of memory.
impl From<EvalFault> for AllocError {
    fn from(fault: EvalFault) -> AllocError {
        match fault {
            EvalFault::Memory => AllocError,
        }
    }
}
