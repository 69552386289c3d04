ghost use Rattle.std.specs.Prelude.{◌≡◌};
ghost use Rattle.kd_trouble.specs.Faults.{start_fault_number};

use kd_io::InputFault;
use kd_json::ConfigFault;
use std::alloc::AllocError;
use std::fmt;
use thiserror::Error;

/// Why there is no configuration to start with.
#[derive(Drop, Error)]
pub enum StartFault {
    /// The folder of the token files or the configuration file cannot be read.
    #[error("{0}")]
    Input(InputFault),
    /// The file's text is not a configuration.
    #[error("{0}")]
    Config(ConfigFault),
}

impl fmt::Debug for StartFault {
    fn fmt<W: fmt::Write>(&self, f: &mut fmt::Formatter<W>) -> fmt::Result {
        fmt::Display::fmt(self, f)
    }
}

impl StartFault {
    /// Returns the fault's number: 91 or 94, or that of the configuration's fault.
    pub fn number(&self) -> u8
        ensures { result ≡ start_fault_number self.now }
    {
        match self {
            StartFault::Input(fault) => fault.number(),
            StartFault::Config(fault) => fault.number(),
        }
    }
}

impl From<InputFault> for StartFault {
    ghost use Rattle.std.specs.Prelude.{◌≡◌};
    ghost use Rattle.kd_trouble.specs.declared.fault.StartFault.TheVariants.{Input};

    ghost from_gives = { λ fault e. e ≡ Input fault };

    fn from(fault: InputFault) -> StartFault {
        StartFault::Input(fault)
    }
}

impl From<ConfigFault> for StartFault {
    ghost use Rattle.std.specs.Prelude.{◌≡◌};
    ghost use Rattle.kd_trouble.specs.declared.fault.StartFault.TheVariants.{Config};

    ghost from_gives = { λ fault e. e ≡ Config fault };

    fn from(fault: ConfigFault) -> StartFault {
        StartFault::Config(fault)
    }
}

impl From<AllocError> for StartFault {
    ghost use Rattle.std.specs.Prelude.{◌≡◌};
    ghost use Rattle.kd_io.specs.declared.files.InputFault.TheVariants.{Memory};
    ghost use Rattle.kd_trouble.specs.declared.fault.StartFault.TheVariants.{Input};

    ghost from_gives = { λ _ e. e ≡ Input Memory };

    fn from(_error: AllocError) -> StartFault {
        StartFault::Input(InputFault::Memory)
    }
}
