ghost use Rattle.std.specs.Prelude.{◌≡◌};

use crate::fault::{ConfigFault, FileTestFault, TestFault};
use kd_classes::ClassFault;
use kd_fields::faults::SettingsFault;
use std::alloc::{AllocError, AllocFailed};

/// Why the classes of settings have no definitions that are accepted.
#[derive(Drop)]
pub enum ClassesFault {
    /// The text of a class's test has no program; the index of the class, and why.
    Expression(usize, TestFault),
    /// The token file of a class's test has no program; the index of the class, and why.
    Tokens(usize, FileTestFault),
    /// The definitions are refused.
    Class(ClassFault),
    /// There is not enough memory for the definitions.
    Memory,
}

impl From<SettingsFault> for ConfigFault {
    ghost use Rattle.kd_json.specs.Parts.{settings_fault};

    ghost from_gives = { λ fault told. told ≡ settings_fault fault };

    fn from(fault: SettingsFault) -> ConfigFault {
        match fault {
            SettingsFault::Json => ConfigFault::Json,
            SettingsFault::Missing(path) => ConfigFault::Missing(path),
            SettingsFault::Unknown(path) => ConfigFault::Unknown(path),
            SettingsFault::BadValue(path) => ConfigFault::BadValue(path),
            SettingsFault::Memory => ConfigFault::Memory,
        }
    }
}

impl From<ClassesFault> for ConfigFault {
    ghost use Rattle.kd_json.specs.Parts.{classes_fault};

    ghost from_gives = { λ fault told. told ≡ classes_fault fault };

    fn from(fault: ClassesFault) -> ConfigFault {
        match fault {
            ClassesFault::Expression(number, why) => ConfigFault::Expression(number, why),
            ClassesFault::Tokens(number, why) => ConfigFault::Tokens(number, why),
            ClassesFault::Class(why) => ConfigFault::Class(why),
            ClassesFault::Memory => ConfigFault::Memory,
        }
    }
}

impl From<AllocError> for ClassesFault {
    ghost use Rattle.kd_json.specs.declared.objects.faults.ClassesFault.TheVariants.{Memory};

    ghost from_gives = { λ _ told. told ≡ Memory };

    fn from(_error: AllocError) -> ClassesFault {
        ClassesFault::Memory
    }
}

impl<T: Drop> From<AllocFailed<T>> for ClassesFault {
    ghost use Rattle.kd_json.specs.declared.objects.faults.ClassesFault.TheVariants.{Memory};

    ghost from_gives = { λ _ told. told ≡ Memory };

    fn from(_error: AllocFailed<T>) -> ClassesFault {
        ClassesFault::Memory
    }
}
