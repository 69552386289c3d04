ghost use Rattle.std.specs.Prelude.{◌≡◌};

use std::alloc::{AllocError, AllocFailed};

/// Why a text describes no settings.
#[derive(Drop)]
pub enum SettingsFault {
    /// The text is not JSON.
    Json,
    /// A required key is missing; its path.
    Missing(String),
    /// A key is not known; its path.
    Unknown(String),
    /// A value has the wrong type or is not allowed; its path.
    BadValue(String),
    /// There is not enough memory for the settings.
    Memory,
}

impl From<AllocError> for SettingsFault {
    ghost use Rattle.kd_fields.specs.declared.faults.SettingsFault.TheVariants.{Memory};

    ghost from_gives = { λ _ told. told ≡ Memory };

    fn from(_error: AllocError) -> SettingsFault {
        SettingsFault::Memory
    }
}

impl<T: Drop> From<AllocFailed<T>> for SettingsFault {
    ghost use Rattle.kd_fields.specs.declared.faults.SettingsFault.TheVariants.{Memory};

    ghost from_gives = { λ _ told. told ≡ Memory };

    fn from(_error: AllocFailed<T>) -> SettingsFault {
        SettingsFault::Memory
    }
}
