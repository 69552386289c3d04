ghost use Rattle.std.specs.Prelude.{◌≢◌, IfErr};
ghost use Rattle.kd_json.specs.Document.{accepted_settings, settings_spelled};
ghost use Rattle.kd_json.specs.FirstFault.{SubnetsFail, IsFaultOfText};
ghost use Rattle.kd_fields.specs.Gives.{Means};
ghost use Rattle.kd_config.specs.Rules.{may_stand};
ghost use Rattle.kd_fields.specs.Steps.{must};
ghost use Rattle.kd_json.specs.declared.fault.ConfigFault.TheVariants as faults;
ghost use Rattle.kd_fields.specs.declared.faults.SettingsFault.TheVariants.{Memory};

use crate::fault::ConfigFault;
use crate::objects::settings::{Settings, root_of};
use crate::rules::subnets::check_rules;
use kd_fields::faults::SettingsFault;
use kd_fields::text::value_of;
use serde_json::Value;
use std::alloc::Global;

// Reads the settings that a text describes, if its subnets obey the rules together.
#[tactic(auto, unfolding(crate::specs::Document::accepted))]
pub(crate) fn settings_in(alloc: Global, text: &[u8]) -> Result<Settings, ConfigFault>
    ensures meant { Means faults.Memory result (accepted_settings text.now) }
    ensures first { IfErr result (λ fault. IsFaultOfText text.now fault) }
{
    let settings = written_settings(alloc, text)?;
    check_subnets(alloc, &settings)?;
    Ok(settings)
}

/// Checks that the subnets of settings obey the rules together.
///
/// # Errors
///
/// The first value that breaks a rule, subnet by subnet: `PoolOutside`, `Overlap` or
/// `DuplicateReservation` with its path, below `/Dhcp4/subnet4` or below the list of its network,
/// as `/Dhcp4/shared-networks/0/subnet4`; `Memory`.
pub fn check_subnets(alloc: Global, settings: &Settings) -> Result<(), ConfigFault>
    ensures checked { Means faults.Memory result (must (may_stand settings.now.subnets)) }
    ensures first { IfErr result (λ fault. fault ≢ faults.Memory
        → SubnetsFail may_stand settings.now.subnets fault) }
{
    check_rules(alloc, settings.subnets.as_slice())
}

// Reads the settings that a text describes.
#[tactic(auto, unfolding(crate::specs::Document::settings_spelled))]
fn written_settings(alloc: Global, text: &[u8]) -> Result<Settings, SettingsFault>
    ensures { Means Memory result (settings_spelled text.now) }
{
    let value = value_of(alloc, text)?;
    root_of(alloc, &value)
}
