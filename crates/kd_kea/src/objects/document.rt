ghost use Rattle.std.specs.Prelude.{◌≡◌, IfErr};
ghost use Rattle.kd_json.specs.Document.{accepted};
ghost use Rattle.kd_fields.specs.Gives.{Means};
ghost use Rattle.kd_json.specs.declared.fault.ConfigFault.TheVariants as faults;
ghost use Rattle.kd_fields.specs.declared.faults.SettingsFault.TheVariants.{Memory};
ghost use Rattle.kd_kea.specs.Kea.{IsFaultOfKea, kea_settings};

use crate::objects::settings::root_of;
use kd_fields::faults::SettingsFault;
use kd_fields::text::value_of;
use kd_json::ConfigFault;
use kd_json::objects::document::check_subnets;
use kd_json::objects::settings::Settings;
use kd_plain::plain_text;
use std::alloc::Global;

// Reads the settings that a text of Kea's describes, if its subnets obey the rules together.
#[tactic(auto, unfolding(kd_json::specs::Document::accepted))]
pub(crate) fn settings_in(
    alloc: Global,
    text: &[u8],
    server: Option<u32>,
) -> Result<Settings, ConfigFault>
    ensures meant { Means faults.Memory result (accepted (kea_settings text.now server)) }
    ensures first { IfErr result (λ fault. IsFaultOfKea text.now server fault) }
{
    let settings = written_settings(alloc, text, server)?;
    check_subnets(alloc, &settings)?;
    Ok(settings)
}

// Reads the settings that a text of Kea's describes.
#[tactic(auto, unfolding(crate::specs::Kea::kea_settings))]
fn written_settings(
    alloc: Global,
    text: &[u8],
    server: Option<u32>,
) -> Result<Settings, SettingsFault>
    ensures { Means Memory result (kea_settings text.now server) }
{
    let Some(json) = plain_text(alloc, text)? else {
        return Err(SettingsFault::Json);
    };
    let value = value_of(alloc, &json)?;
    root_of(alloc, &value, server)
}
