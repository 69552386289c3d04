ghost use Rattle.std.specs.Prelude.{◌≡◌};
ghost use Rattle.serde_json.specs.View.{view};
ghost use Rattle.kd_fields.specs.Gives.{Means};
ghost use Rattle.kd_config.specs.Sound.{longest_lease};
ghost use Rattle.kd_json.specs.Settings.{times_given};
ghost use Rattle.kd_fields.specs.declared.faults.SettingsFault.TheVariants.{Memory};

use kd_config::Times;
use kd_fields::faults::SettingsFault;
use kd_fields::place::{Place, bad_value};
use kd_fields::values::number_or;
use serde_json::Value;
use std::alloc::Global;

// The longest lease time, in seconds.
const LONGEST: u32 = 2_147_483_647;

// Reads the lease and offer times.
#[tactic(auto, unfolding(crate::specs::Settings::times_given))]
pub(crate) fn times_of(
    alloc: Global,
    object: &Value,
    at: &Place<'_>,
) -> Result<Times, SettingsFault>
    ensures { Means Memory result (times_given (view object.now)) }
{
    let lifetime = number_or(alloc, object, at, "valid-lifetime", 1, LONGEST, 7200)?;
    let renew = number_or(alloc, object, at, "renew-timer", 0, LONGEST, lifetime / 2)?;
    let later = (u64::from(lifetime) * 7 / 8) as u32;
    let rebind = number_or(alloc, object, at, "rebind-timer", 0, LONGEST, later)?;
    if !(renew <= rebind && rebind <= lifetime) {
        return Err(bad_value(alloc, at, "rebind-timer"));
    }
    let offer_hold = number_or(alloc, object, at, "offer-hold", 1, 86_400, 60)?;
    let decline_hold = number_or(alloc, object, at, "decline-hold", 1, 31_536_000, 86_400)?;
    Ok(Times {
        lifetime,
        renew,
        rebind,
        offer_hold,
        decline_hold,
    })
}
