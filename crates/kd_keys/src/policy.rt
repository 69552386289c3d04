ghost use Rattle.std.specs.Prelude.{◌≡◌};
ghost use Rattle.serde_json.specs.Find.{get};
ghost use Rattle.serde_json.specs.View.{view};
ghost use Rattle.kd_fields.specs.Gives.{Means};
ghost use Rattle.kd_fields.specs.Steps.{must};
ghost use Rattle.kd_fields.specs.declared.faults.SettingsFault.TheVariants.{Memory};
ghost use Rattle.kd_keys.specs.Policy.{kea_policy, repeats_policy};
ghost use Rattle.kd_keys.specs.Values.{flag_or};

use crate::flags::{check_usual, flag_at, flag_in, flag_or_default};
use crate::keys::UsualValue;
use kd_config::Policy;
use kd_fields::faults::SettingsFault;
use kd_fields::place::Place;
use serde_json::Value;
use std::alloc::Global;

/// Reads the policy of the whole server.
///
/// # Errors
///
/// `BadValue` with the path of a key whose value is no truth value.
#[tactic(auto, unfolding(crate::specs::Policy::kea_policy))]
pub fn policy_of(alloc: Global, dhcp4: &Value, at: &Place<'_>) -> Result<Policy, SettingsFault>
    ensures { Means Memory result (kea_policy (view dhcp4.now)) }
{
    let is_authoritative = flag_at(alloc, dhcp4, at, "authoritative")?;
    let matches_client_ids = flag_or_default(alloc, dhcp4, at, "match-client-id", true)?;
    Ok(Policy {
        is_authoritative,
        matches_client_ids,
    })
}

/// Returns the policy of the whole server, if it is right.
#[tactic(auto, unfolding(crate::specs::Policy::kea_policy))]
pub fn written_policy(dhcp4: &Value) -> Option<Policy>
    ensures { result ≡ kea_policy (view dhcp4.now) }
{
    let is_authoritative = flag_in(dhcp4, "authoritative")?;
    let matches_client_ids = flag_in_or(dhcp4, "match-client-id", true)?;
    Some(Policy {
        is_authoritative,
        matches_client_ids,
    })
}

// Returns the truth value at a key, if it is one; an absent one is another.
fn flag_in_or(object: &Value, key: &str, other: bool) -> Option<bool>
    ensures { result ≡ flag_or other (get key.now (view object.now)) }
{
    match object.get(key) {
        Some(value) => value.as_bool(),
        None => Some(other),
    }
}

/// Checks that the policy of a subnet or a network, if it is given, is that of the whole server.
///
/// # Errors
///
/// `Unknown` with the path of a key that has another value.
pub fn check_policy(
    alloc: Global,
    object: &Value,
    at: &Place<'_>,
    policy: Policy,
) -> Result<(), SettingsFault>
    ensures { Means Memory result (must (repeats_policy policy (view object.now))) }
{
    let authoritative = UsualValue::Flag(policy.is_authoritative);
    check_usual(alloc, object, at, "authoritative", authoritative)?;
    let matches = UsualValue::Flag(policy.matches_client_ids);
    check_usual(alloc, object, at, "match-client-id", matches)
}
