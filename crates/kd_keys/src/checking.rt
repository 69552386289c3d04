ghost use Rattle.std.specs.Prelude.{◌≡◌, map, not, option_map, string_bytes};
ghost use Rattle.std.specs.List.{find};
ghost use Rattle.serde_json.specs.Find.{get};
ghost use Rattle.serde_json.specs.View.{view};
ghost use Rattle.kd_fields.specs.Gives.{Means};
ghost use Rattle.kd_fields.specs.Steps.{must};
ghost use Rattle.kd_fields.specs.declared.faults.SettingsFault.TheVariants.{Memory};
ghost use Rattle.kd_keys.specs.Keys.{key_use, keys_are_read, allows_value};
ghost use Rattle.kd_keys.specs.Tables.{key_table};

use crate::keys::{KeyRule, is_among, rule_in};
use crate::tables::ObjectKind;
use kd_fields::faults::SettingsFault;
use kd_fields::place::{Place, bad_place, unknown};
use serde_json::{Map, Value};
use std::alloc::Global;

/// The beginning of keys about updates of names, which are skipped in every object.
pub const UPDATES: &[u8] = b"ddns-";

/// Checks that the value is an object of a kind: each key is in the kind's tables, and may have its
/// value.
///
/// # Errors
///
/// `BadValue` with the path of this place if the value is no object; `Unknown` with the path of the
/// first key that may not be there, or not with its value.
#[tactic(auto, unfolding(crate::specs::Keys::keys_are_read))]
pub fn check_keys(
    alloc: Global,
    value: &Value,
    at: &Place<'_>,
    kind: ObjectKind,
) -> Result<(), SettingsFault>
    ensures { Means Memory result (must (keys_are_read (key_table kind) (view value.now))) }
{
    let Some(members) = value.as_object() else {
        return Err(bad_place(alloc, at));
    };
    match refused_key(members, value, kind) {
        Some(key) => Err(unknown(alloc, at, key.as_str())),
        None => Ok(()),
    }
}

// Returns the least of an object's keys that may not have its value, if there is one.
fn refused_key<'a>(
    members: &'a Map<String, Value>,
    object: &Value,
    kind: ObjectKind,
) -> Option<&'a String>
    ensures { option_map (λ key. key.now) result
        ≡ find (λ key. not (allows_value (key_use (key_table kind) (string_bytes key))
        (get (string_bytes key) (view object.now)))) (map (λ m. m.0) members.now.entries) }
{
    members
        .keys()
        .find(|key| !is_allowed(kind, key.as_str(), object))
}

/// Reports whether a key may have the value that it has in an object.
pub fn is_allowed(kind: ObjectKind, key: &str, object: &Value) -> bool
    ensures { result
        ≡ allows_value (key_use (key_table kind) key.now) (get key.now (view object.now)) }
{
    if key.as_bytes().starts_with(UPDATES) {
        return true;
    }
    match rule_in(kind.tables(), key) {
        Some(KeyRule::Served) => true,
        Some(KeyRule::Skipped) => true,
        Some(KeyRule::Usual(values)) => match object.get(key) {
            Some(value) => is_among(value, values),
            None => false,
        },
        None => false,
    }
}
