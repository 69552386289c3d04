ghost use Rattle.serde_json.specs.Find.{as_str, get};
ghost use Rattle.serde_json.specs.View.{view};
ghost use Rattle.kd_fields.specs.Gives.{GivesAs, Means};
ghost use Rattle.kd_fields.specs.Steps.{must};
ghost use Rattle.kd_fields.specs.declared.faults.SettingsFault.TheVariants.{Memory};
ghost use Rattle.kd_keys.specs.Rows.{plain_of};
ghost use Rattle.kd_keys.specs.Values.{flag_given, flag_or, is_plain_if_given, text_otherwise, unless_empty};
ghost use Rattle.std.specs.Prelude.{◌≡◌, option_and_then};

use crate::keys::{UsualValue, is_usual};
use kd_fields::faults::SettingsFault;
use kd_fields::place::{Place, bad_value, missing, unknown};
use kd_wire::Bytes;
use serde_json::Value;
use std::alloc::Global;

/// Checks that a key is absent, or has its usual value.
///
/// # Errors
///
/// `Unknown` with the key's path for another value.
pub fn check_usual(
    alloc: Global,
    object: &Value,
    at: &Place<'_>,
    key: &'static str,
    usual: UsualValue,
) -> Result<(), SettingsFault>
    ensures { Means Memory result
        (must (is_plain_if_given (plain_of usual) (get key.now (view object.now)))) }
{
    if is_usual_at(object, key, usual) {
        Ok(())
    } else {
        Err(unknown(alloc, at, key))
    }
}

/// Reports whether a key is absent, or has its usual value.
pub fn is_usual_at(object: &Value, key: &str, usual: UsualValue) -> bool
    ensures { result ≡ is_plain_if_given (plain_of usual) (get key.now (view object.now)) }
{
    match object.get(key) {
        Some(value) => is_usual(usual, value),
        None => true,
    }
}

/// Returns the truth value at a key, if it is one; an absent one is false.
pub fn flag_in(object: &Value, key: &str) -> Option<bool>
    ensures { result ≡ flag_given (get key.now (view object.now)) }
{
    match object.get(key) {
        Some(value) => value.as_bool(),
        None => Some(false),
    }
}

/// Returns the truth value at a key; an absent one is false.
///
/// # Errors
///
/// `BadValue` with the key's path for another value.
pub fn flag_at(
    alloc: Global,
    object: &Value,
    at: &Place<'_>,
    key: &'static str,
) -> Result<bool, SettingsFault>
    ensures { Means Memory result (flag_given (get key.now (view object.now))) }
{
    match flag_in(object, key) {
        Some(flag) => Ok(flag),
        None => Err(bad_value(alloc, at, key)),
    }
}

/// Returns the truth value at a key; an absent one is another.
///
/// # Errors
///
/// `BadValue` with the key's path for another value.
pub fn flag_or_default(
    alloc: Global,
    object: &Value,
    at: &Place<'_>,
    key: &'static str,
    other: bool,
) -> Result<bool, SettingsFault>
    ensures { Means Memory result (flag_or other (get key.now (view object.now))) }
{
    match object.get(key) {
        Some(value) => match value.as_bool() {
            Some(flag) => Ok(flag),
            None => Err(bad_value(alloc, at, key)),
        },
        None => Ok(other),
    }
}

/// Returns the text at a key.
///
/// # Errors
///
/// `Missing` with the key's path if the key is absent, `BadValue` if the value is no text.
pub fn text_at<'a>(
    alloc: Global,
    object: &'a Value,
    at: &Place<'_>,
    key: &'static str,
) -> Result<&'a str, SettingsFault>
    ensures { GivesAs Memory (λ text. text.now) result
        (option_and_then as_str (get key.now (view object.now))) }
{
    let Some(value) = object.get(key) else {
        return Err(missing(alloc, at, key));
    };
    match value.as_str() {
        Some(text) => Ok(text),
        None => Err(bad_value(alloc, at, key)),
    }
}

// Returns the text at a key; an absent one is another text.
pub(crate) fn text_or_default<'a>(
    alloc: Global,
    object: &'a Value,
    at: &Place<'_>,
    key: &'static str,
    other: &'static str,
) -> Result<&'a str, SettingsFault>
    ensures { GivesAs Memory (λ text. text.now) result
        (text_otherwise other.now (get key.now (view object.now))) }
{
    let Some(value) = object.get(key) else {
        return Ok(other);
    };
    match value.as_str() {
        Some(text) => Ok(text),
        None => Err(bad_value(alloc, at, key)),
    }
}

/// Returns a text, unless it is empty.
pub fn non_empty(text: Option<Bytes>) -> Option<Bytes>
    ensures { result ≡ unless_empty text }
{
    match text {
        Some(text) if text.as_slice().is_empty() => None,
        other => other,
    }
}
