ghost use Rattle.std.specs.Prelude.{◌≡◌, ◌≤◌, IfOk, IfSome, map, not, option_map, string_bytes};
ghost use Rattle.std.specs.List.{find};
ghost use Rattle.serde_json.specs.Find.{get};
ghost use Rattle.serde_json.specs.View.{view};
ghost use Rattle.kd_fields.specs.Gives.{Means};
ghost use Rattle.kd_fields.specs.Steps.{must};
ghost use Rattle.kd_fields.specs.Keys.{is_one_of, is_there};
ghost use Rattle.kd_fields.specs.Values.{address_given, class_name_in, hex_bytes_in, bytes_if_given, has_keys, number_within, number_if_given, text_if_given};
ghost use Rattle.kd_fields.specs.declared.faults.SettingsFault.TheVariants.{Memory};

use crate::address::address_of;
use crate::faults::SettingsFault;
use crate::hex_text::bytes_of;
use crate::place::{Place, bad_place, bad_value, missing, unknown};
use kd_wire::Bytes;
use serde_json::{Map, Value};
use std::alloc::{AllocError, Global};

/// Checks that the value is an object with all of the required keys and only known ones.
///
/// # Errors
///
/// `BadValue` with the path of this place if it is no object; `Unknown` with the path of the least key
/// that is not known; `Missing` with that of the first that is absent.
#[tactic(auto, unfolding(crate::specs::Values::has_keys))]
pub fn check_keys(
    alloc: Global,
    value: &Value,
    at: &Place<'_>,
    known: &[&str],
    required: &[&str],
) -> Result<(), SettingsFault>
    ensures { Means Memory result
        (must (has_keys (map (λ k. k.now) known.now) (map (λ k. k.now) required.now)
        (view value.now))) }
{
    let Some(members) = value.as_object() else {
        return Err(bad_place(alloc, at));
    };
    if let Some(key) = unknown_key(members, known) {
        return Err(unknown(alloc, at, key.as_str()));
    }
    match missing_key(value, required) {
        Some(key) => Err(missing(alloc, at, key)),
        None => Ok(()),
    }
}

// Returns the least key that is not known, if there is one.
fn unknown_key<'a>(members: &'a Map<String, Value>, known: &[&str]) -> Option<&'a String>
    ensures { option_map (λ k. k.now) result
        ≡ find (λ k. not (is_one_of known.now (string_bytes k)))
        (map (λ m. m.0) members.now.entries) }
{
    members.keys().find(|key| !is_key(key.as_str(), known))
}

// Reports whether a key is one of these.
fn is_key(key: &str, known: &[&str]) -> bool
    ensures { result ≡ is_one_of known.now key.now }
{
    known.iter().any(|other| key == *other)
}

// Returns the first of the required keys that is missing, if there is one.
fn missing_key<'a>(value: &Value, required: &[&'a str]) -> Option<&'a str>
    ensures { result ≡ find (λ k. not (is_there (view value.now) k)) required.now }
{
    for key in required {
        if value.get(*key).is_none() {
            return Some(*key);
        }
    }
    None
}

/// Returns a whole number in the range from `least` to `most`.
#[tactic(auto, unfolding(crate::specs::Values::number_within))]
pub fn number_in(value: &Value, least: u32, most: u32) -> Option<u32>
    ensures spelled { result ≡ number_within least most (view value.now) }
    ensures within { IfSome result (λ number. number ≤ most) }
{
    let number = value.as_u64()?;
    if u64::from(least) <= number && number <= u64::from(most) {
        Some(number as u32)
    } else {
        None
    }
}

/// Returns an IPv4 address in host order, from its text.
#[tactic(auto, unfolding(crate::specs::Values::address_given))]
pub fn address_in(value: &Value) -> Option<u32>
    ensures { result ≡ address_given (view value.now) }
{
    address_of(value.as_str()?.as_bytes())
}

/// Returns the bytes of a hexadecimal text, from `least` to `most` of them.
///
/// # Errors
///
/// `BadValue` with the path of this place for another value.
#[tactic(auto, unfolding(crate::specs::Values::hex_bytes_in))]
pub fn bytes_at(
    alloc: Global,
    value: &Value,
    at: &Place<'_>,
    least: usize,
    most: usize,
) -> Result<Bytes, SettingsFault>
    ensures { Means Memory result (hex_bytes_in least most (view value.now)) }
{
    let Some(text) = value.as_str() else {
        return Err(bad_place(alloc, at));
    };
    let Some(bytes) = bytes_of(alloc, text.as_bytes())? else {
        return Err(bad_place(alloc, at));
    };
    let len = bytes.as_slice().len();
    if least <= len && len <= most {
        Ok(bytes)
    } else {
        Err(bad_place(alloc, at))
    }
}

/// Returns the bytes of a hexadecimal text at a key, 1 to `most` of them, if the key is present.
///
/// # Errors
///
/// `BadValue` with the key's path for another value.
pub fn bytes_or_none(
    alloc: Global,
    object: &Value,
    at: &Place<'_>,
    key: &'static str,
    most: usize,
) -> Result<Option<Bytes>, SettingsFault>
    ensures { Means Memory result (bytes_if_given 1 most (get key.now (view object.now))) }
{
    match object.get(key) {
        Some(value) => Ok(Some(bytes_at(alloc, value, &Place::Key(&*at, key), 1, most)?)),
        None => Ok(None),
    }
}

/// Returns the text of the value at a key, if the key is present.
///
/// # Errors
///
/// `BadValue` with the key's path if the value is no text.
pub fn text_or_none(
    alloc: Global,
    object: &Value,
    at: &Place<'_>,
    key: &'static str,
) -> Result<Option<Bytes>, SettingsFault>
    ensures { Means Memory result (text_if_given (get key.now (view object.now))) }
{
    let Some(value) = object.get(key) else {
        return Ok(None);
    };
    match value.as_str() {
        Some(text) => Ok(Some(own_bytes(alloc, text.as_bytes())?)),
        None => Err(bad_value(alloc, at, key)),
    }
}

/// Copies bytes.
///
/// # Errors
///
/// Out of memory.
pub fn own_bytes(alloc: Global, bytes: &[u8]) -> Result<Bytes, AllocError>
    ensures { IfOk result (λ copy. copy ≡ bytes.now) }
{
    Ok(Bytes::own(Vec::from_slice(alloc, bytes)?))
}

/// Returns a whole number in a range at a key, or a default if the key is absent.
///
/// # Errors
///
/// `BadValue` with the key's path for another value.
pub fn number_or(
    alloc: Global,
    object: &Value,
    at: &Place<'_>,
    key: &'static str,
    least: u32,
    most: u32,
    default: u32,
) -> Result<u32, SettingsFault>
    ensures { Means Memory result
        (number_if_given least most default (get key.now (view object.now))) }
{
    match object.get(key) {
        Some(value) => match number_in(value, least, most) {
            Some(number) => Ok(number),
            None => Err(bad_value(alloc, at, key)),
        },
        None => Ok(default),
    }
}

/// Returns the name of a class: 1 to 255 bytes.
#[tactic(auto, unfolding(crate::specs::Values::class_name_in))]
pub fn name_in(value: &Value) -> Option<&[u8]>
    ensures { option_map (λ name. name.now) result ≡ class_name_in (view value.now) }
{
    let name = value.as_str()?.as_bytes();
    if 1 <= name.len() && name.len() <= 255 {
        Some(name)
    } else {
        None
    }
}
