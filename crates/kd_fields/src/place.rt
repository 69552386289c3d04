ghost use Rattle.std.specs.Prelude.{◌≡◌, ◌++◌, IfOk, OnOk, string_bytes};
ghost use Rattle.kd_fields.specs.Place.{path_at, path_below};

use crate::faults::SettingsFault;
use kd_names::put_signs;
use std::alloc::{AllocError, Global};

/// The place of a value in a configuration.
#[derive(Clone, Copy)]
pub enum Place<'a> {
    /// The whole text.
    Root,
    /// The value at a key of the object at a place.
    Key(&'a Place<'a>, &'static str),
    /// The value at an index of the list at a place.
    Item(&'a Place<'a>, usize),
}

/// Returns the fault of a key that is missing in the object at a place.
pub fn missing(alloc: Global, at: &Place<'_>, key: &str) -> SettingsFault {
    match path_of_key(alloc, at, key) {
        Ok(path) => SettingsFault::Missing(path),
        Err(_) => SettingsFault::Memory,
    }
}

/// Returns the fault of an unknown key in the object at a place.
pub fn unknown(alloc: Global, at: &Place<'_>, key: &str) -> SettingsFault {
    match path_of_unknown(alloc, at, key) {
        Ok(path) => SettingsFault::Unknown(path),
        Err(_) => SettingsFault::Memory,
    }
}

/// Returns the fault of a bad value at a key of the object at a place.
pub fn bad_value(alloc: Global, at: &Place<'_>, key: &str) -> SettingsFault {
    match path_of_key(alloc, at, key) {
        Ok(path) => SettingsFault::BadValue(path),
        Err(_) => SettingsFault::Memory,
    }
}

/// Returns the fault of a bad value at a place.
pub fn bad_place(alloc: Global, at: &Place<'_>) -> SettingsFault {
    match path_of(alloc, at) {
        Ok(path) => SettingsFault::BadValue(path),
        Err(_) => SettingsFault::Memory,
    }
}

/// Returns the path of a key of the object at a place: the keys and indexes from the root, each after
/// `/`.
///
/// # Errors
///
/// Out of memory.
pub fn path_of_key(alloc: Global, at: &Place<'_>, key: &str) -> Result<String, AllocError>
    ensures { IfOk result (λ path. string_bytes path ≡ path_below (path_at at.now) key.now) }
{
    let mut path = String::new(alloc);
    push_path(alloc, &mut path, at)?;
    path.push_str("/")?;
    path.push_str(key)?;
    Ok(path)
}

// Returns the path of a key that the text gives, as a terminal may show it.
fn path_of_unknown(alloc: Global, at: &Place<'_>, key: &str) -> Result<String, AllocError> {
    let mut path = String::new(alloc);
    push_path(alloc, &mut path, at)?;
    path.push_str("/")?;
    put_signs(alloc, &mut path, key.as_bytes())?;
    Ok(path)
}

// Returns the path of a place; that of the root is `-`.
fn path_of(alloc: Global, at: &Place<'_>) -> Result<String, AllocError> {
    if let Place::Root = at {
        return String::from_str(alloc, "-");
    }
    let mut path = String::new(alloc);
    push_path(alloc, &mut path, at)?;
    Ok(path)
}

// Appends the path of a place to a text.
fn push_path(alloc: Global, path: &mut String, at: &Place<'_>) -> Result<(), AllocError>
    ensures { OnOk result (string_bytes path.new ≡ string_bytes path.old ++ path_at at.now) }
{
    match at {
        Place::Root => Ok(()),
        Place::Key(above, key) => {
            push_path(alloc, path, above)?;
            path.push_str("/")?;
            path.push_str(key)
        }
        Place::Item(above, number) => {
            push_path(alloc, path, above)?;
            let digits = format!(in alloc; "/{number}")?;
            path.push_str(&digits)
        }
    }
}
