ghost use Rattle.std.specs.Prelude.{◌≡◌, ◌==◌, ◌&&◌, ◌++◌, IfOk, OnOk, [], codes, length, nat_le, not, option_and_then};
ghost use Rattle.std.specs.List.{filter};
ghost use Rattle.serde_json.specs.Find.{get};
ghost use Rattle.serde_json.specs.View.{view};
ghost use Rattle.kd_fields.specs.Gives.{Means};
ghost use Rattle.kd_fields.specs.declared.faults.SettingsFault.TheVariants.{Memory};
ghost use Rattle.kd_keys.specs.HostName.{has_bare_names, host_name, host_options, may_be_named, name_code, sent_name, server_has_bare_names, with_host_name, without_dot};
ghost use Rattle.kd_keys.specs.Keys.{word};
ghost use Rattle.kd_keys.specs.Values.{is_plain_if_given};

use crate::definition::DefinedOption;
use crate::flags::{is_usual_at, non_empty};
use crate::keys::{UsualValue, is_usual};
use crate::options::options_of;
use crate::scope::part_scope;
use kd_classes::{OptionData, OptionList};
use kd_fields::faults::SettingsFault;
use kd_fields::place::{Place, bad_value, unknown};
use kd_fields::values::text_or_none;
use kd_wire::Bytes;
use serde_json::Value;
use std::alloc::{AllocError, Global};

// The code of the option that has a host name (RFC 2132 section 3.14).
const OPTION_HOST_NAME: u8 = 12;

// The most bytes of a host name.
const LONGEST_NAME: usize = 255;

// The most options of a reservation.
const MOST_OPTIONS: usize = 64;

// The value of a suffix that is none.
const NO_SUFFIX: UsualValue = UsualValue::Text("");

/// Reads the options of a reservation, its host name first.
///
/// # Errors
///
/// `Unknown` with the path of a host name that would get a suffix; `BadValue` with that of one that is too
/// long, or of the list with more options than 64; else the first fault of an option.
#[tactic(auto, unfolding(crate::specs::HostName::host_options))]
pub fn host_options_of(
    alloc: Global,
    host: &Value,
    at: &Place<'_>,
    known: &[DefinedOption],
    bare: bool,
) -> Result<OptionList, SettingsFault>
    ensures { Means Memory result (host_options known.now bare (view host.now)) }
{
    let name = name_of(alloc, host, at)?;
    if !may_have_name(bare, &name) {
        return Err(unknown(alloc, at, "hostname"));
    }
    let options = options_of(alloc, host, at, part_scope(known))?;
    let options = options_with(alloc, name, options)?;
    if options.as_slice().len() <= MOST_OPTIONS {
        Ok(options)
    } else {
        Err(bad_value(alloc, at, "option-data"))
    }
}

/// Reads the host name of a reservation, as it is sent; an empty text is none.
///
/// # Errors
///
/// `BadValue` with the key's path for another value, and for a name that is too long.
#[tactic(auto, unfolding(crate::specs::HostName::host_name))]
pub fn name_of(alloc: Global, host: &Value, at: &Place<'_>) -> Result<Option<Bytes>, SettingsFault>
    ensures { Means Memory result (host_name (get (codes "hostname") (view host.now))) }
{
    let text = text_or_none(alloc, host, at, "hostname")?;
    let Some(text) = non_empty(text) else {
        return Ok(None);
    };
    let name = as_sent(alloc, text.as_slice())?;
    if fits(text.as_slice(), name.as_slice()) {
        Ok(Some(name))
    } else {
        Err(bad_value(alloc, at, "hostname"))
    }
}

// Reports whether a text, which is sent as this name, has the length of a host name.
fn fits(text: &[u8], name: &[u8]) -> bool
    ensures { result ≡ (nat_le (length text.now) 255 && nat_le 1 (length name.now)) }
{
    text.len() <= LONGEST_NAME && 1 <= name.len()
}

// Returns a name as it is sent: in small letters, and without a dot at its end.
fn as_sent(alloc: Global, text: &[u8]) -> Result<Bytes, AllocError>
    ensures { IfOk result (λ name. name ≡ sent_name text.now) }
{
    let name = left_of_dot(text).to_ascii_lowercase(alloc)?;
    Ok(Bytes::own(name))
}

// Returns a text without a dot at its end.
fn left_of_dot(text: &[u8]) -> &[u8]
    ensures { result.now ≡ without_dot text.now }
{
    if text.ends_with(b".") {
        &text[..text.len() - 1]
    } else {
        text
    }
}

/// Reports whether a name, if there is one, is not to have a suffix.
pub fn may_have_name(bare: bool, name: &Option<Bytes>) -> bool
    ensures { result ≡ may_be_named bare name.now }
{
    bare || name.is_none()
}

// Returns options with a name before them, if there is one, in the place of another host name.
fn options_with(
    alloc: Global,
    name: Option<Bytes>,
    options: OptionList,
) -> Result<OptionList, AllocError>
    ensures { IfOk result (λ all. all ≡ with_host_name name options) }
{
    let Some(value) = name else {
        return Ok(options);
    };
    let mut all = Vec::new(alloc);
    all.push(OptionData {
        code: OPTION_HOST_NAME,
        value,
        always: true,
    })?;
    push_unnamed(&mut all, options)?;
    Ok(OptionList::own(all))
}

// Appends the options that are no host names.
fn push_unnamed(out: &mut Vec<OptionData>, options: OptionList) -> Result<(), AllocError>
    ensures { OnOk result (out.new.items
        ≡ out.old.items ++ filter (λ option. not (option.code == name_code)) options) }
{
    for option in options.into_vec() {
        if option.code != OPTION_HOST_NAME {
            out.push(option)?;
        }
    }
    Ok(())
}

/// Reports whether the host names in an object have no suffix; if it does not say, as above it.
pub fn names_are_bare(object: &Value, above: bool) -> bool
    ensures { result ≡ has_bare_names above (view object.now) }
{
    match object.get("ddns-qualifying-suffix") {
        Some(value) => is_usual(NO_SUFFIX, value),
        None => above,
    }
}

/// Reports whether the host names of the whole server have no suffix.
pub fn server_names_are_bare(dhcp4: &Value) -> bool
    ensures { result ≡ server_has_bare_names (view dhcp4.now) }
{
    names_are_bare(dhcp4, updates_are_bare(dhcp4))
}

// Reports whether the older key in `dhcp-ddns` gives no suffix.
fn updates_are_bare(dhcp4: &Value) -> bool
    ensures { result ≡ is_plain_if_given (word [])
        (option_and_then (get (codes "qualifying-suffix"))
        (get (codes "dhcp-ddns") (view dhcp4.now))) }
{
    match dhcp4.get("dhcp-ddns") {
        Some(updates) => is_usual_at(updates, "qualifying-suffix", NO_SUFFIX),
        None => true,
    }
}
