ghost use Rattle.std.specs.Prelude.{◌≡◌, IfOk, codes};
ghost use Rattle.std.specs.List.{find, list_all, list_any};
ghost use Rattle.std.specs.Option.{option_copied};
ghost use Rattle.serde_json.specs.Find.{get};
ghost use Rattle.serde_json.specs.View.{view};
ghost use Rattle.kd_fields.specs.Gives.{Means};
ghost use Rattle.kd_fields.specs.Steps.{must};
ghost use Rattle.kd_fields.specs.declared.faults.SettingsFault.TheVariants.{Memory};
ghost use Rattle.kd_keys.specs.Options.{address_in_bytes, entries_differ, is_entry, is_of_space, is_server_option, is_short, kea_options, may_hold, options_by, sent_to_all, server_address, some_address};
ghost use Rattle.kd_keys.specs.Scope.{definitions_in};

use crate::entry::{OPTION_SERVER_IDENTIFIER, OptionEntry, OptionReader};
use crate::inside::{has_space, options_among};
use crate::scope::OptionScope;
use crate::space::is_of_messages;
use kd_classes::{OptionData, OptionList};
use kd_fields::faults::SettingsFault;
use kd_fields::lists::entries_of;
use kd_fields::place::{Place, bad_place, bad_value};
use serde_json::Value;
use std::alloc::{AllocError, Global};

// The most bytes that the value of an option has.
const LONGEST_VALUE: usize = 1024;

/// Reads the options of the list at the key `option-data`, none of which is there twice.
///
/// # Errors
///
/// `BadValue` with the path of the list, or of an option that is there twice; else the first fault of an
/// option.
#[tactic(auto, unfolding(crate::specs::Options::kea_options))]
pub fn options_of(
    alloc: Global,
    object: &Value,
    at: &Place<'_>,
    scope: OptionScope<'_>,
) -> Result<OptionList, SettingsFault>
    ensures { Means Memory result
        (kea_options scope.entry.for_all (definitions_in scope.entry)
        (get (codes "option-data") (view object.now))) }
{
    let list = Place::Key(&*at, "option-data");
    let reader = OptionReader { scope };
    let entries = entries_of(alloc, object, at, "option-data", 64, &reader)?;
    check_entries(alloc, entries.as_slice(), &list)?;
    check_holders(alloc, entries.as_slice(), &list)?;
    let options = options_among(alloc, entries.as_slice())?;
    check_short(alloc, options.as_slice(), &list)?;
    Ok(options)
}

// Checks that no two entries are of one space and have one code.
fn check_entries(
    alloc: Global,
    entries: &[OptionEntry],
    at: &Place<'_>,
) -> Result<(), SettingsFault>
    ensures { Means Memory result (must (entries_differ entries.now)) }
{
    for i in 0..entries.len() {
        if is_again(&entries[i], &entries[i + 1..]) {
            return Err(bad_value(alloc, &Place::Item(&*at, i), "code"));
        }
    }
    Ok(())
}

// Reports whether one of these entries is of the same space and has the same code.
fn is_again(entry: &OptionEntry, others: &[OptionEntry]) -> bool
    ensures { result ≡ list_any (is_entry entry.now.space entry.now.code) others.now }
{
    others.iter().any(|other| other.space.as_slice() == entry.space.as_slice()
        && other.code == entry.code)
}

// Checks that each entry may stand beside the others.
fn check_holders(
    alloc: Global,
    entries: &[OptionEntry],
    at: &Place<'_>,
) -> Result<(), SettingsFault>
    ensures { Means Memory result (must (list_all (may_hold entries.now) entries.now)) }
{
    for i in 0..entries.len() {
        if !holds_well(&entries[i], entries) {
            return Err(bad_value(alloc, &Place::Item(&*at, i), "data"));
        }
    }
    Ok(())
}

// Reports whether an entry may stand beside these: if its option consists of options that are here,
// it is an option of a message, and its own value is text or empty.
fn holds_well(entry: &OptionEntry, entries: &[OptionEntry]) -> bool
    ensures { result ≡ may_hold entries.now entry.now }
{
    !has_space(entries, entry.inner.as_slice())
        || is_of_messages(entry.space.as_slice())
            && (entry.is_text || entry.value.as_slice().is_empty())
}

// Checks that no option is too long.
fn check_short(alloc: Global, options: &[OptionData], at: &Place<'_>) -> Result<(), SettingsFault>
    ensures { Means Memory result (must (list_all is_short options.now)) }
{
    if are_short(options) {
        Ok(())
    } else {
        Err(bad_place(alloc, at))
    }
}

// Reports whether no option is too long.
fn are_short(options: &[OptionData]) -> bool
    ensures { result ≡ list_all is_short options.now }
{
    options
        .iter()
        .all(|option| option.value.as_slice().len() <= LONGEST_VALUE)
}

/// Returns the server's address: that of its option among these, or else the given one; not
/// 0.0.0.0.
#[tactic(auto, unfolding(crate::specs::Options::server_address))]
pub fn address_among(options: &[OptionData], server: Option<u32>) -> Option<u32>
    ensures { result ≡ server_address options.now server }
{
    match server_option(options) {
        Some(option) => address_in(option.value.as_slice()),
        None => match server {
            Some(address) => non_zero(address),
            None => None,
        },
    }
}

// Returns the option with the server's address, if there is one.
fn server_option(options: &[OptionData]) -> Option<&OptionData>
    ensures { option_copied result ≡ find is_server_option options.now }
{
    options
        .iter()
        .find(|option| option.code == OPTION_SERVER_IDENTIFIER)
}

// Returns the address in four bytes, unless it is 0.0.0.0.
fn address_in(bytes: &[u8]) -> Option<u32>
    ensures { result ≡ address_in_bytes bytes.now }
{
    match bytes {
        [a, b, c, d] => non_zero(u32::from_be_bytes([*a, *b, *c, *d])),
        _ => None,
    }
}

// Returns an address, unless it is 0.0.0.0.
fn non_zero(address: u32) -> Option<u32>
    ensures { result ≡ some_address address }
{
    if address == 0 { None } else { Some(address) }
}

/// Leaves out the option with the server's address.
///
/// # Errors
///
/// Out of memory.
pub fn without_server(alloc: Global, options: OptionList) -> Result<OptionList, AllocError>
    ensures { IfOk result (λ left. left ≡ sent_to_all options) }
{
    let mut left = Vec::new(alloc);
    for option in options.into_vec() {
        if option.code != OPTION_SERVER_IDENTIFIER {
            left.push(option)?;
        }
    }
    Ok(OptionList::own(left))
}
