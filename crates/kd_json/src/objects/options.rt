ghost use Rattle.std.specs.Prelude.{◌≡◌, [], codes};
ghost use Rattle.serde_json.specs.Find.{get};
ghost use Rattle.serde_json.specs.View.{items_view, view};
ghost use Rattle.kd_fields.specs.Gives.{Means};
ghost use Rattle.kd_config.specs.Options.{code_among};
ghost use Rattle.kd_json.specs.Options.{code_given, has_option_keys, option_after, options_behind, option_list_in};
ghost use Rattle.kd_fields.specs.Steps.{must};
ghost use Rattle.kd_fields.specs.declared.faults.SettingsFault.TheVariants.{Memory};

use kd_classes::{OptionData, OptionList};
use kd_fields::faults::SettingsFault;
use kd_fields::lists::list_at;
use kd_fields::place::{Place, bad_value};
use kd_fields::values::{bytes_at, check_keys, number_in};
use serde_json::Value;
use std::alloc::Global;

// The codes of the options that the server generates itself.
const OWN_CODES: [u8; 11] = [50, 51, 52, 53, 54, 55, 57, 58, 59, 61, 82];

// Reads the options of the list at the key `option-data`, with no code twice.
#[tactic(auto, unfolding(crate::specs::Options::option_list_in))]
pub(crate) fn options_of(
    alloc: Global,
    object: &Value,
    at: &Place<'_>,
) -> Result<OptionList, SettingsFault>
    ensures { Means Memory result (option_list_in (get (codes "option-data") (view object.now))) }
{
    let values = list_at(alloc, object, at, "option-data", 64)?;
    options_in(alloc, values, &Place::Key(&*at, "option-data"))
}

// Reads the options that values describe, with no code twice.
fn options_in(alloc: Global, values: &[Value], at: &Place<'_>) -> Result<OptionList, SettingsFault>
    ensures { Means Memory result (options_behind [] (items_view values.now)) }
{
    let mut list = Vec::new(alloc);
    for i in 0..values.len() {
        let option = option_behind(alloc, &values[i], &Place::Item(&*at, i), &list)?;
        list.push(option)?;
    }
    Ok(OptionList::own(list))
}

// Reads the option that a value describes; its code must not be among those of earlier options.
#[tactic(auto, unfolding(crate::specs::Options::option_after))]
fn option_behind(
    alloc: Global,
    value: &Value,
    at: &Place<'_>,
    earlier: &[OptionData],
) -> Result<OptionData, SettingsFault>
    ensures { Means Memory result (option_after earlier.now (view value.now)) }
{
    check_option(alloc, value, at)?;
    let Some(code) = value.get("code").and_then(code_in) else {
        return Err(bad_value(alloc, at, "code"));
    };
    if has_code(code, earlier) {
        return Err(bad_value(alloc, at, "code"));
    }
    let value_of = match value.get("data") {
        Some(data) => bytes_at(alloc, data, &Place::Key(&*at, "data"), 0, 1024)?,
        None => return Err(bad_value(alloc, at, "data")),
    };
    match value.get("csv-format").and_then(Value::as_bool) {
        Some(false) => Ok(OptionData {
            code,
            value: value_of,
            always: false,
        }),
        _ => Err(bad_value(alloc, at, "csv-format")),
    }
}

// Checks that the value is an object with the keys of option data.
#[tactic(auto, unfolding(crate::specs::Options::has_option_keys))]
fn check_option(alloc: Global, value: &Value, at: &Place<'_>) -> Result<(), SettingsFault>
    ensures { Means Memory result (must (has_option_keys (view value.now))) }
{
    let keys = ["code", "data", "csv-format"];
    check_keys(alloc, value, at, &keys, &keys)
}

/// Returns the code of an option that may be configured: 1 to 254, and not one that the server
/// generates itself.
#[tactic(auto, unfolding(crate::specs::Options::code_given))]
pub fn code_in(value: &Value) -> Option<u8>
    ensures { result ≡ code_given (view value.now) }
{
    let code = number_in(value, 1, 254)? as u8;
    if OWN_CODES.contains(&code) {
        None
    } else {
        Some(code)
    }
}

/// Reports whether one of these options has the code.
pub fn has_code(code: u8, options: &[OptionData]) -> bool
    ensures { result ≡ code_among code options.now }
{
    options.iter().any(|option| option.code == code)
}
