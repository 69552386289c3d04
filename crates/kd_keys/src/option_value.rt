ghost use Rattle.std.specs.Prelude.{◌≡◌, codes};
ghost use Rattle.std.specs.Option.{option_copied};
ghost use Rattle.serde_json.specs.Find.{get};
ghost use Rattle.serde_json.specs.View.{view};
ghost use Rattle.kd_fields.specs.Gives.{Means};
ghost use Rattle.kd_fields.specs.declared.faults.SettingsFault.TheVariants.{Memory};
ghost use Rattle.kd_keys.specs.OptionValue.{are_bytes, data_as_text, data_by, fields_data, hex_data, is_hexadecimal, is_text_given, standard_type, text_data, text_kind};

use crate::definition::DefinedOption;
use crate::flags::text_or_default;
use crate::quoted::read_bytes;
use crate::space::is_of_messages;
use crate::whole_bytes::is_whole;
use kd_fields::faults::SettingsFault;
use kd_fields::place::{Place, bad_place, bad_value, missing};
use kd_names::{Kind, kind_of};
use kd_values::{FieldType, fields_of, value_of};
use kd_wire::Bytes;
use serde_json::Value;
use std::alloc::Global;

// The option that consists of the options of vendors (RFC 3925 section 4).
const OPTION_VIVSO_SUBOPTIONS: u8 = 125;

// The most bytes that the value of an option has.
const LONGEST_VALUE: usize = 1024;

// Reads the value of an option, as text by its definition or its standard type, or as bytes.
pub(crate) fn data_of(
    alloc: Global,
    is_text: bool,
    definition: Option<&DefinedOption>,
    kind: Option<Kind>,
    option: &Value,
    at: &Place<'_>,
) -> Result<Bytes, SettingsFault>
    ensures { Means Memory result
        (data_by is_text (option_copied definition.entry) kind
        (get (codes "data") (view option.now))) }
{
    if !is_text {
        return read_hexadecimal(alloc, option, at);
    }
    match definition {
        Some(it) => read_fields(alloc, it, option, at),
        None => read_text(alloc, kind, option, at),
    }
}

// Reports whether the data is text: as `csv-format` says, or else if this is usual.
pub(crate) fn text_given(
    alloc: Global,
    usual: bool,
    option: &Value,
    at: &Place<'_>,
) -> Result<bool, SettingsFault>
    ensures { Means Memory result
        (is_text_given usual (get (codes "csv-format") (view option.now))) }
{
    let Some(value) = option.get("csv-format") else {
        return Ok(usual);
    };
    match value.as_bool() {
        Some(flag) => Ok(flag),
        None => Err(bad_value(alloc, at, "csv-format")),
    }
}

// Returns the standard type of the option of a space with a code.
pub(crate) fn standard_type_of(space: &[u8], code: u8) -> Option<Kind>
    ensures { result ≡ standard_type space.now code }
{
    if is_of_messages(space) {
        kind_of(code)
    } else {
        None
    }
}

// Returns the standard type by which text is read.
pub(crate) fn text_kind_of(space: &[u8], code: u8) -> Option<Kind>
    ensures { result ≡ text_kind space.now code }
{
    if code == OPTION_VIVSO_SUBOPTIONS {
        None
    } else {
        standard_type_of(space, code)
    }
}

// Reads the value that data gives as text for the fields of a definition.
#[tactic(auto, unfolding(crate::specs::OptionValue::fields_data))]
fn read_fields(
    alloc: Global,
    it: &DefinedOption,
    option: &Value,
    at: &Place<'_>,
) -> Result<Bytes, SettingsFault>
    ensures { Means Memory result (fields_data it.now (get (codes "data") (view option.now))) }
{
    let Some(fields) = &it.fields else {
        return Err(bad_value(alloc, at, "csv-format"));
    };
    let text = text_or_default(alloc, option, at, "data", "")?.as_bytes();
    if are_only_bytes(fields.as_slice()) && !is_whole(text) {
        return Err(bad_value(alloc, at, "data"));
    }
    let Some(bytes) = fields_of(alloc, fields.as_slice(), it.repeats, text)? else {
        return Err(bad_value(alloc, at, "data"));
    };
    if bytes.as_slice().len() <= LONGEST_VALUE {
        Ok(bytes)
    } else {
        Err(bad_value(alloc, at, "data"))
    }
}

// Reports whether fields are bytes alone, which are written in hexadecimal.
fn are_only_bytes(fields: &[FieldType]) -> bool
    ensures { result ≡ are_bytes fields.now }
{
    match fields {
        [FieldType::Bytes, ..] => true,
        _ => false,
    }
}

// Reads the value that data gives as text of a standard type.
fn read_text(
    alloc: Global,
    kind: Option<Kind>,
    option: &Value,
    at: &Place<'_>,
) -> Result<Bytes, SettingsFault>
    ensures { Means Memory result (data_as_text kind (get (codes "data") (view option.now))) }
{
    let Some(kind) = kind else {
        return Err(bad_value(alloc, at, "csv-format"));
    };
    match option.get("data") {
        Some(data) => text_at(alloc, kind, data, &Place::Key(&*at, "data")),
        None => Err(missing(alloc, at, "data")),
    }
}

// Reads the value of a type that a text gives: at most 1,024 bytes.
#[tactic(auto, unfolding(crate::specs::OptionValue::text_data))]
fn text_at(alloc: Global, kind: Kind, value: &Value, at: &Place<'_>) -> Result<Bytes, SettingsFault>
    ensures { Means Memory result (text_data kind (view value.now)) }
{
    let Some(text) = value.as_str() else {
        return Err(bad_place(alloc, at));
    };
    if is_in_hexadecimal(kind) && !is_whole(text.as_bytes()) {
        return Err(bad_place(alloc, at));
    }
    let Some(bytes) = value_of(alloc, kind, text.as_bytes())? else {
        return Err(bad_place(alloc, at));
    };
    if bytes.as_slice().len() <= LONGEST_VALUE {
        Ok(bytes)
    } else {
        Err(bad_place(alloc, at))
    }
}

// Reports whether a value of a type is written in hexadecimal.
fn is_in_hexadecimal(kind: Kind) -> bool
    ensures { result ≡ is_hexadecimal kind }
{
    match kind {
        Kind::Bytes => true,
        _ => false,
    }
}

// Reads the value that data gives in hexadecimal or in quotation marks.
fn read_hexadecimal(alloc: Global, option: &Value, at: &Place<'_>) -> Result<Bytes, SettingsFault>
    ensures { Means Memory result (hex_data (get (codes "data") (view option.now))) }
{
    match option.get("data") {
        Some(data) => read_bytes(alloc, data, &Place::Key(&*at, "data"), LONGEST_VALUE),
        None => Ok(Bytes::own(Vec::new(alloc))),
    }
}
