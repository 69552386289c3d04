ghost use Rattle.std.specs.Prelude.{◌≡◌, IfOk, codes, option_and_then, option_map};
ghost use Rattle.std.specs.Option.{option_copied};
ghost use Rattle.serde_json.specs.Find.{as_str, get};
ghost use Rattle.serde_json.specs.View.{view};
ghost use Rattle.kd_fields.specs.Gives.{Means};
ghost use Rattle.kd_fields.specs.declared.faults.SettingsFault.TheVariants.{Memory};
ghost use Rattle.kd_keys.specs.Options.{is_served_if_given};
ghost use Rattle.kd_keys.specs.Options.{code_if_given, code_named, entry_by, fits_in_option, inner_space, has_known_type, kea_code, kea_entry, may_configure, may_have_name, may_stand_in, one_code, standard_code};
ghost use Rattle.kd_keys.specs.OptionValue.{has_type, standard_type};
ghost use Rattle.kd_keys.specs.Scope.{definitions_in};

use crate::checking::check_keys;
use crate::definition::DefinedOption;
use crate::flags::{flag_at, text_or_default};
use crate::option_value::{data_of, standard_type_of, text_given, text_kind_of};
use crate::scope::OptionScope;
use crate::space::{is_of_messages, is_readable};
use crate::tables::ObjectKind;
use kd_fields::faults::SettingsFault;
use kd_fields::lists::EntryReader;
use kd_fields::place::{Place, bad_value, missing, unknown};
use kd_fields::values::{number_in, own_bytes, text_or_none};
use kd_names::option_named;
use kd_wire::Bytes;
use serde_json::Value;
use std::alloc::{AllocError, Global};

// The codes of the options that the server generates itself.
const OWN_CODES: [u8; 11] = [50, 51, 52, 53, 54, 55, 57, 58, 59, 61, 82];

// The code of the option that has the server's address (RFC 2132 section 9.7).
pub(crate) const OPTION_SERVER_IDENTIFIER: u8 = 54;

// The most bytes that an option in another one has.
pub(crate) const LONGEST_INNER: usize = 255;

/// An option as an entry of a list describes it, without the options that it consists of.
#[derive(Drop)]
pub struct OptionEntry {
    /// The space that it is in.
    pub space: Bytes,
    /// Its code in that space.
    pub code: u8,
    /// Its own value.
    pub value: Bytes,
    /// The space of the options that follow its own value; empty if there is none.
    pub inner: Bytes,
    /// Its value is written as text.
    pub is_text: bool,
    /// It is sent to clients that do not ask for it.
    pub always: bool,
}

/// Reads entries of options.
#[derive(Clone, Copy)]
pub struct OptionReader<'a> {
    pub scope: OptionScope<'a>,
}

impl<'a> EntryReader for OptionReader<'a> {
    type Entry = OptionEntry;

    ghost means = { λ reader. kea_entry reader.scope.for_all (definitions_in reader.scope) };

    #[tactic(auto, unfolding(crate::specs::Options::kea_entry))]
    fn read(
        &self,
        alloc: Global,
        value: &Value,
        at: &Place<'_>,
    ) -> Result<OptionEntry, SettingsFault> {
        check_keys(alloc, value, at, ObjectKind::Data)?;
        let space = text_or_default(alloc, value, at, "space", "dhcp4")?.as_bytes();
        if !is_readable(space) {
            return Err(unknown(alloc, at, "space"));
        }
        let code = code_at(alloc, value, at, self.scope, space)?;
        let definition = self.scope.with_code(space, code);
        entry_at(alloc, value, at, definition, space, code)
    }
}

/// Reports whether the space of an option, if it is given as text, is one whose options are read.
pub fn has_served_space(option: &Value) -> bool
    ensures { result
        ≡ is_served_if_given (option_and_then as_str (get (codes "space") (view option.now))) }
{
    let Some(value) = option.get("space") else {
        return true;
    };
    match value.as_str() {
        Some(space) => is_readable(space.as_bytes()),
        None => true,
    }
}

// Reads the entry of a space with a code, by the definition of the option if there is one.
#[tactic(auto, unfolding(crate::specs::Options::entry_by))]
fn entry_at(
    alloc: Global,
    value: &Value,
    at: &Place<'_>,
    definition: Option<&DefinedOption>,
    space: &[u8],
    code: u8,
) -> Result<OptionEntry, SettingsFault>
    ensures { Means Memory result
        (entry_by (option_copied definition.entry) space.now code (view value.now)) }
{
    let is_text = text_given(alloc, is_typed(definition, space, code), value, at)?;
    let kind = text_kind_of(space, code);
    let bytes = data_of(alloc, is_text, definition, kind, value, at)?;
    let always = flag_at(alloc, value, at, "always-send")?;
    if !fits(space, bytes.as_slice()) {
        return Err(bad_value(alloc, at, "data"));
    }
    Ok(OptionEntry {
        space: own_bytes(alloc, space)?,
        code,
        value: bytes,
        inner: inner_space_of(alloc, definition)?,
        is_text,
        always,
    })
}

// Returns the space of the options that follow an option's own value; empty if there is none.
fn inner_space_of(alloc: Global, definition: Option<&DefinedOption>) -> Result<Bytes, AllocError>
    ensures { IfOk result (λ space. space ≡ inner_space (option_copied definition.entry)) }
{
    match definition {
        Some(it) => own_bytes(alloc, it.inner.as_slice()),
        None => own_bytes(alloc, &[]),
    }
}

// Reports whether a value has a length that an option of the space may have.
fn fits(space: &[u8], value: &[u8]) -> bool
    ensures { result ≡ fits_in_option space.now value.now }
{
    is_of_messages(space) || value.len() <= LONGEST_INNER
}

// Reports whether the option of a space with a code has a type.
fn is_typed(definition: Option<&DefinedOption>, space: &[u8], code: u8) -> bool
    ensures { result ≡ has_type (option_copied definition.entry) (standard_type space.now code) }
{
    definition.is_some() || standard_type_of(space, code).is_some()
}

// Reads the code of an option of a space by its `code` and `name`.
#[tactic(auto, unfolding(crate::specs::Options::kea_code))]
fn code_at(
    alloc: Global,
    option: &Value,
    at: &Place<'_>,
    scope: OptionScope<'_>,
    space: &[u8],
) -> Result<u8, SettingsFault>
    ensures { Means Memory result
        (kea_code scope.entry.for_all (definitions_in scope.entry) space.now (view option.now)) }
{
    let given = given_code(alloc, option, at)?;
    let name = text_or_none(alloc, option, at, "name")?;
    let Some(code) = agreed(scope, space, given, code_of_name(scope, space, name)) else {
        return Err(no_code(alloc, option, at));
    };
    if is_configurable(space, code, scope.for_all) {
        Ok(code)
    } else {
        Err(bad_value(alloc, at, "code"))
    }
}

// Returns the code at `code`, if it is given.
fn given_code(alloc: Global, option: &Value, at: &Place<'_>) -> Result<Option<u8>, SettingsFault>
    ensures { Means Memory result (code_if_given (get (codes "code") (view option.now))) }
{
    let Some(value) = option.get("code") else {
        return Ok(None);
    };
    match number_in(value, 0, 254) {
        Some(code) => Ok(Some(code as u8)),
        None => Err(bad_value(alloc, at, "code")),
    }
}

// Returns the code of the option of a space with a name, if there is a name; no code if it is not
// known.
fn code_of_name(scope: OptionScope<'_>, space: &[u8], name: Option<Bytes>) -> Option<Option<u8>>
    ensures { result ≡ option_map (code_named (definitions_in scope.entry) space.now) name }
{
    match name {
        Some(name) => Some(named_code(scope, space, name.as_slice())),
        None => None,
    }
}

// Returns the code of the option of a space with a name, if it is known.
#[tactic(auto, unfolding(crate::specs::Options::code_named))]
fn named_code(scope: OptionScope<'_>, space: &[u8], name: &[u8]) -> Option<u8>
    ensures { result ≡ code_named (definitions_in scope.entry) space.now name.now }
{
    match scope.with_name(space, name) {
        Some(it) => Some(it.code),
        None => standard_code_of(space, name),
    }
}

// Returns the code of the standard option of a space with a name.
fn standard_code_of(space: &[u8], name: &[u8]) -> Option<u8>
    ensures { result ≡ standard_code space.now name.now }
{
    if is_of_messages(space) {
        match option_named(name) {
            Some((code, _)) => Some(code),
            None => None,
        }
    } else {
        None
    }
}

// Returns the one code of a code and of a name, if one of them or both are given.
fn agreed(
    scope: OptionScope<'_>,
    space: &[u8],
    given: Option<u8>,
    named: Option<Option<u8>>,
) -> Option<u8>
    ensures { result
        ≡ one_code (has_known_type (definitions_in scope.entry) space.now) given named }
{
    match (given, named) {
        (given, None) => given,
        (None, Some(named)) => named,
        (Some(code), Some(named)) if goes_with(scope, space, code, named) => Some(code),
        (Some(_), Some(_)) => None,
    }
}

// Reports whether a code may be given beside a name with this code.
fn goes_with(scope: OptionScope<'_>, space: &[u8], code: u8, named: Option<u8>) -> bool
    ensures { result
        ≡ may_have_name (has_known_type (definitions_in scope.entry) space.now code) code named }
{
    match named {
        Some(named) => code == named,
        None => !is_typed(scope.with_code(space, code), space, code),
    }
}

// Returns the fault of an option without one code: it has neither a code nor a name, or its name is
// not known or that of another code.
fn no_code(alloc: Global, option: &Value, at: &Place<'_>) -> SettingsFault {
    match option.get("name") {
        Some(_) => bad_value(alloc, at, "name"),
        None => missing(alloc, at, "code"),
    }
}

// Reports whether an option of a space with this code may be configured.
fn is_configurable(space: &[u8], code: u8, for_all: bool) -> bool
    ensures { result ≡ may_stand_in for_all space.now code }
{
    !is_of_messages(space) || is_message_option(code, for_all)
}

// Reports whether an option of messages with this code may be configured.
fn is_message_option(code: u8, for_all: bool) -> bool
    ensures { result ≡ may_configure for_all code }
{
    1 <= code
        && code <= 254
        && (for_all && code == OPTION_SERVER_IDENTIFIER || !OWN_CODES.contains(&code))
}
