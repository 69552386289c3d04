ghost use Rattle.std.specs.Prelude.{◌≡◌, ◌∷◌, ◌++◌, ◌&&◌, [], IfOk, Some, bytes_eq, codes, OnOk, if◌then◌else◌, map, not, option_and_then};
ghost use Rattle.std.specs.List.{list_any, slice_split};
ghost use Rattle.std.specs.Map.{lookup};
ghost use Rattle.memchr.specs.Find.{is_byte};
ghost use Rattle.serde_json.specs.Find.{as_str, get};
ghost use Rattle.serde_json.specs.View.{items_view, view};
ghost use Rattle.kd_fields.specs.Gives.{GivesAs, Means};
ghost use Rattle.kd_fields.specs.Steps.{must};
ghost use Rattle.kd_fields.specs.Values.{number_within};
ghost use Rattle.kd_fields.specs.declared.faults.SettingsFault.TheVariants.{Memory};
ghost use Rattle.kd_names.specs.Table.{option_by_name};
ghost use Rattle.kd_keys.specs.Definitions.{are_apart, are_of_one, field_types, fields_named, is_dhcp4, is_free_code, is_free_name, kea_definition, kea_definitions, kea_known, may_define, standard_records, types_in, usual_vendor};
ghost use Rattle.kd_keys.specs.RecordRows.{record_in};
ghost use Rattle.kd_keys.specs.Alone.{each_described, usable_definitions, right_definitions};

use crate::alone::read_alone;
use crate::checking::check_keys;
use crate::flags::{flag_at, text_at, text_or_default};
use crate::space::is_of_messages;
use crate::tables::ObjectKind;
use kd_fields::faults::SettingsFault;
use kd_fields::lists::{EntryReader, entries_of};
use kd_fields::place::{Place, bad_value, missing};
use kd_fields::values::{number_in, own_bytes};
use kd_names::{kind_of, option_named};
use kd_values::{FieldType, first_part, trim};
use kd_wire::{Bytes, Entries};
use serde_json::Value;
use std::alloc::{AllocError, Global};

// The code of the option that consists of a vendor's options (RFC 2132 section 8.4).
const OPTION_VENDOR_ENCAPSULATED: u8 = 43;

// A standard option that is a record: its code, its name, the types of its fields, and whether the
// last one may be there more than once.
type RecordRow = (u8, &'static str, &'static [FieldType], bool);

// The standard options that are records: a directory agent and a scope of SLP (RFC 2610), a network
// interface and a machine (RFC 4578), and name servers (RFC 6731).
const STANDARD_RECORDS: &[RecordRow] = &[
    (
        78,
        "slp-directory-agent",
        &[FieldType::Flag, FieldType::Address],
        true,
    ),
    (
        79,
        "slp-service-scope",
        &[FieldType::Flag, FieldType::Text],
        false,
    ),
    (
        94,
        "client-ndi",
        &[FieldType::Uint8, FieldType::Uint8, FieldType::Uint8],
        false,
    ),
    (
        97,
        "uuid-guid",
        &[FieldType::Uint8, FieldType::Bytes],
        false,
    ),
    (
        146,
        "rdnss-selection",
        &[
            FieldType::Uint8,
            FieldType::Address,
            FieldType::Address,
            FieldType::Name,
        ],
        true,
    ),
];

// The first code for the options of a site (RFC 3942).
const FIRST_SITE_CODE: u8 = 224;

/// An option as a configuration defines it.
#[derive(Drop)]
pub struct DefinedOption {
    /// The space that it is in.
    pub space: Bytes,
    /// Its code in that space.
    pub code: u8,
    /// Its name in that space.
    pub name: Bytes,
    /// The types of its fields, if its value can be read from text.
    pub fields: Option<Entries<FieldType>>,
    /// The last field may be there more than once.
    pub repeats: bool,
    /// The space of the options that follow its fields; empty if there is none.
    pub inner: Bytes,
}

/// Reads definitions, of a class or of the whole server.
#[derive(Clone, Copy)]
pub struct DefinitionReader {
    /// They are those of a class.
    pub in_class: bool,
}

impl EntryReader for DefinitionReader {
    type Entry = DefinedOption;

    ghost means = { λ reader. kea_definition reader.in_class };

    #[tactic(auto, unfolding(crate::specs::Definitions::kea_definition))]
    fn read(
        &self,
        alloc: Global,
        value: &Value,
        at: &Place<'_>,
    ) -> Result<DefinedOption, SettingsFault> {
        check_keys(alloc, value, at, ObjectKind::Definition)?;
        let space = text_or_default(alloc, value, at, "space", "dhcp4")?;
        let name = text_at(alloc, value, at, "name")?;
        let code = code_at(alloc, value, at)?;
        let kind = text_at(alloc, value, at, "type")?;
        let record_types = text_or_default(alloc, value, at, "record-types", "")?;
        let repeats = flag_at(alloc, value, at, "array")?;
        let inner = text_or_default(alloc, value, at, "encapsulate", "")?;
        let definition = DefinedOption {
            space: own_bytes(alloc, space.as_bytes())?,
            code,
            name: own_bytes(alloc, name.as_bytes())?,
            fields: fields_of_type(alloc, kind, record_types)?,
            repeats,
            inner: own_bytes(alloc, inner.as_bytes())?,
        };
        if is_definable(&definition, self.in_class) {
            Ok(definition)
        } else {
            Err(bad_value(alloc, at, "code"))
        }
    }
}

// Reads the code at `code`: 0 to 254.
fn code_at(alloc: Global, object: &Value, at: &Place<'_>) -> Result<u8, SettingsFault>
    ensures { Means Memory result
        (option_and_then (number_within 0 254) (get (codes "code") (view object.now))) }
{
    let Some(value) = object.get("code") else {
        return Err(missing(alloc, at, "code"));
    };
    match number_in(value, 0, 254) {
        Some(code) => Ok(code as u8),
        None => Err(bad_value(alloc, at, "code")),
    }
}

// Returns the types of the fields of a value, by the name of its type and, for a record, by those
// of its fields; nothing if such a value is not read from text.
#[tactic(auto, unfolding(crate::specs::Definitions::fields_named))]
fn fields_of_type(
    alloc: Global,
    kind: &str,
    record_types: &str,
) -> Result<Option<Entries<FieldType>>, AllocError>
    ensures { IfOk result (λ fields. fields ≡ fields_named kind.now record_types.now) }
{
    if kind == "empty" {
        return Ok(Some(Entries::own(Vec::new(alloc))));
    }
    if kind == "record" {
        return fields_of_record(alloc, record_types.as_bytes());
    }
    if kind == "binary" {
        return single(alloc, FieldType::Bytes);
    }
    match type_with_name(kind.as_bytes()) {
        Some(field) => single(alloc, field),
        None => Ok(None),
    }
}

// Returns one field.
fn single(alloc: Global, field: FieldType) -> Result<Option<Entries<FieldType>>, AllocError>
    ensures { IfOk result (λ fields. fields ≡ Some (field ∷ [])) }
{
    Ok(Some(Entries::own(Vec::from_slice(alloc, &[field])?)))
}

// Returns the types of the fields of a record, whose names have commas between them.
fn fields_of_record(alloc: Global, names: &[u8]) -> Result<Option<Entries<FieldType>>, AllocError>
    ensures { IfOk result (λ fields. fields ≡ types_in (slice_split (is_byte 44) names.now)) }
{
    let mut fields = Vec::new(alloc);
    let mut left = names;
    'names: loop {
        let (name, rest) = first_part(b',', left);
        let Some(field) = type_with_name(trim(name)) else {
            return Ok(None);
        };
        fields.push(field)?;
        match rest {
            Some(rest) => left = rest,
            None => return Ok(Some(Entries::own(fields))),
        }
    }
}

// The types of fields, by Kea's names, whose values are read from text.
const FIELD_TYPES: &[(&str, FieldType)] = &[
    ("boolean", FieldType::Flag),
    ("uint8", FieldType::Uint8),
    ("uint16", FieldType::Uint16),
    ("uint32", FieldType::Uint32),
    ("int8", FieldType::Int8),
    ("int16", FieldType::Int16),
    ("int32", FieldType::Int32),
    ("ipv4-address", FieldType::Address),
    ("string", FieldType::Text),
    ("fqdn", FieldType::Name),
    ("tuple", FieldType::Tuple),
];

// Returns the type of a field with this name.
fn type_with_name(name: &[u8]) -> Option<FieldType>
    ensures { result ≡ lookup (bytes_eq name.now) field_types }
{
    type_among(FIELD_TYPES, name)
}

// Returns the type of a field with this name in a table.
fn type_among(table: &[(&str, FieldType)], name: &[u8]) -> Option<FieldType>
    ensures { result ≡ lookup (bytes_eq name.now) (map (λ row. (row.0.now, row.1)) table.now) }
{
    for (other, field) in table {
        if name == other.as_bytes() {
            return Some(*field);
        }
    }
    None
}

// Reports whether an option may be defined, in a class or for the whole server.
fn is_definable(it: &DefinedOption, in_class: bool) -> bool
    ensures { result ≡ may_define in_class it.now }
{
    !is_of_messages(it.inner.as_slice()) && has_free_place(it, in_class)
}

// Reports whether a definition has a code and a name of its own in its space.
fn has_free_place(it: &DefinedOption, in_class: bool) -> bool
    ensures { result ≡ if is_dhcp4 it.now.space
        then is_free_code in_class it.now.code
        && is_free_name it.now.code (option_by_name it.now.name)
        else not in_class }
{
    if is_of_messages(it.space.as_slice()) {
        is_free(it.code, it.name.as_slice(), in_class)
    } else {
        !in_class
    }
}

// Reports whether an option of messages may be defined with this code and name.
fn is_free(code: u8, name: &[u8], in_class: bool) -> bool
    ensures { result ≡ (is_free_code in_class code && is_free_name code (option_by_name name.now)) }
{
    has_free_code(code, in_class) && has_free_name(code, name)
}

// Reports whether an option of messages may be defined with this code.
fn has_free_code(code: u8, in_class: bool) -> bool
    ensures { result ≡ is_free_code in_class code }
{
    code == OPTION_VENDOR_ENCAPSULATED
        || 1 <= code && kind_of(code).is_none() && (!in_class || FIRST_SITE_CODE <= code)
}

// Reports whether a name is that of no standard option, or of the one with this code.
fn has_free_name(code: u8, name: &[u8]) -> bool
    ensures { result ≡ is_free_name code (option_by_name name.now) }
{
    match option_named(name) {
        Some((standard, _)) => standard == code,
        None => true,
    }
}

/// Reads the definitions of the list at the key `option-def`, of which no two are of one option.
///
/// # Errors
///
/// `BadValue` with the path of the list, or of the second of two definitions of one option; else the
/// first fault of a definition.
#[tactic(auto, unfolding(crate::specs::Definitions::kea_definitions))]
pub fn definitions_of(
    alloc: Global,
    object: &Value,
    at: &Place<'_>,
    in_class: bool,
) -> Result<Entries<DefinedOption>, SettingsFault>
    ensures { Means Memory result
        (kea_definitions in_class (get (codes "option-def") (view object.now))) }
{
    let reader = DefinitionReader { in_class };
    let definitions = entries_of(alloc, object, at, "option-def", 256, &reader)?;
    check_apart(
        alloc,
        definitions.as_slice(),
        &Place::Key(&*at, "option-def"),
    )?;
    Ok(definitions)
}

// Checks that no two definitions are of one option.
fn check_apart(
    alloc: Global,
    definitions: &[DefinedOption],
    at: &Place<'_>,
) -> Result<(), SettingsFault>
    ensures { Means Memory result (must (are_apart definitions.now)) }
{
    for i in 0..definitions.len() {
        if is_again(&definitions[i], &definitions[i + 1..]) {
            return Err(bad_value(alloc, &Place::Item(&*at, i), "code"));
        }
    }
    Ok(())
}

// Reports whether one of these definitions is of the same option.
fn is_again(it: &DefinedOption, others: &[DefinedOption]) -> bool
    ensures { result ≡ list_any (are_of_one it.now) others.now }
{
    others.iter().any(|other| is_same(it, other))
}

// Reports whether two definitions are of one option.
fn is_same(a: &DefinedOption, b: &DefinedOption) -> bool
    ensures { result ≡ are_of_one a.now b.now }
{
    a.space.as_slice() == b.space.as_slice()
        && (a.code == b.code || a.name.as_slice() == b.name.as_slice())
}

/// Reads the definitions of the whole server, with those that are usual.
///
/// # Errors
///
/// As `definitions_of`.
#[tactic(auto, unfolding(crate::specs::Definitions::kea_known))]
pub fn known_definitions(
    alloc: Global,
    dhcp4: &Value,
    at: &Place<'_>,
) -> Result<Entries<DefinedOption>, SettingsFault>
    ensures { Means Memory result (kea_known (get (codes "option-def") (view dhcp4.now))) }
{
    let definitions = definitions_of(alloc, dhcp4, at, false)?;
    Ok(with_usual(alloc, definitions)?)
}

/// Reads the definitions of the whole server that are right by themselves, with those that are usual.
///
/// # Errors
///
/// Out of memory.
#[tactic(auto, unfolding(crate::specs::Alone::usable_definitions))]
pub fn known_alone(alloc: Global, dhcp4: &Value) -> Result<Entries<DefinedOption>, AllocError>
    ensures { IfOk result (λ known. known ≡ usable_definitions (view dhcp4.now)) }
{
    let definitions = definitions_alone(alloc, dhcp4, false)?;
    with_usual(alloc, definitions)
}

/// Reads the definitions of the list at the key `option-def` that are right by themselves.
///
/// # Errors
///
/// Out of memory.
#[tactic(auto, unfolding(crate::specs::Alone::right_definitions))]
pub fn definitions_alone(
    alloc: Global,
    object: &Value,
    in_class: bool,
) -> Result<Entries<DefinedOption>, AllocError>
    ensures { IfOk result (λ found. found ≡ right_definitions in_class (view object.now)) }
{
    let Some(value) = object.get("option-def") else {
        return Ok(Entries::own(Vec::new(alloc)));
    };
    match value.as_array() {
        Some(list) => right_among(alloc, list.as_slice(), DefinitionReader { in_class }),
        None => Ok(Entries::own(Vec::new(alloc))),
    }
}

// Reads the definitions among values that are right by themselves.
fn right_among(
    alloc: Global,
    values: &[Value],
    reader: DefinitionReader,
) -> Result<Entries<DefinedOption>, AllocError>
    ensures { IfOk result (λ found. found
        ≡ each_described (kea_definition reader.in_class) (items_view values.now)) }
{
    let mut found = Vec::new(alloc);
    for value in values {
        if let Some(definition) = read_alone(alloc, &reader, value)? {
            found.push(definition)?;
        }
    }
    Ok(Entries::own(found))
}

// Appends `vendor-encapsulated-options` as Kea defines it, which counts unless the configuration
// defines it, and the standard options that are records.
#[tactic(auto, using(crate::proofs::Fields::usual_follow))]
fn with_usual(
    alloc: Global,
    definitions: Entries<DefinedOption>,
) -> Result<Entries<DefinedOption>, AllocError>
    ensures { IfOk result (λ all. all ≡ definitions ++ usual_vendor ∷ standard_records) }
{
    let mut all = definitions.into_vec();
    all.push(vendor_definition(alloc)?)?;
    push_standard(alloc, &mut all)?;
    Ok(Entries::own(all))
}

// Makes the definition of `vendor-encapsulated-options` as Kea has it.
fn vendor_definition(alloc: Global) -> Result<DefinedOption, AllocError>
    ensures { IfOk result (λ it. it ≡ usual_vendor) }
{
    Ok(DefinedOption {
        space: own_bytes(alloc, b"dhcp4")?,
        code: OPTION_VENDOR_ENCAPSULATED,
        name: own_bytes(alloc, b"vendor-encapsulated-options")?,
        fields: Some(Entries::own(Vec::new(alloc))),
        repeats: false,
        inner: own_bytes(alloc, b"vendor-encapsulated-options-space")?,
    })
}

// Appends the definitions of the standard options that are records.
fn push_standard(alloc: Global, out: &mut Vec<DefinedOption>) -> Result<(), AllocError>
    ensures { OnOk result (out.new.items ≡ out.old.items ++ standard_records) }
{
    push_records(alloc, out, STANDARD_RECORDS)
}

// Appends the definitions of these rows.
fn push_records(
    alloc: Global,
    out: &mut Vec<DefinedOption>,
    records: &[RecordRow],
) -> Result<(), AllocError>
    ensures { OnOk result (out.new.items ≡ out.old.items ++ map record_in records.now) }
{
    for row in records {
        out.push(standard_record(alloc, *row)?)?;
    }
    Ok(())
}

// Makes the definition of a standard option that is a record.
fn standard_record(alloc: Global, row: RecordRow) -> Result<DefinedOption, AllocError>
    ensures { IfOk result (λ it. it ≡ record_in row.entry) }
{
    let (code, name, fields, repeats) = row;
    Ok(DefinedOption {
        space: own_bytes(alloc, b"dhcp4")?,
        code,
        name: own_bytes(alloc, name.as_bytes())?,
        fields: Some(Entries::own(Vec::from_slice(alloc, fields)?)),
        repeats,
        inner: own_bytes(alloc, b"")?,
    })
}
