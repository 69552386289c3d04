ghost use Rattle.std.specs.Prelude.{◌≡◌, ◌+◌, ◌<◌, ◌∷◌, ℕ, [], false, IfOk, IfSome, MatchOption, length};
ghost use Rattle.kd_values.specs.Fields.{field_spelled, fields_spelled, parts_behind, parts_spelled};
ghost use Rattle.kd_values.specs.Fields.{nothing_spelled, tuple_spelled, types_of_parts};

use crate::digits::bytes_of;
use crate::field_type::FieldType;
use crate::names::name_of;
use crate::number::{byte_of, long_of, short_of, signed_byte_of, signed_of, signed_short_of};
use crate::parts::{some_bytes, trim};
use crate::reading::address_of;
use crate::signs::{flag_of, text_of};
use kd_wire::Bytes;
use std::alloc::{AllocError, Global};

// The most bytes of a text whose length has one byte.
const TUPLE_BYTES: usize = 255;

/// Returns the value that a text gives for an option with these fields, or nothing if it gives
/// none: one part between commas for each field, in order, and if `repeats`, further parts of the
/// type of the last field (Kea's `option-def` with `array`). A comma right behind a backslash
/// belongs to a text and ends no part. Blanks around a part are ignored, and an empty part is no
/// value. Without fields there is no text, and the value is empty.
///
/// # Errors
///
/// Out of memory.
pub fn fields_of(
    alloc: Global,
    fields: &[FieldType],
    repeats: bool,
    text: &[u8],
) -> Result<Option<Bytes>, AllocError>
    ensures { IfOk result (λ value. value ≡ fields_spelled fields.now repeats text.now) }
{
    match fields {
        [first, others @ ..] => values_of_fields(alloc, *first, others, repeats, text),
        [] => empty_of(alloc, text),
    }
}

// Returns no bytes for an empty text.
fn empty_of(alloc: Global, text: &[u8]) -> Result<Option<Bytes>, AllocError>
    ensures { IfOk result (λ value. value ≡ nothing_spelled text.now) }
{
    match text {
        [] => some_bytes(alloc, &[]),
        [_, ..] => Ok(None),
    }
}

// Reads the parts of a text for one or more fields.
fn values_of_fields(
    alloc: Global,
    first: FieldType,
    others: &[FieldType],
    repeats: bool,
    text: &[u8],
) -> Result<Option<Bytes>, AllocError>
    ensures { IfOk result (λ value. value
        ≡ parts_spelled first others.now repeats (parts_behind false text.now)) }
{
    let mut values = Vec::new(alloc);
    let mut field = first;
    let mut fields = others;
    let mut left = text;
    'parts: loop {
        let (part, rest) = first_field_part(left);
        let Some(value) = field_of(alloc, field, trim(part))? else {
            return Ok(None);
        };
        values.extend_from_slice(value.as_slice())?;
        let Some(rest) = rest else {
            if !fields.is_empty() {
                return Ok(None);
            }
            return Ok(Some(Bytes::own(values)));
        };
        let Some((next, more)) = next_field(field, fields, repeats) else {
            return Ok(None);
        };
        field = next;
        fields = more;
        left = rest;
    }
}

// Returns the type of the part that follows one of this type, and the types that follow it.
fn next_field(
    field: FieldType,
    fields: &[FieldType],
    repeats: bool,
) -> Option<(FieldType, &[FieldType])>
    ensures { MatchOption result
        ((parts : ℕ) → types_of_parts field fields.now repeats parts ≡ field ∷ [])
        (λ x. (parts : ℕ) → types_of_parts field fields.now repeats (parts + 2)
        ≡ field ∷ types_of_parts x.0 x.1.now repeats (parts + 1)) }
{
    match fields {
        [next, more @ ..] => Some((*next, more)),
        [] if repeats => Some((field, fields)),
        [] => None,
    }
}

// Splits a text at its first comma that has no backslash right before it, if it has one: what
// precedes it, and what follows it.
fn first_field_part(text: &[u8]) -> (&[u8], Option<&[u8]>)
    ensures parts { MatchOption result.1 (parts_behind false text.now ≡ result.0.now ∷ [])
        (λ rest. parts_behind false text.now ≡ result.0.now ∷ parts_behind false rest.now) }
    ensures shorter { IfSome result.1 (λ rest. length rest.now < length text.now) }
{
    let mut escaped = false;
    for at in 0..text.len() {
        if text[at] == b',' && !escaped {
            return (&text[..at], Some(&text[at + 1..]));
        }
        escaped = text[at] == b'\\';
    }
    (text, None)
}

// Reads the value of a field.
fn field_of(alloc: Global, field: FieldType, part: &[u8]) -> Result<Option<Bytes>, AllocError>
    ensures { IfOk result (λ value. value ≡ field_spelled field part.now) }
{
    match field {
        FieldType::Flag => flag_of(alloc, part),
        FieldType::Uint8 => byte_of(alloc, part),
        FieldType::Uint16 => short_of(alloc, part),
        FieldType::Uint32 => long_of(alloc, part),
        FieldType::Int8 => signed_byte_of(alloc, part),
        FieldType::Int16 => signed_short_of(alloc, part),
        FieldType::Int32 => signed_of(alloc, part),
        FieldType::Address => address_of(alloc, part),
        FieldType::Text => text_of(alloc, part),
        FieldType::Name => name_of(alloc, part),
        FieldType::Bytes => bytes_of(alloc, part),
        FieldType::Tuple => tuple_of(alloc, part),
    }
}

// Reads a text after its length.
fn tuple_of(alloc: Global, part: &[u8]) -> Result<Option<Bytes>, AllocError>
    ensures { IfOk result (λ value. value ≡ tuple_spelled part.now) }
{
    let Some(signs) = text_of(alloc, part)? else {
        return Ok(None);
    };
    let signs = signs.as_slice();
    if signs.len() > TUPLE_BYTES {
        return Ok(None);
    }
    let mut tuple = Vec::from_slice(alloc, &[signs.len() as u8])?;
    tuple.extend_from_slice(signs)?;
    Ok(Some(Bytes::own(tuple)))
}
