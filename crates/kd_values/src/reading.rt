ghost use Rattle.std.specs.Prelude.{◌≡◌, IfOk, option_and_then};
ghost use Rattle.kd_expr.specs.Lexing.{address_read};
ghost use Rattle.kd_values.specs.Parts.{values_between_commas};
ghost use Rattle.kd_values.specs.Spelled.{if_pairs, one_spelled, data_spelled};
ghost use Rattle.kd_names.specs.declared.kind.Kind.TheVariants.{Pairs};

use crate::digits::bytes_of;
use crate::names::{name_of, route_of};
use crate::number::{byte_of, long_of, short_of, signed_of};
use crate::parts::{first_part, some_bytes, trim};
use crate::signs::{flag_of, message_type_of, text_of};
use kd_expr::read_address;
use kd_names::Kind;
use kd_wire::Bytes;
use std::alloc::{AllocError, Global};

/// Returns the bytes of the value that a text gives for an option of this type, or nothing if it
/// gives none: values between commas (Kea's option data with `csv-format`), with blanks around
/// them that do not count. An empty part between commas is no value.
///
/// # Errors
///
/// Out of memory.
pub fn value_of(alloc: Global, kind: Kind, text: &[u8]) -> Result<Option<Bytes>, AllocError>
    ensures { IfOk result (λ value. value ≡ data_spelled kind text.now) }
{
    match kind {
        Kind::Addresses => values_of(alloc, kind, text),
        Kind::Pairs => pairs_of(alloc, text),
        Kind::Shorts => values_of(alloc, kind, text),
        Kind::Codes => values_of(alloc, kind, text),
        Kind::Names => values_of(alloc, kind, text),
        Kind::Routes => values_of(alloc, kind, text),
        Kind::Address => one_of(alloc, kind, trim(text)),
        Kind::Flag => one_of(alloc, kind, trim(text)),
        Kind::Byte => one_of(alloc, kind, trim(text)),
        Kind::Short => one_of(alloc, kind, trim(text)),
        Kind::Long => one_of(alloc, kind, trim(text)),
        Kind::Signed => one_of(alloc, kind, trim(text)),
        Kind::MessageType => one_of(alloc, kind, trim(text)),
        Kind::Text => one_of(alloc, kind, trim(text)),
        Kind::Name => one_of(alloc, kind, trim(text)),
        Kind::Bytes => one_of(alloc, kind, trim(text)),
    }
}

// Reads an even number of addresses.
fn pairs_of(alloc: Global, text: &[u8]) -> Result<Option<Bytes>, AllocError>
    ensures { IfOk result (λ value. value
        ≡ option_and_then if_pairs (values_between_commas (one_spelled Pairs) text.now)) }
{
    match values_of(alloc, Kind::Pairs, text)? {
        Some(value) => Ok(some_if_pairs(value)),
        None => Ok(None),
    }
}

// Returns addresses, if their number is even.
fn some_if_pairs(value: Bytes) -> Option<Bytes>
    ensures { result ≡ if_pairs value }
{
    if value.as_slice().len() % 8 == 0 {
        Some(value)
    } else {
        None
    }
}

// Reads the values between the commas of a text.
fn values_of(alloc: Global, kind: Kind, text: &[u8]) -> Result<Option<Bytes>, AllocError>
    ensures { IfOk result (λ value. value ≡ values_between_commas (one_spelled kind) text.now) }
{
    let mut values = Vec::new(alloc);
    let mut left = text;
    'parts: loop {
        let (part, rest) = first_part(b',', left);
        let Some(value) = one_of(alloc, kind, trim(part))? else {
            return Ok(None);
        };
        values.extend_from_slice(value.as_slice())?;
        match rest {
            Some(rest) => left = rest,
            None => return Ok(Some(Bytes::own(values))),
        }
    }
}

// Reads one value of a type.
fn one_of(alloc: Global, kind: Kind, text: &[u8]) -> Result<Option<Bytes>, AllocError>
    ensures { IfOk result (λ value. value ≡ one_spelled kind text.now) }
{
    match kind {
        Kind::Address => address_of(alloc, text),
        Kind::Addresses => address_of(alloc, text),
        Kind::Pairs => address_of(alloc, text),
        Kind::Flag => flag_of(alloc, text),
        Kind::Byte => byte_of(alloc, text),
        Kind::Short => short_of(alloc, text),
        Kind::Long => long_of(alloc, text),
        Kind::Signed => signed_of(alloc, text),
        Kind::Shorts => short_of(alloc, text),
        Kind::Codes => byte_of(alloc, text),
        Kind::MessageType => message_type_of(alloc, text),
        Kind::Text => text_of(alloc, text),
        Kind::Name => name_of(alloc, text),
        Kind::Names => name_of(alloc, text),
        Kind::Routes => route_of(alloc, text),
        Kind::Bytes => bytes_of(alloc, text),
    }
}

// Reads an address.
pub(crate) fn address_of(alloc: Global, text: &[u8]) -> Result<Option<Bytes>, AllocError>
    ensures { IfOk result (λ value. value ≡ address_read text.now) }
{
    match read_address(text) {
        Some(address) => some_bytes(alloc, &address),
        None => Ok(None),
    }
}
