ghost use Rattle.std.specs.Prelude.{◌≡◌, ◌++◌, OnOk, string_bytes};
ghost use Rattle.kd_names.specs.Values.{named_text, named_value, text_by_kind};

use crate::form::is_well_formed;
use crate::kind::Kind;
use crate::number::{number, put_addresses, put_codes, put_number, put_shorts, put_signed};
use crate::pieces::{put_names, put_routes};
use crate::table::definition;
use crate::text::{put_bytes, put_flag, put_message_type, put_quoted};
use std::alloc::{AllocError, Global};

/// Appends the line of an option that has a name and a value of the form of its type: two spaces,
/// the name, a space, the value and a line feed. For any other option it appends nothing.
///
/// # Errors
///
/// There is no memory for the line.
pub fn put_named(alloc: Global, out: &mut String, code: u8, value: &[u8]) -> Result<(), AllocError>
    ensures { OnOk result
        (string_bytes out.new ≡ string_bytes out.old ++ named_text code value.now) }
{
    match definition(code) {
        Some((name, kind)) => {
            if is_well_formed(kind, value) {
                put_line(alloc, out, name, kind, value)
            } else {
                Ok(())
            }
        }
        None => Ok(()),
    }
}

// Appends the line of a name and a value of its type.
#[tactic(auto, unfolding(crate::specs::Values::named_value))]
fn put_line(
    alloc: Global,
    out: &mut String,
    name: &str,
    kind: Kind,
    value: &[u8],
) -> Result<(), AllocError>
    ensures { OnOk result
        (string_bytes out.new ≡ string_bytes out.old ++ named_value name.now kind value.now) }
{
    out.push_str("  ")?;
    out.push_str(name)?;
    out.push_str(" ")?;
    put_value(alloc, out, kind, value)?;
    out.push_str("\n")
}

// Appends a value as its type is written.
fn put_value(alloc: Global, out: &mut String, kind: Kind, value: &[u8]) -> Result<(), AllocError>
    ensures { OnOk result
        (string_bytes out.new ≡ string_bytes out.old ++ text_by_kind kind value.now) }
{
    match kind {
        Kind::Address => put_addresses(out, value),
        Kind::Addresses => put_addresses(out, value),
        Kind::Pairs => put_addresses(out, value),
        Kind::Flag => put_flag(out, number(value)),
        Kind::Byte => put_number(out, number(value)),
        Kind::Short => put_number(out, number(value)),
        Kind::Long => put_number(out, number(value)),
        Kind::Signed => put_signed(out, number(value)),
        Kind::Shorts => put_shorts(out, value),
        Kind::Codes => put_codes(out, value),
        Kind::MessageType => put_message_type(out, number(value)),
        Kind::Text => put_quoted(alloc, out, value),
        Kind::Name => put_names(alloc, out, value),
        Kind::Names => put_names(alloc, out, value),
        Kind::Routes => put_routes(out, value),
        Kind::Bytes => put_bytes(alloc, out, value),
    }
}
