ghost use Rattle.std.specs.Prelude.{◌≡◌, ◌++◌, OnOk, string_bytes};
ghost use Rattle.kd_names.specs.Values.{message_type_word};
ghost use Rattle.kd_options.specs.Kind.{type_number};
ghost use Rattle.kd_explain.specs.Words.{address_word, name_byte, name_text, truth_word, unless_zero, yes_word};

use kd_names::message_type_name;
use kd_options::MessageType;
use kd_text::{put_address, put_bytes};
use std::alloc::{AllocError, Global};

// Prints an address, in host order, or a dash if there is none.
pub(crate) fn put_address_or_dash(out: &mut String, address: Option<u32>) -> Result<(), AllocError>
    ensures { OnOk result (string_bytes out.new ≡ string_bytes out.old ++ address_word address) }
{
    match address {
        Some(address) => put_address(out, address),
        None => out.push_str("-"),
    }
}

// Returns the address in a field of the header, if it is not 0.0.0.0.
pub(crate) fn nonzero_address(address: u32) -> Option<u32>
    ensures { result ≡ unless_zero address }
{
    if address == 0 { None } else { Some(address) }
}

// Prints the name of a class, without spaces and line feeds.
pub(crate) fn put_name(alloc: Global, out: &mut String, name: &[u8]) -> Result<(), AllocError>
    ensures { OnOk result (string_bytes out.new ≡ string_bytes out.old ++ name_text name.now) }
{
    for byte in name {
        put_name_byte(alloc, out, *byte)?;
    }
    Ok(())
}

// Prints printable ASCII as it is, except the space and the backslash, and each other byte as \xNN.
#[tactic(auto, unfolding(crate::specs::Words::name_byte))]
fn put_name_byte(alloc: Global, out: &mut String, byte: u8) -> Result<(), AllocError>
    ensures { OnOk result (string_bytes out.new ≡ string_bytes out.old ++ name_byte byte) }
{
    if b'!' <= byte && byte <= b'~' && byte != b'\\' {
        return out.push(char::from(byte));
    }
    out.push_str("\\x")?;
    put_bytes(alloc, out, &[byte])
}

// Returns the name of a message's type (RFC 2131 section 3.1).
pub(crate) fn type_name(kind: MessageType) -> &'static str
    ensures { result.now ≡ message_type_word (type_number kind) }
{
    message_type_name(u32::from(kind.number()))
}

// Returns the word for a truth value.
pub(crate) fn true_or_false(value: bool) -> &'static str
    ensures { result.now ≡ truth_word value }
{
    if value { "true" } else { "false" }
}

// Returns the answer to a question.
pub(crate) fn yes_or_no(holds: bool) -> &'static str
    ensures { result.now ≡ yes_word holds }
{
    if holds { "yes" } else { "no" }
}
