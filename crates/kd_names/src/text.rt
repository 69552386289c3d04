ghost use Rattle.std.specs.Prelude.{◌≡◌, ◌++◌, IfOk, OnOk, codes, decimal, string_bytes};
ghost use Rattle.std.specs.List.{flat_map};
ghost use Rattle.hex.specs.Hex.{encode_lower};
ghost use Rattle.kd_names.specs.Values.{flag_text, message_type_text, message_type_word, quoted_text, sign_text};

use std::alloc::{AllocError, Global};
use std::fmt::Write;

// Appends a flag.
pub(crate) fn put_flag(out: &mut String, flag: u32) -> Result<(), AllocError>
    ensures { OnOk result (string_bytes out.new ≡ string_bytes out.old ++ flag_text flag) }
{
    if flag == 0 {
        out.push_str("false")
    } else {
        out.push_str("true")
    }
}

// Appends a message type: its number and its name.
pub(crate) fn put_message_type(out: &mut String, number: u32) -> Result<(), AllocError>
    ensures { OnOk result
        (string_bytes out.new ≡ string_bytes out.old ++ message_type_text number) }
{
    let name = message_type_name(number);
    write!(out, "{number} {name}")
}

/// Returns the name of a message type (RFC 2131 section 2), given its number from 1 to 8 (RFC 2132
/// section 9.6). For any other number it is that of 8.
#[tactic(auto, unfolding(crate::specs::Values::message_type_word))]
pub fn message_type_name(number: u32) -> &'static str
    ensures { result.now ≡ message_type_word number }
{
    match number {
        1 => "DISCOVER",
        2 => "OFFER",
        3 => "REQUEST",
        4 => "DECLINE",
        5 => "ACK",
        6 => "NAK",
        7 => "RELEASE",
        _ => "INFORM",
    }
}

// Appends text in quotation marks.
#[tactic(auto, unfolding(crate::specs::Values::quoted_text))]
pub(crate) fn put_quoted(alloc: Global, out: &mut String, value: &[u8]) -> Result<(), AllocError>
    ensures { OnOk result (string_bytes out.new ≡ string_bytes out.old ++ quoted_text value.now) }
{
    out.push_str("\"")?;
    put_signs(alloc, out, value)?;
    out.push_str("\"")
}

/// Appends the bytes of a text as a terminal may show them: `"` and `\` after a backslash, and a
/// byte outside 0x20 to 0x7e as `\x` and two hexadecimal digits.
///
/// # Errors
///
/// Out of memory.
pub fn put_signs(alloc: Global, out: &mut String, value: &[u8]) -> Result<(), AllocError>
    ensures { OnOk result
        (string_bytes out.new ≡ string_bytes out.old ++ flat_map sign_text value.now) }
{
    for byte in value {
        put_sign(alloc, out, *byte)?;
    }
    Ok(())
}

/// Returns the bytes of a text as `put_signs` appends them.
///
/// # Errors
///
/// Out of memory.
pub fn signs_of(alloc: Global, value: &[u8]) -> Result<String, AllocError>
    ensures { IfOk result (λ text. string_bytes text ≡ flat_map sign_text value.now) }
{
    let mut text = String::new(alloc);
    put_signs(alloc, &mut text, value)?;
    Ok(text)
}

// Appends a byte of a text.
#[tactic(auto, unfolding(crate::specs::Values::sign_text))]
fn put_sign(alloc: Global, out: &mut String, byte: u8) -> Result<(), AllocError>
    ensures { OnOk result (string_bytes out.new ≡ string_bytes out.old ++ sign_text byte) }
{
    if byte == b'"' {
        return out.push_str("\\\"");
    }
    if byte == b'\\' {
        return out.push_str("\\\\");
    }
    if b' ' <= byte && byte <= b'~' {
        return out.push(char::from(byte));
    }
    out.push_str("\\x")?;
    put_bytes(alloc, out, &[byte])
}

// Appends bytes in hexadecimal.
pub(crate) fn put_bytes(alloc: Global, out: &mut String, value: &[u8]) -> Result<(), AllocError>
    ensures { OnOk result (string_bytes out.new ≡ string_bytes out.old ++ encode_lower value.now) }
{
    let text = hex::encode(alloc, value)?;
    out.push_str(text.as_str())
}
