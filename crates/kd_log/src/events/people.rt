ghost use Rattle.std.specs.Prelude.{◌≡◌, ◌∷◌, ◌++◌, [], IfOk, OnOk, codes, option_copied, string_bytes};
ghost use Rattle.std.specs.List.{flat_map};
ghost use Rattle.hex.specs.Hex.{encode_lower};
ghost use Rattle.kd_names.specs.Values.{message_type_word};
ghost use Rattle.kd_options.specs.Kind.{type_number};
ghost use Rattle.kd_options.specs.Message.{mac_of};
ghost use Rattle.kd_log.specs.People.{IsPeopleLine, address_or_dash, colon_byte, mac_text, reply_words, value_text};

use crate::events::time::time_text;
use kd_names::message_type_name;
use kd_options::codes::OPTION_CLIENT_IDENTIFIER;
use kd_options::{Message, MessageType};
use kd_text::{put_address, put_bytes};
use std::alloc::{AllocError, Global};

const RELAY_CIRCUIT: u8 = 1;

const RELAY_REMOTE: u8 = 2;

// Returns the human-readable line of a reply, with its line feed.
pub(crate) fn people_line(
    alloc: Global,
    moment: u64,
    message: &Message<'_>,
) -> Result<String, AllocError>
    ensures { IfOk result (λ text. IsPeopleLine moment message.now (string_bytes text)) }
{
    let mut out = time_text(alloc, moment)?;
    put_type(&mut out, message.kind())?;
    put_reply(alloc, &mut out, message)?;
    out.push_str("\n")?;
    Ok(out)
}

fn put_type(out: &mut String, kind: MessageType) -> Result<(), AllocError>
    ensures { OnOk result
        (string_bytes out.new
        ≡ string_bytes out.old ++ (codes " " ++ message_type_word (type_number kind))) }
{
    out.push_str(" ")?;
    out.push_str(message_type_name(u32::from(kind.number())))
}

// Appends what follows the type of a reply.
fn put_reply(alloc: Global, out: &mut String, message: &Message<'_>) -> Result<(), AllocError>
    ensures { OnOk result (string_bytes out.new ≡ string_bytes out.old ++ reply_words message.now) }
{
    let header = message.header();
    put_mac(alloc, out, message.mac())?;
    put_address_word(out, " ", header.yiaddr)?;
    put_value(
        alloc,
        out,
        " client ",
        message.option(OPTION_CLIENT_IDENTIFIER),
    )?;
    put_address_word(out, " relay ", header.giaddr)?;
    put_value(alloc, out, " circuit ", message.relay(RELAY_CIRCUIT))?;
    put_value(alloc, out, " remote ", message.relay(RELAY_REMOTE))
}

// Appends a space and a hardware address.
fn put_mac(alloc: Global, out: &mut String, mac: &[u8]) -> Result<(), AllocError>
    ensures { OnOk result
        (string_bytes out.new ≡ string_bytes out.old ++ (codes " " ++ mac_text mac.now)) }
{
    out.push_str(" ")?;
    match mac {
        [] => out.push_str("-"),
        [byte, rest @ ..] => {
            put_byte(alloc, out, *byte)?;
            put_bytes_behind(alloc, out, rest)
        }
    }
}

// Appends the bytes of a hardware address after the first.
fn put_bytes_behind(alloc: Global, out: &mut String, bytes: &[u8]) -> Result<(), AllocError>
    ensures { OnOk result
        (string_bytes out.new ≡ string_bytes out.old ++ flat_map colon_byte bytes.now) }
{
    for byte in bytes {
        out.push_str(":")?;
        put_byte(alloc, out, *byte)?;
    }
    Ok(())
}

fn put_byte(alloc: Global, out: &mut String, byte: u8) -> Result<(), AllocError>
    ensures { OnOk result
        (string_bytes out.new ≡ string_bytes out.old ++ encode_lower (byte ∷ [])) }
{
    let text = hex::encode(alloc, [byte])?;
    out.push_str(text.as_str())
}

// Appends a word, and a value in hexadecimal or a dash.
fn put_value(
    alloc: Global,
    out: &mut String,
    word: &str,
    value: Option<&[u8]>,
) -> Result<(), AllocError>
    ensures { OnOk result (string_bytes out.new
        ≡ string_bytes out.old ++ (word.now ++ value_text (option_copied value.entry))) }
{
    out.push_str(word)?;
    match value {
        Some(bytes) => put_bytes(alloc, out, bytes),
        None => out.push_str("-"),
    }
}

// Appends a word, and an address in dotted decimal or a dash.
fn put_address_word(out: &mut String, word: &str, address: u32) -> Result<(), AllocError>
    ensures { OnOk result
        (string_bytes out.new ≡ string_bytes out.old ++ (word.now ++ address_or_dash address)) }
{
    out.push_str(word)?;
    if address == 0 {
        return out.push_str("-");
    }
    put_address(out, address)
}
