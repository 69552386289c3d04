ghost use Rattle.std.specs.Prelude.{◌≡◌, ◌++◌, OnOk, IfOk, string_bytes, codes};
ghost use Rattle.std.specs.Fmt.{decimal};
ghost use Rattle.std.specs.List.{flat_map};
ghost use Rattle.kd_options.specs.Relay.{firsts};
ghost use Rattle.kd_options.specs.RelayWalk.{relay_list};
ghost use Rattle.kd_text.specs.Text.{address_text, bytes_text};
ghost use Rattle.kd_answers.specs.Show.{len_line, numbers_line, addresses_line, mac_line, type_line, option_lines, relay_line, entry_line, header_lines, show_text};

use kd_names::put_named;
use kd_options::Message;
use kd_text::{put_address, put_bytes};
use kd_wire::Header;
use std::alloc::{AllocError, Global};
use std::fmt::Write;

// Returns the lines of a message: its header, its options in order of first appearance, and the
// sub-options of its relay information. With `names`, each option that has a name has a second
// line with its name and its value.
pub(crate) fn show(alloc: Global, message: &Message<'_>, names: bool) -> Result<String, AllocError>
    ensures { IfOk result (λ text. string_bytes text ≡ show_text names message.now) }
{
    let mut out = String::new(alloc);
    put_header(alloc, &mut out, message)?;
    put_options(alloc, &mut out, message, names)?;
    put_relays(alloc, &mut out, message)?;
    Ok(out)
}

// The lines of the header and the message type.
fn put_header(alloc: Global, out: &mut String, message: &Message<'_>) -> Result<(), AllocError>
    ensures { OnOk result
        (string_bytes out.new ≡ string_bytes out.old ++ header_lines message.now) }
{
    let header = message.header();
    put_len(out, message.len())?;
    put_numbers(alloc, out, header)?;
    put_addresses(out, header)?;
    put_mac(alloc, out, message)?;
    put_type(out, message)?;
    Ok(())
}

fn put_len(out: &mut String, len: usize) -> Result<(), AllocError>
    ensures { OnOk result (string_bytes out.new ≡ string_bytes out.old ++ len_line len) }
{
    writeln!(out, "len {len}")
}

fn put_numbers(alloc: Global, out: &mut String, header: &Header) -> Result<(), AllocError>
    ensures { OnOk result (string_bytes out.new ≡ string_bytes out.old ++ numbers_line header.now) }
{
    put_number(out, "op ", u16::from(header.op))?;
    put_number(out, " htype ", u16::from(header.htype))?;
    put_number(out, " hlen ", u16::from(header.hlen))?;
    put_number(out, " hops ", u16::from(header.hops))?;
    put_bytes_word(alloc, out, " xid ", &header.xid.to_be_bytes())?;
    put_number(out, " secs ", header.secs)?;
    put_bytes_word(alloc, out, " flags ", &header.flags.to_be_bytes())?;
    out.push_str("\n")?;
    Ok(())
}

fn put_addresses(out: &mut String, header: &Header) -> Result<(), AllocError>
    ensures { OnOk result
        (string_bytes out.new ≡ string_bytes out.old ++ addresses_line header.now) }
{
    put_address_word(out, "ciaddr ", header.ciaddr)?;
    put_address_word(out, " yiaddr ", header.yiaddr)?;
    put_address_word(out, " siaddr ", header.siaddr)?;
    put_address_word(out, " giaddr ", header.giaddr)?;
    out.push_str("\n")?;
    Ok(())
}

fn put_mac(alloc: Global, out: &mut String, message: &Message<'_>) -> Result<(), AllocError>
    ensures { OnOk result
        (string_bytes out.new ≡ string_bytes out.old ++ mac_line message.now.header) }
{
    put_bytes_word(alloc, out, "mac ", message.mac())?;
    out.push_str("\n")?;
    Ok(())
}

fn put_type(out: &mut String, message: &Message<'_>) -> Result<(), AllocError>
    ensures { OnOk result
        (string_bytes out.new ≡ string_bytes out.old ++ type_line message.now.options) }
{
    let number = message.kind().number();
    writeln!(out, "type {number}")
}

fn put_options(
    alloc: Global,
    out: &mut String,
    message: &Message<'_>,
    names: bool,
) -> Result<(), AllocError>
    ensures { OnOk result (string_bytes out.new
        ≡ string_bytes out.old ++ flat_map (option_lines names) message.now.options) }
{
    let mut index = 0;
    while let Some((code, value)) = message.option_at(index) {
        put_option(alloc, out, code, value, names)?;
        index += 1;
    }
    Ok(())
}

// The lines of an option.
fn put_option(
    alloc: Global,
    out: &mut String,
    code: u8,
    value: &[u8],
    names: bool,
) -> Result<(), AllocError>
    ensures { OnOk result
        (string_bytes out.new ≡ string_bytes out.old ++ option_lines names (code, value.now)) }
{
    put_entry(alloc, out, "option ", code, value)?;
    if names {
        put_named(alloc, out, code, value)?;
    }
    Ok(())
}

fn put_relays(alloc: Global, out: &mut String, message: &Message<'_>) -> Result<(), AllocError>
    ensures { OnOk result (string_bytes out.new
        ≡ string_bytes out.old ++ flat_map relay_line (firsts (relay_list message.now.options))) }
{
    let mut index = 0;
    while let Some((code, value)) = message.relay_at(index) {
        put_entry(alloc, out, "relay ", code, value)?;
        index += 1;
    }
    Ok(())
}

// The line of an option or a sub-option.
fn put_entry(
    alloc: Global,
    out: &mut String,
    word: &str,
    code: u8,
    value: &[u8],
) -> Result<(), AllocError>
    ensures { OnOk result
        (string_bytes out.new ≡ string_bytes out.old ++ entry_line word.now (code, value.now)) }
{
    put_number(out, word, u16::from(code))?;
    put_bytes_word(alloc, out, " ", value)?;
    out.push_str("\n")?;
    Ok(())
}

// A word followed by a number in decimal.
fn put_number(out: &mut String, word: &str, number: u16) -> Result<(), AllocError>
    ensures { OnOk result
        (string_bytes out.new ≡ string_bytes out.old ++ (word.now ++ decimal number)) }
{
    write!(out, "{word}{number}")
}

// A word followed by bytes in hexadecimal, or by a dash if there are none.
fn put_bytes_word(
    alloc: Global,
    out: &mut String,
    word: &str,
    bytes: &[u8],
) -> Result<(), AllocError>
    ensures { OnOk result
        (string_bytes out.new ≡ string_bytes out.old ++ (word.now ++ bytes_text bytes.now)) }
{
    out.push_str(word)?;
    put_bytes(alloc, out, bytes)
}

// A word followed by an address in dotted decimal.
fn put_address_word(out: &mut String, word: &str, address: u32) -> Result<(), AllocError>
    ensures { OnOk result
        (string_bytes out.new ≡ string_bytes out.old ++ (word.now ++ address_text address)) }
{
    out.push_str(word)?;
    put_address(out, address)
}
