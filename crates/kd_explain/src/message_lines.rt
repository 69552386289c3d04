ghost use Rattle.std.specs.Prelude.{◌≡◌, ◌++◌, OnOk, codes, string_bytes};
ghost use Rattle.kd_lease.specs.Client.{kind_of};
ghost use Rattle.kd_explain.specs.FoundLines.{client_words, header_words, message_lines, moment_line, option_words};
ghost use Rattle.kd_names.specs.Values.{message_type_word};
ghost use Rattle.kd_explain.specs.Words.{address_word, bytes_word};

use crate::text::Scene;
use crate::words::{nonzero_address, put_address_or_dash, type_name};
use kd_lease::{requested_of, server_of};
use kd_options::Message;
use kd_text::put_bytes;
use kd_wire::{Bytes, Header};
use std::alloc::{AllocError, Global};
use std::fmt::Write;

// Prints the lines of the time and of the message: its type, its client and the addresses in it.
#[tactic(auto, unfolding(crate::specs::FoundLines::message_lines))]
pub(crate) fn put_message(out: &mut String, scene: &Scene<'_>) -> Result<(), AllocError>
    ensures { OnOk result (string_bytes out.new ≡ string_bytes out.old
        ++ message_lines scene.now.moment scene.now.message.now scene.now.explanation.now.client) }
{
    put_moment(out, scene.moment)?;
    put_client(scene.alloc, out, scene.message, &scene.explanation.client)?;
    put_header(out, scene.message.header())?;
    put_options(out, scene.message)
}

fn put_moment(out: &mut String, moment: u64) -> Result<(), AllocError>
    ensures { OnOk result (string_bytes out.new ≡ string_bytes out.old ++ moment_line moment) }
{
    writeln!(out, "moment {moment}")
}

#[tactic(auto, unfolding(crate::specs::FoundLines::client_words))]
fn put_client(
    alloc: Global,
    out: &mut String,
    message: &Message<'_>,
    client: &Option<Bytes>,
) -> Result<(), AllocError>
    ensures { OnOk result (string_bytes out.new
        ≡ string_bytes out.old ++ client_words message.now client.now) }
{
    put_type(out, message)?;
    put_bytes(alloc, out, message.mac())?;
    out.push_str(" client ")?;
    put_identity(alloc, out, client)
}

fn put_type(out: &mut String, message: &Message<'_>) -> Result<(), AllocError>
    ensures { OnOk result (string_bytes out.new ≡ string_bytes out.old
        ++ (codes "message " ++ message_type_word (kind_of message.now) ++ codes " mac ")) }
{
    let name = type_name(message.kind());
    write!(out, "message {name} mac ")
}

fn put_identity(alloc: Global, out: &mut String, client: &Option<Bytes>) -> Result<(), AllocError>
    ensures { OnOk result (string_bytes out.new ≡ string_bytes out.old ++ bytes_word client.now) }
{
    match client {
        Some(client) => put_bytes(alloc, out, client.as_slice()),
        None => out.push_str("-"),
    }
}

#[tactic(auto, unfolding(crate::specs::FoundLines::header_words))]
fn put_header(out: &mut String, header: &Header) -> Result<(), AllocError>
    ensures { OnOk result (string_bytes out.new ≡ string_bytes out.old ++ header_words header.now) }
{
    out.push_str(" relay ")?;
    put_address_or_dash(out, nonzero_address(header.giaddr))?;
    out.push_str(" ciaddr ")?;
    put_address_or_dash(out, nonzero_address(header.ciaddr))
}

#[tactic(auto, unfolding(crate::specs::FoundLines::option_words))]
fn put_options(out: &mut String, message: &Message<'_>) -> Result<(), AllocError>
    ensures { OnOk result (string_bytes out.new
        ≡ string_bytes out.old ++ option_words message.now) }
{
    out.push_str(" requested ")?;
    put_address_or_dash(out, requested_of(message))?;
    out.push_str(" server ")?;
    put_address_or_dash(out, server_of(message))?;
    out.push_str("\n")
}
