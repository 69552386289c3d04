ghost use Rattle.std.specs.Prelude.{◌≡◌, ◌+◌, ◌≤◌, ◌++◌, IfOk, length, codes, decimal, vec_capacity};
ghost use Rattle.hex.specs.Hex.{encode_lower};
ghost use Rattle.kd_event.specs.Reason.{reason_name, reason_number};
ghost use Rattle.kd_text.specs.Text.{address_text, bytes_text};
ghost use Rattle.kd_loops.specs.Recording.{record_line};
ghost use Rattle.kd_loops.specs.Text.{IsSmall, destination_text, line_of, mode_word, quiet_line, reply_line, response_text};

use crate::room::put;
use itoa::Buffer;
use kd_event::{Destination, Handled, Mode, Reason, Response};
use std::alloc::{AllocError, Global};

// The most bytes of an output line, with its line feed.
pub(crate) const LINE_ROOM: usize = 4_096;

// The most bytes of a line of a record, with its line feed; a written line is shorter.
pub(crate) const TEXT_ROOM: usize = 8_216;

/// Returns the line that a replay writes for a handled event, with its line feed.
///
/// # Errors
///
/// Out of memory.
#[tactic(auto, using(crate::proofs::Fitting::handled_fits))]
pub fn event_line(alloc: Global, handled: &Handled) -> Result<Vec<u8>, AllocError>
    requires { IsSmall handled.now.response }
    ensures { IfOk result (λ line. line.items ≡ line_of handled.entry.now) }
{
    // It is below 2^64, so it has at most 20 digits.
    let _moment = handled.now;
    let mut line = Vec::with_capacity(alloc, LINE_ROOM)?;
    put_line(&mut line, handled);
    Ok(line)
}

// Appends the line of an event in a record, with its line feed; allocates no memory.
#[tactic(auto, unfolding(crate::specs::Recording::record_line))]
pub(crate) fn put_event(room: &mut Vec<u8>, moment: u64, bytes: &[u8])
    requires { length room.old.items
        + length (record_line (record { moment = moment; bytes = bytes.now }))
        ≤ vec_capacity room.old }
    ensures items { room.new.items
        ≡ room.old.items ++ record_line (record { moment = moment; bytes = bytes.now }) }
    ensures capacity { vec_capacity room.old ≤ vec_capacity room.new }
{
    put_decimal(room, moment);
    put(room, b" ");
    put_hex(room, bytes);
    put(room, b"\n");
}

// Appends the line of a handled event, with its line feed; allocates no memory.
#[tactic(auto, unfolding(crate::specs::Text::line_of))]
pub(crate) fn put_line(room: &mut Vec<u8>, handled: &Handled)
    requires { length room.old.items + length (line_of handled.now) ≤ vec_capacity room.old }
    ensures items { room.new.items ≡ room.old.items ++ line_of handled.entry.now }
    ensures capacity { vec_capacity room.old ≤ vec_capacity room.new }
{
    put_decimal(room, handled.now);
    put(room, b" ");
    put_response(room, &handled.response);
    put(room, b"\n");
}

fn put_response(room: &mut Vec<u8>, response: &Response)
    requires { length room.old.items + length (response_text response.now) ≤ vec_capacity room.old }
    ensures items { room.new.items ≡ room.old.items ++ response_text response.now }
    ensures capacity { vec_capacity room.old ≤ vec_capacity room.new }
{
    match response {
        Response::Reply(destination, bytes) => put_reply(room, *destination, bytes.as_slice()),
        Response::Quiet(reason) => put_quiet(room, *reason),
    }
}

fn put_reply(room: &mut Vec<u8>, destination: Destination, bytes: &[u8])
    requires { length room.old.items + length (reply_line destination bytes.now)
        ≤ vec_capacity room.old }
    ensures items { room.new.items ≡ room.old.items ++ reply_line destination bytes.now }
    ensures capacity { vec_capacity room.old ≤ vec_capacity room.new }
{
    put(room, b"reply ");
    put_destination(room, destination);
    put(room, b" ");
    put_bytes(room, bytes);
}

fn put_quiet(room: &mut Vec<u8>, reason: Reason)
    requires { length room.old.items
        + length (quiet_line (reason_number reason) (reason_name reason))
        ≤ vec_capacity room.old }
    ensures items { room.new.items ≡ room.old.items
        ++ quiet_line (reason_number reason) (reason_name reason) }
    ensures capacity { vec_capacity room.old ≤ vec_capacity room.new }
{
    put(room, b"quiet ");
    put_decimal(room, u64::from(reason.number()));
    put(room, b" ");
    put(room, reason.name().as_bytes());
}

fn put_destination(room: &mut Vec<u8>, destination: Destination)
    requires { length room.old.items + length (destination_text destination)
        ≤ vec_capacity room.old }
    ensures items { room.new.items ≡ room.old.items ++ destination_text destination }
    ensures capacity { vec_capacity room.old ≤ vec_capacity room.new }
{
    put(room, word(destination.mode).as_bytes());
    put(room, b" ");
    put_address(room, destination.address);
    put(room, b":");
    put_decimal(room, u64::from(destination.port));
}

fn word(mode: Mode) -> &'static str
    ensures { result.now ≡ mode_word mode }
{
    match mode {
        Mode::Relay => "relay",
        Mode::Unicast => "unicast",
        Mode::Broadcast => "broadcast",
        Mode::Hardware => "hardware",
    }
}

fn put_address(room: &mut Vec<u8>, address: u32)
    requires { length room.old.items + length (address_text address) ≤ vec_capacity room.old }
    ensures items { room.new.items ≡ room.old.items ++ address_text address }
    ensures capacity { vec_capacity room.old ≤ vec_capacity room.new }
{
    put_decimal(room, u64::from(address / 0x100_0000));
    put(room, b".");
    put_decimal(room, u64::from(address / 0x1_0000 % 256));
    put(room, b".");
    put_decimal(room, u64::from(address / 0x100 % 256));
    put(room, b".");
    put_decimal(room, u64::from(address % 256));
}

fn put_decimal(room: &mut Vec<u8>, number: u64)
    requires { length room.old.items + length (decimal number) ≤ vec_capacity room.old }
    ensures items { room.new.items ≡ room.old.items ++ decimal number }
    ensures capacity { vec_capacity room.old ≤ vec_capacity room.new }
{
    let mut digits = Buffer::new();
    put(room, digits.format(number).as_bytes());
}

// Appends bytes in hexadecimal, or a dash if there are none.
fn put_bytes(room: &mut Vec<u8>, bytes: &[u8])
    requires { length room.old.items + length (bytes_text bytes.now) ≤ vec_capacity room.old }
    ensures items { room.new.items ≡ room.old.items ++ bytes_text bytes.now }
    ensures capacity { vec_capacity room.old ≤ vec_capacity room.new }
{
    if bytes.is_empty() {
        put(room, b"-");
    } else {
        put_hex(room, bytes);
    }
}

fn put_hex(room: &mut Vec<u8>, bytes: &[u8])
    requires { length room.old.items + length (encode_lower bytes.now) ≤ vec_capacity room.old }
    ensures items { room.new.items ≡ room.old.items ++ encode_lower bytes.now }
    ensures capacity { vec_capacity room.old ≤ vec_capacity room.new }
{
    let start = room.len();
    match room.resize(start + 2 * bytes.len(), 0) {
        Ok(()) => {}
        Err(_) => unreachable!(),
    }
    let (_, text) = room.as_mut_slice().split_at_mut(start);
    match hex::encode_to_slice(bytes, text) {
        Ok(()) => {}
        Err(_) => unreachable!(),
    }
}
