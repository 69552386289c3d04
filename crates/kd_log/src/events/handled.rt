ghost use Rattle.std.specs.Prelude.{◌≡◌, ◌↔◌, ◌++◌, ◌∷◌, ◌^◌, ◌<◌, ℕ, List, [], Some, IfOk, IfSome, IsTrue, MatchOption, decimal};
ghost use Rattle.hex.specs.Hex.{IsBytes};
ghost use Rattle.kd_event.specs.Reason.{reason_name};
ghost use Rattle.kd_event.specs.declared.destination.Destination.{Destination};
ghost use Rattle.kd_event.specs.declared.destination.Mode.{Mode};
ghost use Rattle.kd_event.specs.declared.event.Handled.{Handled};
ghost use Rattle.kd_event.specs.declared.event.Response.{Response};
ghost use Rattle.kd_event.specs.declared.event.Response.TheVariants as responses;
ghost use Rattle.kd_event.specs.declared.reason.Reason.{Reason};
ghost use Rattle.kd_loops.specs.Text.{IsSmall, line_of, mode_word};
ghost use Rattle.kd_text.specs.Text.{address_text};
ghost use Rattle.kd_log.specs.Logged.{HasBytes, IsHandledLine};
ghost use Rattle.kd_log.specs.LogParts.{AreLineWords, after_mode};

use crate::events::words::{Words, words_of};
use kd_event::{Destination, Handled, Mode, Reason, Response};
use kd_loops::event_line;
use kd_text::{address_of_word, bytes_of_word, cut, number_of_word, port_of_word};
use std::alloc::{AllocError, Global};

// The most bytes that a reply has.
const LONGEST_REPLY: usize = 1472;

// Returns the handled event of a line, if the line is that of one. The line is first read without
// full checks, and then compared with what is written for the result.
pub(crate) fn handled_of_line(alloc: Global, line: &[u8]) -> Result<Option<Handled>, AllocError>
    ensures found { IfOk result (λ found. MatchOption found
        ((handled : Handled) → ¬ IsHandledLine line.now handled)
        (λ handled. IsHandledLine line.now handled)) }
    ensures only { (handled : Handled) → IsHandledLine line.now handled
        → IfOk result (λ found. found ≡ Some handled) }
{
    let Some(handled) = handled_with(alloc, words_of(line))? else {
        return Ok(None);
    };
    if !is_small(&handled.response) || !is_written(alloc, &handled, line)? {
        return Ok(None);
    }
    Ok(Some(handled))
}

// Returns the handled event with these words.
fn handled_with(alloc: Global, words: Words<'_>) -> Result<Option<Handled>, AllocError>
    ensures only { (handled : Handled) → AreLineWords words.entry handled
        → IfOk result (λ found. found ≡ Some handled) }
    ensures moment { IfOk result (λ found. IfSome found (λ handled. handled.now < 2 ^ 64)) }
    ensures bytes { IfOk result (λ found. IfSome found (λ handled. HasBytes handled.response)) }
{
    let Some(now) = number_of_word(words.moment) else {
        return Ok(None);
    };
    let Some(response) = response_with(alloc, words)? else {
        return Ok(None);
    };
    Ok(Some(Handled { now, response }))
}

// Returns the response with these words.
fn response_with(alloc: Global, words: Words<'_>) -> Result<Option<Response>, AllocError>
    ensures only { (handled : Handled) → AreLineWords words.entry handled
        → IfOk result (λ found. found ≡ Some handled.response) }
    ensures bytes { IfOk result (λ found. IfSome found HasBytes) }
{
    match words.second {
        b"reply" => reply_with(alloc, words.third, words.rest),
        b"quiet" => Ok(quiet_with(words.rest)),
        _ => Ok(None),
    }
}

// Returns the reply that is sent in a mode, with these words after the mode.
fn reply_with(alloc: Global, mode: &[u8], rest: &[u8]) -> Result<Option<Response>, AllocError>
    ensures only { (destination : Destination) (bytes : List ℕ)
        → IsSmall (responses.Reply destination bytes) → IsBytes bytes
        → mode.now ≡ mode_word destination.mode → rest.now ≡ after_mode destination bytes
        → IfOk result (λ found. found ≡ Some (responses.Reply destination bytes)) }
    ensures bytes { IfOk result (λ found. IfSome found HasBytes) }
{
    let (address, rest) = cut(rest, b':');
    let (port, hex) = cut(rest, b' ');
    let Some(destination) = destination_of_words(mode, address, port) else {
        return Ok(None);
    };
    let Some(bytes) = bytes_of_word(alloc, hex)? else {
        return Ok(None);
    };
    Ok(Some(Response::Reply(destination, bytes)))
}

fn destination_of_words(mode: &[u8], address: &[u8], port: &[u8]) -> Option<Destination>
    ensures { (destination : Destination) → destination.address < 2 ^ 32
        → destination.port < 2 ^ 16 → mode.now ≡ mode_word destination.mode
        → address.now ≡ address_text destination.address → port.now ≡ decimal destination.port
        → result ≡ Some destination }
{
    Some(Destination {
        mode: mode_of_word(mode)?,
        address: address_of_word(address)?,
        port: port_of_word(port)?,
    })
}

// Returns the mode that a word stands for.
fn mode_of_word(word: &[u8]) -> Option<Mode>
    ensures { (mode : Mode) → word.now ≡ mode_word mode → result ≡ Some mode }
{
    match word {
        b"relay" => Some(Mode::Relay),
        b"unicast" => Some(Mode::Unicast),
        b"broadcast" => Some(Mode::Broadcast),
        b"hardware" => Some(Mode::Hardware),
        _ => None,
    }
}

// Returns the response without a reply, for the reason with this name.
fn quiet_with(name: &[u8]) -> Option<Response>
    ensures only { (reason : Reason) → name.now ≡ reason_name reason
        → result ≡ Some (responses.Quiet reason) }
    ensures bytes { IfSome result HasBytes }
{
    Some(Response::Quiet(reason_of_name(name)?))
}

// Returns the reason with this name.
fn reason_of_name(name: &[u8]) -> Option<Reason>
    ensures { (reason : Reason) → name.now ≡ reason_name reason → result ≡ Some reason }
{
    match name {
        b"Unreadable" => Some(Reason::Unreadable),
        b"NotRequest" => Some(Reason::NotRequest),
        b"NoIdentity" => Some(Reason::NoIdentity),
        b"DropClass" => Some(Reason::DropClass),
        b"NoSubnet" => Some(Reason::NoSubnet),
        b"NoAddress" => Some(Reason::NoAddress),
        b"NoRequested" => Some(Reason::NoRequested),
        b"OtherServer" => Some(Reason::OtherServer),
        b"NoRecord" => Some(Reason::NoRecord),
        b"NoCiaddr" => Some(Reason::NoCiaddr),
        b"ReplyTooLong" => Some(Reason::ReplyTooLong),
        b"Released" => Some(Reason::Released),
        b"Declined" => Some(Reason::Declined),
        b"NotHeld" => Some(Reason::NotHeld),
        _ => None,
    }
}

// Reports whether a reply has no more bytes than a server sends.
fn is_small(response: &Response) -> bool
    ensures { IsTrue result ↔ IsSmall response.now }
{
    match response {
        Response::Reply(destination, bytes) => {
            // They are below 2^32 and 2^16.
            let (_address, _port) = (destination.address, destination.port);
            bytes.as_slice().len() <= LONGEST_REPLY
        }
        Response::Quiet(_) => true,
    }
}

// Reports whether a line, with a line feed, is what is written for a handled event.
fn is_written(alloc: Global, handled: &Handled, line: &[u8]) -> Result<bool, AllocError>
    requires { IsSmall handled.now.response }
    ensures { IfOk result
        (λ same. IsTrue same ↔ (line_of handled.entry.now ≡ line.now ++ 10 ∷ [])) }
{
    let text = event_line(alloc, handled)?;
    match text.as_slice().split_last() {
        Some((_, front)) => Ok(front == line),
        None => Ok(false),
    }
}
