ghost use Rattle.std.specs.Prelude.{◌≡◌, IfOk, List, MatchOption, ℕ, string_bytes};
ghost use Rattle.kd_options.specs.Message.{Reads, Seen};
ghost use Rattle.kd_log.specs.Logged.{is_remark};
ghost use Rattle.kd_log.specs.Printed.{IsEventText, IsTextFor};

use crate::events::filter::Filter;
use crate::events::handled::handled_of_line;
use crate::events::people::people_line;
use kd_event::Response;
use kd_options::{Message, ReadFault};
use std::alloc::{AllocError, Global};

/// Returns what is printed for a line of a log, given without its line feed: for a selected reply,
/// a human-readable line; for any other event, and for a remark of `serve`, an empty text; and
/// `None` for a bad line.
///
/// # Errors
///
/// Out of memory.
pub fn text_of_line(
    alloc: Global,
    line: &[u8],
    filter: &Filter,
) -> Result<Option<String>, AllocError>
    ensures { IfOk result (λ found. MatchOption found
        ((text : List ℕ) → ¬ IsEventText filter.now line.now text)
        (λ text. IsEventText filter.now line.now (string_bytes text))) }
{
    if is_a_remark(line) {
        return Ok(Some(String::new(alloc)));
    }
    let Some(handled) = handled_of_line(alloc, line)? else {
        return Ok(None);
    };
    match &handled.response {
        Response::Reply(_, bytes) => message_text(alloc, handled.now, bytes.as_slice(), filter),
        Response::Quiet(_) => Ok(Some(String::new(alloc))),
    }
}

// Reports whether a line is a remark.
fn is_a_remark(line: &[u8]) -> bool
    ensures { result ≡ is_remark line.now }
{
    line.starts_with(b"fault ") || line.starts_with(b"serving ")
}

// Returns what is printed for a reply with these bytes, if they read as a message.
fn message_text(
    alloc: Global,
    moment: u64,
    bytes: &[u8],
    filter: &Filter,
) -> Result<Option<String>, AllocError>
    ensures { IfOk result (λ found. MatchOption found
        ((m : Seen) → ¬ Reads bytes.now m)
        (λ text. (m : Seen) × Reads bytes.now m
        × IsTextFor filter.now moment m (string_bytes text))) }
{
    match Message::read(alloc, bytes) {
        Ok(message) => {
            if !filter.is_for(&message) {
                return Ok(Some(String::new(alloc)));
            }
            Ok(Some(people_line(alloc, moment, &message)?))
        }
        Err(ReadFault::Memory) => Err(AllocError),
        Err(_) => Ok(None),
    }
}
