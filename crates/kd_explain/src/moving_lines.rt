ghost use Rattle.std.specs.Prelude.{◌≡◌, ◌++◌, OnOk, codes, string_bytes};
ghost use Rattle.kd_lease.specs.Rules.{asking, serving_subnet};
ghost use Rattle.kd_explain.specs.CheckLines.{awaited_address, reserved_elsewhere, reserved_words, stays_line, use_word};
ghost use Rattle.kd_explain.specs.Words.{yes_word};

use crate::words::yes_or_no;
use kd_lease::{Question, awaited};
use kd_text::put_address;
use std::alloc::AllocError;

// Returns the address, other than the one that a message is about, that is reserved for its client, in a
// configuration whose clients are to move.
pub(crate) fn awaited_of(question: &Question<'_>, address: Option<u32>) -> Option<u32>
    ensures { result ≡ awaited_address (asking question.now) address }
{
    if question.config.extensions().moves_clients {
        elsewhere(question, address)
    } else {
        None
    }
}

fn elsewhere(question: &Question<'_>, address: Option<u32>) -> Option<u32>
    ensures { let q = asking question.now in
        result ≡ reserved_elsewhere q (serving_subnet q) address }
{
    match (question.subnet, address) {
        (Some(subnet), Some(address)) => awaited(question, subnet, address),
        _ => None,
    }
}

// Prints whether the client stays where it is, if another address is reserved for it.
pub(crate) fn put_stays(
    out: &mut String,
    stays: bool,
    awaited: Option<u32>,
) -> Result<(), AllocError>
    ensures { OnOk result (string_bytes out.new
        ≡ string_bytes out.old ++ stays_line stays awaited) }
{
    match awaited {
        Some(address) => put_awaited(out, stays, address),
        None => Ok(()),
    }
}

fn put_awaited(out: &mut String, stays: bool, address: u32) -> Result<(), AllocError>
    ensures { OnOk result (string_bytes out.new ≡ string_bytes out.old
        ++ (codes "check stays: " ++ yes_word stays ++ codes ", "
        ++ reserved_words stays address)) }
{
    out.push_str("check stays: ")?;
    out.push_str(yes_or_no(stays))?;
    out.push_str(", ")?;
    put_reserved(out, stays, address)
}

fn put_reserved(out: &mut String, is_used: bool, address: u32) -> Result<(), AllocError>
    ensures { OnOk result (string_bytes out.new
        ≡ string_bytes out.old ++ reserved_words is_used address) }
{
    put_address(out, address)?;
    out.push_str(" is reserved for the client and ")?;
    out.push_str(use_phrase(is_used))?;
    out.push_str("\n")
}

fn use_phrase(is_used: bool) -> &'static str
    ensures { result.now ≡ use_word is_used }
{
    if is_used { "in use" } else { "unused" }
}
