ghost use Rattle.std.specs.Prelude.{◌≡◌, option_and_then, option_map, reverse};
ghost use Rattle.serde_json.specs.Find.{as_str};
ghost use Rattle.serde_json.specs.View.{view};
ghost use Rattle.kd_fields.specs.Gives.{Means};
ghost use Rattle.kd_fields.specs.declared.faults.SettingsFault.TheVariants.{Memory};
ghost use Rattle.kd_keys.specs.Quoted.{a_blank_here, behind_blanks, between_ends, bytes_in_quotes, bytes_written, is_in_quotes, without_blanks};

use crate::whole_bytes::check_whole;
use kd_fields::faults::SettingsFault;
use kd_fields::place::{Place, bad_place};
use kd_fields::values::{bytes_at, own_bytes};
use kd_wire::Bytes;
use serde_json::Value;
use std::alloc::Global;

// Reads the bytes of a value, in single quotation marks or else in hexadecimal: at most `most`.
pub(crate) fn read_bytes(
    alloc: Global,
    value: &Value,
    at: &Place<'_>,
    most: usize,
) -> Result<Bytes, SettingsFault>
    ensures { Means Memory result (bytes_written most (view value.now)) }
{
    match quoted_in(value) {
        Some(bytes) if bytes.len() <= most => Ok(own_bytes(alloc, bytes)?),
        Some(_) => Err(bad_place(alloc, at)),
        None => {
            check_whole(alloc, value, at)?;
            bytes_at(alloc, value, at, 0, most)
        }
    }
}

// Returns the bytes of a value that is a text in quotation marks.
fn quoted_in(value: &Value) -> Option<&[u8]>
    ensures { option_map (λ bytes. bytes.now) result
        ≡ option_and_then bytes_in_quotes (as_str (view value.now)) }
{
    match value.as_str() {
        Some(text) => text_in_quotes(text.as_bytes()),
        None => None,
    }
}

// Returns the bytes of a text in single quotation marks, without blanks around the marks and inside
// them, if any are left.
#[tactic(auto, unfolding(crate::specs::Quoted::bytes_in_quotes))]
fn text_in_quotes(text: &[u8]) -> Option<&[u8]>
    ensures { option_map (λ bytes. bytes.now) result ≡ bytes_in_quotes text.now }
{
    let whole = trimmed(text);
    if !is_quoted(whole) {
        return None;
    }
    match trimmed(inside(whole)) {
        [] => None,
        bytes => Some(bytes),
    }
}

// Reports whether a text begins with a quotation mark and ends with another one.
fn is_quoted(text: &[u8]) -> bool
    ensures { result ≡ is_in_quotes text.now }
{
    2 <= text.len() && text.starts_with(b"'") && text.ends_with(b"'")
}

// Returns what is between the first byte of a text and its last.
fn inside(text: &[u8]) -> &[u8]
    ensures { result.now ≡ between_ends text.now }
{
    match text {
        [_, bytes @ .., _] => bytes,
        _ => &[],
    }
}

// Strips blanks before and behind a text.
fn trimmed(text: &[u8]) -> &[u8]
    ensures { result.now ≡ without_blanks text.now }
{
    without_last_blanks(without_first_blanks(text))
}

// Strips leading blanks.
fn without_first_blanks(text: &[u8]) -> &[u8]
    ensures { result.now ≡ behind_blanks text.now }
{
    let mut left = text;
    while let [first, rest @ ..] = left {
        if !is_blank(*first) {
            return left;
        }
        left = rest;
    }
    left
}

// Strips trailing blanks.
fn without_last_blanks(text: &[u8]) -> &[u8]
    ensures { result.now ≡ reverse (behind_blanks (reverse text.now)) }
{
    let mut left = text;
    while let [rest @ .., last] = left {
        if !is_blank(*last) {
            return left;
        }
        left = rest;
    }
    left
}

// Whether a byte is a blank here: a space, tab or line feed.
fn is_blank(b: u8) -> bool
    ensures { result ≡ a_blank_here b }
{
    b == b' ' || b == b'\t' || b == b'\n'
}
