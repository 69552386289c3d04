//! The text of a configuration as plain JSON (`specs/Plain.antt`).
ghost use Rattle.std.specs.Prelude.{◌≡◌, IfOk, option_map};
ghost use Rattle.kd_plain.specs.Plain.{plain};

use crate::output::Output;
use crate::span::{TextSpan, cut_span};
use crate::zero::{is_apart_from, json_byte};
use std::alloc::{AllocError, Global};

/// Returns the JSON text that a text stands for, with each other byte in its place. Kea allows three
/// things that JSON does not: comments (from `#` or `//` to the end of the line, and `/* .. */`), a
/// comma before a closing bracket, and a number that begins with its point. Comments and such commas
/// become spaces; line feeds stay. White space before such a point becomes a zero, if there is some
/// in its line. Strings stay as they are. Returns `None` if a `/*` has no `*/`.
///
/// # Errors
///
/// Out of memory.
pub fn plain_text(alloc: Global, text: &[u8]) -> Result<Option<Vec<u8>>, AllocError>
    ensures { IfOk result (λ it. option_map (λ bytes. bytes.items) it ≡ plain text.now) }
{
    let mut output = Output::new(alloc, text.len())?;
    let mut rest = text;
    let mut apart = true;
    while let Some((span, behind)) = cut_span(rest) {
        match span {
            TextSpan::Quoted(string) => output.push_string(string)?,
            TextSpan::Comment(comment) => output.push_comment(comment)?,
            TextSpan::Endless(_) => return Ok(None),
            TextSpan::Single(byte) => output.push_byte(json_byte(apart, byte, behind))?,
        }
        apart = is_apart_from(span);
        rest = behind;
    }
    Ok(Some(output.into_bytes()))
}
