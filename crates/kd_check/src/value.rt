ghost use Rattle.std.specs.Prelude.{◌≡◌, ◌++◌, IfOk, OnOk, option_map, string_bytes};
ghost use Rattle.kd_check.specs.Report.{IsPathLine, IsShownAfter, IsValueLine, cut_text, path_title};
ghost use Rattle.kd_fields.specs.Text.{value_spelled};
ghost use Rattle.serde_json.specs.View.{view};

use crate::line::line_start;
use crate::lookup::{spelled_value, value_at_path};
use serde_json::Value;
use std::alloc::{AllocError, Global};

// The most bytes of a value that are shown.
const SHOWN: usize = 64;

// Returns the line about what is wrong with the value at a path; the value is shown if there is
// one.
pub(crate) fn value_line(
    alloc: Global,
    name: &str,
    text: &[u8],
    path: &str,
    words: &str,
) -> Result<String, AllocError>
    ensures { IfOk result (λ line. IsPathLine name.now (value_spelled text.now)
        path.now words.now (string_bytes line)) }
{
    let whole = spelled_value(alloc, text)?;
    let line = line_start(alloc, name, title_of(path), words)?;
    ended_with(alloc, line, value_at_path(whole.as_ref(), path))
}

// Ends a line with the value that it is about, if there is one.
pub(crate) fn ended_with(
    alloc: Global,
    mut line: String,
    value: Option<&Value>,
) -> Result<String, AllocError>
    ensures { IfOk result (λ whole. IsValueLine (string_bytes line)
        (option_map (λ v. view v.now) value.entry) (string_bytes whole)) }
{
    if let Some(value) = value {
        put_value(alloc, &mut line, value)?;
    }
    line.push_str("\n")?;
    Ok(line)
}

// Returns how a path is called in a report.
pub(crate) fn title_of(path: &str) -> &str
    ensures { result.now ≡ path_title path.now }
{
    if path == "-" { "the whole text" } else { path }
}

// Appends a value to a statement about it.
fn put_value(alloc: Global, line: &mut String, value: &Value) -> Result<(), AllocError>
    ensures { OnOk result
        (IsShownAfter (string_bytes line.old) (view value.now) (string_bytes line.new)) }
{
    let json = value.to_string(alloc)?;
    line.push_str(": ")?;
    put_cut(line, json.as_str())
}

// Appends a text; if it has more than 64 bytes, only the characters within the first 64, and ` ..`.
fn put_cut(line: &mut String, text: &str) -> Result<(), AllocError>
    ensures { OnOk result (string_bytes line.new ≡ string_bytes line.old ++ cut_text text.now) }
{
    if text.len() <= SHOWN {
        return line.push_str(text);
    }
    line.push_str(&text[..text.floor_char_boundary(SHOWN)])?;
    line.push_str(" ..")
}
