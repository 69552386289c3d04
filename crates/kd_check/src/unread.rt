ghost use Rattle.std.specs.Prelude.{◌≡◌, IfOk, string_bytes};
ghost use Rattle.std.specs.Str.{is_utf8};
ghost use Rattle.kd_check.specs.Report.{IsJsonReport, IsUnreadReport, place_title, unread_words};
ghost use Rattle.kd_fields.specs.Text.{value_spelled};

use crate::line::{line_about, line_of_all};
use crate::mark::{line_at, put_place};
use serde_json::{Error, Value};
use std::alloc::{AllocError, Global};

// Reports a text that was refused as not JSON.
#[tactic(auto, using(kd_fields::proofs::Documents::spelled, kd_fields::proofs::Documents::not_spelled))]
pub(crate) fn json_report_in(alloc: Global, name: &str, text: &[u8]) -> Result<String, AllocError>
    ensures { IfOk result
        (λ report. IsJsonReport name.now text.now (value_spelled text.now) (string_bytes report)) }
{
    match Value::from_slice(alloc, text) {
        Ok(_) => line_of_all(alloc, name, "not a configuration"),
        Err(error) if error.is_memory() => Err(AllocError),
        Err(error) => unread_report_in(alloc, name, text, error),
    }
}

// Reports a text that is not JSON: where, why, and that line of the text.
fn unread_report_in(
    alloc: Global,
    name: &str,
    text: &[u8],
    error: Error,
) -> Result<String, AllocError>
    ensures { IfOk result (λ report. IsUnreadReport name.now text.now (string_bytes report)) }
{
    let (row, column) = (error.line(), error.column());
    let place = title_of_place(alloc, row, column)?;
    let mut report = line_about(alloc, name, &place, why_unread(text, error.is_eof()))?;
    let before = column.saturating_sub(1);
    put_place(&mut report, line_at(text, row), Some(before))?;
    Ok(report)
}

// Returns how a place in a text is called.
pub(crate) fn title_of_place(alloc: Global, row: usize, column: usize) -> Result<String, AllocError>
    ensures { IfOk result (λ title. string_bytes title ≡ place_title row column) }
{
    format!(in alloc; "line {row}, column {column}")
}

// Returns why a text cannot be read as JSON.
fn why_unread(text: &[u8], cut: bool) -> &'static str
    ensures { result.now ≡ unread_words (is_utf8 text.now) cut }
{
    match str::from_utf8(text) {
        Ok(_) if cut => "not JSON: the text ends too early",
        Ok(_) => "not JSON",
        Err(_) => "not UTF-8",
    }
}
