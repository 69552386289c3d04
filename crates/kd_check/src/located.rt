ghost use Rattle.std.specs.Prelude.{◌≡◌, ◌++◌, ◌<◌, IfOk, IfSome, OnOk, length, string_bytes};
ghost use Rattle.kd_check.specs.Located.{IsLocatedValue, column_at_place, lines_at, located_lines, row_at_place, title_at};

use crate::line::{line_about, line_start};
use crate::lookup::{spelled_value, value_at_path};
use crate::mark::{line_at, put_place};
use crate::place::place_of;
use crate::unread::title_of_place;
use crate::value::{ended_with, title_of};
use std::alloc::{AllocError, Global};

/// Reports in words what is wrong at a path (RFC 6901) of the JSON text of a configuration. If the
/// text has the key or the item that the path ends with, the report has its line and column, and
/// that line with a mark under the place. Otherwise it is one line. The line is that of `shown`: the
/// text as it was written, if `text` has spaces in place of its comments.
///
/// # Errors
///
/// Out of memory.
pub fn located_report(
    alloc: Global,
    name: &str,
    text: &[u8],
    shown: &[u8],
    path: &str,
    words: &str,
) -> Result<String, AllocError>
    ensures { IfOk result (λ report. string_bytes report
        ≡ located_lines name.now text.now shown.now path.now words.now) }
{
    let place = place_of(text, path);
    let title = located_title(alloc, text, path, place)?;
    let mut report = line_about(alloc, name, &title, words)?;
    put_lines_at(&mut report, text, shown, place)?;
    Ok(report)
}

/// Reports in words what is wrong with the value at a path, as `located_report` does, and shows the
/// value behind the words: at most 64 bytes of its JSON.
///
/// # Errors
///
/// Out of memory.
pub fn located_value_report(
    alloc: Global,
    name: &str,
    text: &[u8],
    shown: &[u8],
    path: &str,
    words: &str,
) -> Result<String, AllocError>
    ensures { IfOk result (λ report. IsLocatedValue name.now text.now shown.now path.now words.now
        (string_bytes report)) }
{
    let place = place_of(text, path);
    let title = located_title(alloc, text, path, place)?;
    let line = line_start(alloc, name, &title, words)?;
    let whole = spelled_value(alloc, text)?;
    let mut report = ended_with(alloc, line, value_at_path(whole.as_ref(), path))?;
    put_lines_at(&mut report, text, shown, place)?;
    Ok(report)
}

// Returns how a path is called, by its place if it has one.
fn located_title(
    alloc: Global,
    text: &[u8],
    path: &str,
    place: Option<usize>,
) -> Result<String, AllocError>
    requires { IfSome place (λ at. at < length text.now) }
    ensures { IfOk result (λ title. string_bytes title ≡ title_at text.now path.now place) }
{
    let Some(place) = place else {
        return String::from_str(alloc, title_of(path));
    };
    let mut title = title_of_place(alloc, row_number(text, place), column_number(text, place))?;
    title.push_str(": ")?;
    title.push_str(title_of(path))?;
    Ok(title)
}

// Appends the line that a place of a text is in, as it is shown, and a mark under the place.
fn put_lines_at(
    out: &mut String,
    text: &[u8],
    shown: &[u8],
    place: Option<usize>,
) -> Result<(), AllocError>
    requires { IfSome place (λ at. at < length text.now) }
    ensures { OnOk result (string_bytes out.new
        ≡ string_bytes out.old ++ lines_at text.now shown.now place) }
{
    match place {
        Some(place) => {
            let line = line_at(shown, row_number(text, place));
            put_place(out, line, Some(column_number(text, place) - 1))
        }
        None => Ok(()),
    }
}

// Returns the number of the line that a place is in, counted from 1.
fn row_number(text: &[u8], place: usize) -> usize
    requires { place < length text.now }
    ensures { result ≡ row_at_place text.now place }
{
    let before = &text[..place];
    before.iter().filter(|byte| **byte == b'\n').count() + 1
}

// Returns the column of a place, counted from 1.
fn column_number(text: &[u8], place: usize) -> usize
    requires { place < length text.now }
    ensures { result ≡ column_at_place text.now place }
{
    let before = &text[..place];
    before
        .iter()
        .rev()
        .take_while(|byte| **byte != b'\n')
        .count()
        + 1
}
