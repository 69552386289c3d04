ghost use Rattle.std.specs.Prelude.{◌≡◌, ◌<◌, ◌≤◌, ◌++◌, OnOk, length, map, option_map, replicate, string_bytes, take};
ghost use Rattle.kd_check.specs.Mark.{line_numbered, mark_line, marked_lines, part_line, place_lines, shown_byte, shown_from};

use std::alloc::AllocError;

// The most bytes of a text that are shown.
const SHOWN: usize = 200;

// Appends the two lines that show a place in a text, if there are both.
pub(crate) fn put_place(
    out: &mut String,
    text: Option<&[u8]>,
    place: Option<usize>,
) -> Result<(), AllocError>
    ensures { OnOk result (string_bytes out.new
        ≡ string_bytes out.old ++ place_lines (option_map (λ t. t.now) text.entry) place) }
{
    match (text, place) {
        (Some(text), Some(place)) => put_marked(out, text, place),
        _ => Ok(()),
    }
}

// Returns the line of a text with this number, counted from 1, without its line feed.
pub(crate) fn line_at(text: &[u8], row: usize) -> Option<&[u8]>
    ensures { option_map (λ line. line.now) result ≡ line_numbered text.now row }
{
    text.split(|byte| *byte == b'\n').nth(row.saturating_sub(1))
}

// Appends the line of a text around a place, and a line with a mark under the place.
fn put_marked(out: &mut String, text: &[u8], place: usize) -> Result<(), AllocError>
    ensures { OnOk result (string_bytes out.new
        ≡ string_bytes out.old ++ marked_lines text.now place) }
{
    let place = place.min(text.len());
    put_part(out, text, place)?;
    put_mark(out, text, place)
}

// Appends the line of a text around a place.
#[tactic(auto, unfolding(crate::specs::Mark::part_line))]
fn put_part(out: &mut String, text: &[u8], place: usize) -> Result<(), AllocError>
    requires { place ≤ length text.now }
    ensures { OnOk result (string_bytes out.new
        ≡ string_bytes out.old ++ part_line text.now place) }
{
    out.push_str("  ")?;
    let rest = &text[first_shown(text, place)..];
    put_shown_bytes(out, first_bytes(rest, SHOWN))?;
    out.push_str("\n")
}

// Appends the line with the mark under a place.
#[tactic(auto, unfolding(crate::specs::Mark::mark_line))]
fn put_mark(out: &mut String, text: &[u8], place: usize) -> Result<(), AllocError>
    requires { place ≤ length text.now }
    ensures { OnOk result (string_bytes out.new
        ≡ string_bytes out.old ++ mark_line text.now place) }
{
    out.push_str("  ")?;
    put_spaces(out, place - first_shown(text, place))?;
    out.push_str("^\n")
}

// Returns where the part of a text that is shown for a place begins.
fn first_shown(text: &[u8], place: usize) -> usize
    ensures value { result ≡ shown_from text.now place }
    ensures before { result ≤ place }
{
    if text.len() <= SHOWN {
        0
    } else {
        place.saturating_sub(SHOWN / 2)
    }
}

// Returns the first `count` bytes of a text, or all if there are fewer.
fn first_bytes(text: &[u8], count: usize) -> &[u8]
    ensures { result.now ≡ take count text.now }
{
    if text.len() <= count {
        text
    } else {
        &text[..count]
    }
}

// Appends bytes as they are shown.
fn put_shown_bytes(out: &mut String, bytes: &[u8]) -> Result<(), AllocError>
    ensures { OnOk result (string_bytes out.new
        ≡ string_bytes out.old ++ map shown_byte bytes.now) }
{
    for byte in bytes {
        out.push(char::from(in_ascii(*byte)))?;
    }
    Ok(())
}

// Returns a byte as it is shown.
fn in_ascii(byte: u8) -> u8
    ensures value { result ≡ shown_byte byte }
    ensures ascii { result < 128 }
{
    match byte {
        b'\t' | b'\r' => b' ',
        b' '..=b'~' => byte,
        _ => b'.',
    }
}

// Appends `count` spaces.
fn put_spaces(out: &mut String, count: usize) -> Result<(), AllocError>
    ensures { OnOk result (string_bytes out.new ≡ string_bytes out.old ++ replicate count 32) }
{
    for _ in 0..count {
        out.push(' ')?;
    }
    Ok(())
}
