ghost use Rattle.std.specs.Prelude.{◌≡◌, ◌≤◌, ◌<◌, [], ◌∷◌, ◌++◌, IfNone, IfSome, length};
ghost use Rattle.kd_plain.specs.Output.{span_of};
ghost use Rattle.kd_plain.specs.Plain.{begins_line_comment, block_comment, span_bytes, spans};

use crate::ends::{end_of_sign, line_end, string_end};

// A part of a text.
#[derive(Clone, Copy)]
pub(crate) enum TextSpan<'a> {
    /// A string with its quotation marks.
    Quoted(&'a [u8]),
    /// A comment with its signs.
    Comment(&'a [u8]),
    /// A block comment that has no end.
    Endless(&'a [u8]),
    /// Any other byte.
    Single(u8),
}

// Cuts off the span that a text begins with.
pub(crate) fn cut_span(text: &[u8]) -> Option<(TextSpan<'_>, &[u8])>
    ensures none { IfNone result (text.now ≡ []) }
    ensures first { IfSome result (λ x. spans text.now ≡ span_of x.0 ∷ spans x.1.now) }
    ensures shorter { IfSome result (λ x. length x.1.now < length text.now) }
{
    let (first, rest) = text.split_first()?;
    if *first == b'"' {
        let (string, behind) = text.split_at(1 + string_end(rest));
        Some((TextSpan::Quoted(string), behind))
    } else if is_line_comment(text) {
        let (comment, behind) = text.split_at(line_end(text));
        Some((TextSpan::Comment(comment), behind))
    } else if text.starts_with(b"/*") {
        Some(cut_block(text))
    } else {
        Some((TextSpan::Single(*first), rest))
    }
}

// Whether a text begins with a comment that goes to the end of the line.
fn is_line_comment(text: &[u8]) -> bool
    ensures { result ≡ begins_line_comment text.now }
{
    text.starts_with(b"#") || text.starts_with(b"//")
}

// Cuts off the block comment that a text begins with.
fn cut_block(text: &[u8]) -> (TextSpan<'_>, &[u8])
    requires { 2 ≤ length text.now }
    ensures first { span_of result.0 ≡ block_comment text.now }
    ensures behind { text.now ≡ span_bytes (span_of result.0) ++ result.1.now }
{
    match end_of_sign(b"*/", &text[2..]) {
        Some(size) => {
            let (comment, behind) = text.split_at(2 + size);
            (TextSpan::Comment(comment), behind)
        }
        None => (TextSpan::Endless(text), &text[text.len()..]),
    }
}
