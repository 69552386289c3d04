ghost use Rattle.std.specs.Prelude.{◌≡◌, option_copied};
ghost use Rattle.std.specs.List.{before_first};
ghost use Rattle.kd_plain.specs.Plain.{begins_include, directive_of, a_line_feed, first_include, spans};

use crate::ends::{end_of_sign, line_end};
use crate::space::after_spaces;
use crate::span::cut_span;

/// Returns the first include directive (`<?include "..."?>`) of a text that is outside strings and
/// comments: up to and with its `?>`, or to the end of its line. A text that has one is not JSON,
/// and Kea reads another file there.
pub fn include_in(text: &[u8]) -> Option<&[u8]>
    ensures { option_copied result ≡ first_include (spans text.now) }
{
    let mut rest = text;
    while let Some((_, behind)) = cut_span(rest) {
        if is_include(rest) {
            return Some(directive(rest));
        }
        rest = behind;
    }
    None
}

// Whether a text begins with an include directive.
fn is_include(text: &[u8]) -> bool
    ensures { result ≡ begins_include text.now }
{
    text.starts_with(b"<?") && after_spaces(&text[2..]).starts_with(b"include")
}

// Returns the directive that a text begins with.
fn directive(text: &[u8]) -> &[u8]
    ensures { result.now ≡ directive_of (before_first a_line_feed text.now) }
{
    let line = &text[..line_end(text)];
    let size = end_of_sign(b"?>", line).unwrap_or(line.len());
    &line[..size]
}
