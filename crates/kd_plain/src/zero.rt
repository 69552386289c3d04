ghost use Rattle.std.specs.Prelude.{◌≡◌};
ghost use Rattle.kd_plain.specs.Output.{span_of};
ghost use Rattle.kd_plain.specs.Plain.{a_blank_in_line, byte_or_zero, is_apart, spans};

use crate::space::is_json_space;
use crate::span::TextSpan;

// Returns a byte with a text behind it as it is in JSON: a zero for white space before a point, if a
// number may begin there.
#[tactic(auto, using(crate::proofs::Spans::bytes_of_spans))]
pub(crate) fn json_byte(apart: bool, byte: u8, behind: &[u8]) -> u8
    ensures { result ≡ byte_or_zero apart byte (spans behind.now) }
{
    if apart && is_in_line(byte) && behind.starts_with(b".") {
        b'0'
    } else {
        byte
    }
}

// Whether a byte is white space in a line.
fn is_in_line(byte: u8) -> bool
    ensures { result ≡ a_blank_in_line byte }
{
    is_json_space(byte) && byte != b'\n'
}

// Whether a number may begin behind a span and white space: the span is no digit and no minus sign.
pub(crate) fn is_apart_from(span: TextSpan<'_>) -> bool
    ensures { result ≡ is_apart (span_of span.entry) }
{
    match span {
        TextSpan::Single(byte) => !(byte == b'-' || byte.is_ascii_digit()),
        _ => true,
    }
}
