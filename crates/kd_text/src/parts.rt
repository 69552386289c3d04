ghost use Rattle.kd_text.specs.Words.{IsCutOff};

use memchr::memchr;

/// Splits a text at the first occurrence of a byte; if there is none, the second part is empty.
pub fn cut(text: &[u8], byte: u8) -> (&[u8], &[u8])
    ensures { IsCutOff byte text.now result.0.now result.1.now }
{
    match memchr(byte, text) {
        Some(at) => (&text[..at], &text[at + 1..]),
        None => text.split_at(text.len()),
    }
}
