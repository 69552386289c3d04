ghost use Rattle.std.specs.Prelude.{◌≡◌, ◌≤◌, IfSome, length};
ghost use Rattle.std.specs.List.{position_or_len};
ghost use Rattle.kd_plain.specs.Plain.{a_line_feed, size_with, string_size};

// Returns how many of the bytes belong to a string whose first quotation mark is before them.
pub(crate) fn string_end(bytes: &[u8]) -> usize
    ensures size { result ≡ string_size bytes.now }
    ensures within { result ≤ length bytes.now }
{
    let mut rest = bytes;
    while let [first, behind @ ..] = rest {
        if *first == b'"' {
            return bytes.len() - behind.len();
        }
        rest = match behind {
            [_, further @ ..] if *first == b'\\' => further,
            _ => behind,
        };
    }
    bytes.len()
}

// Returns how many bytes come before the first line feed: all if there is none.
pub(crate) fn line_end(bytes: &[u8]) -> usize
    ensures size { result ≡ position_or_len a_line_feed bytes.now }
    ensures within { result ≤ length bytes.now }
{
    bytes.iter().take_while(|b| **b != b'\n').count()
}

// Returns how many bytes there are up to and with the first occurrence of a sign.
pub(crate) fn end_of_sign(sign: &[u8], bytes: &[u8]) -> Option<usize>
    ensures size { result ≡ size_with sign.now bytes.now }
    ensures within { IfSome result (λ n. n ≤ length bytes.now) }
{
    for at in 0..bytes.len() {
        if bytes[at..].starts_with(sign) {
            return Some(at + sign.len());
        }
    }
    None
}
