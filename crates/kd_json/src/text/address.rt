ghost use Rattle.std.specs.Prelude.{◌≡◌, option_map};
ghost use Rattle.kd_json.specs.Address.{parts_at, after_spaces, before_spaces};

// Splits a text at the first occurrence of a byte, if there is one.
pub(crate) fn cut_at(byte: u8, text: &[u8]) -> Option<(&[u8], &[u8])>
    ensures { option_map (λ x. (x.0.now, x.1.now)) result ≡ parts_at byte text.now }
{
    for (i, b) in text.iter().enumerate() {
        if *b == byte {
            return Some((&text[..i], &text[i + 1..]));
        }
    }
    None
}

// Strips leading spaces.
pub(crate) fn without_first_spaces(text: &[u8]) -> &[u8]
    ensures { result.now ≡ after_spaces text.now }
{
    let mut left = text;
    while let [b' ', rest @ ..] = left {
        left = rest;
    }
    left
}

// Strips trailing spaces.
pub(crate) fn without_last_spaces(text: &[u8]) -> &[u8]
    ensures { result.now ≡ before_spaces text.now }
{
    let mut left = text;
    while let [rest @ .., b' '] = left {
        left = rest;
    }
    left
}
