ghost use Rattle.std.specs.Prelude.{◌≡◌};
ghost use Rattle.std.specs.Str.{all_ascii_digits};
ghost use Rattle.kd_commands.specs.Values.{are_digits, event_line_of, number_of, port_of};

// The most digits of a number.
const MOST_DIGITS: usize = 20;

// The last line of an event that can be explained.
const LAST_EVENT_LINE: u64 = 1_000_000;

// Returns the number in a text, if the text is one.
pub(crate) fn number_in(text: &str) -> Option<u64>
    ensures { result ≡ number_of text.now }
{
    if is_numeral(text) {
        text.parse::<u64>().ok()
    } else {
        None
    }
}

// Returns the port in a text, if the text is one.
pub(crate) fn port_in(text: &str) -> Option<u16>
    ensures { result ≡ port_of text.now }
{
    match number_in(text) {
        Some(number) if number > 0 && number < 65_536 => Some(number as u16),
        _ => None,
    }
}

// Returns the line number of an event in a text, if the text is one.
pub(crate) fn event_line_in(text: &str) -> Option<u64>
    ensures { result ≡ event_line_of text.now }
{
    match number_in(text) {
        Some(line) if line > 0 && line <= LAST_EVENT_LINE => Some(line),
        _ => None,
    }
}

// Reports whether a text is 1 to 20 decimal digits.
fn is_numeral(text: &str) -> bool
    ensures { result ≡ are_digits text.now }
{
    if text.is_empty() || text.len() > MOST_DIGITS {
        return false;
    }
    has_digits_only(text.as_bytes())
}

// Reports whether each byte is a decimal digit.
fn has_digits_only(bytes: &[u8]) -> bool
    ensures { result ≡ all_ascii_digits bytes.now }
{
    for byte in bytes {
        if !byte.is_ascii_digit() {
            return false;
        }
    }
    true
}
