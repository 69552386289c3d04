ghost use Rattle.std.specs.Prelude.{◌≡◌, ◌<◌, ◌∷◌, [], MatchOption, length};
ghost use Rattle.kd_loops.specs.Lines.{lines_of};

use kd_text::cut;

// Returns the first line of a text, without its line feed, and the text after it; none if the text
// is empty.
pub(crate) fn next_line(text: &[u8]) -> Option<(&[u8], &[u8])>
    ensures { MatchOption result (text.now ≡ [])
        (λ parts. (lines_of text.now ≡ parts.0.now ∷ lines_of parts.1.now)
        × (length parts.1.now < length text.now)) }
{
    if text.is_empty() {
        return None;
    }
    Some(cut(text, b'\n'))
}
