//! What is true of every text and its plain text. Each law is the contract of a function that does
//! nothing.
ghost use Rattle.std.specs.Prelude.{◌≡◌, ℕ, List, Some, length};
ghost use Rattle.kd_plain.specs.Plain.{plain, spans};
ghost use Rattle.kd_plain.specs.PlainLaws.{HasNoCommentSign, HasNoFirstPoint, HasNoLastComma};
ghost use Rattle.kd_plain.specs.PlainLaws.{IsBlankedText, IsPlainAlready};

/// The plain text is the text with spaces, and zeros before points, in place of some bytes. None of
/// these is a line feed, and each other byte is in its place. So a line and a column of the one are
/// those of the other.
pub fn plain_text_is_blanked()
    ensures blanked { (text bytes : List ℕ) → plain text ≡ Some bytes → IsBlankedText text bytes }
    ensures length { (text bytes : List ℕ) → plain text ≡ Some bytes
        → length bytes ≡ length text }
{}

/// A text with no comment, no comma before a closing bracket, and no white space right before a point
/// is its own plain text, whatever its strings contain. So is a text without the signs `#` and `/`
/// anywhere, and with no comma before a closing bracket and no white space right before a point, not
/// even in its strings.
pub fn plain_text_stays()
    ensures outside_strings { (text : List ℕ) → IsPlainAlready (spans text)
        → plain text ≡ Some text }
    ensures anywhere { (text : List ℕ) → HasNoCommentSign text → HasNoLastComma text
        → HasNoFirstPoint text → plain text ≡ Some text }
{}
