ghost use Rattle.std.specs.Prelude.{◌≡◌, ◌<◌, ◌^◌, ◌∷◌, ◌++◌, ℕ, Some, decimal};
ghost use Rattle.kd_text.specs.Text.{address_text};

use kd_text::{address_of_word, cut, number_of_word};

/// Reads back an address and a number that were printed with a space between them.
pub fn address_and_number(text: &[u8]) -> Option<(u32, u64)>
    ensures { (a n : ℕ) → a < 2 ^ 32 → n < 2 ^ 64
        → text.now ≡ address_text a ++ 32 ∷ decimal n → result ≡ Some (a, n) }
{
    let (address, number) = cut(text, b' ');
    Some((address_of_word(address)?, number_of_word(number)?))
}
