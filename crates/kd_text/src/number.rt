ghost use Rattle.std.specs.Prelude.{◌≡◌, ℕ, ◌^◌, ◌<◌, Some, decimal};

/// Returns the number of a text that is one in decimal. Nothing is promised for any other text.
pub fn number_of_word(word: &[u8]) -> Option<u64>
    ensures { (n : ℕ) → n < 2 ^ 64 → word.now ≡ decimal n → result ≡ Some n }
{
    match str::from_utf8(word) {
        Ok(text) => text.parse::<u64>().ok(),
        Err(_) => None,
    }
}

/// Returns the port of a text that is one in decimal. Nothing is promised for any other text.
pub fn port_of_word(word: &[u8]) -> Option<u16>
    ensures { (n : ℕ) → n < 2 ^ 16 → word.now ≡ decimal n → result ≡ Some n }
{
    match str::from_utf8(word) {
        Ok(text) => text.parse::<u16>().ok(),
        Err(_) => None,
    }
}

/// Returns the byte of a text that is one in decimal. Nothing is promised for any other text.
pub fn byte_of_word(word: &[u8]) -> Option<u8>
    ensures { (n : ℕ) → n < 256 → word.now ≡ decimal n → result ≡ Some n }
{
    match str::from_utf8(word) {
        Ok(text) => text.parse::<u8>().ok(),
        Err(_) => None,
    }
}
