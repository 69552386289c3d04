ghost use Rattle.std.specs.Prelude.{◌≡◌, ℕ, ◌^◌, ◌<◌, ◌++◌, OnOk, Some, string_bytes};
ghost use Rattle.kd_text.specs.Text.{address_text, prefix_text};

use crate::number::byte_of_word;
use crate::parts::cut;
use std::alloc::AllocError;
use std::fmt::Write;

/// Appends an address, given in host order, in dotted decimal.
///
/// # Errors
///
/// Out of memory.
pub fn put_address(out: &mut String, address: u32) -> Result<(), AllocError>
    ensures { OnOk result (string_bytes out.new ≡ string_bytes out.old ++ address_text address) }
{
    let a = address / 0x100_0000;
    let b = address / 0x1_0000 % 256;
    let c = address / 0x100 % 256;
    let d = address % 256;
    write!(out, "{a}.{b}.{c}.{d}")
}

/// Appends a prefix: its address, given in host order, a slash and its length in bits.
///
/// # Errors
///
/// Out of memory.
#[tactic(auto, unfolding(crate::specs::Text::prefix_text))]
pub fn put_prefix(out: &mut String, address: u32, bits: u8) -> Result<(), AllocError>
    ensures { OnOk result
        (string_bytes out.new ≡ string_bytes out.old ++ prefix_text address bits) }
{
    put_address(out, address)?;
    write!(out, "/{bits}")
}

/// Returns the address of a text that is one: four bytes in decimal with dots between them. Nothing
/// is promised for any other text.
pub fn address_of_word(word: &[u8]) -> Option<u32>
    ensures { (a : ℕ) → a < 2 ^ 32 → word.now ≡ address_text a → result ≡ Some a }
{
    let (first, rest) = cut(word, b'.');
    let (second, rest) = cut(rest, b'.');
    let (third, last) = cut(rest, b'.');
    let a = u32::from(byte_of_word(first)?);
    let b = u32::from(byte_of_word(second)?);
    let c = u32::from(byte_of_word(third)?);
    let d = u32::from(byte_of_word(last)?);
    Some(a * 0x100_0000 + b * 0x1_0000 + c * 0x100 + d)
}
