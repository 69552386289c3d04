ghost use Rattle.std.specs.Prelude.{◌≡◌, ◌++◌, IfOk, option_map};
ghost use Rattle.kd_commands.specs.Steps.{byte_at_front, byte_behind_colon};
ghost use Rattle.kd_commands.specs.Values.{byte_spelled, bytes_behind, hardware_of};

use std::alloc::{AllocError, Global};

// The most bytes of a hardware address (RFC 2131 section 2).
const MOST_BYTES: usize = 16;

// Returns the bytes of a hardware address, if the text is one.
pub(crate) fn hardware_in(alloc: Global, text: &str) -> Result<Option<Vec<u8>>, AllocError>
    ensures { IfOk result (λ mac. option_map (λ v. v.items) mac ≡ hardware_of text.now) }
{
    let Some((first, others)) = first_byte(text.as_bytes()) else {
        return Ok(None);
    };
    let mut bytes = Vec::new(alloc);
    bytes.push(first)?;
    let Some(all) = with_others(bytes, others)? else {
        return Ok(None);
    };
    if all.len() > MOST_BYTES {
        return Ok(None);
    }
    Ok(Some(all))
}

// Appends the bytes of a text, if it has `:` and two hexadecimal digits for each.
fn with_others(mut bytes: Vec<u8>, text: &[u8]) -> Result<Option<Vec<u8>>, AllocError>
    ensures { IfOk result (λ all. option_map (λ v. v.items) all
        ≡ option_map (λ more. bytes.items ++ more) (bytes_behind text.now)) }
{
    let mut left = text;
    while let Some((byte, behind)) = next_byte(left) {
        bytes.push(byte)?;
        left = behind;
    }
    if left.is_empty() {
        Ok(Some(bytes))
    } else {
        Ok(None)
    }
}

// Returns the byte after a colon, and the rest of the text.
#[tactic(auto, unfolding(crate::specs::Steps::byte_behind_colon))]
fn next_byte(text: &[u8]) -> Option<(u8, &[u8])>
    ensures { option_map (λ x. (x.0, x.1.now)) result ≡ byte_behind_colon text.now }
{
    match text {
        [colon, digits @ ..] if *colon == b':' => first_byte(digits),
        _ => None,
    }
}

// Returns the byte that a text begins with, and the rest of the text.
#[tactic(auto, unfolding(crate::specs::Steps::byte_at_front))]
fn first_byte(text: &[u8]) -> Option<(u8, &[u8])>
    ensures { option_map (λ x. (x.0, x.1.now)) result ≡ byte_at_front text.now }
{
    let [high, low, behind @ ..] = text else {
        return None;
    };
    Some((byte_in(*high, *low)?, behind))
}

// Returns the byte of two hexadecimal digits.
fn byte_in(high: u8, low: u8) -> Option<u8>
    ensures { result ≡ byte_spelled high low }
{
    let high = char::from(high).to_digit(16)?;
    let low = char::from(low).to_digit(16)?;
    Some((high * 16 + low) as u8)
}
