ghost use Rattle.std.specs.Prelude.{◌≡◌, ◌+◌, ◌^◌, ◌≤◌, IfSome};
ghost use Rattle.kd_config.specs.Address.{network_address, prefix_size};
ghost use Rattle.kd_json.specs.Address.{length_spelled, short_decimal, prefix_spelled};

use crate::text::address::cut_at;
use kd_config::Prefix;
use kd_fields::address::address_of;

// Clears the bits of an address that follow a prefix of this length.
fn without_host_bits(address: u32, length: u8) -> u32
    ensures cleared { result ≡ network_address address length }
    ensures within { result + prefix_size length ≤ 2 ^ 32 }
{
    let size = Prefix { address, length }.size();
    (u64::from(address) / size * size) as u32
}

// Reads the length of a prefix: at most 32.
#[tactic(auto, unfolding(crate::specs::Address::length_spelled))]
fn length_of(text: &[u8]) -> Option<u8>
    ensures { result ≡ length_spelled text.now }
{
    let length = one_or_two_digits(text)?;
    if length <= 32 { Some(length) } else { None }
}

// Reads a number of one or two decimal digits.
fn one_or_two_digits(text: &[u8]) -> Option<u8>
    ensures { result ≡ short_decimal text.now }
{
    match text {
        [a] if a.is_ascii_digit() => Some(*a - b'0'),
        [a, b] if a.is_ascii_digit() && b.is_ascii_digit() => {
            Some((*a - b'0') * 10 + (*b - b'0'))
        }
        _ => None,
    }
}

// Reads a prefix from its text.
#[tactic(auto, unfolding(crate::specs::Address::prefix_spelled))]
pub(crate) fn prefix_of(text: &[u8]) -> Option<Prefix>
    ensures spelled { result ≡ prefix_spelled text.now }
    ensures within { IfSome result (λ prefix. prefix.address + prefix_size prefix.length ≤ 2 ^ 32) }
{
    let (address, length) = cut_at(b'/', text)?;
    let address = address_of(address)?;
    let length = length_of(length)?;
    Some(Prefix {
        address: without_host_bits(address, length),
        length,
    })
}
