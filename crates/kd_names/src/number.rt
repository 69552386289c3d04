ghost use Rattle.std.specs.Prelude.{◌≡◌, ◌++◌, OnOk, codes, decimal, string_bytes};
ghost use Rattle.std.specs.List.{flat_map};
ghost use Rattle.kd_names.specs.Values.{addresses_behind, addresses_text, code_behind, codes_text, dotted_text};
ghost use Rattle.kd_names.specs.Values.{number_of_bytes, shorts_behind, shorts_text, signed_text};

use std::alloc::AllocError;
use std::fmt::Write;

// The first number that is negative in two's complement.
const FIRST_NEGATIVE: u32 = 0x8000_0000;

// Returns the number of one, two or four bytes, highest byte first.
#[tactic(auto, unfolding(crate::specs::Values::number_of_bytes))]
pub(crate) fn number(value: &[u8]) -> u32
    ensures { result ≡ number_of_bytes value.now }
{
    match value {
        [a] => u32::from(*a),
        [a, b] => u32::from(*a) * 256 + u32::from(*b),
        [a, b, c, d] => {
            let high = u32::from(*a) * 256 + u32::from(*b);
            (high * 256 + u32::from(*c)) * 256 + u32::from(*d)
        }
        _ => 0,
    }
}

// Appends a number in decimal.
pub(crate) fn put_number(out: &mut String, number: u32) -> Result<(), AllocError>
    ensures { OnOk result (string_bytes out.new ≡ string_bytes out.old ++ decimal number) }
{
    write!(out, "{number}")
}

// Appends a number in two's complement, in decimal.
#[tactic(auto, unfolding(crate::specs::Values::signed_text))]
pub(crate) fn put_signed(out: &mut String, number: u32) -> Result<(), AllocError>
    ensures { OnOk result (string_bytes out.new ≡ string_bytes out.old ++ signed_text number) }
{
    if number < FIRST_NEGATIVE {
        return put_number(out, number);
    }
    out.push_str("-")?;
    put_number(out, u32::MAX - number + 1)
}

// Appends the numbers of bytes, with commas between them.
#[tactic(auto, unfolding(crate::specs::Values::codes_text))]
pub(crate) fn put_codes(out: &mut String, value: &[u8]) -> Result<(), AllocError>
    ensures { OnOk result (string_bytes out.new ≡ string_bytes out.old ++ codes_text value.now) }
{
    match value {
        [] => Ok(()),
        [code, rest @ ..] => {
            put_number(out, u32::from(*code))?;
            put_codes_behind(out, rest)
        }
    }
}

// Appends the numbers of bytes, each after a comma.
fn put_codes_behind(out: &mut String, value: &[u8]) -> Result<(), AllocError>
    ensures { OnOk result
        (string_bytes out.new ≡ string_bytes out.old ++ flat_map code_behind value.now) }
{
    for code in value {
        out.push_str(", ")?;
        put_number(out, u32::from(*code))?;
    }
    Ok(())
}

// Appends 2-byte numbers, with commas between them.
#[tactic(auto, unfolding(crate::specs::Values::shorts_text))]
pub(crate) fn put_shorts(out: &mut String, value: &[u8]) -> Result<(), AllocError>
    ensures { OnOk result (string_bytes out.new ≡ string_bytes out.old ++ shorts_text value.now) }
{
    match value {
        [a, b, rest @ ..] => {
            put_number(out, u32::from(*a) * 256 + u32::from(*b))?;
            put_shorts_behind(out, rest)
        }
        _ => Ok(()),
    }
}

// Appends 2-byte numbers, each after a comma.
#[tactic(auto, unfolding(crate::specs::Values::shorts_behind))]
fn put_shorts_behind(out: &mut String, value: &[u8]) -> Result<(), AllocError>
    ensures { OnOk result (string_bytes out.new ≡ string_bytes out.old ++ shorts_behind value.now) }
{
    let mut left = value;
    while let [a, b, rest @ ..] = left {
        out.push_str(", ")?;
        put_number(out, u32::from(*a) * 256 + u32::from(*b))?;
        left = rest;
    }
    Ok(())
}

// Appends the addresses in bytes, with commas between them.
#[tactic(auto, unfolding(crate::specs::Values::addresses_text))]
pub(crate) fn put_addresses(out: &mut String, value: &[u8]) -> Result<(), AllocError>
    ensures { OnOk result
        (string_bytes out.new ≡ string_bytes out.old ++ addresses_text value.now) }
{
    match value {
        [a, b, c, d, rest @ ..] => {
            write!(out, "{a}.{b}.{c}.{d}")?;
            put_addresses_behind(out, rest)
        }
        _ => Ok(()),
    }
}

// Appends the addresses in bytes, each after a comma.
#[tactic(auto, unfolding(crate::specs::Values::addresses_behind))]
fn put_addresses_behind(out: &mut String, value: &[u8]) -> Result<(), AllocError>
    ensures { OnOk result
        (string_bytes out.new ≡ string_bytes out.old ++ addresses_behind value.now) }
{
    let mut left = value;
    while let [a, b, c, d, rest @ ..] = left {
        write!(out, ", {a}.{b}.{c}.{d}")?;
        left = rest;
    }
    Ok(())
}
