ghost use Rattle.std.specs.Prelude.{◌≡◌, ◌<◌, ◌++◌, IfOk, OnOk, decimal};
ghost use Rattle.std.specs.List.{flat_map};
ghost use Rattle.kd_machine.specs.Strings.{lower_digit, byte_digits, hex_of};

use std::alloc::{AllocError, Global};

// Returns a hexadecimal digit in lower case.
fn digit(n: u8) -> u8
    requires { n < 16 }
    ensures { result ≡ lower_digit n }
{
    if n < 10 { b'0' + n } else { b'a' - 10 + n }
}

// Returns the two hexadecimal digits of a byte.
fn digits_of(byte: u8) -> [u8; 2]
    ensures { result ≡ byte_digits byte }
{
    [digit(byte / 16), digit(byte % 16)]
}

// Returns two hexadecimal digits for each byte, with a separator between bytes.
pub(crate) fn hex_text(alloc: Global, bytes: &[u8], separator: &[u8]) -> Result<Vec<u8>, AllocError>
    ensures { IfOk result (λ v. v.items ≡ hex_of separator.now bytes.now) }
{
    let mut out = Vec::new(alloc);
    let Some((first, rest)) = bytes.split_first() else {
        return Ok(out);
    };
    out.extend_from_slice(&digits_of(*first))?;
    put_behind(&mut out, rest, separator)?;
    Ok(out)
}

// Appends the two digits of each byte, each pair after a separator.
fn put_behind(out: &mut Vec<u8>, bytes: &[u8], separator: &[u8]) -> Result<(), AllocError>
    ensures { OnOk result
        (out.new.items ≡ out.old.items
        ++ flat_map (λ b. separator.now ++ byte_digits b) bytes.now) }
{
    'bytes: for byte in bytes {
        out.extend_from_slice(separator)?;
        out.extend_from_slice(&digits_of(*byte))?;
    }
    Ok(())
}

// Joins two byte strings.
pub(crate) fn join_bytes(alloc: Global, first: &[u8], second: &[u8]) -> Result<Vec<u8>, AllocError>
    ensures { IfOk result (λ v. v.items ≡ first.now ++ second.now) }
{
    let mut out = Vec::with_capacity(alloc, first.len() + second.len())?;
    out.extend_from_slice(first)?;
    out.extend_from_slice(second)?;
    Ok(out)
}

// Returns the decimal digits of a number.
pub(crate) fn decimal_text(alloc: Global, number: u32) -> Result<Vec<u8>, AllocError>
    ensures { IfOk result (λ v. v.items ≡ decimal number) }
{
    Ok(format!(in alloc; "{number}")?.into_bytes())
}
