ghost use Rattle.std.specs.Prelude.{◌≡◌, ◌^◌, if◌then◌else◌, nat_lt, Some, None};
ghost use Rattle.kd_expr.specs.Address.{decimal};

// Returns the number that decimal digits give, if it fits in 32 bits.
pub(crate) fn number(digits: &[u8]) -> Option<u32>
    ensures { result ≡ (if nat_lt (decimal digits.now) (2 ^ 32) then Some
        (decimal digits.now) else None) }
{
    let mut n: u64 = 0;
    for d in digits {
        n = 10 * n + u64::from(d.saturating_sub(b'0'));
        if n >= 1 << 32 {
            return None;
        }
    }
    Some(n as u32)
}
