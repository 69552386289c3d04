ghost use Rattle.std.specs.Prelude.{◌≡◌, ◌<◌, ◌==◌, count_by};
ghost use Rattle.kd_names.specs.Values.{fits_kind, is_byte_within, is_grouped};

use crate::kind::Kind;
use crate::pieces::{has_names, has_routes};

// Whether a value has the form of its type.
pub(crate) fn is_well_formed(kind: Kind, value: &[u8]) -> bool
    ensures { result ≡ fits_kind kind value.now }
{
    match kind {
        Kind::Address => value.len() == 4,
        Kind::Addresses => has_groups(value, 4),
        Kind::Pairs => has_groups(value, 8),
        Kind::Flag => is_byte(value, 0, 1),
        Kind::Byte => value.len() == 1,
        Kind::Short => value.len() == 2,
        Kind::Long => value.len() == 4,
        Kind::Signed => value.len() == 4,
        Kind::Shorts => has_groups(value, 2),
        Kind::Codes => !value.is_empty(),
        Kind::MessageType => is_byte(value, 1, 8),
        Kind::Text => !value.is_empty(),
        Kind::Name => has_names(value) && count_zeros(value) == 1,
        Kind::Names => has_names(value),
        Kind::Routes => has_routes(value),
        Kind::Bytes => !value.is_empty(),
    }
}

// Whether a value consists of one or more groups of `size` bytes.
fn has_groups(value: &[u8], size: usize) -> bool
    requires { 0 < size }
    ensures { result ≡ is_grouped size value.now }
{
    !value.is_empty() && value.len() % size == 0
}

// Whether a value is one byte from `least` to `most`.
fn is_byte(value: &[u8], least: u8, most: u8) -> bool
    ensures { result ≡ is_byte_within least most value.now }
{
    match value {
        [byte] => least <= *byte && *byte <= most,
        _ => false,
    }
}

// Returns how many bytes are zeros.
fn count_zeros(value: &[u8]) -> usize
    ensures { result ≡ count_by (λ b. b == 0) value.now }
{
    value.iter().filter(|b| **b == 0).count()
}
