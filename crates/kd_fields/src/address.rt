ghost use Rattle.std.specs.Prelude.{◌≡◌};
ghost use Rattle.kd_fields.specs.Address.{address_spelled};

use kd_expr::read_address;

/// Reads an IPv4 address from its text, in host order.
#[tactic(auto, unfolding(crate::specs::Address::address_spelled))]
pub fn address_of(text: &[u8]) -> Option<u32>
    ensures { result ≡ address_spelled text.now }
{
    match read_address(text) {
        Some(bytes) => Some(u32::from_be_bytes(bytes)),
        None => None,
    }
}
