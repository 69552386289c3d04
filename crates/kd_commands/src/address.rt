ghost use Rattle.std.specs.Prelude.{◌≡◌};
ghost use Rattle.kd_commands.specs.Values.{address_of};

use kd_expr::read_address;

// Returns the address in a text, in host order, if the text is one.
pub(crate) fn address_in(text: &str) -> Option<u32>
    ensures { result ≡ address_of text.now }
{
    match read_address(text.as_bytes()) {
        Some(bytes) => Some(u32::from_be_bytes(bytes)),
        None => None,
    }
}
