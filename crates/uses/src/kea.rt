ghost use Rattle.std.specs.Prelude.{◌≡◌, IfSome, Some};
ghost use Rattle.kd_config.specs.Configuration.{Configuration};
ghost use Rattle.kd_kea.specs.Kea.{IsKea};

use kd_kea::read_kea;
use std::alloc::Global;

/// Returns the address of the server that a configuration of Kea's describes, if the text is one.
/// The given address is used if the text has no option 54 for all clients.
pub fn kea_server(alloc: Global, text: &[u8], given: u32) -> Option<u32>
    ensures { IfSome result (λ address. (c : Configuration) × IsKea text.now (Some given) c
        × (address ≡ c.server)) }
{
    let config = read_kea(alloc, text, Some(given)).ok()?;
    Some(config.server())
}
