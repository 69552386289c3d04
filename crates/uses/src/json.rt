ghost use Rattle.std.specs.Prelude.{◌≡◌, [], IfSome};
ghost use Rattle.kd_config.specs.Configuration.{Configuration};
ghost use Rattle.kd_json.specs.Configured.{IsConfigured};

use kd_json::read_config;
use std::alloc::Global;

/// Returns the address of the server that a configuration describes, if the text is one.
pub fn server_in(alloc: Global, text: &[u8]) -> Option<u32>
    ensures { IfSome result (λ address. (c : Configuration) × IsConfigured text.now [] c
        × (address ≡ c.server)) }
{
    let config = read_config(alloc, text, &[]).ok()?;
    Some(config.server())
}
