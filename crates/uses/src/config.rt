ghost use Rattle.std.specs.Prelude.{◌≡◌, IfSome};

use kd_config::Config;
use std::alloc::Global;

/// Returns the address of the server of the built-in configuration, 192.0.2.1.
pub fn server_built_in(alloc: Global) -> Option<u32>
    ensures { IfSome result (λ address. address ≡ 0xc0000201) }
{
    let config = Config::builtin(alloc).ok()?;
    Some(config.server())
}
