ghost use Rattle.std.specs.Prelude.{◌≡◌, [], IfSome, List, Some, ℕ};
ghost use Rattle.kd_json.specs.Configured.{IsConfigured};

use kd_config::Config;
use kd_io::read_source;
use kd_loops::Source;
use kd_start::config_of;
use std::alloc::Global;

/// Reads a configuration of at most 65,536 bytes.
pub fn config_from<R: Source>(alloc: Global, source: &mut R) -> Option<Config>
    ensures { (text : List ℕ) → R.remaining source.old ≡ Some text
        → IfSome result (λ config. IsConfigured text [] config) }
{
    let text = read_source(alloc, source, 65_536).ok()?;
    config_of(alloc, Some(&text), &[]).ok()
}
