ghost use Rattle.std.specs.Prelude.{◌≡◌, IfOk, string_bytes};
ghost use Rattle.kd_pools.specs.Printed.{lines_text};
ghost use Rattle.kd_pools.specs.Uses.{all_uses};

use kd_config::Config;
use kd_pools::{use_lines, uses_of};
use kd_rows::Rows;
use std::alloc::{AllocError, Global};

/// Returns a text that says how full the pools of a configuration are.
pub fn pools_text(
    alloc: Global,
    config: &Config,
    rows: &Rows,
    now: u64,
) -> Result<String, AllocError>
    ensures { IfOk result (λ text. string_bytes text
        ≡ lines_text (all_uses config.now rows.now.rows now)) }
{
    let uses = uses_of(alloc, config, rows, now)?;
    use_lines(alloc, &uses)
}
