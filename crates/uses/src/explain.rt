ghost use Rattle.std.specs.Prelude.{IfOk, string_bytes};
ghost use Rattle.kd_explain.specs.Account.{IsAccount};

use kd_config::Config;
use kd_explain::account_text;
use kd_rows::Rows;
use std::alloc::{AllocError, Global};

/// Returns what there is to say of a datagram that arrives so many seconds after 1970.
pub fn account_at(
    alloc: Global,
    config: &Config,
    rows: &Rows,
    seconds: u32,
    datagram: &[u8],
) -> Result<String, AllocError>
    ensures { IfOk result (λ text. IsAccount config.now rows.now.rows seconds datagram.now
        (string_bytes text)) }
{
    account_text(alloc, config, rows, u64::from(seconds), datagram)
}
