ghost use Rattle.std.specs.Prelude.{◌<◌, ◌^◌, IfOk, string_bytes};
ghost use Rattle.kd_explain.specs.Account.{IsAccount, IsExplanation};

use crate::explaining::explain;
use crate::text::{Scene, explanation_text, unreadable_text};
use kd_config::Config;
use kd_options::{Message, ReadFault};
use kd_rows::Rows;
use std::alloc::{AllocError, Global};

/// Returns what there is to say of a datagram at a time, in whole seconds, over rows of leases: the
/// lines about each part of its message, or the line that it is no message.
///
/// # Errors
///
/// Out of memory.
pub fn account_text(
    alloc: Global,
    config: &Config,
    rows: &Rows,
    moment: u64,
    bytes: &[u8],
) -> Result<String, AllocError>
    requires { moment < 2 ^ 40 }
    ensures { IfOk result
        (λ text. IsAccount config.now rows.now.rows moment bytes.now (string_bytes text)) }
{
    match Message::read(alloc, bytes) {
        Ok(message) => message_text(alloc, config, rows, moment, &message),
        Err(ReadFault::Memory) => Err(AllocError),
        Err(fault) => unreadable_text(alloc, &fault),
    }
}

// Returns the lines about a message at a time.
fn message_text(
    alloc: Global,
    config: &Config,
    rows: &Rows,
    moment: u64,
    message: &Message<'_>,
) -> Result<String, AllocError>
    requires { moment < 2 ^ 40 }
    ensures { IfOk result (λ text. IsExplanation config.now rows.now.rows message.now moment
        (string_bytes text)) }
{
    let explanation = explain(alloc, config, rows, message, moment)?;
    let scene = Scene {
        alloc,
        config,
        rows,
        message,
        moment,
        explanation: &explanation,
    };
    explanation_text(&scene)
}
