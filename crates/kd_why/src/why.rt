ghost use Rattle.std.specs.Prelude.{IfErr, IfOk};
ghost use Rattle.kd_server.specs.Trial.{trying};
ghost use Rattle.kd_why.specs.Saying.{ExplainsEvent, IsUnsaid};

use kd_explain::account_text;
use kd_loops::{ServeFault, event_line};
use kd_rows::Rows;
use kd_server::Terms;

/// Explains a datagram at a time, in whole seconds, over rows of leases, which are not changed. The
/// text has lines about each part, and ends with the line that a replay would write for the answer
/// of a server on these terms.
///
/// # Errors
///
/// `MomentTooLarge` if the time is not below 2^40, and `Memory` if memory runs out.
pub fn why_text(
    terms: Terms<'_>,
    rows: &Rows,
    moment: u64,
    bytes: &[u8],
) -> Result<Vec<u8>, ServeFault>
    ensures text { IfOk result (λ text. ExplainsEvent (trying terms.entry rows.now.rows)
        (record { moment = moment; bytes = bytes.now }) text.items) }
    ensures failed { IfErr result (IsUnsaid moment) }
{
    let Terms { alloc, config, .. } = terms;
    let handled = terms.foresee(rows, moment, bytes)?;
    let mut text = account_text(alloc, config, rows, handled.now, bytes)?.into_bytes();
    let line = event_line(alloc, &handled)?;
    text.extend_from_slice(&line)?;
    Ok(text)
}
