ghost use Rattle.std.specs.Prelude.{◌≡◌, List, Some, ℕ, true};
ghost use Rattle.std.specs.Result.{IsErrOf};
ghost use Rattle.kd_log.specs.Printed.{IsEventText};
ghost use Rattle.kd_loops.specs.Filtering.{LeavesFiltered};
ghost use Rattle.kd_loops.specs.declared.fault.ReplayFault.TheVariants as faults;

use crate::events::filter::Filter;
use crate::events::printed::text_of_line;
use kd_loops::{Filters, ReplayFault, Sink, Source, filter_with};
use std::alloc::{AllocError, Global};

impl Filters for Filter {
    ghost use Rattle.kd_log.specs.Printed.{IsEventText};

    ghost gives = { λ filter line text. IsEventText filter line text };

    fn line_text(&self, alloc: Global, line: &[u8]) -> Result<Option<String>, AllocError> {
        text_of_line(alloc, line, self)
    }
}

/// Prints the selected replies of a log as human-readable lines, one for each, up to the first bad
/// line, and returns the number of lines of the log.
///
/// # Errors
///
/// `BadLine` at the first bad line, counted from 1: a line that is neither a remark nor what a
/// server writes for an event, or whose reply does not read as a message, or that has more than
/// 131,072 bytes; `Read` if the source fails; `Write` if the sink fails; `Memory`. What is printed
/// for the lines before is written.
pub fn events_with<R: Source, W: Sink>(
    alloc: Global,
    source: &mut R,
    sink: &mut W,
    filter: &Filter,
) -> Result<u64, ReplayFault>
    ensures printed { (input old : List ℕ) → R.remaining source.old ≡ Some input
        → W.contents sink.old ≡ Some old
        → LeavesFiltered (IsEventText filter.now) (R.has_failed source.new ≡ true) result input old
        (W.contents sink.new) }
    ensures read { IsErrOf result faults.Read → R.has_failed source.new ≡ true }
    ensures write { IsErrOf result faults.Write → W.has_failed sink.new ≡ true }
{
    filter_with(alloc, source, sink, filter)
}
