ghost use Rattle.std.specs.Prelude.{◌≡◌, List, Some, ℕ, true};
ghost use Rattle.std.specs.Result.{IsErrOf};
ghost use Rattle.kd_loops.specs.Filtering.{LeavesFiltered};
ghost use Rattle.kd_loops.specs.declared.fault.ReplayFault.TheVariants as faults;

use crate::ahead::Ahead;
use crate::ends::{Sink, Source};
use crate::fault::ReplayFault;
use crate::lines::{Found, LINE_LIMIT, next_line};
use crate::writing::write_all;
use std::alloc::{AllocError, Global};

/// Turns each line of a stream into a text; `filter_with` is generic over it.
pub trait Filters {
    ghost use Rattle.std.specs.Prelude.{List, MatchOption, IfOk, ℕ, string_bytes};

    /// Which text a line gives; the line is without its line feed.
    ghost gives: { Self → List ℕ → List ℕ → Type 0 };

    /// Returns the text of a line, or `None` if the line gives none.
    ///
    /// # Errors
    ///
    /// Out of memory.
    fn line_text(&self, alloc: Global, line: &[u8]) -> Result<Option<String>, AllocError>
        ensures { IfOk result (λ found. MatchOption found
            ((text : List ℕ) → ¬ gives self.now line.now text)
            (λ text. gives self.now line.now (string_bytes text))) };
}

/// Writes the text of each line of the source to the sink, up to the first bad line, and returns
/// the number of lines. A line is bad if it gives no text or has more than 131,072 bytes.
///
/// # Errors
///
/// `BadLine` at the first bad line, counted from 1; `Read` if the source fails; `Write` if the sink
/// fails; `Memory`, which is also the result after 2^64 - 1 lines. The texts of the lines before
/// are written.
pub fn filter_with<R: Source, W: Sink, F: Filters>(
    alloc: Global,
    source: &mut R,
    sink: &mut W,
    filter: &F,
) -> Result<u64, ReplayFault>
    ensures filtered { (input old : List ℕ) → R.remaining source.old ≡ Some input
        → W.contents sink.old ≡ Some old
        → LeavesFiltered (F.gives filter.now) (R.has_failed source.new ≡ true) result input old
        (W.contents sink.new) }
    ensures read { IsErrOf result faults.Read → R.has_failed source.new ≡ true }
    ensures write { IsErrOf result faults.Write → W.has_failed sink.new ≡ true }
{
    let mut ahead = Ahead::new(alloc)?;
    let mut line = Vec::with_capacity(alloc, LINE_LIMIT)?;
    for number in 0..u64::MAX {
        match next_line(&mut ahead, source, &mut line) {
            Ok(Found::Line) => {
                let Some(text) = filter.line_text(alloc, &line)? else {
                    return Err(ReplayFault::BadLine(number + 1));
                };
                match write_all(sink, text.as_bytes()) {
                    Ok(()) => {}
                    Err(_) => return Err(ReplayFault::Write),
                }
            }
            Ok(Found::End) => return Ok(number),
            Ok(Found::TooLong) => return Err(ReplayFault::BadLine(number + 1)),
            Err(_) => return Err(ReplayFault::Read),
        }
    }
    Err(ReplayFault::Memory)
}
