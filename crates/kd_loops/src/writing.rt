ghost use Rattle.std.specs.Prelude.{◌≡◌, MatchResult, OnErr, true};
ghost use Rattle.std.specs.Io.KnownBytes.{Appends};
ghost use Rattle.kd_loops.specs.Parts.{WritesPart};

use crate::ends::{EndFailed, Sink};

/// Writes all bytes; if the sink fails, only some of the first ones may be written.
///
/// # Errors
///
/// The sink has failed.
pub fn write_all<W: Sink>(sink: &mut W, bytes: &[u8]) -> Result<(), EndFailed>
    ensures written { MatchResult result
        (λ _. Appends (W.contents sink.old) (W.contents sink.new) bytes.now)
        (λ _. WritesPart (W.contents sink.old) (W.contents sink.new) bytes.now) }
    ensures failed { OnErr result (W.has_failed sink.new ≡ true) }
{
    let mut rest = bytes;
    while !rest.is_empty() {
        let count = sink.write(rest)?;
        let (_, behind) = rest.split_at(count);
        rest = behind;
    }
    Ok(())
}
