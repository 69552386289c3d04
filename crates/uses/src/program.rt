ghost use Rattle.std.specs.Prelude.{◌≡◌, false, map, string_bytes};
ghost use Rattle.kd_program.specs.Running.{Carries};
ghost use Rattle.kd_program.specs.Streams.{at_ends};

use kd_loops::{Sink, Source};
use kd_program::{Host, StandardEnds, run};
use std::alloc::Global;

/// Carries out a command line over a host and three streams, and returns the exit status and the
/// streams.
pub fn status_and_ends<H: Host, R: Source, O: Sink, E: Sink>(
    alloc: Global,
    words: &[String],
    host: &mut H,
    input: R,
    output: O,
    faults: E,
) -> (u8, StandardEnds<R, O, E>)
    requires input { R.has_failed input ≡ false }
    requires output { O.has_failed output ≡ false }
    ensures { Carries H.Host H.Named.Keeps H.Unnamed.Keeps H.Socket.Link H.Journal.Sink
        (map string_bytes words.now)
        (at_ends R.Source O.Sink E.Sink host.old
        (record { input = input; output = output; faults = faults }))
        (at_ends R.Source O.Sink E.Sink host.new result.1) result.0 }
{
    let mut ends = StandardEnds {
        input,
        output,
        faults,
    };
    let status = run(alloc, words, host, &mut ends);
    (status, ends)
}
