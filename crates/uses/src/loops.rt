ghost use Rattle.std.specs.Prelude.{[], IfSome};
ghost use Rattle.kd_loops.specs.Lines.{lines_of};
ghost use Rattle.kd_loops.specs.Replay.{Did};

use kd_loops::{Serves, replay_bytes};
use std::alloc::Global;

/// Replays the record of a day, and returns the lines of its whole history.
pub fn history_lines<H: Serves>(alloc: Global, day: &[u8], server: &mut H) -> Option<Vec<u8>>
    ensures { IfSome result (λ lines. Did H.gives (lines_of day.now)
        server.old server.new [] lines.items) }
{
    let (lines, done) = replay_bytes(alloc, day, server);
    done.ok()?;
    Some(lines)
}
