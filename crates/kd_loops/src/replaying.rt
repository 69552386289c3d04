ghost use Rattle.std.specs.Prelude.{◌≡◌, ◌+◌, ◌≤◌, ◌⊎◌, List, [], Some, IfErr, IfOk, MatchResult, OnErr, OnOk, ℕ, false, true, length, vec_capacity};
ghost use Rattle.std.specs.Io.KnownBytes.{Appends};
ghost use Rattle.std.specs.Result.{IsErrOf};
ghost use Rattle.kd_loops.specs.Handling.{EndsEvent, HandlesEvent, line_room};
ghost use Rattle.kd_loops.specs.History.{Reaches};
ghost use Rattle.kd_loops.specs.Lines.{line_limit};
ghost use Rattle.kd_loops.specs.Parts.{WritesPart};
ghost use Rattle.kd_loops.specs.Replay.{Handles, HandlesWhole, HasReplayed, LeavesWritten, most_lines};
ghost use Rattle.kd_loops.specs.Text.{line_of};
ghost use Rattle.kd_loops.specs.declared.fault.ReplayFault.TheVariants as faults;

use crate::ahead::Ahead;
use crate::ends::{EndFailed, Sink, Source};
use crate::fault::{ReplayFault, ServeFault};
use crate::line::event_in;
use crate::lines::{Found, LINE_LIMIT, next_line};
use crate::serves::Serves;
use crate::text::{LINE_ROOM, put_line};
use crate::writing::write_all;
use kd_event::{Event, Handled};
use std::alloc::{AllocError, Global};

const MOST_LINES: u64 = 1_000_000;

// The memory that a replay works in, all allocated at the start.
#[derive(Drop)]
struct Work {
    ahead: Ahead,
    line: Vec<u8>,
    room: Vec<u8>,
}

impl Work {
    fn new(alloc: Global) -> Result<Work, AllocError>
        ensures ahead { IfOk result (λ work. work.ahead ≡ []) }
        ensures line { IfOk result (λ work. line_limit ≤ vec_capacity work.line) }
        ensures room { IfOk result (λ work. line_room ≤ vec_capacity work.room) }
    {
        let ahead = Ahead::new(alloc)?;
        let line = Vec::with_capacity(alloc, LINE_LIMIT)?;
        let room = Vec::with_capacity(alloc, LINE_ROOM)?;
        Ok(Work { ahead, line, room })
    }
}

/// Handles the events of the source's lines in order and writes a line for each to the sink, up to
/// the first fault; returns how many were handled. An input line has a time in decimal, a space,
/// and a datagram in hexadecimal.
///
/// # Errors
///
/// `Read` if the source fails or has more than 1,000,000 lines; `BadLine` at a line that is not an
/// event; `Serve` with the fault of a line's event; `Write` if the sink fails; `Memory`. What was
/// handled before is written.
pub fn replay<R: Source, W: Sink, H: Serves>(
    alloc: Global,
    source: &mut R,
    sink: &mut W,
    server: &mut H,
) -> Result<u64, ReplayFault>
    requires source { R.has_failed source.old ≡ false }
    requires sink { W.has_failed sink.old ≡ false }
    ensures replayed { HasReplayed H.gives H.fails (R.has_failed source.new ≡ true) result
        server.old server.new (R.remaining source.old) (R.remaining source.new)
        (W.contents sink.old) (W.contents sink.new) }
    ensures write { IsErrOf result faults.Write → W.has_failed sink.new ≡ true }
{
    replay_lines(alloc, source, sink, server)
}

// Does the same, with what it does clause by clause.
fn replay_lines<R: Source, W: Sink, H: Serves>(
    alloc: Global,
    source: &mut R,
    sink: &mut W,
    server: &mut H,
) -> Result<u64, ReplayFault>
    requires source { R.has_failed source.old ≡ false }
    requires sink { W.has_failed sink.old ≡ false }
    ensures replayed { (input old : List ℕ) → R.remaining source.old ≡ Some input
        → W.contents sink.old ≡ Some old
        → LeavesWritten H.gives H.fails (R.has_failed source.new ≡ true) result input
        server.old server.new old (W.contents sink.new) }
    ensures reached { Reaches H.gives H.fails server.old server.new }
    ensures counted { IfOk result (λ count. Handles H.gives count server.old server.new) }
    ensures read { IsErrOf result faults.Read
        → (R.has_failed source.new ≡ true) ⊎ Handles H.gives most_lines server.old server.new }
    ensures whole { IsErrOf result faults.Read
        → (input old : List ℕ) → R.remaining source.old ≡ Some input
        → W.contents sink.old ≡ Some old
        → HandlesWhole H.gives input (R.remaining source.new)
        server.old server.new old (W.contents sink.new)
        ⊎ Handles H.gives most_lines server.old server.new }
    ensures write { IsErrOf result faults.Write → W.has_failed sink.new ≡ true }
{
    let mut work = Work::new(alloc)?;
    for number in 0..MOST_LINES {
        match next_line(&mut work.ahead, source, &mut work.line) {
            Ok(Found::Line) => {
                let Some(event) = event_in(alloc, &work.line)? else {
                    return Err(ReplayFault::BadLine(number + 1));
                };
                replay_event(sink, server, &event, &mut work.room)?;
            }
            Ok(Found::End) => return Ok(number),
            Ok(Found::TooLong) => return Err(ReplayFault::BadLine(number + 1)),
            Err(_) => return Err(ReplayFault::Read),
        }
    }
    match next_line(&mut work.ahead, source, &mut work.line) {
        Ok(Found::End) => Ok(MOST_LINES),
        Ok(Found::Line) => Err(ReplayFault::Read),
        Ok(Found::TooLong) => Err(ReplayFault::Read),
        Err(_) => Err(ReplayFault::Read),
    }
}

// Handles an event and writes its text.
#[tactic(auto, using(crate::proofs::Fitting::handled_fits))]
fn replay_event<W: Sink, H: Serves>(
    sink: &mut W,
    server: &mut H,
    event: &Event,
    room: &mut Vec<u8>,
) -> Result<(), ReplayFault>
    requires { line_room ≤ vec_capacity room.old }
    ensures handled { OnOk result
        (HandlesEvent H.gives event.now server.old server.new (W.contents sink.old)
        (W.contents sink.new)) }
    ensures ended { IfErr result (λ fault.
        EndsEvent H.gives H.fails fault event.now server.old server.new (W.contents sink.old)
        (W.contents sink.new)) }
    ensures write { IsErrOf result faults.Write → W.has_failed sink.new ≡ true }
    ensures room { vec_capacity room.old ≤ vec_capacity room.new }
{
    match server.handle(event.moment, event.bytes.as_slice()) {
        Ok(handled) => match write_handled(sink, room, &handled) {
            Ok(()) => Ok(()),
            Err(_) => Err(ReplayFault::Write),
        },
        Err(fault) => match fault {
            ServeFault::Memory => Err(ReplayFault::Memory),
            _ => Err(ReplayFault::Serve(fault)),
        },
    }
}

// Writes the text of a handled event; allocates no memory.
fn write_handled<W: Sink>(
    sink: &mut W,
    room: &mut Vec<u8>,
    handled: &Handled,
) -> Result<(), EndFailed>
    requires { length (line_of handled.now) ≤ vec_capacity room.old }
    ensures written { MatchResult result
        (λ _. Appends (W.contents sink.old) (W.contents sink.new) (line_of handled.entry.now))
        (λ _. WritesPart (W.contents sink.old) (W.contents sink.new) (line_of handled.entry.now)) }
    ensures failed { OnErr result (W.has_failed sink.new ≡ true) }
    ensures room { vec_capacity room.old ≤ vec_capacity room.new }
{
    room.clear();
    put_line(room, handled);
    write_all(sink, room.as_slice())
}
