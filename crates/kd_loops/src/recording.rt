ghost use Rattle.std.specs.Prelude.{◌≡◌, ◌≤◌, MatchResult, OnErr, is_some, true, vec_capacity};
ghost use Rattle.std.specs.List.{flat_map};
ghost use Rattle.std.specs.Io.KnownBytes.{Appends};
ghost use Rattle.kd_loops.specs.Handling.{text_room};
ghost use Rattle.kd_loops.specs.Parts.{WritesPart};
ghost use Rattle.kd_loops.specs.Recording.{record_line};
ghost use Rattle.kd_loops.specs.Serving.{contents_in, failed_in};

use crate::arrived::Arrived;
use crate::ends::{EndFailed, Sink};
use crate::text::put_event;
use crate::writing::write_all;

// Writes the lines of events to a journal, if there is one; allocates no memory.
pub(crate) fn record_all<R: Sink>(
    journal: &mut Option<R>,
    room: &mut Vec<u8>,
    events: &[Arrived],
) -> Result<(), EndFailed>
    requires { text_room ≤ vec_capacity room.old }
    ensures recorded { MatchResult result
        (λ _. Appends (contents_in R.Sink journal.old) (contents_in R.Sink journal.new)
        (flat_map record_line events.now))
        (λ _. WritesPart (contents_in R.Sink journal.old) (contents_in R.Sink journal.new)
        (flat_map record_line events.now)) }
    ensures failed { OnErr result (failed_in R.Sink journal.new ≡ true) }
    ensures kept { is_some journal.new ≡ is_some journal.old }
    ensures room { vec_capacity room.old ≤ vec_capacity room.new }
{
    match journal {
        Some(sink) => write_events(sink, room, events),
        None => Ok(()),
    }
}

// Writes the lines of events in order; allocates no memory.
#[tactic(auto, using(crate::proofs::Fitting::event_fits))]
fn write_events<R: Sink>(
    sink: &mut R,
    room: &mut Vec<u8>,
    events: &[Arrived],
) -> Result<(), EndFailed>
    requires { text_room ≤ vec_capacity room.old }
    ensures recorded { MatchResult result
        (λ _. Appends (R.contents sink.old) (R.contents sink.new) (flat_map record_line events.now))
        (λ _. WritesPart (R.contents sink.old) (R.contents sink.new)
        (flat_map record_line events.now)) }
    ensures failed { OnErr result (R.has_failed sink.new ≡ true) }
    ensures room { vec_capacity room.old ≤ vec_capacity room.new }
{
    for event in events {
        room.clear();
        put_event(room, event.moment(), event.bytes());
        write_all(sink, room.as_slice())?;
    }
    Ok(())
}
