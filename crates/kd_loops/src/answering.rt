ghost use Rattle.std.specs.Prelude.{◌≡◌, ◌+◌, ◌≤◌, ◌++◌, MatchResult, OnErr, length, true, vec_capacity};
ghost use Rattle.std.specs.List.{All};
ghost use Rattle.kd_loops.specs.Answering.{AreCut, AreTold, IsCut, IsTold};
ghost use Rattle.kd_loops.specs.Handling.{line_room, text_room};
ghost use Rattle.kd_loops.specs.Serving.{behind_line, packets_in, text_of};
ghost use Rattle.kd_loops.specs.Text.{IsSmall, line_of};
ghost use Rattle.kd_loops.specs.Trace.{Grows};

use crate::ends::{EndFailed, Sink};
use crate::link::Link;
use crate::room::put;
use crate::text::put_line;
use crate::writing::write_all;
use kd_event::{Handled, Response};

const SEND_FAULT: &[u8] = b"fault 99 Send\n";

// Hands over the replies to handled datagrams to be sent, and writes their texts, in order;
// allocates no memory.
#[tactic(auto, using(crate::proofs::Fitting::handled_fits))]
pub(crate) fn answer_all<L: Link, W: Sink>(
    link: &mut L,
    sink: &mut W,
    room: &mut Vec<u8>,
    list: &[Handled],
) -> Result<(), EndFailed>
    requires small { All (λ handled. IsSmall handled.response) list.now }
    requires room { text_room ≤ vec_capacity room.old }
    ensures answered { MatchResult result
        (λ _. AreTold list.now (L.trace link.old) (L.trace link.new) (W.contents sink.old)
        (W.contents sink.new))
        (λ _. AreCut list.now (L.trace link.old) (L.trace link.new) (W.contents sink.old)
        (W.contents sink.new)) }
    ensures failed { OnErr result (W.has_failed sink.new ≡ true) }
    ensures room { vec_capacity room.old ≤ vec_capacity room.new }
{
    for handled in list {
        // It is below 2^64, so it has at most 20 digits.
        let _moment = handled.now;
        answer(link, sink, room, handled)?;
    }
    Ok(())
}

// Hands over the reply to a datagram to be sent, and writes its text; allocates no memory.
fn answer<L: Link, W: Sink>(
    link: &mut L,
    sink: &mut W,
    room: &mut Vec<u8>,
    handled: &Handled,
) -> Result<(), EndFailed>
    requires line { length (line_of handled.now) ≤ line_room }
    requires room { text_room ≤ vec_capacity room.old }
    ensures answered { MatchResult result
        (λ _. IsTold handled.entry.now (L.trace link.old) (L.trace link.new) (W.contents sink.old)
        (W.contents sink.new))
        (λ _. IsCut handled.entry.now (L.trace link.old) (L.trace link.new) (W.contents sink.old)
        (W.contents sink.new)) }
    ensures failed { OnErr result (W.has_failed sink.new ≡ true) }
    ensures room { vec_capacity room.old ≤ vec_capacity room.new }
{
    let sent = send(link, &handled.response);
    fill_text(room, handled, sent);
    write_all(sink, room.as_slice())
}

// Replaces the contents of `room` with the text of a handled datagram, which depends on whether its
// reply was sent; allocates no memory.
fn fill_text(room: &mut Vec<u8>, handled: &Handled, sent: bool)
    requires line { length (line_of handled.now) ≤ line_room }
    requires room { text_room ≤ vec_capacity room.old }
    ensures items { room.new.items ≡ text_of (record { handled = handled.entry.now; sent = sent }) }
    ensures capacity { vec_capacity room.old ≤ vec_capacity room.new }
{
    room.clear();
    put_line(room, handled);
    put_behind(room, &handled.response, sent);
}

// Appends the line that says that a reply was not sent, if there was one and it was not sent;
// allocates no memory.
fn put_behind(room: &mut Vec<u8>, response: &Response, sent: bool)
    requires { length room.old.items + 14 ≤ vec_capacity room.old }
    ensures items { room.new.items ≡ room.old.items ++ behind_line sent response.now }
    ensures capacity { vec_capacity room.old ≤ vec_capacity room.new }
{
    match response {
        Response::Reply(..) if !sent => put(room, SEND_FAULT),
        _ => {}
    }
}

// Hands over a reply to be sent, if there is one, and reports whether it was sent.
fn send<L: Link>(link: &mut L, response: &Response) -> bool
    ensures { Grows (L.trace link.old) (L.trace link.new) (packets_in result response.now) }
{
    match response {
        Response::Reply(destination, bytes) => link.send(bytes.as_slice(), *destination).is_ok(),
        Response::Quiet(_) => false,
    }
}
