ghost use Rattle.std.specs.Prelude.{◌≡◌, ◌<◌, IfSome, None, OnOk, Some, length, map};
ghost use Rattle.kd_loops.specs.Lines.{lines_of};
ghost use Rattle.kd_loops.specs.Log.{HasCome, ServesInput, cut_event};
ghost use Rattle.kd_loops.specs.Replay.{AreEvents};
ghost use Rattle.kd_loops.specs.Serving.{ServesTo, nothing};

use crate::bytes::MemorySink;
use crate::fault::LoopFault;
use crate::happening::Happening;
use crate::post::{Given, Post};
use crate::serves::ServesAll;
use crate::serving::{Limits, serve};
use kd_event::Event;
use std::alloc::Global;
use std::marker::{Brand, PhantomData};

/// The result of serving in memory.
#[derive(Drop)]
pub struct ServedBytes {
    /// What happened at the link, in order.
    pub log: Vec<Happening>,
    /// The record of what came.
    pub journal: Vec<u8>,
    /// The lines that were written.
    pub lines: Vec<u8>,
    /// How serving ended.
    pub end: Result<(), LoopFault>,
}

/// Serves an input in memory as `serve` serves a link: after each datagram that is waited for, the
/// next `waiting` datagrams have come already. The clock gives the time of the event that came
/// last, and every reply is sent. There is no limit on the clock. It requires nothing of its
/// caller.
///
/// Returns `None` if `most` is 0 or if there is not enough memory to keep what happened.
pub fn serve_bytes<H: ServesAll>(
    alloc: Global,
    input: &[Event],
    waiting: usize,
    server: &mut H,
    most: usize,
) -> Option<ServedBytes>
    ensures served { IfSome result
        (λ served. ServesTo None H.latest H.batches served.end (length input.now) server.old server.new nothing
        (record {
          trace = Some served.log.items;
          recorded = Some served.journal.items;
          written = Some served.lines.items;
        })) }
    ensures came { IfSome result (λ served. HasCome input.now served.log.items) }
    ensures all { IfSome result (λ served. OnOk served.end
        (ServesInput H.latest H.batches input.now server.old server.new)) }
    ensures recorded { IfSome result (λ served. OnOk served.end
        (AreEvents (lines_of served.journal.items) (map cut_event input.now))) }
{
    if most == 0 {
        return None;
    }
    serve_post::<Brand, H>(alloc, input, waiting, server, most)
}

// Serves an input that a proof can name.
fn serve_post<I: Given, H: ServesAll>(
    alloc: Global,
    input: &[Event],
    waiting: usize,
    server: &mut H,
    most: usize,
) -> Option<ServedBytes>
    requires input { input.now ≡ I.given }
    requires most { 0 < most }
    ensures served { IfSome result
        (λ served. ServesTo None H.latest H.batches served.end (length input.now) server.old server.new nothing
        (record {
          trace = Some served.log.items;
          recorded = Some served.journal.items;
          written = Some served.lines.items;
        })) }
    ensures came { IfSome result (λ served. HasCome input.now served.log.items) }
    ensures all { IfSome result (λ served. OnOk served.end
        (ServesInput H.latest H.batches input.now server.old server.new)) }
    ensures recorded { IfSome result (λ served. OnOk served.end
        (AreEvents (lines_of served.journal.items) (map cut_event input.now))) }
{
    let mut post: Post<'_, I> = Post {
        alloc,
        input,
        next: 0,
        waiting,
        behind: 0,
        moment: 0,
        log: Some(Vec::new(alloc)),
        failed: false,
        of: PhantomData,
    };
    let mut journal = Some(MemorySink::new(alloc));
    let mut sink = MemorySink::new(alloc);
    let limits = Limits {
        most,
        count: input.len() as u64,
        max_ahead: None,
    };
    let end = serve(alloc, &mut post, &mut journal, &mut sink, server, limits);
    Some(ServedBytes {
        log: post.log?,
        journal: journal?.bytes,
        lines: sink.bytes,
        end,
    })
}
