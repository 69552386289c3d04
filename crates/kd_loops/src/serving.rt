ghost use Rattle.std.specs.Prelude.{◌≡◌, ◌<◌, ◌≤◌, IfErr, IfOk, OnErr, false, is_some, length, take, true, vec_capacity, vec_len};
ghost use Rattle.std.specs.Result.{IsErrOf};
ghost use Rattle.kd_loops.specs.Answering.{Gathers};
ghost use Rattle.kd_loops.specs.Handling.{loop_fault_of, text_room};
ghost use Rattle.kd_loops.specs.Serving.{EndsServing, ServesOn, HasServed, ServesTo, failed_in, traffic};
ghost use Rattle.kd_loops.specs.declared.fault.LoopFault.TheVariants as faults;

use crate::answering::answer_all;
use crate::arrived::Arrived;
use crate::clocks::{Clocks, some_ahead, starts_behind};
use crate::ends::{EndFailed, Sink};
use crate::fault::{LoopFault, ServeFault};
use crate::link::Link;
use crate::recording::record_all;
use crate::serves::ServesAll;
use crate::text::TEXT_ROOM;
use std::alloc::{AllocError, Global};

// The memory that serving works in, all allocated at the start.
#[derive(Drop)]
struct Work {
    buffers: Vec<Arrived>,
    text: Vec<u8>,
}

impl Work {
    fn new(alloc: Global, most: usize) -> Result<Work, AllocError>
        ensures buffers { IfOk result (λ work. vec_len work.buffers ≡ most) }
        ensures text { IfOk result (λ work. text_room ≤ vec_capacity work.text) }
    {
        let mut buffers = Vec::with_capacity(alloc, most)?;
        for _ in 0..most {
            buffers.push(Arrived::new(alloc)?)?;
        }
        let text = Vec::with_capacity(alloc, TEXT_ROOM)?;
        Ok(Work { buffers, text })
    }
}

// How far the clock may be ahead, and the earlier readings of the clocks.
#[derive(Clone, Copy)]
struct Watch {
    limit: Option<u64>,
    clocks: Clocks,
}

/// How much is served, and when serving ends before that.
#[derive(Clone, Copy)]
pub struct Limits {
    /// The most datagrams of a batch, at least 1.
    pub most: usize,
    /// How many datagrams are served.
    pub count: u64,
    /// By how many seconds the clock may be ahead; without it, by any number.
    pub max_ahead: Option<u64>,
}

/// Serves `count` datagrams in batches of at most `most`. It waits for the first datagram of a
/// batch and takes, without waiting, those that have come already. The time of each is that of the
/// link's clock after it came. The whole batch is recorded in the journal, if there is one, before
/// it is handled. Then each reply is handed over to be sent and its line is written, in order; the
/// line of a reply that could not be sent is followed by `fault 99 Send`. All memory of its own is
/// allocated at the start.
///
/// The clocks are read at the start and after each batch has come. A time is ahead if it is more
/// than `max_ahead` seconds after the latest change, and also more than `max_ahead` seconds after
/// the earlier reading of the clock plus the time that the steady clock has counted since.
///
/// # Errors
///
/// `Read` if nothing can be received; `Ahead` if a time is ahead, or if at the start the latest
/// change is more than `max_ahead` seconds after the clock, and `Record` if the journal fails: in
/// these cases nothing of that batch is handled; `Serve` with the fault of an event, after those
/// before it are answered; `Write` if the sink fails; `Memory` before the first datagram, or if the
/// server is out of memory. What was served before remains.
pub fn serve<L: Link, R: Sink, W: Sink, H: ServesAll>(
    alloc: Global,
    link: &mut L,
    journal: &mut Option<R>,
    sink: &mut W,
    server: &mut H,
    limits: Limits,
) -> Result<(), LoopFault>
    requires most { 0 < limits.most }
    requires link { L.has_failed link.old ≡ false }
    requires journal { failed_in R.Sink journal.old ≡ false }
    requires sink { W.has_failed sink.old ≡ false }
    ensures served { ServesTo limits.max_ahead H.latest H.batches
        result limits.count server.old server.new
        (traffic L.Link R.Sink W.Sink link.old journal.old sink.old)
        (traffic L.Link R.Sink W.Sink link.new journal.new sink.new) }
    ensures read { IsErrOf result faults.Read → L.has_failed link.new ≡ true }
    ensures recorded { IsErrOf result faults.Record → failed_in R.Sink journal.new ≡ true }
    ensures kept { is_some journal.new ≡ is_some journal.old }
    ensures write { IsErrOf result faults.Write → W.has_failed sink.new ≡ true }
{
    let mut work = Work::new(alloc, limits.most)?;
    let watch = Watch {
        limit: limits.max_ahead,
        clocks: Clocks::ask(link),
    };
    if starts_behind(watch.limit, server.latest(), watch.clocks.moment) {
        return Err(LoopFault::Ahead);
    }
    let count = limits.count;
    serve_from(link, journal, sink, server, &mut work, watch, count)
}

// Serves `count` datagrams after the clocks were read.
fn serve_from<L: Link, R: Sink, W: Sink, H: ServesAll>(
    link: &mut L,
    journal: &mut Option<R>,
    sink: &mut W,
    server: &mut H,
    work: &mut Work,
    watch: Watch,
    count: u64,
) -> Result<(), LoopFault>
    requires buffers { 0 < vec_len work.old.buffers }
    requires text { text_room ≤ vec_capacity work.old.text }
    ensures served { ServesOn watch.limit H.latest H.batches result count
        (record { server = server.old; clocks = watch.clocks }) server.new
        (traffic L.Link R.Sink W.Sink link.old journal.old sink.old)
        (traffic L.Link R.Sink W.Sink link.new journal.new sink.new) }
    ensures read { IsErrOf result faults.Read → L.has_failed link.new ≡ true }
    ensures recorded { IsErrOf result faults.Record → failed_in R.Sink journal.new ≡ true }
    ensures kept { is_some journal.new ≡ is_some journal.old }
    ensures write { IsErrOf result faults.Write → W.has_failed sink.new ≡ true }
{
    let limit = watch.limit;
    let mut clocks = watch.clocks;
    let mut left = count;
    while left > 0 {
        let (served, asked) = serve_batch(
            link,
            journal,
            sink,
            server,
            &mut work.text,
            work.buffers.as_mut_slice(),
            Watch { limit, clocks },
            left,
        )?;
        clocks = asked;
        left -= served;
    }
    Ok(())
}

// Serves the next batch, of at most `left` datagrams; returns its length, and the readings of the
// clocks after it had come.
fn serve_batch<L: Link, R: Sink, W: Sink, H: ServesAll>(
    link: &mut L,
    journal: &mut Option<R>,
    sink: &mut W,
    server: &mut H,
    text: &mut Vec<u8>,
    buffers: &mut [Arrived],
    watch: Watch,
    left: u64,
) -> Result<(u64, Clocks), LoopFault>
    requires buffers { 0 < length buffers.old }
    requires left { 0 < left }
    requires text { text_room ≤ vec_capacity text.old }
    ensures served { IfOk result (λ served. HasServed watch.limit H.latest H.batches served.0
        (record { server = server.old; clocks = watch.clocks })
        (record { server = server.new; clocks = served.1 })
        (traffic L.Link R.Sink W.Sink link.old journal.old sink.old)
        (traffic L.Link R.Sink W.Sink link.new journal.new sink.new)) }
    ensures some { IfOk result (λ served. 0 < served.0) }
    ensures few { IfOk result (λ served. served.0 ≤ left) }
    ensures ended { IfErr result (λ fault. EndsServing watch.limit H.latest H.batches fault left
        (record { server = server.old; clocks = watch.clocks }) server.new
        (traffic L.Link R.Sink W.Sink link.old journal.old sink.old)
        (traffic L.Link R.Sink W.Sink link.new journal.new sink.new)) }
    ensures read { IsErrOf result faults.Read → L.has_failed link.new ≡ true }
    ensures recorded { IsErrOf result faults.Record → failed_in R.Sink journal.new ≡ true }
    ensures kept { is_some journal.new ≡ is_some journal.old }
    ensures write { IsErrOf result faults.Write → W.has_failed sink.new ≡ true }
    ensures room { vec_capacity text.old ≤ vec_capacity text.new }
{
    let Ok(count) = gather(link, buffers, left) else {
        return Err(LoopFault::Read);
    };
    let asked = Clocks::ask(link);
    let (batch, _) = buffers.split_at(count);
    if some_ahead(
        watch.limit,
        server.latest(),
        watch.clocks,
        asked.steady,
        batch,
    ) {
        return Err(LoopFault::Ahead);
    }
    if let Err(_) = record_all(journal, text, batch) {
        return Err(LoopFault::Record);
    }
    let (list, fault) = server.handle_all(batch);
    if let Err(_) = answer_all(link, sink, text, &list) {
        return Err(LoopFault::Write);
    }
    match fault {
        Some(fault) => Err(loop_fault(fault)),
        None => Ok((count as u64, asked)),
    }
}

// Waits for a datagram, then takes those that have come already, each to a buffer of its own, as
// long as there are buffers and no more than `left`; returns how many came.
fn gather<L: Link>(link: &mut L, buffers: &mut [Arrived], left: u64) -> Result<usize, EndFailed>
    requires buffers { 0 < length buffers.old }
    requires left { 0 < left }
    ensures gathered { IfOk result
        (λ n. Gathers (L.trace link.old) (L.trace link.new) (take n buffers.new)) }
    ensures some { IfOk result (λ n. 0 < n) }
    ensures few { IfOk result (λ n. n ≤ left) }
    ensures within { IfOk result (λ n. n ≤ length buffers.new) }
    ensures none { OnErr result (L.trace link.new ≡ L.trace link.old) }
    ensures failed { OnErr result (L.has_failed link.new ≡ true) }
{
    buffers[0].arrive(link)?;
    let mut count = 1;
    while count < buffers.len() && (count as u64) < left {
        if !buffers[count].arrive_waiting(link) {
            break;
        }
        count += 1;
    }
    Ok(count)
}

// Returns how serving ends at a fault of the server.
fn loop_fault(fault: ServeFault) -> LoopFault
    ensures { result ≡ loop_fault_of fault }
{
    match fault {
        ServeFault::MomentTooLarge => LoopFault::Serve(fault),
        ServeFault::Memory => LoopFault::Memory,
        ServeFault::Store(_) => LoopFault::Serve(fault),
        ServeFault::Failed => LoopFault::Serve(fault),
    }
}
