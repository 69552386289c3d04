ghost use Rattle.std.specs.Prelude.{◌≡◌, ◌++◌, ◌<◌, Err, IfOk, IsTrue, MatchResult, Ok, false, is_some, option_map, string_bytes};
ghost use Rattle.std.specs.Option.{option_copied};
ghost use Rattle.kd_answers.specs.Status.{status_of};
ghost use Rattle.kd_trouble.specs.Faults.{start_fault_number};
ghost use Rattle.kd_keeps.specs.Fault.{store_fault_number};
ghost use Rattle.kd_keeps.specs.Reading.{AreRead};
ghost use Rattle.kd_program.specs.Streams.{TellsWith, at_ends, streams, written_to};
ghost use Rattle.kd_loops.specs.Serving.{failed_in};
ghost use Rattle.kd_program.specs.Banner.{removed_line, serving_line};
ghost use Rattle.kd_program.specs.Running.{GivesJournal, IsStoreFor, IsStoreFound, Listens, ReplaysInput, ServesWork, Starts, WorksAsServer, live_view, ports_asked};

use crate::banner::{Banner, Sizes, pool_addresses, put_banner, put_removed};
use crate::ends::StandardEnds;
use crate::explaining::explain_line;
use crate::host::Host;
use crate::listing::{LeaseTable, print_view};
use crate::looking::look;
use crate::printing::{refuse, refuse_as, refuse_memory, refuse_replay, tell};
use kd_answers::serve_status;
use kd_commands::{Files, Service, View, Work};
use kd_config::Config;
use kd_event::Ports;
use kd_io::Appended;
use kd_keeps::{Keeps, Opened, StoreFault};
use kd_loops::{EndFailed, Limits, Link, LoopFault, Sink, Source};
use kd_server::{Server, replay, serve};
use kd_trouble::StartFault;
use std::alloc::{AllocError, Global};

// What a command uses: its files, and the path of its store, unless that is in memory.
#[derive(Clone, Copy)]
struct Used<'a> {
    files: &'a Files,
    store: Option<&'a str>,
}

// Returns how many datagrams may share one commit: 32 if a commit takes time, so that waiting
// datagrams need not wait for one commit each; otherwise 1. It is also 1 if replies go to the
// sender, which is known only for the last datagram.
fn batch_size(is_file: bool, mirror: bool) -> usize
    ensures some { 0 < result }
    ensures mirrored { IsTrue mirror → result ≡ 1 }
{
    if is_file && !mirror { 32 } else { 1 }
}

// Does this work under the configuration of these files, over the store that they name, and returns
// the exit status. A live view reads the database of that store; other work is done as a server.
pub(crate) fn start<H: Host, R: Source, O: Sink, E: Sink>(
    alloc: Global,
    host: &mut H,
    ends: &mut StandardEnds<R, O, E>,
    files: Files,
    work: Work,
) -> u8
    requires input { R.has_failed ends.old.input ≡ false }
    requires output { O.has_failed ends.old.output ≡ false }
    ensures { Starts H.Host H.Named.Keeps H.Unnamed.Keeps H.Socket.Link H.Journal.Sink files work
        (at_ends R.Source O.Sink E.Sink host.old ends.old)
        (at_ends R.Source O.Sink E.Sink host.new ends.new) result }
{
    match read_configuration(host, &files) {
        Ok(config) => match view_if_live(&files, &work) {
            Some((path, view, at)) => look(alloc, host, ends, config, path, view, at),
            None => work_as_server(alloc, host, ends, config, &files, &work),
        },
        Err(fault) => refuse_start(alloc, &mut ends.faults, &fault),
    }
}

// Returns the path of a database, the view of it and its time, if work is a live view.
fn view_if_live<'a>(files: &'a Files, work: &'a Work) -> Option<(&'a str, &'a View, u64)>
    ensures { option_map (λ it. (it.0.now, it.1.now, it.2)) result
        ≡ live_view (option_map string_bytes files.now.store) work.now }
{
    match (&files.store, work) {
        (
            Some(path),
            Work::Show {
                view,
                at,
                live: true,
            },
        ) => Some((path.as_str(), view, *at)),
        _ => None,
    }
}

// Does this work as a server, which keeps its leases in the store at the path that the operator gave,
// or in memory if there is none. Work that only reads makes no database.
fn work_as_server<H: Host, R: Source, O: Sink, E: Sink>(
    alloc: Global,
    host: &mut H,
    ends: &mut StandardEnds<R, O, E>,
    config: Config,
    files: &Files,
    work: &Work,
) -> u8
    requires input { R.has_failed ends.old.input ≡ false }
    requires output { O.has_failed ends.old.output ≡ false }
    ensures { WorksAsServer H.Host H.Named.Keeps H.Unnamed.Keeps H.Socket.Link H.Journal.Sink
        (option_map string_bytes files.now.store) work.now config
        (at_ends R.Source O.Sink E.Sink host.old ends.old)
        (at_ends R.Source O.Sink E.Sink host.new ends.new) result }
{
    let store = store_for(host, files, work);
    let used = Used { files, store };
    match store {
        Some(path) => match host.named_store(path) {
            Ok(opened) => {
                let (status, store) = run_over_store(alloc, host, ends, config, opened, used, work);
                host.close(path, store);
                status
            }
            Err(fault) => refuse_store(alloc, &mut ends.faults, &fault),
        },
        None => match host.unnamed_store() {
            Ok(opened) => run_over_store(alloc, host, ends, config, opened, used, work).0,
            Err(fault) => refuse_store(alloc, &mut ends.faults, &fault),
        },
    }
}

// Returns the path of the store for this work, if it is not in memory.
fn store_for<'a, H: Host>(host: &H, files: &'a Files, work: &Work) -> Option<&'a str>
    ensures { IsStoreFor H.Host (option_map string_bytes files.now.store) work.now host.now
        (option_copied result) }
{
    match &files.store {
        Some(path) => match work {
            Work::Replay | Work::Serve(_) => Some(path.as_str()),
            Work::Explain(_) | Work::Show { .. } => store_found(host, path.as_str()),
        },
        None => None,
    }
}

// Returns the path of the store for work that only reads, unless there is no database: none is made
// for it.
fn store_found<'a, H: Host>(host: &H, path: &'a str) -> Option<&'a str>
    ensures { IsStoreFound H.Host path.now host.now (option_copied result) }
{
    match host.try_database(path) {
        Ok(false) => None,
        _ => Some(path),
    }
}

// Returns the configuration that the host gives for these files.
pub(crate) fn read_configuration<H: Host>(host: &mut H, files: &Files) -> Result<Config, StartFault>
    ensures { H.Host.configures host.old files.now result host.new }
{
    host.configuration(files)
}

// Returns a path, if one is given.
pub(crate) fn path_in(path: &Option<String>) -> Option<&str>
    ensures { option_copied result ≡ option_map string_bytes path.now }
{
    match path {
        Some(path) => Some(path.as_str()),
        None => None,
    }
}

// Reports why there is no configuration, and returns the exit status.
pub(crate) fn refuse_start<E: Sink>(alloc: Global, faults: &mut E, fault: &StartFault) -> u8
    ensures { TellsWith (start_fault_number fault.now) (status_of (start_fault_number fault.now))
        result (written_to E.Sink faults.old) (written_to E.Sink faults.new) }
{
    refuse(alloc, faults, fault.number(), fault)
}

// Reports why there is no store, or why it has failed, and returns the exit status.
pub(crate) fn refuse_store<E: Sink>(alloc: Global, faults: &mut E, fault: &StoreFault) -> u8
    ensures { TellsWith (store_fault_number fault.now) (status_of (store_fault_number fault.now))
        result (written_to E.Sink faults.old) (written_to E.Sink faults.new) }
{
    refuse(alloc, faults, fault.number(), fault)
}

// Does this work as a server with a configuration over a store. The store is returned.
fn run_over_store<H: Host, R: Source, O: Sink, E: Sink, S: Keeps>(
    alloc: Global,
    host: &mut H,
    ends: &mut StandardEnds<R, O, E>,
    config: Config,
    opened: Opened<S>,
    used: Used<'_>,
    work: &Work,
) -> (u8, S)
    requires store { is_some (S.fault opened.store) ≡ false }
    requires read { AreRead S.Keeps opened.store opened.rows.items }
    requires input { R.has_failed ends.old.input ≡ false }
    requires output { O.has_failed ends.old.output ≡ false }
    ensures { ServesWork H.Host H.Socket.Link H.Journal.Sink S.Keeps
        (option_copied used.entry.store) work.now config
        (record { held = opened.store; at = at_ends R.Source O.Sink E.Sink host.old ends.old })
        (record { held = result.1; at = at_ends R.Source O.Sink E.Sink host.new ends.new })
        result.0 }
{
    let mut server = match Server::start(alloc, config, opened, ports_of(work)) {
        Ok(server) => server,
        Err((fault, _, store)) => {
            let status = refuse(alloc, &mut ends.faults, fault.number(), &fault);
            return (status, store);
        }
    };
    let status = match work {
        Work::Replay => replay_input(alloc, ends, &mut server),
        Work::Explain(number) => explain_line(alloc, ends, &table_of(&server), *number),
        Work::Show { view, at, .. } => print_view(alloc, ends, view, *at, &table_of(&server)),
        Work::Serve(service) => serve_link(alloc, host, ends, &mut server, service, used),
    };
    let (_, store) = server.close();
    (status, store)
}

// The rows of a server under its configuration.
fn table_of<S: Keeps>(server: &Server<S>) -> LeaseTable<'_>
    ensures config { result.config.now ≡ server.now.config }
    ensures rows { result.rows.now.rows ≡ server.now.rows }
    ensures failed { result.failed ≡ is_some (S.fault server.now.store) }
{
    LeaseTable {
        config: server.config(),
        rows: server.rows(),
        failed: server.has_failed(),
    }
}

// Returns the ports of a server: those of the arguments, or the standard ones.
fn ports_of(work: &Work) -> Ports
    ensures { result ≡ ports_asked work.now }
{
    match work {
        Work::Serve(service) => Ports {
            server: service.listening.port,
            client: service.listening.client_port,
        },
        _ => Ports::STANDARD,
    }
}

// Replays the events of standard input to standard output.
fn replay_input<R: Source, O: Sink, E: Sink, S: Keeps>(
    alloc: Global,
    ends: &mut StandardEnds<R, O, E>,
    server: &mut Server<S>,
) -> u8
    requires input { R.has_failed ends.old.input ≡ false }
    requires output { O.has_failed ends.old.output ≡ false }
    ensures { ReplaysInput S.Keeps server.old server.new result
        (streams R.Source O.Sink E.Sink ends.old) (streams R.Source O.Sink E.Sink ends.new) }
{
    match replay(alloc, &mut ends.input, &mut ends.output, server) {
        Ok(_) => 0,
        Err(fault) => refuse_replay(alloc, &mut ends.faults, fault),
    }
}

// Serves datagrams of a socket, up to `count`. Reports on standard error what it does before it
// begins.
fn serve_link<H: Host, R: Source, O: Sink, E: Sink, S: Keeps>(
    alloc: Global,
    host: &mut H,
    ends: &mut StandardEnds<R, O, E>,
    server: &mut Server<S>,
    service: &Service,
    used: Used<'_>,
) -> u8
    requires output { O.has_failed ends.old.output ≡ false }
    ensures { Listens H.Host H.Socket.Link H.Journal.Sink S.Keeps
        (option_copied used.entry.store) service.now
        (record { held = server.old; at = at_ends R.Source O.Sink E.Sink host.old ends.old })
        (record { held = server.new; at = at_ends R.Source O.Sink E.Sink host.new ends.new })
        result }
{
    let Ok(mut link) = host.socket(service.listening) else {
        let fault = LoopFault::Read;
        return refuse(alloc, &mut ends.faults, fault.number(), &fault);
    };
    let Ok(mut record) = journal_of(host, &service.journal, used.files) else {
        let fault = LoopFault::Record;
        return refuse(alloc, &mut ends.faults, fault.number(), &fault);
    };
    let Ok(lines) = first_lines(alloc, server, service, used.store, record.removed) else {
        return refuse_memory(&mut ends.faults);
    };
    tell(&mut ends.faults, lines.as_bytes());
    let limits = Limits {
        most: batch_size(used.store.is_some(), service.listening.mirror),
        count: service.count,
        max_ahead: service.max_ahead,
    };
    match serve(
        alloc,
        &mut link,
        &mut record.sink,
        &mut ends.output,
        server,
        limits,
    ) {
        Ok(()) => 0,
        Err(fault) => refuse_as(
            alloc,
            &mut ends.faults,
            fault.number(),
            &fault,
            serve_status(fault),
        ),
    }
}

// Returns what a server reports before it serves: the bytes that were removed from its record, if
// any, and itself.
fn first_lines<S: Keeps>(
    alloc: Global,
    server: &Server<S>,
    service: &Service,
    store: Option<&str>,
    removed: u64,
) -> Result<String, AllocError>
    ensures { IfOk result (λ lines. string_bytes lines
        ≡ removed_line (option_map string_bytes service.now.journal) removed
        ++ serving_line service.now.listening server.now.config server.now.rows
        (option_copied store.entry)) }
{
    let subnets = server.config().subnets();
    let sizes = Sizes {
        subnets: subnets.len(),
        addresses: pool_addresses(subnets),
    };
    let banner = Banner {
        listening: service.listening,
        sizes,
        leases: server.row_count(),
        latest: server.latest_change(),
        store: store.unwrap_or("memory"),
    };
    let mut lines = String::new(alloc);
    put_removed(alloc, &mut lines, path_in(&service.journal), removed)?;
    put_banner(alloc, &mut lines, &banner)?;
    Ok(lines)
}

// Opens the record at a path, if one is given.
fn journal_of<H: Host>(
    host: &mut H,
    path: &Option<String>,
    files: &Files,
) -> Result<Appended<Option<H::Journal>>, EndFailed>
    ensures given { MatchResult result
        (λ it. GivesJournal H.Host H.Journal.Sink host.old (option_map string_bytes path.now)
        (Ok it.sink) host.new)
        (λ failed. GivesJournal H.Host H.Journal.Sink host.old (option_map string_bytes path.now)
        (Err failed) host.new) }
    ensures works { IfOk result (λ it. failed_in H.Journal.Sink it.sink ≡ false) }
{
    match path {
        Some(path) => {
            let Appended { sink, removed } = host.journal(path.as_str(), files)?;
            Ok(Appended {
                sink: Some(sink),
                removed,
            })
        }
        None => Ok(Appended {
            sink: None,
            removed: 0,
        }),
    }
}
