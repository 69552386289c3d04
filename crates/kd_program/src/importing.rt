ghost use Rattle.std.specs.Prelude.{◌≡◌, false, is_some};
ghost use Rattle.std.specs.List.{All};
ghost use Rattle.kd_program.specs.Importing.{ImportsIfRead, ImportsInto, ImportsText, IsMoved};
ghost use Rattle.kd_program.specs.Running.{Imports};
ghost use Rattle.kd_program.specs.Streams.{at_ends, streams, written_to};
ghost use Rattle.kd_rows.specs.Row.{IsInRange};
ghost use Rattle.kd_rows.specs.Table.{Rise};

use crate::ends::StandardEnds;
use crate::host::Host;
use crate::printing::refuse;
use crate::serving::refuse_store;
use kd_io::read_source;
use kd_keeps::{Keeps, Opened};
use kd_log::leases_in;
use kd_loops::{Sink, Source};
use kd_rows::Row;
use std::alloc::Global;
use std::fmt;

// The largest input in bytes that is imported: 256 MiB.
const MOST_BYTES: u32 = 268_435_456;

// The number of the fault that a store already has leases.
const NOT_EMPTY: u8 = 83;

// The fault that a store already has leases.
struct NotEmpty;

impl fmt::Display for NotEmpty {
    fn fmt<W: fmt::Write>(&self, f: &mut fmt::Formatter<W>) -> fmt::Result {
        f.write_str("NotEmpty")
    }
}

// Puts the table that the lines of leases on standard input stand for into the store at a path,
// which must have no leases, in one commit; and returns the exit status.
pub(crate) fn import<H: Host, R: Source, O: Sink, E: Sink>(
    alloc: Global,
    host: &mut H,
    ends: &mut StandardEnds<R, O, E>,
    path: &str,
) -> u8
    ensures { Imports H.Host H.Named.Keeps H.Unnamed.Keeps H.Socket.Link H.Journal.Sink
        path.now (at_ends R.Source O.Sink E.Sink host.old ends.old)
        (at_ends R.Source O.Sink E.Sink host.new ends.new) result }
{
    match host.named_store(path) {
        Ok(Opened { mut store, rows }) => {
            let status = import_into(alloc, ends, &mut store, &rows);
            host.close(path, store);
            status
        }
        Err(fault) => refuse_store(alloc, &mut ends.faults, &fault),
    }
}

// Does the same for a store with these rows.
fn import_into<R: Source, O: Sink, E: Sink, S: Keeps>(
    alloc: Global,
    ends: &mut StandardEnds<R, O, E>,
    store: &mut S,
    rows: &[Row],
) -> u8
    requires works { is_some (S.fault store.old) ≡ false }
    ensures { ImportsInto S.Keeps rows.now store.old store.new result
        (streams R.Source O.Sink E.Sink ends.old) (streams R.Source O.Sink E.Sink ends.new) }
{
    if rows.is_empty() {
        import_input(alloc, ends, store)
    } else {
        refuse(alloc, &mut ends.faults, NOT_EMPTY, &NotEmpty)
    }
}

// Imports what is on standard input into a store.
fn import_input<R: Source, O: Sink, E: Sink, S: Keeps>(
    alloc: Global,
    ends: &mut StandardEnds<R, O, E>,
    store: &mut S,
) -> u8
    requires works { is_some (S.fault store.old) ≡ false }
    ensures { ImportsIfRead S.Keeps store.old store.new result
        (streams R.Source O.Sink E.Sink ends.old) (streams R.Source O.Sink E.Sink ends.new) }
{
    match read_source(alloc, &mut ends.input, MOST_BYTES) {
        Ok(text) => import_text(alloc, &mut ends.faults, store, &text),
        Err(fault) => refuse(alloc, &mut ends.faults, fault.number(), &fault),
    }
}

// Imports a text into a store.
fn import_text<E: Sink, S: Keeps>(alloc: Global, faults: &mut E, store: &mut S, text: &[u8]) -> u8
    requires works { is_some (S.fault store.old) ≡ false }
    ensures { ImportsText S.Keeps text.now store.old store.new result
        (written_to E.Sink faults.old) (written_to E.Sink faults.new) }
{
    match leases_in(alloc, text) {
        Ok(table) => restore(alloc, faults, store, &table),
        Err(fault) => refuse(alloc, faults, fault.number(), &fault),
    }
}

// Puts rows into a store, in one commit.
fn restore<E: Sink, S: Keeps>(alloc: Global, faults: &mut E, store: &mut S, table: &[Row]) -> u8
    requires works { is_some (S.fault store.old) ≡ false }
    requires rise { Rise table.now }
    requires ranges { All IsInRange table.now }
    ensures { IsMoved S.Keeps table.now store.old store.new result
        (written_to E.Sink faults.old) (written_to E.Sink faults.new) }
{
    match store.put_all(table) {
        Ok(()) => 0,
        Err(fault) => refuse_store(alloc, faults, &fault),
    }
}
