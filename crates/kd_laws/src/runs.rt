//! What holds of a command, and from one run of the program over files to the next.
ghost use Rattle.kd_laws.specs.AcrossRuns.{Commands, IsOneLife, Openings, RunsAreHistories, RunsNeverOverlap};
ghost use Rattle.kd_laws.specs.Openings.{CommandsAreOpenings};

use crate::calls::{replaying_is_calls, serving_is_calls};
use crate::lives::{openings_are_histories, openings_end};
use crate::sent::no_reply_overlaps;
use kd_database::restarts;
use kd_host::{Below, Machine};
use kd_io::{Output, Socket};
use kd_keeps::Keeps;
use kd_loops::{Link, Sink};
use kd_program::Host;
use kd_store::Store;
use sqlite::{FileFrom, FileStore, Start};
use sqlite_disk::Disk;
use std::fs::File;

/// What a command does with a server over a store is one opening of that store, so
/// `openings_are_histories` applies to it. The calls are those of the datagrams that `serve`
/// received or of the lines that `replay` read, one after another, and what they returned is what
/// was sent and written; other commands make no call.
pub fn commands_are_openings<H: Host, S: Keeps>()
    ensures { CommandsAreOpenings H.Host H.Socket.Link H.Journal.Sink S.Keeps }
{
    replaying_is_calls::<S>();
    serving_is_calls::<S>();
}

// What is known of the openings of two servers, over stores of any types. A law that names laws at
// the type of a store in files is expensive to prove for each that it names, so it names this one.
fn openings<S: Keeps, T: Keeps>()
    ensures { Openings S.Keeps T.Keeps }
{
    openings_are_histories::<S>();
    openings_end::<S>();
    openings_are_histories::<T>();
    openings_end::<T>();
}

// The same, and what a command of a host does over the first store.
fn commands<H: Host, S: Keeps, T: Keeps>()
    ensures { Commands H.Host H.Socket.Link H.Journal.Sink S.Keeps T.Keeps }
{
    commands_are_openings::<H, S>();
    openings::<S, T>();
}

/// Two openings of a server are one life if the second is on what a crash left of the files of the
/// first, even though their stores have different types. So `lives_are_histories` applies to the
/// operator's database, across restarts and crashes.
pub fn goes_on<D: Disk, E: Disk>()
    ensures { IsOneLife ⟦<Store<FileStore<D>> as Keeps>⟧ ⟦<Store<FileStore<E>> as Keeps>⟧ }
{
    openings::<Store<FileStore<D>>, Store<FileStore<E>>>();
    restarts::<D, E>();
}

/// What a command does over files that held a table is a history from that table, and over a
/// database without bytes one from the empty table. Its calls are those of the datagrams that came
/// or of the lines that were read, and what they returned is what was sent and written. A server
/// that is opened on what a crash then leaves stands at rows to which that history leads.
pub fn runs_are_histories<'a, F: Start, E: Disk>()
    ensures { RunsAreHistories ⟦<Store<Below<F>> as Keeps>⟧ ⟦<Store<FileStore<E>> as Keeps>⟧
        ⟦<Machine<'a, HostRuntime, F, Below<F>> as Host>⟧ ⟦<Socket<'a> as Link>⟧ ⟦<Output<File> as Sink>⟧ }
{
    commands::<Machine<'a, HostRuntime, F, Below<F>>, Store<Below<F>>, Store<FileStore<E>>>();
    restarts::<FileFrom<F>, E>();
}

/// No address is sent to two clients at once, over all runs of the program over the files of a
/// store, one after another.
///
/// Take a command over files that held a table, or no bytes, after earlier openings that led to that
/// table, if there were any. Its calls are those of the datagrams that came or of the lines that
/// were read, and what they returned is what was sent and written. No two replies of all these
/// openings overlap, as `no_reply_overlaps` says. The openings with this one lead to the table that
/// the files then hold, whatever a crash leaves of them; so the law applies again to the next run.
pub fn runs_never_overlap<'a, F: Start, E: Disk>()
    ensures { RunsNeverOverlap ⟦<Store<Below<F>> as Keeps>⟧ ⟦<Store<FileStore<E>> as Keeps>⟧
        ⟦<Machine<'a, HostRuntime, F, Below<F>> as Host>⟧ ⟦<Socket<'a> as Link>⟧ ⟦<Output<File> as Sink>⟧ }
{
    commands::<Machine<'a, HostRuntime, F, Below<F>>, Store<Below<F>>, Store<FileStore<E>>>();
    restarts::<FileFrom<F>, E>();
    no_reply_overlaps();
    kd_store::laws::stands_once::<E>();
}
