ghost use Rattle.std.specs.Prelude.{◌≡◌, IfOk, false, is_some, option_map, string_bytes};
ghost use Rattle.std.specs.Option.{option_copied};
ghost use Rattle.kd_host.specs.OnFiles.{IsOver};
ghost use Rattle.kd_host.specs.Trials.{IsUnused, count_told, seconds_told};

use kd_commands::{Files, Form, Listening};
use kd_config::Config;
use kd_database::{left_out, let_go, rows_in_bytes, store_from};
use kd_io::{
    Appended, Copied, LookFault, Output, Sending, Socket, System, copy_at, journal, seconds_of,
};
use kd_keeps::{Cause, Opened, StoreFault, Volatile};
use kd_loops::EndFailed;
use kd_program::Host;
use kd_reports::{kea_remarks, kea_start_words, start_words};
use kd_rows::Row;
use kd_start::{configuration, kea_configuration, try_database, try_socket};
use kd_store::Store;
use kd_trouble::{SocketTrouble, StartFault, StoreTrouble};
use sqlite::{FileFrom, FileStore, Start};
use sqlite_disk::{Disk, Memory};
use std::alloc::{AllocError, Global};
use std::fs::File;
use std::io;
use std::net::UdpSocket;
use std::time::SystemTime;

/// What is below a store of leases in files that held the bytes that a start stands for.
pub type Below<F> = FileStore<FileFrom<F>>;

/// This machine as the host of the program. Its system is asked for sockets and the time. Its start
/// stands for what the files of one store hold, and can be used for one opening. A socket that was
/// handed to the process can be used for one link.
#[derive(Drop)]
pub struct Machine<'a, S: System, F: Start, L: Drop> {
    pub(crate) rt: &'a HostRuntime,
    system: &'a S,
    version: &'a str,
    start: Option<F>,
    handed: Option<Result<UdpSocket, EndFailed>>,
    left: Option<L>,
}

impl<'a, S: System, F: Start> Machine<'a, S, F, Below<F>> {
    ghost use Rattle.std.specs.Prelude.{◌≡◌, None};

    /// Makes the machine of a runtime and a system, on which a program of this version runs, with the
    /// socket that was handed to the process, if any. Nothing has been left below its store yet.
    pub fn of(
        rt: &'a HostRuntime,
        system: &'a S,
        version: &'a str,
        start: F,
        handed: Option<Result<UdpSocket, EndFailed>>,
    ) -> Machine<'a, S, F, Below<F>>
        ensures left { result.left ≡ None }
        ensures handed { result.handed ≡ handed }
        ensures system { result.system.now ≡ system.now }
        ensures version { result.version.now ≡ version.now }
    {
        Machine {
            rt,
            system,
            version,
            start: Some(start),
            handed,
            left: None,
        }
    }
}

impl<'a, S: System, F: Start> Host for Machine<'a, S, F, Below<F>> {
    ghost use Rattle.std.specs.Prelude.{◌≡◌, IfErr, IfOk, Some, false, is_some, true};
    ghost use Rattle.sqlite_store.specs.FileStore.{view};
    ghost use Rattle.sqlite_trees.specs.View.{IsClean};
    ghost use Rattle.sqlite_wal.specs.Files.{image_at};
    ghost use Rattle.kd_database.specs.Stops.{LiesBelow};
    ghost use Rattle.kd_database.specs.Stores.{IsStoreIn, StandsAsHeld, StandsNew};
    ghost use Rattle.kd_host.specs.OnFiles.{AreRemarksOfThese, AreRowsFound, AreWordsOfThese, GivesNoRows, GivesNoStore, IsLinkFor, IsNoStartOfThese, IsOfThese, sending_of};
    ghost use Rattle.kd_host.specs.Trials.{IsTimeOfClock, IsUnusedOfSome};
    ghost use Rattle.kd_start.specs.Trials.{IsSocketTrial, IsStoreTrial};

    type Named = Store<Below<F>>;

    type Unnamed = Volatile;

    type Socket = Socket<'a>;

    type Journal = Output<File>;

    ghost configures = { λ old files result new.
        IfOk result (IsOfThese files) × IfErr result (IsNoStartOfThese files) };

    ghost opens = { λ old path result new.
        IfOk result (λ store. StandsAsHeld (image_at F.Start) store
        × StandsNew (image_at F.Start) store × IsStoreIn (image_at F.Start) store)
        × IfErr result (GivesNoStore ⟦<FileFrom<F> as Disk>⟧ (image_at F.Start)) };

    ghost makes = { λ old result new. IfOk result (λ store. store.is_new ≡ true) };

    ghost closes = { λ old path store new.
        (it : _) × (new.left ≡ Some it) × (IsClean (view it) → LiesBelow store.conn it) };

    ghost copies = { λ old path result new.
        IfOk result AreRowsFound × IfErr result (GivesNoRows ⟦<Memory as Disk>⟧) };

    ghost binds = { λ old listening result new.
        IfOk result (λ link. link.sending ≡ sending_of listening)
        × IsLinkFor S.System (λ link. link.socket) old.system.now listening old.handed result };

    ghost records = { λ old path result new. IfOk result (λ sink. sink.failed ≡ false) };

    ghost tries = { λ machine path answer. IsStoreTrial path answer };

    ghost reaches = { λ machine address port answer.
        IsSocketTrial S.System machine.system.now address port answer };

    ghost tells_time = { λ machine moment. IsTimeOfClock S.System machine.system.now moment };

    ghost explains = { λ machine files fault words. AreWordsOfThese files fault words };

    ghost remarked = { λ machine files words. AreRemarksOfThese files words };

    ghost leaves_out = { λ machine path count. IsUnusedOfSome count };

    ghost version = { λ machine. machine.version.now };

    fn configuration(&mut self, files: &Files) -> Result<Config, StartFault> {
        let file = path_if_given(&files.config);
        match (files.form, file) {
            (Form::Kea(server), Some(path)) => kea_configuration(self.rt, path, server),
            (_, file) => configuration(self.rt, file, path_if_given(&files.token_dir)),
        }
    }

    fn named_store(&mut self, path: &str) -> Result<Opened<Store<Below<F>>>, StoreFault> {
        match self.start.take() {
            Some(start) => store_from(self.rt, path, start),
            None => Err(StoreFault::Sql(Cause::Closed)),
        }
    }

    fn unnamed_store(&mut self) -> Result<Opened<Volatile>, StoreFault> {
        let alloc = self.rt.alloc();
        Ok(Opened {
            store: Volatile::new(alloc),
            rows: Vec::new(alloc),
        })
    }

    fn close(&mut self, _path: &str, store: Store<Below<F>>) {
        self.left = Some(let_go(store));
    }

    fn copy(&mut self, path: &str) -> Result<Vec<Row>, LookFault> {
        let Copied { log, db } = copy_at(self.rt, path)?;
        match rows_in_bytes(self.rt.alloc(), log.as_slice(), db.as_slice()) {
            Ok(Some(rows)) => Ok(rows),
            Ok(None) => Err(LookFault::NoTable),
            Err(fault) => Err(LookFault::Store(fault)),
        }
    }

    fn socket(&mut self, listening: Listening) -> Result<Socket<'a>, EndFailed> {
        let sending = Sending {
            mirror: listening.mirror,
            broadcast_as: listening.broadcast_as,
        };
        let (address, port) = (listening.bind, listening.port);
        match self.handed.take() {
            Some(Ok(socket)) => Socket::of_inherited(self.rt, socket, address, port, sending),
            Some(Err(failed)) => Err(failed),
            None => opened(self.rt, self.system.open(address, port), sending),
        }
    }

    fn journal(&mut self, path: &str, files: &Files) -> Result<Appended<Output<File>>, EndFailed> {
        // No file has an empty path.
        let config = path_if_given(&files.config).unwrap_or("");
        let store = path_if_given(&files.store).unwrap_or("");
        match log_of(self.rt.alloc(), &files.store) {
            Ok(log) => journal(self.rt, path, &[config, store, log.as_str()]),
            Err(_) => Err(EndFailed),
        }
    }

    fn start_words(&self, files: &Files, fault: &StartFault) -> Result<String, AllocError> {
        let file = path_if_given(&files.config);
        match (files.form, file) {
            (Form::Kea(server), Some(path)) => kea_start_words(self.rt, path, server, fault),
            (_, file) => start_words(self.rt, file, path_if_given(&files.token_dir), fault),
        }
    }

    fn remarks(&self, files: &Files) -> Result<String, AllocError> {
        match (files.form, path_if_given(&files.config)) {
            (Form::Kea(server), Some(path)) => kea_remarks(self.rt, path, server),
            _ => Ok(String::new(self.rt.alloc())),
        }
    }

    fn try_database(&self, path: &str) -> Result<bool, StoreTrouble> {
        try_database(self.rt, path)
    }

    fn left_out(&self, path: &str) -> Option<usize> {
        match copy_at(self.rt, path) {
            Ok(Copied { log, db }) => unused(self.rt.alloc(), log.as_slice(), db.as_slice()),
            Err(_) => None,
        }
    }

    fn try_socket(&self, address: u32, port: u16) -> Result<bool, SocketTrouble> {
        try_socket(self.system, address, port)
    }

    fn clock(&self) -> u64 {
        seconds_given(self.system.time())
    }

    fn version(&self) -> &str {
        self.version
    }
}

// Returns a link over a socket that the system gave, if it gave one.
fn opened<'a>(
    rt: &'a HostRuntime,
    given: io::Result<UdpSocket>,
    sending: Sending,
) -> Result<Socket<'a>, EndFailed>
    ensures over { IsOver (λ link. link.socket) given result }
    ensures sending { IfOk result (λ link. link.sending ≡ sending) }
    ensures works { IfOk result (λ link. link.failed ≡ false) }
{
    match given {
        Ok(socket) => Socket::to_all(rt, socket, sending),
        Err(_) => Err(EndFailed),
    }
}

// Returns the whole seconds of a time that the system gave, or 0 if it gave none.
fn seconds_given(given: io::Result<SystemTime>) -> u64
    ensures { result ≡ seconds_told given }
{
    match given {
        Ok(time) => seconds_of(time),
        Err(_) => 0,
    }
}

// Returns a path, if one is given.
fn path_if_given(path: &Option<String>) -> Option<&str>
    ensures given { is_some result ≡ is_some path.now }
    ensures exact { option_copied result ≡ option_map string_bytes path.now }
{
    match path {
        Some(path) => Some(path.as_str()),
        None => None,
    }
}

// Returns the path of the log of the store at a path, or an empty one if none is given.
fn log_of(alloc: Global, store: &Option<String>) -> Result<String, AllocError> {
    match store {
        Some(path) => format!(in alloc; "{path}-wal"),
        None => Ok(String::new(alloc)),
    }
}

// Returns how many bytes a store that is opened on a log and a database leaves out of the log, if
// any: all, if the database has no bytes (SQLite's file format, section 4).
fn unused(alloc: Global, log: &[u8], db: &[u8]) -> Option<usize>
    ensures { IsUnused log.now db.now result }
{
    if db.is_empty() && !log.is_empty() {
        return Some(log.len());
    }
    count_given(left_out(alloc, log))
}

// Returns a count, if there is one; nothing if it cannot be determined.
fn count_given(given: Result<Option<usize>, StoreFault>) -> Option<usize>
    ensures { result ≡ count_told given }
{
    match given {
        Ok(count) => count,
        Err(_) => None,
    }
}
