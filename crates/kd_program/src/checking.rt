ghost use Rattle.std.specs.Prelude.{◌≡◌, ◌∷◌, [], option_map, string_bytes};
ghost use Rattle.kd_program.specs.Checking.{ChecksStart, FindsRows, FindsStore, TriesConfig, check_status, config_finding, finding_number, socket_finding};
ghost use Rattle.kd_program.specs.Streams.{at_ends};

use crate::ends::StandardEnds;
use crate::host::Host;
use crate::printing::{refuse_memory, show};
use crate::report::{config_report_of, report_of};
use crate::serving::read_configuration;
use kd_answers::exit_status;
use kd_commands::{Files, Place};
use kd_config::Config;
use kd_io::LookFault;
use kd_loops::{LoopFault, ServeFault, Sink, Source, starts_behind};
use kd_rows::Rows;
use kd_trouble::{SocketTrouble, StartFault, StoreTrouble};
use std::alloc::Global;

// What was found out about a store.
#[derive(Drop)]
pub(crate) enum StoreFinding {
    // No path was given.
    Unasked,
    // The database does not exist, and would be created.
    New,
    // It cannot be opened.
    Trouble(StoreTrouble),
    // It cannot be read.
    Unread(LookFault),
    // There is no memory for its rows.
    Memory,
    // Its rows were read.
    Open(SeenRows),
}

// What was found out about the rows of a store.
#[derive(Clone, Copy)]
pub(crate) struct SeenRows {
    pub(crate) count: usize,
    pub(crate) latest: u64,
    pub(crate) moment: u64,
    // Whether the clock is too far behind the latest change.
    pub(crate) is_behind: bool,
}

// What the steps of a start found.
#[derive(Clone, Copy)]
pub(crate) struct Found<'a> {
    pub(crate) config: &'a Result<Config, StartFault>,
    pub(crate) store: &'a StoreFinding,
    pub(crate) socket: Result<bool, SocketTrouble>,
    pub(crate) place: Place,
}

// Reads the configuration of these files. Prints in words what was found, and returns the exit status:
// that of its fault, or 0 if it has none.
pub(crate) fn try_config<H: Host, R: Source, O: Sink, E: Sink>(
    alloc: Global,
    host: &mut H,
    ends: &mut StandardEnds<R, O, E>,
    files: &Files,
) -> u8
    ensures { TriesConfig H.Host files.now
        (at_ends R.Source O.Sink E.Sink host.old ends.old)
        (at_ends R.Source O.Sink E.Sink host.new ends.new) result }
{
    let config = read_configuration(host, files);
    let status = status_of_config(&config);
    match config_report_of(alloc, host, files, &config) {
        Ok(text) => show(&mut ends.output, &mut ends.faults, text.as_bytes(), status),
        Err(_) => refuse_memory(&mut ends.faults),
    }
}

// Returns the exit status of the fault of a configuration, or 0 if it has none.
fn status_of_config(config: &Result<Config, StartFault>) -> u8
    ensures { result ≡ check_status (config_finding config.now ∷ []) }
{
    match number_of_config(config) {
        Some(number) => exit_status(number),
        None => 0,
    }
}

// Tries each step of a start, in order, without changing a file. Prints in words what was found,
// and returns the exit status: that of the first fault that the host finds, or 0 if there is none.
pub(crate) fn check<H: Host, R: Source, O: Sink, E: Sink>(
    alloc: Global,
    host: &mut H,
    ends: &mut StandardEnds<R, O, E>,
    files: &Files,
    place: Place,
) -> u8
    ensures { ChecksStart H.Host files.now place
        (at_ends R.Source O.Sink E.Sink host.old ends.old)
        (at_ends R.Source O.Sink E.Sink host.new ends.new) result }
{
    let config = read_configuration(host, files);
    let store = find_store(host, &files.store, place.max_ahead);
    let socket = host.try_socket(place.bind, place.port);
    let status = status_of_first(
        number_of_config(&config),
        store.number(),
        number_of_socket(socket),
    );
    let found = Found {
        config: &config,
        store: &store,
        socket,
        place,
    };
    match report_of(alloc, host, files, &found) {
        Ok(text) => show(&mut ends.output, &mut ends.faults, text.as_bytes(), status),
        Err(_) => refuse_memory(&mut ends.faults),
    }
}

// Tries the store at a path, if there is one.
fn find_store<H: Host>(host: &mut H, path: &Option<String>, limit: Option<u64>) -> StoreFinding
    ensures { FindsStore H.Host (option_map string_bytes path.now) limit host.old host.new
        result }
{
    let Some(path) = path else {
        return StoreFinding::Unasked;
    };
    let path = path.as_str();
    match host.try_database(path) {
        Ok(true) => find_rows(host, path, limit),
        Ok(false) => StoreFinding::New,
        Err(trouble) => StoreFinding::Trouble(trouble),
    }
}

// Reads the rows of the database at a path, and asks the clock.
fn find_rows<H: Host>(host: &mut H, path: &str, limit: Option<u64>) -> StoreFinding
    ensures { FindsRows H.Host path.now limit host.old host.new result }
{
    match host.copy(path) {
        Ok(rows) => match Rows::new(rows) {
            Ok(rows) => {
                let moment = host.clock();
                let latest = rows.latest();
                StoreFinding::Open(SeenRows {
                    count: rows.len(),
                    latest,
                    moment,
                    is_behind: starts_behind(limit, latest, moment),
                })
            }
            Err(_) => StoreFinding::Memory,
        },
        Err(fault) => StoreFinding::Unread(fault),
    }
}

impl StoreFinding {
    // Returns the number of the fault that was found, if any.
    fn number(&self) -> Option<u8>
        ensures { result ≡ finding_number self.now }
    {
        match self {
            StoreFinding::Unasked => None,
            StoreFinding::New => None,
            StoreFinding::Trouble(StoreTrouble::Schema) => Some(80),
            StoreFinding::Trouble(_) => Some(81),
            StoreFinding::Unread(LookFault::NoTable) => None,
            StoreFinding::Unread(fault) => Some(fault.number()),
            StoreFinding::Memory => Some(ServeFault::Memory.number()),
            StoreFinding::Open(seen) if seen.is_behind => Some(LoopFault::Ahead.number()),
            StoreFinding::Open(_) => None,
        }
    }
}

// Returns the number of the fault of a configuration, if it has one.
fn number_of_config(config: &Result<Config, StartFault>) -> Option<u8>
    ensures { result ≡ config_finding config.now }
{
    match config {
        Ok(_) => None,
        Err(fault) => Some(fault.number()),
    }
}

// Returns the number of the fault for a missing socket, if there is no socket.
fn number_of_socket(socket: Result<bool, SocketTrouble>) -> Option<u8>
    ensures { result ≡ socket_finding socket }
{
    match socket {
        Ok(_) => None,
        Err(_) => Some(LoopFault::Read.number()),
    }
}

// Returns the exit status of the first fault that was found, or 0 if there is none.
fn status_of_first(config: Option<u8>, store: Option<u8>, socket: Option<u8>) -> u8
    ensures { result ≡ check_status (config ∷ store ∷ socket ∷ []) }
{
    match config.or(store).or(socket) {
        Some(number) => exit_status(number),
        None => 0,
    }
}
