ghost use Rattle.std.specs.Prelude.{◌≡◌, false, map, option_map, string_bytes, vec_items};
ghost use Rattle.kd_answers.specs.Printed.{IsPrinted};
ghost use Rattle.kd_program.specs.Checking.{ChecksStart, TriesConfig};
ghost use Rattle.kd_program.specs.Running.{Carries, CarriesOut, Imports, Says, SaysEvents};
ghost use Rattle.kd_program.specs.Streams.{at_ends, streams};

use crate::checking::{check, try_config};
use crate::ends::StandardEnds;
use crate::host::Host;
use crate::importing::import;
use crate::log::{filter_of, print_events};
use crate::printing::{print, refuse_memory, refuse_words, show};
use crate::serving::start;
use kd_answers::answer;
use kd_commands::{Files, Order, Place, order};
use kd_loops::{Sink, Source};
use std::alloc::Global;

/// Carries out the arguments after the program's name, and returns the exit status. Each refusal
/// has one line on standard error, `fault NUMBER NAME` with its operands; if standard output fails,
/// that is `fault 95 Write`.
pub fn run<H: Host, R: Source, O: Sink, E: Sink>(
    alloc: Global,
    words: &[String],
    host: &mut H,
    ends: &mut StandardEnds<R, O, E>,
) -> u8
    requires input { R.has_failed ends.old.input ≡ false }
    requires output { O.has_failed ends.old.output ≡ false }
    ensures { Carries H.Host H.Named.Keeps H.Unnamed.Keeps H.Socket.Link H.Journal.Sink
        (map string_bytes words.now)
        (at_ends R.Source O.Sink E.Sink host.old ends.old)
        (at_ends R.Source O.Sink E.Sink host.new ends.new) result }
{
    match order(alloc, words) {
        Ok(order) => carry_out(alloc, order, host, ends),
        Err(fault) => refuse_words(alloc, &mut ends.faults, fault),
    }
}

// Carries out an order.
fn carry_out<H: Host, R: Source, O: Sink, E: Sink>(
    alloc: Global,
    order: Order,
    host: &mut H,
    ends: &mut StandardEnds<R, O, E>,
) -> u8
    requires input { R.has_failed ends.old.input ≡ false }
    requires output { O.has_failed ends.old.output ≡ false }
    ensures { CarriesOut H.Host H.Named.Keeps H.Unnamed.Keeps H.Socket.Link H.Journal.Sink
        order (at_ends R.Source O.Sink E.Sink host.old ends.old)
        (at_ends R.Source O.Sink E.Sink host.new ends.new) result }
{
    match order {
        Order::Over { files, work } => start(alloc, host, ends, files, work),
        Order::Import { store } => import_into_store(alloc, host, ends, store),
        Order::Test { files } => try_config_of(alloc, host, ends, files),
        Order::Check { files, place } => check_files(alloc, host, ends, files, place),
        Order::Events { mac, address } => print_events_of(alloc, ends, mac, address),
        Order::Version => {
            let text = host.version();
            show(&mut ends.output, &mut ends.faults, text.as_bytes(), 0)
        }
        other => print_answer(alloc, ends, other),
    }
}

// The functions from here to `print_answer` are those of the arms above. They own what an order has
// and lend it: a function that drops something in each of its arms is expensive to prove.

// Imports the lines of standard input into the store at a path.
fn import_into_store<H: Host, R: Source, O: Sink, E: Sink>(
    alloc: Global,
    host: &mut H,
    ends: &mut StandardEnds<R, O, E>,
    store: String,
) -> u8
    ensures { Imports H.Host H.Named.Keeps H.Unnamed.Keeps H.Socket.Link H.Journal.Sink
        (string_bytes store) (at_ends R.Source O.Sink E.Sink host.old ends.old)
        (at_ends R.Source O.Sink E.Sink host.new ends.new) result }
{
    import(alloc, host, ends, store.as_str())
}

// Reads the configuration of files.
fn try_config_of<H: Host, R: Source, O: Sink, E: Sink>(
    alloc: Global,
    host: &mut H,
    ends: &mut StandardEnds<R, O, E>,
    files: Files,
) -> u8
    ensures { TriesConfig H.Host files
        (at_ends R.Source O.Sink E.Sink host.old ends.old)
        (at_ends R.Source O.Sink E.Sink host.new ends.new) result }
{
    try_config(alloc, host, ends, &files)
}

// Tries each step of a start over files.
fn check_files<H: Host, R: Source, O: Sink, E: Sink>(
    alloc: Global,
    host: &mut H,
    ends: &mut StandardEnds<R, O, E>,
    files: Files,
    place: Place,
) -> u8
    ensures { ChecksStart H.Host files place
        (at_ends R.Source O.Sink E.Sink host.old ends.old)
        (at_ends R.Source O.Sink E.Sink host.new ends.new) result }
{
    check(alloc, host, ends, &files, place)
}

// Prints the replies to a hardware address and with an address.
fn print_events_of<R: Source, O: Sink, E: Sink>(
    alloc: Global,
    ends: &mut StandardEnds<R, O, E>,
    mac: Option<Vec<u8>>,
    address: Option<u32>,
) -> u8
    ensures { SaysEvents (record { mac = option_map vec_items mac; address = address }) result
        (streams R.Source O.Sink E.Sink ends.old) (streams R.Source O.Sink E.Sink ends.new) }
{
    print_events(alloc, ends, &filter_of(mac, address))
}

// Prints what an order prints that needs only its arguments.
fn print_answer<R: Source, O: Sink, E: Sink>(
    alloc: Global,
    ends: &mut StandardEnds<R, O, E>,
    order: Order,
) -> u8
    requires { IsPrinted order }
    ensures printed { IsPrinted order }
    ensures says { Says order result
        (streams R.Source O.Sink E.Sink ends.old) (streams R.Source O.Sink E.Sink ends.new) }
{
    match answer(alloc, &order) {
        Ok(printed) => print(ends, &printed),
        Err(_) => refuse_memory(&mut ends.faults),
    }
}
