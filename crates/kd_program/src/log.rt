ghost use Rattle.std.specs.Prelude.{◌≡◌, option_map, vec_items};
ghost use Rattle.kd_program.specs.Running.{SaysEvents};
ghost use Rattle.kd_program.specs.Streams.{streams};

use crate::ends::StandardEnds;
use crate::printing::refuse_replay;
use kd_log::{Filter, events_with};
use kd_loops::{Sink, Source};
use kd_wire::Bytes;
use std::alloc::Global;

// Prints the requested replies of the log on standard input, and returns the exit status.
pub(crate) fn print_events<R: Source, O: Sink, E: Sink>(
    alloc: Global,
    ends: &mut StandardEnds<R, O, E>,
    filter: &Filter,
) -> u8
    ensures { SaysEvents filter.now result
        (streams R.Source O.Sink E.Sink ends.old) (streams R.Source O.Sink E.Sink ends.new) }
{
    match events_with(alloc, &mut ends.input, &mut ends.output, filter) {
        Ok(_) => 0,
        Err(fault) => refuse_replay(alloc, &mut ends.faults, fault),
    }
}

// Selects the replies to a hardware address and with an address, if these are given.
pub(crate) fn filter_of(mac: Option<Vec<u8>>, address: Option<u32>) -> Filter
    ensures { result ≡ record { mac = option_map vec_items mac; address = address } }
{
    let mac = match mac {
        Some(bytes) => Some(Bytes::own(bytes)),
        None => None,
    };
    Filter { mac, address }
}
