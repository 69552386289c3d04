ghost use Rattle.std.specs.Prelude.{◌≡◌, ◌+◌, ◌<◌, ◌∷◌, ◌++◌, [], vec_capacity, vec_len};
ghost use Rattle.kd_loops.specs.History.{Runs};

use crate::fault::ServeFault;
use crate::serves::Serves;
use kd_event::{Event, Handled};
use std::alloc::Global;

/// Handles events in order, up to the first fault. The list for all of them is allocated first.
///
/// # Errors
///
/// Returned beside the list of what was handled: the fault of the next event, or `Memory` before
/// the first.
pub fn run_with<H: Serves>(
    alloc: Global,
    server: &mut H,
    events: &[Event],
) -> (Vec<Handled>, Option<ServeFault>)
    ensures { Runs H.gives H.fails events.now result.0.items result.1 server.old server.new }
{
    let mut list = match Vec::with_capacity(alloc, events.len()) {
        Ok(list) => list,
        Err(_) => return (Vec::new(alloc), Some(ServeFault::Memory)),
    };
    for event in events {
        match server.handle(event.moment, event.bytes.as_slice()) {
            Ok(handled) => push_within(&mut list, handled),
            Err(fault) => return (list, Some(fault)),
        }
    }
    (list, None)
}

// Appends to a list that has room; allocates no memory.
fn push_within(list: &mut Vec<Handled>, value: Handled)
    requires { vec_len list.old < vec_capacity list.old }
    ensures items { list.new.items ≡ list.old.items ++ value ∷ [] }
    ensures len { vec_len list.new ≡ vec_len list.old + 1 }
    ensures capacity { vec_capacity list.new ≡ vec_capacity list.old }
{
    list.push_reserved(value);
}
