ghost use Rattle.std.specs.Prelude.{◌≡◌};
ghost use Rattle.kd_answers.specs.Status.{replay_status_of, serve_status_of, status_of};

use kd_loops::{LoopFault, ReplayFault};

/// Returns the exit status of the fault with this number: 1 for out of memory and for an input,
/// output, socket or record that fails, 2 for a mistake on the command line, 4 for the store and
/// the clock, 3 for every other fault.
pub fn exit_status(number: u8) -> u8
    ensures { result ≡ status_of number }
{
    match number {
        91 | 94 | 95 | 100 => 1,
        98 => 2,
        80..=83 | 92 | 93 | 101 => 4,
        _ => 3,
    }
}

/// Returns the exit status of a fault of a replay. If it is a fault of the server, that fault's
/// number counts.
pub fn replay_status(fault: ReplayFault) -> u8
    ensures { result ≡ replay_status_of fault }
{
    match fault {
        ReplayFault::Serve(inner) => exit_status(inner.number()),
        other => exit_status(other.number()),
    }
}

/// Returns the exit status of a fault of serving. If it is a fault of the server, that fault's
/// number counts.
pub fn serve_status(fault: LoopFault) -> u8
    ensures { result ≡ serve_status_of fault }
{
    match fault {
        LoopFault::Serve(inner) => exit_status(inner.number()),
        other => exit_status(other.number()),
    }
}
