ghost use Rattle.std.specs.Prelude.{◌≡◌, ◌++◌, ℕ, IfOk, List, codes, string_bytes};
ghost use Rattle.std.specs.Fmt.{decimal};
ghost use Rattle.kd_answers.specs.Show.{line_feed};
ghost use Rattle.kd_program.specs.Streams.{Prints, Puts, ShowsOrBreaks, TellsWith, fault_line, memory_line, streams, written_to};
ghost use Rattle.kd_commands.specs.Order.{line_fault_number};
ghost use Rattle.kd_answers.specs.Status.{replay_status_of, status_of};
ghost use Rattle.kd_loops.specs.Faults.{replay_fault_number};

use crate::ends::StandardEnds;
use kd_answers::{Printed, exit_status, replay_status};
use kd_commands::LineFault;
use kd_loops::{ReplayFault, Sink, Source, write_all};
use std::alloc::{AllocError, Global};
use std::fmt::Display;

const MEMORY_FAULT: &[u8] = b"fault 91 Memory\n";

const WRITE_FAULT: &[u8] = b"fault 95 Write\n";

// Writes to standard error. A failure is ignored, because there is nowhere to report it.
pub(crate) fn tell<E: Sink>(faults: &mut E, text: &[u8])
    ensures { Puts text.now (written_to E.Sink faults.old) (written_to E.Sink faults.new) }
{
    match write_all(faults, text) {
        Ok(()) => {}
        Err(_) => {}
    }
}

// Writes to standard output, and returns the exit status. If writing fails, reports
// `fault 95 Write` and returns its status.
pub(crate) fn show<O: Sink, E: Sink>(output: &mut O, faults: &mut E, text: &[u8], status: u8) -> u8
    ensures { ShowsOrBreaks text.now status result
        (written_to O.Sink output.old) (written_to O.Sink output.new)
        (written_to E.Sink faults.old) (written_to E.Sink faults.new) }
{
    match write_all(output, text) {
        Ok(()) => status,
        Err(_) => {
            tell(faults, WRITE_FAULT);
            exit_status(95)
        }
    }
}

// Writes what an order prints, its text or the line of its fault, and returns the exit status.
pub(crate) fn print<R: Source, O: Sink, E: Sink>(
    ends: &mut StandardEnds<R, O, E>,
    printed: &Printed,
) -> u8
    ensures { Prints printed.now result
        (streams R.Source O.Sink E.Sink ends.old) (streams R.Source O.Sink E.Sink ends.new) }
{
    let fault = printed.fault.as_slice();
    if fault.is_empty() {
        let text = printed.out.as_slice();
        return show(&mut ends.output, &mut ends.faults, text, printed.status);
    }
    tell(&mut ends.faults, fault);
    printed.status
}

// Writes the line of a fault with a number, and returns its exit status. If there is no memory for
// the line, that is the fault instead.
pub(crate) fn refuse<E: Sink, F: Display>(
    alloc: Global,
    faults: &mut E,
    number: u8,
    fault: &F,
) -> u8
    ensures { TellsWith number (status_of number) result
        (written_to E.Sink faults.old) (written_to E.Sink faults.new) }
{
    refuse_as(alloc, faults, number, fault, exit_status(number))
}

// Does the same with another exit status.
pub(crate) fn refuse_as<E: Sink, F: Display>(
    alloc: Global,
    faults: &mut E,
    number: u8,
    fault: &F,
    status: u8,
) -> u8
    ensures { TellsWith number status result
        (written_to E.Sink faults.old) (written_to E.Sink faults.new) }
{
    match line_of_fault(alloc, number, fault) {
        Ok(line) => {
            tell(faults, line.as_bytes());
            status
        }
        Err(_) => refuse_memory(faults),
    }
}

// Writes the line of the fault of a replay, and returns its exit status.
pub(crate) fn refuse_replay<E: Sink>(alloc: Global, faults: &mut E, fault: ReplayFault) -> u8
    ensures { TellsWith (replay_fault_number fault) (replay_status_of fault) result
        (written_to E.Sink faults.old) (written_to E.Sink faults.new) }
{
    refuse_as(alloc, faults, fault.number(), &fault, replay_status(fault))
}

// Writes the line for out of memory, and returns its exit status.
pub(crate) fn refuse_memory<E: Sink>(faults: &mut E) -> u8
    ensures { (result ≡ 1) × Puts memory_line
        (written_to E.Sink faults.old) (written_to E.Sink faults.new) }
{
    tell(faults, MEMORY_FAULT);
    exit_status(91)
}

/// Writes why there are no arguments to carry out, and returns the exit status.
pub fn refuse_words<E: Sink>(alloc: Global, faults: &mut E, fault: LineFault) -> u8
    ensures { TellsWith (line_fault_number fault) (status_of (line_fault_number fault)) result
        (written_to E.Sink faults.old) (written_to E.Sink faults.new) }
{
    refuse(alloc, faults, fault.number(), &fault)
}

// `fault NUMBER NAME`, and the operands after the name.
fn line_of_fault<F: Display>(alloc: Global, number: u8, fault: &F) -> Result<String, AllocError>
    ensures { IfOk result (λ line. (name : List ℕ) × (string_bytes line ≡ fault_line number name)) }
{
    let name = format!(in alloc; "{fault}")?;
    named_line(alloc, number, name.as_str())
}

// Returns the line of a fault with a number and a name.
fn named_line(alloc: Global, number: u8, name: &str) -> Result<String, AllocError>
    ensures { IfOk result (λ line. string_bytes line
        ≡ codes "fault " ++ decimal number ++ codes " " ++ name.now ++ line_feed) }
{
    format!(in alloc; "fault {number} {name}\n")
}
