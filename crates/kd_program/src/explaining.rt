ghost use Rattle.std.specs.Prelude.{◌≡◌, IfErr, IfOk, false};
ghost use Rattle.kd_program.specs.Explaining.{ExplainsLine, ExplainsWord, ShowsWhy, standard_trial};
ghost use Rattle.kd_program.specs.Streams.{streams};
ghost use Rattle.kd_server.specs.Looks.{IsNoList};
ghost use Rattle.kd_why.specs.Saying.{ExplainsEvent};

use crate::ends::StandardEnds;
use crate::listing::LeaseTable;
use crate::printing::{refuse, refuse_memory, refuse_replay, refuse_words, show};
use hex::FromHexError;
use kd_commands::LineFault;
use kd_event::Ports;
use kd_loops::{ServeFault, Sink, Source};
use kd_server::Terms;
use kd_why::{why_line, why_text};
use std::alloc::Global;

// Explains the datagram in an argument at a time, in whole seconds, over a table of leases, and
// returns the exit status.
pub(crate) fn explain_word<R: Source, O: Sink, E: Sink>(
    alloc: Global,
    ends: &mut StandardEnds<R, O, E>,
    word: &str,
    table: &LeaseTable<'_>,
    at: u64,
) -> u8
    ensures { ExplainsWord word.now table.now.failed table.now.config.now
        table.now.rows.now.rows at result
        (streams R.Source O.Sink E.Sink ends.old) (streams R.Source O.Sink E.Sink ends.new) }
{
    match hex::decode(alloc, word) {
        Ok(bytes) => explain_datagram(alloc, ends, bytes.as_slice(), table, at),
        Err(FromHexError::OutOfMemory) => refuse_memory(&mut ends.faults),
        Err(_) => refuse_words(alloc, &mut ends.faults, LineFault::CommandLine),
    }
}

// Explains a datagram.
fn explain_datagram<R: Source, O: Sink, E: Sink>(
    alloc: Global,
    ends: &mut StandardEnds<R, O, E>,
    bytes: &[u8],
    table: &LeaseTable<'_>,
    at: u64,
) -> u8
    ensures { ShowsWhy bytes.now table.now.failed table.now.config.now table.now.rows.now.rows at
        result
        (streams R.Source O.Sink E.Sink ends.old) (streams R.Source O.Sink E.Sink ends.new) }
{
    match text_over(alloc, bytes, table, at) {
        Ok(text) => show(&mut ends.output, &mut ends.faults, &text, 0),
        Err(fault) => refuse(alloc, &mut ends.faults, fault.number(), &fault),
    }
}

// Returns the explanation of a datagram over a table.
fn text_over(
    alloc: Global,
    bytes: &[u8],
    table: &LeaseTable<'_>,
    at: u64,
) -> Result<Vec<u8>, ServeFault>
    ensures text { IfOk result (λ text. ExplainsEvent
        (standard_trial table.now.config.now table.now.rows.now.rows)
        (record { moment = at; bytes = bytes.now }) text.items) }
    ensures fault { IfErr result (IsNoList table.now.failed at) }
{
    if table.failed {
        return Err(ServeFault::Failed);
    }
    let terms = Terms {
        alloc,
        ports: Ports::STANDARD,
        config: table.config,
    };
    why_text(terms, table.rows, at, bytes)
}

// Explains the event of a line of standard input over a copy of a table of leases, after the
// events of the lines before it have changed that copy, and returns the exit status.
pub(crate) fn explain_line<R: Source, O: Sink, E: Sink>(
    alloc: Global,
    ends: &mut StandardEnds<R, O, E>,
    table: &LeaseTable<'_>,
    number: u64,
) -> u8
    requires input { R.has_failed ends.old.input ≡ false }
    ensures { ExplainsLine (standard_trial table.now.config.now table.now.rows.now.rows) number
        result
        (streams R.Source O.Sink E.Sink ends.old) (streams R.Source O.Sink E.Sink ends.new) }
{
    let terms = Terms {
        alloc,
        ports: Ports::STANDARD,
        config: table.config,
    };
    match why_line(&mut ends.input, terms, table.rows, number) {
        Ok(text) => show(&mut ends.output, &mut ends.faults, &text, 0),
        Err(fault) => refuse_replay(alloc, &mut ends.faults, fault),
    }
}
