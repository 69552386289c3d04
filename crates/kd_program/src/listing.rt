ghost use Rattle.std.specs.Prelude.{◌≡◌, ◌<◌, ◌^◌, IfErr, IfOk, MatchResult, false, max, string_bytes};
ghost use Rattle.std.specs.List.{flat_map};
ghost use Rattle.kd_listing.specs.Leases.{lease_line, leases_of_rows};
ghost use Rattle.kd_pools.specs.Printed.{lines_text, metrics_text};
ghost use Rattle.kd_pools.specs.Uses.{all_uses, subnet_uses};
ghost use Rattle.kd_program.specs.Listing.{ShowsView};
ghost use Rattle.kd_program.specs.Streams.{ShowsOrBreaks, Tells, streams, written_to};
ghost use Rattle.kd_loops.specs.Faults.{serve_fault_number};
ghost use Rattle.kd_rows.specs.Table.{latest_of};
ghost use Rattle.kd_server.specs.Looks.{IsNoList};

use crate::ends::StandardEnds;
use crate::explaining::explain_word;
use crate::printing::{refuse, show};
use kd_commands::View;
use kd_config::Config;
use kd_listing::lease_lines;
use kd_loops::{ServeFault, Sink, Source};
use kd_pools::{Uses, use_lines, use_metrics, uses_of};
use kd_rows::Rows;
use kd_server::{leases_at, time_of_look};
use std::alloc::Global;

/// Rows of leases under a configuration.
#[derive(Clone, Copy)]
pub struct LeaseTable<'a> {
    /// The configuration.
    pub config: &'a Config,
    /// The rows.
    pub rows: &'a Rows,
    /// Whether the store of the rows has failed.
    pub failed: bool,
}

// Prints a view of a table at a time, and returns the exit status.
pub(crate) fn print_view<R: Source, O: Sink, E: Sink>(
    alloc: Global,
    ends: &mut StandardEnds<R, O, E>,
    view: &View,
    at: u64,
    table: &LeaseTable<'_>,
) -> u8
    ensures { ShowsView view.now at table.now.failed table.now.config.now table.now.rows.now.rows
        result
        (streams R.Source O.Sink E.Sink ends.old) (streams R.Source O.Sink E.Sink ends.new) }
{
    match view {
        View::Leases => print_text(alloc, ends, text_of_leases(alloc, table, at)),
        View::Pools => print_text(alloc, ends, text_of_pools(alloc, table, at)),
        View::Metrics => print_text(alloc, ends, text_of_metrics(alloc, table, at)),
        View::Why(hex) => explain_word(alloc, ends, hex.as_str(), table, at),
    }
}

// Prints a text, or why there is none, and returns the exit status.
fn print_text<R: Source, O: Sink, E: Sink>(
    alloc: Global,
    ends: &mut StandardEnds<R, O, E>,
    text: Result<String, ServeFault>,
) -> u8
    ensures { MatchResult text
        (λ text. ShowsOrBreaks (string_bytes text) 0 result
        (written_to O.Sink ends.old.output) (written_to O.Sink ends.new.output)
        (written_to E.Sink ends.old.faults) (written_to E.Sink ends.new.faults))
        (λ fault. Tells (serve_fault_number fault) result
        (streams R.Source O.Sink E.Sink ends.old) (streams R.Source O.Sink E.Sink ends.new)) }
{
    match text {
        Ok(text) => show(&mut ends.output, &mut ends.faults, text.as_bytes(), 0),
        Err(fault) => refuse(alloc, &mut ends.faults, fault.number(), &fault),
    }
}

// Returns the lines of the leases of a table at a time.
fn text_of_leases(alloc: Global, table: &LeaseTable<'_>, at: u64) -> Result<String, ServeFault>
    ensures { MatchResult result
        (λ text. string_bytes text
        ≡ flat_map lease_line (leases_of_rows at table.now.rows.now.rows))
        (IsNoList table.now.failed at) }
{
    let leases = leases_at(alloc, table.rows, table.failed, at)?;
    Ok(lease_lines(alloc, &leases)?)
}

// Returns the lines that say how full the pools are at a time.
fn text_of_pools(alloc: Global, table: &LeaseTable<'_>, at: u64) -> Result<String, ServeFault>
    ensures { MatchResult result
        (λ text. string_bytes text ≡ lines_text (all_uses table.now.config.now
        table.now.rows.now.rows (max at (latest_of table.now.rows.now.rows))))
        (IsNoList table.now.failed at) }
{
    Ok(use_lines(alloc, &uses_at(alloc, table, at)?)?)
}

// Returns the same as metrics.
fn text_of_metrics(alloc: Global, table: &LeaseTable<'_>, at: u64) -> Result<String, ServeFault>
    ensures { MatchResult result
        (λ text. string_bytes text ≡ metrics_text (subnet_uses table.now.config.now
        table.now.rows.now.rows (max at (latest_of table.now.rows.now.rows))))
        (IsNoList table.now.failed at) }
{
    let uses = uses_at(alloc, table, at)?;
    Ok(use_metrics(alloc, uses.subnets.as_slice())?)
}

// Returns how full the pools are at a time.
fn uses_at(alloc: Global, table: &LeaseTable<'_>, at: u64) -> Result<Uses, ServeFault>
    ensures uses { IfOk result (λ uses. uses
        ≡ all_uses table.now.config.now table.now.rows.now.rows
        (max at (latest_of table.now.rows.now.rows))) }
    ensures works { IfOk result (λ list. (table.now.failed ≡ false) × (at < 2 ^ 40)) }
    ensures fault { IfErr result (IsNoList table.now.failed at) }
{
    let now = time_of_look(table.rows, table.failed, at)?;
    Ok(uses_of(alloc, table.config, table.rows, now)?)
}
