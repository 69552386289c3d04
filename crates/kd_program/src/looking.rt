ghost use Rattle.std.specs.Prelude.{◌⊎◌, false};
ghost use Rattle.std.specs.List.{All};
ghost use Rattle.kd_program.specs.Listing.{ShowsView};
ghost use Rattle.kd_program.specs.Running.{Looks};
ghost use Rattle.kd_program.specs.Streams.{Starves, at_ends, streams};
ghost use Rattle.kd_rows.specs.Row.{IsInRange};
ghost use Rattle.kd_rows.specs.Table.{Rise};

use crate::ends::StandardEnds;
use crate::host::Host;
use crate::listing::{LeaseTable, print_view};
use crate::printing::{refuse, refuse_memory};
use kd_commands::View;
use kd_config::Config;
use kd_loops::{Sink, Source};
use kd_rows::{Row, Rows};
use std::alloc::Global;

// Prints a view of the database at a path, which another process may have open, under a
// configuration at a time, and returns the exit status.
pub(crate) fn look<H: Host, R: Source, O: Sink, E: Sink>(
    alloc: Global,
    host: &mut H,
    ends: &mut StandardEnds<R, O, E>,
    config: Config,
    path: &str,
    view: &View,
    at: u64,
) -> u8
    ensures { Looks H.Host path.now view.now at config
        (at_ends R.Source O.Sink E.Sink host.old ends.old)
        (at_ends R.Source O.Sink E.Sink host.new ends.new) result }
{
    match host.copy(path) {
        Ok(rows) => print_rows(alloc, ends, &config, rows, view, at),
        Err(fault) => refuse(alloc, &mut ends.faults, fault.number(), &fault),
    }
}

// Prints a view of rows.
fn print_rows<R: Source, O: Sink, E: Sink>(
    alloc: Global,
    ends: &mut StandardEnds<R, O, E>,
    config: &Config,
    rows: Vec<Row>,
    view: &View,
    at: u64,
) -> u8
    requires rise { Rise rows.items }
    requires ranges { All IsInRange rows.items }
    ensures { ShowsView view.now at false config.now rows.items result
        (streams R.Source O.Sink E.Sink ends.old) (streams R.Source O.Sink E.Sink ends.new)
        ⊎ Starves result
        (streams R.Source O.Sink E.Sink ends.old) (streams R.Source O.Sink E.Sink ends.new) }
{
    match Rows::new(rows) {
        Ok(rows) => {
            let table = LeaseTable {
                config,
                rows: &rows,
                failed: false,
            };
            print_view(alloc, ends, view, at, &table)
        }
        Err(_) => refuse_memory(&mut ends.faults),
    }
}
