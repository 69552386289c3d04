ghost use Rattle.std.specs.Prelude.{◌≡◌, IfSome, List, false, is_some};
ghost use Rattle.kd_rows.specs.declared.row.Row.{Row};
ghost use Rattle.kd_server.specs.Server.{StepsTo};

use kd_config::Config;
use kd_keeps::Keeps;
use kd_server::{Event, Handled, Ports, Server};
use std::alloc::Global;

/// Opens a server over a store, and lets it handle a first event.
pub fn first_step<S: Keeps + Drop>(
    alloc: Global,
    config: Config,
    store: S,
    ports: Ports,
    event: &Event,
) -> Option<(Handled, Server<S>)>
    requires { is_some (S.fault store) ≡ false }
    ensures { IfSome result (λ it. S.has_clean_disk it.1.store → (table : List Row)
        → S.stands store table → StepsTo config ports table event.now it.0 it.1.rows) }
{
    let mut server = Server::open(alloc, config, store, ports).ok()?;
    let handled = server.handle(event.moment, event.bytes.as_slice()).ok()?;
    Some((handled, server))
}
