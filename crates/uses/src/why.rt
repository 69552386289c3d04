ghost use Rattle.std.specs.Prelude.{IfOk};
ghost use Rattle.kd_why.specs.Saying.{ExplainsEvent};

use kd_config::Config;
use kd_loops::ServeFault;
use kd_rows::Rows;
use kd_server::{Ports, Terms};
use kd_why::why_text;
use std::alloc::Global;

/// Explains what a datagram would get from a server on the ports 67 and 68 with these rows.
pub fn explanation(
    alloc: Global,
    config: &Config,
    rows: &Rows,
    moment: u64,
    datagram: &[u8],
) -> Result<Vec<u8>, ServeFault>
    ensures { IfOk result (λ text. ExplainsEvent (record {
      ports = record { server = 67; client = 68 };
      config = config.now;
      rows = rows.now.rows;
    }) (record { moment = moment; bytes = datagram.now }) text.items) }
{
    let ports = Ports {
        server: 67,
        client: 68,
    };
    let terms = Terms {
        alloc,
        ports,
        config,
    };
    why_text(terms, rows, moment, datagram)
}
