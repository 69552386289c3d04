ghost use Rattle.std.specs.Prelude.{IfOk, IfSome, None, Some, string_bytes};
ghost use Rattle.kd_log.specs.Import.{IsTable};
ghost use Rattle.kd_log.specs.Printed.{IsEventText};

use kd_log::{Filter, leases_in, text_of_line};
use kd_rows::Rows;
use std::alloc::{AllocError, Global};

/// Returns the table of the leases in a text.
pub fn table_in(alloc: Global, text: &[u8]) -> Option<Rows>
    ensures { IfSome result (λ table. IsTable text.now table.rows) }
{
    let rows = leases_in(alloc, text).ok()?;
    Rows::new(rows).ok()
}

/// Returns what is printed for a line of a log, if only the replies of one address are wanted.
pub fn log_line(alloc: Global, line: &[u8], address: u32) -> Result<Option<String>, AllocError>
    ensures { IfOk result (λ found. IfSome found (λ text.
        IsEventText (record { mac = None; address = Some address }) line.now (string_bytes text))) }
{
    let filter = Filter {
        mac: None,
        address: Some(address),
    };
    text_of_line(alloc, line, &filter)
}
