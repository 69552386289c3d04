ghost use Rattle.std.specs.Prelude.{◌≡◌, ◌<◌, ◌^◌, false, IfErr, IfOk, max};
ghost use Rattle.kd_listing.specs.Leases.{leases_of_rows};
ghost use Rattle.kd_rows.specs.Table.{latest_of};
ghost use Rattle.kd_server.specs.Looks.{IsNoList};

use kd_listing::{Lease, leases_in};
use kd_loops::ServeFault;
use kd_rows::{MOMENTS, Rows};
use std::alloc::Global;

/// Returns the leases of rows at a time in whole seconds, if their store has not failed: the rows
/// in ascending order of address, each with whether it is still live. A time before the latest
/// change counts as the time of that change.
///
/// # Errors
///
/// `Failed` if the store has failed, `MomentTooLarge` if the time is not below 2^40, and `Memory`
/// if memory runs out.
pub fn leases_at(
    alloc: Global,
    rows: &Rows,
    failed: bool,
    moment: u64,
) -> Result<Vec<Lease>, ServeFault>
    ensures leases { IfOk result (λ list. list.items ≡ leases_of_rows moment rows.now.rows) }
    ensures works { IfOk result (λ list. (failed ≡ false) × (moment < 2 ^ 40)) }
    ensures fault { IfErr result (IsNoList failed moment) }
{
    let now = time_of_look(rows, failed, moment)?;
    Ok(leases_in(alloc, rows, now)?)
}

/// Returns the time as of which rows are shown at a time in whole seconds, if their store has not
/// failed: a time before the latest change counts as the time of that change.
///
/// # Errors
///
/// `Failed` if the store has failed, and `MomentTooLarge` if the time is not below 2^40.
pub fn time_of_look(rows: &Rows, failed: bool, moment: u64) -> Result<u64, ServeFault>
    ensures time { IfOk result (λ now. now ≡ max moment (latest_of rows.now.rows)) }
    ensures works { IfOk result (λ now. (failed ≡ false) × (moment < 2 ^ 40)) }
    ensures fault { IfErr result (IsNoList failed moment) }
{
    if failed {
        return Err(ServeFault::Failed);
    }
    if moment >= MOMENTS {
        return Err(ServeFault::MomentTooLarge);
    }
    Ok(moment.max(rows.latest()))
}
