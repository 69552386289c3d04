ghost use Rattle.std.specs.Prelude.{◌≡◌, ◌≢◌, ◌+◌, ◌≤◌, ◌⊎◌, ◌∷◌, ◌++◌, [], List, IfErr, IfOk, IfSome, OnErr, OnOk, false, is_some, length, vec_capacity, vec_len};
ghost use Rattle.std.specs.List.{All};
ghost use Rattle.kd_lease.specs.Change.{after};
ghost use Rattle.kd_loops.specs.History.{Runs};
ghost use Rattle.kd_loops.specs.Text.{IsSmall};
ghost use Rattle.kd_rows.specs.Row.{IsInRange};
ghost use Rattle.kd_rows.specs.Table.{with_row, with_rows};
ghost use Rattle.kd_rows.specs.declared.row.Row.{Row as LeaseRow};
ghost use Rattle.kd_server.specs.Batch.{FailsToKeep, IsChangedBy, LeavesOut};
ghost use Rattle.kd_server.specs.Server.{StepsTo, StillHolds};
ghost use Rattle.kd_server.specs.Staging.{IsUnset, Stages};
ghost use Rattle.kd_server.specs.Unkept.{IsSettable};

use crate::turning::step;
use kd_event::{Handled, Ports};
use kd_keeps::{Keeps, StoreFault};
use kd_lease::Leases;
use kd_loops::{Arrived, ServeFault};
use kd_rows::Row;
use std::alloc::{AllocError, Global};

// Handles events in order, up to the first fault. Sets the rows that they change, and lists those
// rows to be committed.
pub(crate) fn handle_each(
    alloc: Global,
    ports: Ports,
    leases: &mut Leases,
    set: &mut Vec<Row>,
    list: &mut Vec<Handled>,
    events: &[Arrived],
) -> Option<ServeFault>
    requires room { length events.now ≤ vec_capacity list.old }
    requires none { list.old.items ≡ [] }
    requires empty { set.old.items ≡ [] }
    ensures runs { Runs (StepsTo leases.old.config ports) LeavesOut
        events.now list.new.items result leases.old.table.rows leases.new.table.rows }
    ensures config { leases.new.config ≡ leases.old.config }
    ensures small { All (λ handled. IsSmall handled.response) list.new.items }
    ensures sets { with_rows set.new.items leases.old.table.rows ≡ leases.new.table.rows }
    ensures ranges { All IsInRange set.new.items }
    ensures changes { (set.new.items ≡ [])
        ⊎ IsChangedBy (StepsTo leases.old.config ports) events.now leases.old.table.rows }
{
    for event in events {
        match handle_one(alloc, ports, leases, set, event) {
            Ok(handled) => list.push_reserved(handled),
            Err(fault) => return Some(fault),
        }
    }
    None
}

// Handles one event. If its row changes the rows, sets it and lists it to be committed.
fn handle_one(
    alloc: Global,
    ports: Ports,
    leases: &mut Leases,
    set: &mut Vec<Row>,
    event: &Arrived,
) -> Result<Handled, ServeFault>
    ensures handled { IfOk result (λ handled.
        StepsTo leases.old.config ports leases.old.table.rows event.now handled leases.new.table.rows) }
    ensures config { leases.new.config ≡ leases.old.config }
    ensures small { IfOk result (λ handled. IsSmall handled.response) }
    ensures failed { IfErr result
        (λ fault. LeavesOut leases.old.table.rows event.now fault leases.new.table.rows) }
    ensures set { Stages leases.old.table.rows set.old.items leases.new.table.rows set.new.items }
{
    handle_at(alloc, ports, leases, set, event.moment(), event.bytes())
}

// Handles a datagram that arrived at this time, in the same way.
fn handle_at(
    alloc: Global,
    ports: Ports,
    leases: &mut Leases,
    set: &mut Vec<Row>,
    moment: u64,
    bytes: &[u8],
) -> Result<Handled, ServeFault>
    ensures handled { IfOk result (λ handled.
        StepsTo leases.old.config ports leases.old.table.rows
        (record { moment = moment; bytes = bytes.now }) handled leases.new.table.rows) }
    ensures config { leases.new.config ≡ leases.old.config }
    ensures small { IfOk result (λ handled. IsSmall handled.response) }
    ensures failed { IfErr result (λ fault. LeavesOut leases.old.table.rows
        (record { moment = moment; bytes = bytes.now }) fault leases.new.table.rows) }
    ensures set { Stages leases.old.table.rows set.old.items leases.new.table.rows set.new.items }
{
    let (row, handled) = step(alloc, ports, leases.ground(), moment, bytes)?;
    stage(alloc, leases, set, row)?;
    Ok(handled)
}

// If there is a row and it changes the rows, sets it and lists it to be committed.
fn stage(
    alloc: Global,
    leases: &mut Leases,
    set: &mut Vec<Row>,
    row: Option<Row>,
) -> Result<(), ServeFault>
    requires { IfSome row (IsSettable leases.old.table.rows) }
    ensures config { leases.new.config ≡ leases.old.config }
    ensures rows { OnOk result (leases.new.table.rows ≡ after leases.old.table.rows row) }
    ensures unset { IfErr result
        (IsUnset leases.old.table.rows leases.new.table.rows (after leases.old.table.rows row)) }
    ensures set { Stages leases.old.table.rows set.old.items leases.new.table.rows set.new.items }
{
    match row {
        Some(row) => stage_row(alloc, leases, set, row),
        None => Ok(()),
    }
}

// If the row changes the rows, sets it and lists it to be committed.
#[tactic(auto, using(crate::proofs::Staged::staged, crate::proofs::Staged::unstaged))]
fn stage_row(
    alloc: Global,
    leases: &mut Leases,
    set: &mut Vec<Row>,
    row: Row,
) -> Result<(), ServeFault>
    requires { IsSettable leases.old.table.rows row }
    ensures config { leases.new.config ≡ leases.old.config }
    ensures rows { OnOk result (leases.new.table.rows ≡ with_row row leases.old.table.rows) }
    ensures unset { IfErr result
        (IsUnset leases.old.table.rows leases.new.table.rows (with_row row leases.old.table.rows)) }
    ensures set { Stages leases.old.table.rows set.old.items leases.new.table.rows set.new.items }
{
    if leases.prepare(&row)? {
        list_row(alloc, set, &row)?;
        leases.set(row);
    }
    Ok(())
}

// Adds a copy of a row to the list.
fn list_row(alloc: Global, set: &mut Vec<Row>, row: &Row) -> Result<(), AllocError>
    ensures listed { OnOk result (set.new.items ≡ set.old.items ++ row.now ∷ []) }
    ensures same { OnErr result (set.new.items ≡ set.old.items) }
{
    set.push(row.try_clone(alloc)?)?;
    Ok(())
}

// Commits the listed rows, if there are any.
pub(crate) fn keep_all<S: Keeps>(store: &mut S, set: &[Row]) -> Result<(), StoreFault>
    requires works { is_some (S.fault store.old) ≡ false }
    requires ranges { All IsInRange set.now }
    ensures kept { OnOk result ((before : List LeaseRow)
        → StillHolds S.Keeps store.old store.new before (with_rows set.now before)) }
    ensures lost { IfErr result (λ fault. (before : List LeaseRow)
        → FailsToKeep S.Keeps fault store.old store.new before (with_rows set.now before)) }
    ensures some { OnErr result (set.now ≢ []) }
{
    if set.is_empty() {
        return Ok(());
    }
    if set.len() == 1 {
        return store.put(&set[0]);
    }
    store.put_all(set)
}
