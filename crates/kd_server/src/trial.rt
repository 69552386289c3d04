ghost use Rattle.std.specs.Prelude.{◌≡◌, ◌<◌, ◌^◌, IfErr, IfOk, IfSome, OnOk};
ghost use Rattle.kd_lease.specs.Change.{after};
ghost use Rattle.kd_loops.specs.Text.{IsSmall};
ghost use Rattle.kd_server.specs.Batch.{LeavesOut};
ghost use Rattle.kd_rows.specs.Table.{with_row};
ghost use Rattle.kd_server.specs.Staging.{IsUnset};
ghost use Rattle.kd_server.specs.Trial.{TriesStep, WouldAnswer, at_rows, trying};
ghost use Rattle.kd_server.specs.Unkept.{IsSettable};

use crate::terms::Terms;
use crate::turning::step;
use kd_event::Handled;
use kd_lease::Ground;
use kd_loops::ServeFault;
use kd_rows::{Row, Rows};
use std::alloc::{AllocError, Global};
use std::marker::Model;

/// A server that keeps nothing: it finds out what a server on these terms would do.
#[derive(Drop)]
pub struct Trial<'a> {
    terms: Terms<'a>,
    rows: Rows,
}

impl<'a> Model for Trial<'a> {
    ghost use Rattle.kd_rows.specs.Table.{with_row};
    ghost use Rattle.kd_server.specs.Staging.{IsUnset};
    ghost use Rattle.kd_server.specs.Trial.{Trying, trying};

    ghost Value = { Trying };

    ghost view = { λ t. trying t.terms t.rows.rows };
}

impl<'a> Trial<'a> {
    /// Starts a trial with a copy of these rows.
    ///
    /// # Errors
    ///
    /// Out of memory.
    pub fn over(terms: Terms<'a>, rows: &Rows) -> Result<Trial<'a>, AllocError>
        ensures { IfOk result (λ t. t ≡ trying terms.entry rows.now.rows) }
    {
        let rows = copy_rows(terms.alloc, rows)?;
        Ok(Trial { terms, rows })
    }

    /// Returns the terms of the trial.
    pub fn terms(&self) -> Terms<'a>
        ensures { trying result self.now.rows ≡ self.now }
    {
        self.terms
    }

    /// Returns the rows of leases, including those that have ended.
    pub fn rows(&self) -> &Rows
        ensures { result.now.rows ≡ self.now.rows }
    {
        &self.rows
    }

    /// Returns what `Server::handle` would answer to a datagram that arrived at this time, in whole
    /// seconds. The row that the datagram sets is set in the trial.
    ///
    /// # Errors
    ///
    /// `MomentTooLarge` if the time is not below 2^40, and `Memory` if memory runs out; these
    /// change nothing.
    pub fn handle(&mut self, moment: u64, bytes: &[u8]) -> Result<Handled, ServeFault>
        ensures handled { IfOk result (λ handled. TriesStep self.old
            (record { moment = moment; bytes = bytes.now }) handled self.new) }
        ensures small { IfOk result (λ handled. IsSmall handled.response) }
        ensures failed { IfErr result (λ fault. LeavesOut self.old.rows
            (record { moment = moment; bytes = bytes.now }) fault self.new.rows) }
        ensures same { self.new ≡ at_rows self.old self.new.rows }
    {
        let Terms {
            alloc,
            ports,
            config,
        } = self.terms;
        let (row, handled) = step(alloc, ports, Ground::of(config, &self.rows), moment, bytes)?;
        put(&mut self.rows, row)?;
        Ok(handled)
    }
}

impl Terms<'_> {
    /// Returns what `Server::handle` would answer, over these rows, to a datagram that arrived at
    /// this time, in whole seconds. Nothing is changed.
    ///
    /// # Errors
    ///
    /// `MomentTooLarge` if the time is not below 2^40, and `Memory` if memory runs out.
    pub fn foresee(&self, rows: &Rows, moment: u64, bytes: &[u8]) -> Result<Handled, ServeFault>
        ensures answer { IfOk result (WouldAnswer (trying self.now rows.now.rows)
            (record { moment = moment; bytes = bytes.now })) }
        ensures small { IfOk result (λ handled. IsSmall handled.response) }
        ensures early { IfOk result (λ handled. handled.now < 2 ^ 40) }
        ensures failed { IfErr result (λ fault. LeavesOut rows.now.rows
            (record { moment = moment; bytes = bytes.now }) fault rows.now.rows) }
    {
        let over = Ground::of(self.config, rows);
        let (_, handled) = step(self.alloc, self.ports, over, moment, bytes)?;
        Ok(handled)
    }
}

// Sets a row, if there is one.
fn put(rows: &mut Rows, row: Option<Row>) -> Result<(), ServeFault>
    requires { IfSome row (IsSettable rows.old.rows) }
    ensures rows { OnOk result (rows.new.rows ≡ after rows.old.rows row) }
    ensures unset { IfErr result
        (IsUnset rows.old.rows rows.new.rows (after rows.old.rows row)) }
{
    match row {
        Some(row) => put_row(rows, row),
        None => Ok(()),
    }
}

// Sets a row, if it changes the rows.
fn put_row(rows: &mut Rows, row: Row) -> Result<(), ServeFault>
    requires { IsSettable rows.old.rows row }
    ensures rows { OnOk result (rows.new.rows ≡ with_row row rows.old.rows) }
    ensures unset { IfErr result
        (IsUnset rows.old.rows rows.new.rows (with_row row rows.old.rows)) }
{
    if rows.prepare(&row)? {
        rows.set(row);
    }
    Ok(())
}

// A copy of rows.
fn copy_rows(alloc: Global, rows: &Rows) -> Result<Rows, AllocError>
    ensures { IfOk result (λ copy. copy.rows ≡ rows.now.rows) }
{
    let list = list_rows(alloc, rows)?;
    seat_rows(rows, list)
}

// Makes a table from a list that has the same rows as this table.
fn seat_rows(rows: &Rows, list: Vec<Row>) -> Result<Rows, AllocError>
    requires { list.items ≡ rows.now.rows }
    ensures { IfOk result (λ copy. copy.rows ≡ rows.now.rows) }
{
    // The contract of `len` also says that the rows are in ascending order and each in its range.
    let _count = rows.len();
    Rows::new(list)
}

// A list of copies of rows.
fn list_rows(alloc: Global, rows: &Rows) -> Result<Vec<Row>, AllocError>
    ensures { IfOk result (λ list. list.items ≡ rows.now.rows) }
{
    let mut list = Vec::with_capacity(alloc, rows.len())?;
    let mut index = 0;
    while let Some(row) = rows.at(index) {
        list.push(row.try_clone(alloc)?)?;
        index += 1;
    }
    Ok(list)
}
