ghost use Rattle.std.specs.Prelude.{◌≡◌, [], OnErr, OnOk, IfOk};
ghost use Rattle.std.specs.List.{All};
ghost use Rattle.kd_rows.specs.Row.{IsInRange};
ghost use Rattle.kd_rows.specs.Table.{Rise, with_row, with_rows};

use kd_keeps::{Cause, Keeps, StoreFault, fault_in};
use kd_rows::{Row, Rows};
use std::alloc::{AllocError, Global};
use std::marker::Model;

/// A store in memory that fails after a number of calls, for tests of what is built on a store.
#[derive(Drop)]
pub struct Fused {
    rows: Rows,
    // How many more calls succeed before one fails.
    calls: u64,
    fault: Option<StoreFault>,
    alloc: Global,
}

impl Model for Fused {
    ghost use Rattle.test_tables.specs.Fused.{Fused};

    ghost Value = { Fused };

    ghost view = { λ s. record { table = s.rows.rows; fault = s.fault } };
}

impl Fused {
    /// Makes an empty store on which `calls` calls succeed and the next fails.
    ///
    /// # Errors
    ///
    /// Out of memory.
    pub fn new(alloc: Global, calls: u64) -> Result<Fused, AllocError>
        ensures { IfOk result (λ s. s ≡ record { table = []; fault = None }) }
    {
        Ok(Fused {
            rows: Rows::new(Vec::new(alloc))?,
            calls,
            fault: None,
            alloc,
        })
    }

    // Counts one call down, or fails if none is left.
    fn burn(&mut self) -> Result<(), StoreFault>
        ensures { self.new ≡ self.old }
    {
        if self.calls == 0 {
            return Err(StoreFault::Sql(Cause::SystemIoFailure));
        }
        self.calls -= 1;
        Ok(())
    }

    fn try_put(&mut self, row: &Row) -> Result<(), StoreFault>
        requires { IsInRange row.now }
        ensures fault { self.new.fault ≡ self.old.fault }
        ensures put { OnOk result (self.new.table ≡ with_row row.now self.old.table) }
        ensures stays { OnErr result (self.new.table ≡ self.old.table) }
    {
        self.burn()?;
        set_copy(self.alloc, &mut self.rows, row)
    }

    fn try_put_all(&mut self, rows: &[Row]) -> Result<(), StoreFault>
        requires { All IsInRange rows.now }
        ensures fault { self.new.fault ≡ self.old.fault }
        ensures put { OnOk result (self.new.table ≡ with_rows rows.now self.old.table) }
        ensures stays { OnErr result (self.new.table ≡ self.old.table) }
    {
        self.burn()?;
        let table = with_all(self.alloc, &self.rows, rows)?;
        self.rows = table;
        Ok(())
    }

    fn try_rows(&mut self) -> Result<Vec<Row>, StoreFault>
        ensures stays { self.new ≡ self.old }
        ensures rows { IfOk result (λ rows. rows.items ≡ self.old.table) }
        ensures rise { IfOk result (λ rows. Rise rows.items) }
        ensures ranges { IfOk result (λ rows. All IsInRange rows.items) }
    {
        self.burn()?;
        match all_of(self.alloc, &self.rows) {
            Ok(rows) => Ok(rows),
            Err(_) => Err(StoreFault::Sql(Cause::OutOfMemory)),
        }
    }
}

// Copies of all rows.
fn all_of(alloc: Global, rows: &Rows) -> Result<Vec<Row>, AllocError>
    ensures rows { IfOk result (λ list. list.items ≡ rows.now.rows) }
    ensures rise { IfOk result (λ list. Rise list.items) }
    ensures ranges { IfOk result (λ list. All IsInRange list.items) }
{
    let mut list = Vec::new(alloc);
    for i in 0..rows.len() {
        match rows.at(i) {
            Some(row) => list.push(row.try_clone(alloc)?)?,
            None => unreachable!(),
        }
    }
    Ok(list)
}

// Sets a copy of a row.
fn set_copy(alloc: Global, table: &mut Rows, row: &Row) -> Result<(), StoreFault>
    requires { IsInRange row.now }
    ensures put { OnOk result (table.new.rows ≡ with_row row.now table.old.rows) }
    ensures stays { OnErr result (table.new.rows ≡ table.old.rows) }
{
    let Ok(copy) = row.try_clone(alloc) else {
        return Err(StoreFault::Sql(Cause::OutOfMemory));
    };
    if copy.changed < table.latest() {
        return Err(StoreFault::Schema);
    }
    let Ok(changes) = table.prepare(&copy) else {
        return Err(StoreFault::Sql(Cause::OutOfMemory));
    };
    if changes {
        table.set(copy);
    }
    Ok(())
}

// A copy of the table with copies of these rows set.
fn with_all(alloc: Global, table: &Rows, rows: &[Row]) -> Result<Rows, StoreFault>
    requires { All IsInRange rows.now }
    ensures { IfOk result (λ next. next.rows ≡ with_rows rows.now table.now.rows) }
{
    let Ok(list) = all_of(alloc, table) else {
        return Err(StoreFault::Sql(Cause::OutOfMemory));
    };
    let Ok(mut next) = Rows::new(list) else {
        return Err(StoreFault::Sql(Cause::OutOfMemory));
    };
    for row in rows {
        set_copy(alloc, &mut next, row)?;
    }
    Ok(next)
}

impl Keeps for Fused {
    ghost use Rattle.std.specs.Prelude.{◌≡◌, ◌⊎◌};

    ghost stands = { λ s table. s.table ≡ table };

    ghost has_clean_disk = { λ _. Unit {0} };

    ghost leaves = { λ s before after. (s.table ≡ before) ⊎ (s.table ≡ after) };

    ghost is_open = { λ _. Unit {0} };

    ghost fault = { λ s. s.fault };

    fn put(&mut self, row: &Row) -> Result<(), StoreFault> {
        let result = self.try_put(row);
        self.fault = fault_in(&result);
        result
    }

    fn put_all(&mut self, rows: &[Row]) -> Result<(), StoreFault> {
        let result = self.try_put_all(rows);
        self.fault = fault_in(&result);
        result
    }

    fn rows(&mut self) -> Result<Vec<Row>, StoreFault> {
        let result = self.try_rows();
        self.fault = fault_in(&result);
        result
    }

    fn failed(&self) -> bool {
        self.fault.is_some()
    }
}
