ghost use Rattle.std.specs.Prelude.{◌≡◌, true};

use crate::fault::{Cause, StoreFault};
use crate::keeps::Keeps;
use kd_rows::Row;
use std::alloc::Global;

/// A store that keeps no rows, for a server whose leases are only in its memory and end with it.
/// Its rows can therefore be read only while none has been put.
#[derive(Drop)]
pub struct Volatile {
    alloc: Global,
    is_new: bool,
    fault: Option<StoreFault>,
}

impl Volatile {
    /// Makes a new store, at the empty table.
    pub fn new(alloc: Global) -> Volatile
        ensures new { result.is_new ≡ true }
        ensures fault { result.fault ≡ None }
    {
        Volatile {
            alloc,
            is_new: true,
            fault: None,
        }
    }
}

impl Keeps for Volatile {
    ghost use Rattle.std.specs.Prelude.{◌≡◌, [], true};

    ghost stands = { λ s table. s.is_new ≡ true → table ≡ [] };

    ghost has_clean_disk = { λ _. Unit {0} };

    ghost leaves = { λ _ before after. Unit {0} };

    ghost is_open = { λ _. Unit {0} };

    ghost fault = { λ s. s.fault };

    fn put(&mut self, _row: &Row) -> Result<(), StoreFault> {
        self.is_new = false;
        Ok(())
    }

    fn put_all(&mut self, rows: &[Row]) -> Result<(), StoreFault> {
        self.is_new = self.is_new && rows.is_empty();
        Ok(())
    }

    fn rows(&mut self) -> Result<Vec<Row>, StoreFault> {
        if self.is_new {
            return Ok(Vec::new(self.alloc));
        }
        let fault = StoreFault::Sql(Cause::Closed);
        self.fault = Some(fault);
        Err(fault)
    }

    fn failed(&self) -> bool {
        self.fault.is_some()
    }
}
