use crate::fault::StoreFault;
use kd_rows::Row;

/// A store that keeps the table of leases: one row per address, in ascending order of address.
pub trait Keeps {
    ghost use Rattle.std.specs.Prelude.{◌≡◌, IfOk, List, Option, false, is_some};
    ghost use Rattle.std.specs.List.{All};
    ghost use Rattle.std.specs.Result.{result_err};
    ghost use Rattle.kd_keeps.specs.Moves.{MovesTable};
    ghost use Rattle.kd_keeps.specs.declared.fault.StoreFault.{StoreFault};
    ghost use Rattle.kd_rows.specs.Row.{IsInRange};
    ghost use Rattle.kd_rows.specs.Table.{Rise, with_row, with_rows};
    ghost use Rattle.kd_rows.specs.declared.row.Row.{Row as LeaseRow};

    /// The store is at this table: it is open, and the table is what it has committed.
    ghost stands: { Self → List LeaseRow → Type 0 };

    /// In no call so far has the disk failed to do what it says.
    ghost has_clean_disk: { Self → Type 0 };

    /// A crash leaves one of these two tables, and no other.
    ghost leaves: { Self → List LeaseRow → List LeaseRow → Type 0 };

    /// No failure of the disk has closed the store.
    ghost is_open: { Self → Type 0 };

    /// The fault with which a call failed, if one has. The store must then be closed and opened
    /// again.
    ghost fault: { Self → Option StoreFault };

    /// Sets a row, which replaces the row at its address or is added, and commits it.
    ///
    /// # Errors
    ///
    /// The store has failed. It has the table from before the call or the one with the row; while
    /// it is still open, it has the one from before.
    fn put(&mut self, row: &Row) -> Result<(), StoreFault>
        requires ready { is_some (fault self.old) ≡ false }
        requires range { IsInRange row.now }
        ensures clean { has_clean_disk self.new → has_clean_disk self.old }
        ensures put { has_clean_disk self.new → (table : List LeaseRow) → stands self.old table
            → MovesTable (stands self.new) (leaves self.new) (is_open self.new)
            table (with_row row.now table) result }
        ensures failed { fault self.new ≡ result_err result };

    /// Sets rows in the given order, each as `put` does, and commits them together.
    ///
    /// # Errors
    ///
    /// The store has failed. It has the table from before the call or the one with all rows; while
    /// it is still open, it has the one from before.
    fn put_all(&mut self, rows: &[Row]) -> Result<(), StoreFault>
        requires ready { is_some (fault self.old) ≡ false }
        requires ranges { All IsInRange rows.now }
        ensures clean { has_clean_disk self.new → has_clean_disk self.old }
        ensures put { has_clean_disk self.new → (table : List LeaseRow) → stands self.old table
            → MovesTable (stands self.new) (leaves self.new) (is_open self.new)
            table (with_rows rows.now table) result }
        ensures failed { fault self.new ≡ result_err result };

    /// Returns all rows, in ascending order of address, one per address, each in its ranges.
    ///
    /// # Errors
    ///
    /// The store has failed; it has the table from before the call.
    fn rows(&mut self) -> Result<Vec<Row>, StoreFault>
        requires ready { is_some (fault self.old) ≡ false }
        ensures clean { has_clean_disk self.new → has_clean_disk self.old }
        ensures rise { IfOk result (λ rows. Rise rows.items) }
        ensures ranges { IfOk result (λ rows. All IsInRange rows.items) }
        ensures found { has_clean_disk self.new → (table : List LeaseRow) → stands self.old table
            → IfOk result (λ rows. rows.items ≡ table) }
        ensures stays { has_clean_disk self.new → (table : List LeaseRow) → stands self.old table
            → MovesTable (stands self.new) (leaves self.new) (is_open self.new) table table result }
        ensures failed { fault self.new ≡ result_err result };

    /// Returns whether a call has failed.
    fn failed(&self) -> bool
        ensures { result ≡ is_some (fault self.now) };
}
