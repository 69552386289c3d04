ghost use Rattle.std.specs.Prelude.{◌≡◌, None, false, List, IsTrue, IfOk, IfErr, is_some};
ghost use Rattle.std.specs.List.{All};
ghost use Rattle.std.specs.Result.{result_err};
ghost use Rattle.sqlite.specs.Held.{state};
ghost use Rattle.sqlite.specs.State.{HasCleanDisk};
ghost use Rattle.kd_keeps.specs.Moves.{MovesTable};
ghost use Rattle.kd_keeps.specs.Reading.{AreRead};
ghost use Rattle.kd_rows.specs.Row.{IsInRange};
ghost use Rattle.kd_rows.specs.Table.{Rise, with_row, with_rows};
ghost use Rattle.kd_rows.specs.declared.row.Row.{Row as LeaseRow};
ghost use Rattle.kd_store.specs.Fault.{AreUnread, RefusesAllWith, RefusesWith};
ghost use Rattle.kd_store.specs.Lease.{columns_of, put_text};
ghost use Rattle.kd_store.specs.Opening.{GivesBack, OpensAt};
ghost use Rattle.kd_store.specs.Stands.{Leaves, Stands};

use crate::batch::put_all;
use crate::fault::cause_of_error;
use crate::statement::{make, put, read};
use kd_keeps::{Keeps, Opened, StoreFault, fault_in};
use kd_rows::Row;
use sqlite::{Alter, Connection};
use std::alloc::Global;
use std::marker::Model;

/// The table of leases in a database, over its connection. A store must be closed. In a contract it
/// is a record: `conn` is what the connection shows, and `fault` is the fault with which it has
/// failed, if any.
pub struct Store<S: Alter> {
    conn: Connection<S>,
    fault: Option<StoreFault>,
    alloc: Global,
}

impl<S: Alter> Model for Store<S> {
    ghost use Rattle.kd_store.specs.Kept.{Kept, kept_code};

    ghost Value = { Kept S };

    ghost coded = { kept_code S.code };

    ghost view = { λ s. record { conn = s.conn; fault = s.fault } };
}

impl<S: Alter> Store<S> {
    /// Opens a store over a connection, at the table that its database holds. Makes an empty table
    /// if there is none; a table that exists is never made again.
    ///
    /// # Errors
    ///
    /// `Schema`: the database has a table `lease` that cannot be read as ours, or a row that is out
    /// of range. `Sql`: a call to it failed, or it refuses to make the table. The connection is
    /// returned; while it is open it finds the table that it found before. A table that did not
    /// exist may have been made.
    pub fn open(alloc: Global, conn: Connection<S>) -> Result<Store<S>, (StoreFault, Connection<S>)>
        requires ready { (state S.Store conn).in_transaction ≡ false }
        ensures opened { IfOk result (λ store. (store.fault ≡ None)
            × OpensAt (state S.Store conn) (state S.Store store.conn)) }
        ensures refused { IfErr result (λ back. GivesBack S.Store back.0 conn back.1) }
    {
        let Opened { store, rows: _ } = Store::open_with_rows(alloc, conn)?;
        Ok(store)
    }

    /// Does the same, and returns the rows of the table, which is read once.
    ///
    /// # Errors
    ///
    /// Those of `open`.
    pub fn open_with_rows(
        alloc: Global,
        mut conn: Connection<S>,
    ) -> Result<Opened<Store<S>>, (StoreFault, Connection<S>)>
        requires ready { (state S.Store conn).in_transaction ≡ false }
        ensures opened { IfOk result (λ it. (it.store.fault ≡ None)
            × OpensAt (state S.Store conn) (state S.Store it.store.conn)) }
        ensures rows { IfOk result (λ it. AreRead ⟦<Store<S> as Keeps>⟧ it.store it.rows.items) }
        ensures refused { IfErr result (λ back. GivesBack S.Store back.0 conn back.1) }
    {
        if let Err(error) = make(&mut conn) {
            return Err((StoreFault::Sql(cause_of_error(error)), conn));
        }
        match read(alloc, &mut conn) {
            Ok(rows) => {
                let store = Store {
                    conn,
                    fault: None,
                    alloc,
                };
                Ok(Opened { store, rows })
            }
            Err(fault) => Err((fault, conn)),
        }
    }

    /// Returns the connection. A store that has failed is closed and opened again.
    pub fn close(self) -> Connection<S>
        ensures { result ≡ self.conn }
    {
        let Store {
            conn: connection,
            fault: _,
            alloc: _,
        } = self;
        connection
    }
}

impl<S: Alter> Keeps for Store<S> {
    ghost use Rattle.std.specs.Prelude.{◌≡◌, IsTrue};
    ghost use Rattle.sqlite.specs.Held.{state};
    ghost use Rattle.sqlite.specs.State.{HasCleanDisk};
    ghost use Rattle.kd_store.specs.Stands.{Leaves, Stands};

    ghost stands = { λ s table. Stands (state S.Store s.conn) table };

    ghost has_clean_disk = { λ s. HasCleanDisk (state S.Store s.conn) };

    ghost leaves = { λ s before after. Leaves (state S.Store s.conn) before after };

    ghost is_open = { λ s. IsTrue (state S.Store s.conn).is_open };

    ghost fault = { λ s. s.fault };

    fn put(&mut self, row: &Row) -> Result<(), StoreFault>
        requires ready { is_some self.old.fault ≡ false }
        requires range { IsInRange row.now }
        ensures clean { HasCleanDisk (state S.Store self.new.conn)
            → HasCleanDisk (state S.Store self.old.conn) }
        ensures put { HasCleanDisk (state S.Store self.new.conn) → (table : List LeaseRow)
            → Stands (state S.Store self.old.conn) table
            → MovesTable (Stands (state S.Store self.new.conn)) (Leaves (state S.Store self.new.conn))
            (IsTrue (state S.Store self.new.conn).is_open) table (with_row row.now table) result }
        ensures failed { self.new.fault ≡ result_err result }
        ensures told { HasCleanDisk (state S.Store self.new.conn)
            → IfErr result (RefusesWith put_text (columns_of row.now)
            (state S.Store self.old.conn) (state S.Store self.new.conn)) }
    {
        let done = put(&mut self.conn, row);
        self.fault = fault_in(&done);
        done
    }

    fn put_all(&mut self, rows: &[Row]) -> Result<(), StoreFault>
        requires ready { is_some self.old.fault ≡ false }
        requires ranges { All IsInRange rows.now }
        ensures clean { HasCleanDisk (state S.Store self.new.conn)
            → HasCleanDisk (state S.Store self.old.conn) }
        ensures put { HasCleanDisk (state S.Store self.new.conn) → (table : List LeaseRow)
            → Stands (state S.Store self.old.conn) table
            → MovesTable (Stands (state S.Store self.new.conn)) (Leaves (state S.Store self.new.conn))
            (IsTrue (state S.Store self.new.conn).is_open) table (with_rows rows.now table) result }
        ensures failed { self.new.fault ≡ result_err result }
        ensures told { HasCleanDisk (state S.Store self.new.conn)
            → IfErr result (RefusesAllWith S.Store rows.now self.old.conn self.new.conn) }
    {
        let kept = put_all(&mut self.conn, rows);
        self.fault = fault_in(&kept);
        kept
    }

    fn rows(&mut self) -> Result<Vec<Row>, StoreFault>
        requires ready { is_some self.old.fault ≡ false }
        ensures clean { HasCleanDisk (state S.Store self.new.conn)
            → HasCleanDisk (state S.Store self.old.conn) }
        ensures rise { IfOk result (λ rows. Rise rows.items) }
        ensures ranges { IfOk result (λ rows. All IsInRange rows.items) }
        ensures found { HasCleanDisk (state S.Store self.new.conn) → (table : List LeaseRow)
            → Stands (state S.Store self.old.conn) table
            → IfOk result (λ rows. rows.items ≡ table) }
        ensures stays { HasCleanDisk (state S.Store self.new.conn) → (table : List LeaseRow)
            → Stands (state S.Store self.old.conn) table
            → MovesTable (Stands (state S.Store self.new.conn)) (Leaves (state S.Store self.new.conn))
            (IsTrue (state S.Store self.new.conn).is_open) table table result }
        ensures failed { self.new.fault ≡ result_err result }
        ensures told { HasCleanDisk (state S.Store self.new.conn)
            → IfErr result (AreUnread (state S.Store self.old.conn)
            (state S.Store self.new.conn)) }
    {
        let found = read(self.alloc, &mut self.conn);
        self.fault = fault_in(&found);
        found
    }

    fn failed(&self) -> bool {
        self.fault.is_some()
    }
}
