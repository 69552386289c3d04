ghost use Rattle.std.specs.Prelude.{◌≡◌, [], IfErr, IfOk, IfSome, IsTrue, None, Ok, false, is_some};
ghost use Rattle.std.specs.List.{All};
ghost use Rattle.sqlite_disk.specs.Memory.{memory_bytes, memory_is_usable};
ghost use Rattle.sqlite_schema.specs.Names.{table_named};
ghost use Rattle.sqlite.specs.Files.{image_of};
ghost use Rattle.sqlite.specs.Held.{Held, state};
ghost use Rattle.kd_keeps.specs.Reading.{AreRead};
ghost use Rattle.kd_rows.specs.Row.{IsInRange};
ghost use Rattle.kd_rows.specs.Table.{Rise};
ghost use Rattle.kd_store.specs.Kept.{Kept};
ghost use Rattle.kd_store.specs.Opening.{GivesBack, OpensAt};
ghost use Rattle.kd_database.specs.Image.{AreRowsIn, LacksTable, bytes_image, lease_name};
ghost use Rattle.kd_database.specs.Staging.{AreRowsOver, IsListed};
ghost use Rattle.kd_database.specs.Stores.{IsNoStoreIn};

use crate::stores::{cause_of, store_over};
use kd_keeps::{Cause, Keeps, Opened, StoreFault};
use kd_rows::Row;
use kd_store::Store;
use sqlite::{Alter, Connection, FileStore, Files, Options};
use sqlite_disk::{Disk, Memory};
use std::alloc::Global;

/// Returns the leases in the bytes of a database and of its log, in ascending order of address: the
/// rows that a store finds when it is opened on these bytes in memory. `None` if the database has no
/// table of leases, as an empty one.
///
/// # Errors
///
/// Those of `store_in_file`: `Sql` if the bytes are not a database or memory runs out, and `Schema`
/// if its table `lease` is not ours or has a row that is out of range.
pub fn rows_in_bytes(alloc: Global, log: &[u8], db: &[u8]) -> Result<Option<Vec<Row>>, StoreFault>
    ensures held { IfOk result (λ found. IfSome found (λ rows.
        AreRowsIn (bytes_image log.now db.now) rows.items)) }
    ensures lacking { result ≡ Ok None → LacksTable (bytes_image log.now db.now) }
    ensures empty { IfOk result (λ found. db.now ≡ [] → found ≡ None) }
    ensures rise { IfOk result (λ found. IfSome found (λ rows. Rise rows.items)) }
    ensures ranges { IfOk result (λ found. IfSome found (λ rows. All IsInRange rows.items)) }
    ensures refused { IfErr result
        (IsNoStoreIn ⟦<Memory as Disk>⟧ (bytes_image log.now db.now)) }
{
    let log = match file_of(alloc, log) {
        Ok(log) => log,
        Err(fault) => return Err(fault),
    };
    let db = match file_of(alloc, db) {
        Ok(db) => db,
        Err(fault) => return Err(fault),
    };
    rows_on(alloc, Files { log, db })
}

// Returns a file in memory with these bytes.
pub(crate) fn file_of(alloc: Global, bytes: &[u8]) -> Result<Memory, StoreFault>
    ensures bytes { IfOk result (λ file. memory_bytes file ≡ bytes.now) }
    ensures usable { IfOk result (λ file. IsTrue (memory_is_usable file)) }
    ensures memory { IfErr result (λ fault. fault ≡ StoreFault.Sql Cause.OutOfMemory) }
{
    let mut file = Memory::new(alloc);
    match file.write_at(0, bytes) {
        Ok(()) => Ok(file),
        Err(_) => Err(StoreFault::Sql(Cause::OutOfMemory)),
    }
}

// Returns the rows of the store that is opened on these files, if their database has a table with
// the name of ours.
fn rows_on<D: Disk + Drop>(alloc: Global, files: Files<D>) -> Result<Option<Vec<Row>>, StoreFault>
    requires log { IsTrue (D.Disk.is_usable files.log) }
    requires db { IsTrue (D.Disk.is_usable files.db) }
    ensures over { IfOk result (λ found. IfSome found (λ rows.
        AreRowsOver ⟦<Store<FileStore<D>> as Keeps>⟧ (image_of D.Disk files) rows.items)) }
    ensures listed { IfOk result (λ found.
        IsListed D.Disk (image_of D.Disk files) (is_some found)) }
    ensures refused { IfErr result (IsNoStoreIn D.Disk (image_of D.Disk files)) }
{
    match Connection::open_files(alloc, files, Options::new(0)) {
        Ok(conn) => rows_over(alloc, conn),
        Err((error, _)) => Err(StoreFault::Sql(cause_of(error))),
    }
}

// Returns the rows of the store over a connection, which is then dropped, if its database has a
// table with the name of ours.
fn rows_over<S: Alter + Drop>(
    alloc: Global,
    conn: Connection<S>,
) -> Result<Option<Vec<Row>>, StoreFault>
    ensures read { IfOk result (λ found. IfSome found (λ rows. (store : Kept S)
        × OpensAt (state S.Store conn) (state S.Store store.conn)
        × AreRead ⟦<Store<S> as Keeps>⟧ store rows.items)) }
    ensures listed { IfOk result (λ found.
        is_some (table_named (state S.Store conn).now.schema lease_name) ≡ is_some found) }
    ensures refused { (state S.Store conn).in_transaction ≡ false
        → IfErr result (λ fault. (back : Held S) × GivesBack S.Store fault conn back) }
{
    if conn.schema().table_named(b"lease").is_none() {
        let _below = conn.into_store();
        return Ok(None);
    }
    match store_over(alloc, conn) {
        Ok(Opened { store, rows }) => {
            let _below = store.close().into_store();
            Ok(Some(rows))
        }
        Err(fault) => Err(fault),
    }
}
