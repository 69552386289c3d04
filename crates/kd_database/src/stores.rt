ghost use Rattle.std.specs.Prelude.{◌≡◌, IfErr, IfOk, [], true, false};
ghost use Rattle.sqlite_wal.specs.Files.{image_at};
ghost use Rattle.sqlite.specs.Held.{Held, state};
ghost use Rattle.sqlite.specs.Steps.{over_memory};
ghost use Rattle.kd_keeps.specs.Reading.{AreRead};
ghost use Rattle.kd_store.specs.Opening.{GivesBack, OpensAt};
ghost use Rattle.kd_store.specs.Stands.{Stands};
ghost use Rattle.kd_database.specs.Stores.{IsNoStoreIn, IsStoreIn, StandsAsHeld, StandsNew, no_bytes, opening_cause};

use kd_keeps::{Cause, Keeps, Opened, StoreFault};
use kd_store::Store;
use sqlite::{
    Alter, Connection, Error, ErrorCode, File, FileFrom, FileStore, MemStore, Start, Unknown,
};
use sqlite_disk::Disk;
use std::alloc::Global;
use std::fs::OpenOptions;
use std::os::unix::fs::OpenOptionsExt;

/// What the leases of a file are kept in.
pub type InFile = FileStore<File>;

/// What leases in memory are kept in.
pub type InMemory = MemStore;

/// Makes a store of leases in memory, at the empty table.
///
/// # Errors
///
/// There is no memory for it.
pub fn store_in_memory(alloc: Global) -> Result<Opened<Store<InMemory>>, StoreFault>
    ensures fault { IfOk result (λ it. it.store.fault ≡ None) }
    ensures stands { IfOk result (λ it. Stands (state over_memory it.store.conn) []) }
    ensures none { IfOk result (λ it. it.rows.items ≡ []) }
    ensures rows { IfOk result (λ it.
        AreRead ⟦<Store<InMemory> as Keeps>⟧ it.store it.rows.items) }
{
    match Connection::open_in_memory(alloc) {
        Ok(conn) => store_over(alloc, conn),
        Err(_) => Err(StoreFault::Sql(Cause::OutOfMemory)),
    }
}

/// Opens the store of leases in the file at a path, an SQLite database. If there is no file, makes
/// one that only this user can read and write. This is `store_from` for a program: its clauses
/// speak of a file without bytes, where those of `store_from` speak of any bytes.
///
/// # Errors
///
/// `Sql` if the file cannot be opened or a call to the database fails, and `Schema` if its table
/// `lease` is not ours or has a row that is out of range.
pub fn store_in_file(rt: &HostRuntime, path: &str) -> Result<Opened<Store<InFile>>, StoreFault>
    ensures fault { IfOk result (λ it. it.store.fault ≡ None) }
    ensures held { IfOk result (λ it. StandsAsHeld no_bytes it.store) }
    ensures new { IfOk result (λ it. StandsNew no_bytes it.store) }
    ensures opened { IfOk result (λ it. IsStoreIn no_bytes it.store) }
    ensures rows { IfOk result (λ it. AreRead ⟦<Store<InFile> as Keeps>⟧ it.store it.rows.items) }
{
    store_from(rt, path, Unknown)
}

/// Does the same for any bytes of the file and of its log, for which `start` stands. No clause says
/// that these are the files at the path.
///
/// # Errors
///
/// Those of `store_in_file`.
pub fn store_from<F: Start>(
    rt: &HostRuntime,
    path: &str,
    start: F,
) -> Result<Opened<Store<FileStore<FileFrom<F>>>>, StoreFault>
    ensures fault { IfOk result (λ it. it.store.fault ≡ None) }
    ensures held { IfOk result (λ it. StandsAsHeld (image_at F.Start) it.store) }
    ensures new { IfOk result (λ it. StandsNew (image_at F.Start) it.store) }
    ensures opened { IfOk result (λ it. IsStoreIn (image_at F.Start) it.store) }
    ensures rows { IfOk result (λ it.
        AreRead ⟦<Store<FileStore<FileFrom<F>>> as Keeps>⟧ it.store it.rows.items) }
    ensures refused { IfErr result (IsNoStoreIn ⟦<FileFrom<F> as Disk>⟧ (image_at F.Start)) }
{
    make_file(rt, path);
    match Connection::open_from(rt, path, false, start) {
        Ok(conn) => store_over(rt.alloc(), conn),
        Err((error, _)) => Err(StoreFault::Sql(cause_of(error))),
    }
}

/// Opens the store over a connection that is in no transaction, at the table that its database
/// holds.
///
/// # Errors
///
/// As for a file, and `Sql` with `Closed` if the connection is in a transaction.
pub fn store_over<S: Alter + Drop>(
    alloc: Global,
    conn: Connection<S>,
) -> Result<Opened<Store<S>>, StoreFault>
    ensures opened { IfOk result (λ it. (it.store.fault ≡ None)
        × OpensAt (state S.Store conn) (state S.Store it.store.conn)) }
    ensures rows { IfOk result (λ it. AreRead ⟦<Store<S> as Keeps>⟧ it.store it.rows.items) }
    ensures busy { (state S.Store conn).in_transaction ≡ true
        → result ≡ Err (StoreFault.Sql Cause.Closed) }
    ensures refused { (state S.Store conn).in_transaction ≡ false
        → IfErr result (λ fault. (back : Held S) × GivesBack S.Store fault conn back) }
{
    if !conn.is_autocommit() {
        return Err(StoreFault::Sql(Cause::Closed));
    }
    match Store::open_with_rows(alloc, conn) {
        Ok(opened) => Ok(opened),
        Err((fault, _)) => Err(fault),
    }
}

// Makes the file if there is none, for this user only; the log gets the permissions of its file.
// Anything that prevents this is met again when the file is opened. The two kinds of name that are
// left out are not files there.
fn make_file(rt: &HostRuntime, path: &str) {
    if path != ":memory:" && !path.starts_with("file:") {
        let _made = OpenOptions::new()
            .write(true)
            .create_new(true)
            .mode(0o600)
            .open(rt, path);
    }
}

// Returns why a file could not be opened.
pub(crate) fn cause_of(error: Error) -> Cause
    ensures { result ≡ opening_cause error }
{
    let Error::SqliteFailure(code) = error else {
        return Cause::Refused;
    };
    match code {
        ErrorCode::NotADatabase | ErrorCode::DatabaseCorrupt => Cause::DatabaseCorrupt,
        ErrorCode::CannotOpen | ErrorCode::DatabaseBusy | ErrorCode::SystemIoFailure => {
            Cause::SystemIoFailure
        }
        ErrorCode::OutOfMemory => Cause::OutOfMemory,
        ErrorCode::DiskFull => Cause::DiskFull,
        ErrorCode::Closed => Cause::Closed,
        ErrorCode::TooBig => Cause::TooBig,
        _ => Cause::Refused,
    }
}
