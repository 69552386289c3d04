ghost use Rattle.sqlite_store.specs.FileStore.{view};
ghost use Rattle.sqlite_trees.specs.View.{IsClean};
ghost use Rattle.kd_database.specs.Stops.{LiesBelow, Kills, Restarts};

use kd_store::Store;
use sqlite::FileStore;
use sqlite_disk::Disk;

/// Closes a store and returns what lies below its connection.
pub fn let_go<D: Disk + Drop>(store: Store<FileStore<D>>) -> FileStore<D>
    ensures { IsClean (view result) → LiesBelow store.conn result }
{
    store.close().into_store()
}

/// A store in files on what a crash left of other files is at the table from before the last call
/// on those or at the one after it. The function does nothing but name the law that it rests on:
/// its contract is the law.
pub fn restarts<D: Disk, E: Disk>()
    ensures { Restarts D.Disk E.Disk }
{
    kd_store::laws::reopens::<D, E>();
}

/// If a process is killed between two calls, a crash leaves what it would have left of the
/// connection. The store of every connection is numbered, but only the contract of `let_go` says
/// so.
pub fn kills<D: Disk>()
    ensures { Kills D.Disk }
{}
