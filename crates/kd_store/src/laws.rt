//! What holds across a crash.
ghost use Rattle.kd_store.specs.Laws.{Reopens, StandsOnce};

use sqlite_disk::Disk;

/// If a crash leaves of a file the table from before the last call or the one after it, a
/// connection that is opened on what it left has our schema, and the table that it finds is one of
/// these two and no other. The function does nothing: its contract is the law.
pub fn reopens<D: Disk, E: Disk>()
    ensures { Reopens D.Disk E.Disk }
{}

/// A connection is at only one table.
pub fn stands_once<E: Disk>()
    ensures { StandsOnce E.Disk }
{}
