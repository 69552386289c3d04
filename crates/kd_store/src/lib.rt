//! The table of leases in an SQL database, in memory or in a file.
//!
//! What this layer promises to the one above: a store is at a table of leases. `put` moves it to
//! that table with a row set, in one statement and one commit, and `put_all` to that table with
//! several rows set, in one transaction and one commit. A crash leaves the table from before a call
//! or the one after it, and no other, and a store that is opened on what a crash left is at that
//! table. A store is closed, not dropped, so nothing happens to it on the way. `specs/Stands.antt`
//! has the terms for this, `specs/Opening.antt` says what opening gives, `specs/Fault.antt` has the
//! faults, `specs/Batch.antt` the steps of a transaction to which a fault of `put_all` refers,
//! `specs/Lease.antt` the texts of the statements and the columns, and `specs/Laws.antt` what holds
//! across a crash.
#![tactic(auto)]

mod batch;
mod decode;
mod fault;
pub mod laws;
mod statement;
mod store;

pub use kd_keeps::{Cause, StoreFault};
pub use kd_rows::Row;
pub use store::Store;
