//! What a server needs from the store that keeps its leases, and how a store can fail.
//!
//! What this layer promises to the one above: a store that implements the trait `Keeps` is at a
//! table of leases, sets rows in calls that each commit once, and states what a crash may leave and
//! with which fault it has failed (`specs/Moves.antt`). Clauses about tables hold if the disk is
//! clean at the end of a call. The disk was then clean at every call before it as well, so a day of
//! many calls has this one premise. `specs/Reading.antt` says what holds of rows that were read
//! from a store, and `specs/Fault.antt` has the numbers of the faults. `Volatile` is the store that
//! keeps no rows.
#![tactic(auto)]

mod fault;
mod keeps;
mod opened;
mod volatile;

pub use fault::{Cause, StoreFault, fault_in};
pub use keeps::Keeps;
pub use opened::Opened;
pub use volatile::Volatile;
