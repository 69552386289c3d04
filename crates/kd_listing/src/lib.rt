//! The leases of a table at some time, and the lines that `kdhcp leases` prints for them.
//!
//! What this layer promises to the one above: a lease is a row with whether it has ended at that
//! time, and its line is the row and that, byte for byte (`specs/Leases.antt`). What reads such
//! lines back is in `kd_log`.
#![tactic(auto)]

mod leases;
mod lines;

pub use leases::{Lease, leases_in};
pub use lines::{lease_lines, put_row};
