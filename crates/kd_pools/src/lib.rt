//! Counts how full the pools of a configuration are, and prints the counts.
//!
//! What this layer promises to the one above: the counts of each pool, of each subnet and of each shared network are those
//! of its addresses by the lease rules (`specs/Counts.antt`, `specs/Uses.antt`); an address counts
//! as free if and only if a new client that asks for it is offered it (`specs/Laws.antt`); the
//! printed lines and metrics are those of `specs/Printed.antt`, byte for byte.
#![tactic(auto)]

mod counts;
pub mod laws;
mod lines;
mod metrics;
mod reserved;
mod text;
mod uses;
mod walking;

pub use counts::Counts;
pub use lines::use_lines;
pub use metrics::use_metrics;
pub use uses::{NetworkUse, PoolUse, SubnetUse, Uses, uses_of};
