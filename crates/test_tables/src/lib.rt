//! Tests of the table of leases by values: what is found in it, by address and by client, and what
//! it contains after a refused memory request; and a store in memory that fails on demand
//! (`Fused`), for tests of what is built on a store; and the bytes of an OFFER.
//!
//! They are a separate crate because a crate is proved again together with its tests, and are
//! separate from `test_messages` because they need only the table's crates.
#![tactic(auto)]

#[cfg(test)]
mod ages;
mod fused;
mod offer;
#[cfg(test)]
mod rows;
#[cfg(test)]
mod stores;
#[cfg(test)]
mod tiers;
#[cfg(test)]
mod withheld;

pub use fused::Fused;
pub use offer::offer_bytes;
