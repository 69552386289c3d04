//! Tests of the store of leases by values, over a database in memory: what is read of what was put,
//! one row at a time and 3,000 together, and a refused memory request. The scripts
//! `system-tests/stops` and `system-tests/host` test it over files, through the program.
//!
//! They are a separate crate because a crate is proved again together with its tests.
#![tactic(auto)]

#[cfg(test)]
mod leases;
#[cfg(test)]
mod memory;
