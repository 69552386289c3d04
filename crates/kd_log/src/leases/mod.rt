//! The lines that `kdhcp leases` prints, read back into the table of leases that they describe.

pub(crate) mod fault;
mod lease;
mod line;
mod state;
pub(crate) mod table;
mod words;
