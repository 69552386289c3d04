//! The rules over the whole of a configuration, and the fault of a value that breaks one.

mod apart;
mod fault_at;
mod pools;
mod reservations;
pub(crate) mod subnets;
