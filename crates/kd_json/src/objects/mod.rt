//! The objects of a configuration, from the document down to a single value: their keys, and what
//! they describe.

pub mod class;
pub(crate) mod definitions;
pub mod document;
pub mod faults;
pub mod options;
pub mod pool;
mod program;
pub mod reservation;
pub mod settings;
pub mod subnet;
mod times;
