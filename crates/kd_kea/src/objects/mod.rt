//! The objects of a configuration of Kea's, from the document down to a pool, and what they describe.

pub mod class;
pub(crate) mod document;
mod known;
pub mod lifetimes;
pub mod network;
mod option_text;
pub mod pool;
pub mod reservation;
pub mod settings;
pub mod subnet;
pub mod times;
