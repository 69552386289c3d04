//! The configuration that a server runs with, whoever wrote it down.
//!
//! What this layer promises to the one above: a `Config` is a server address, times, extensions of
//! the rules, options of all replies, classes and subnets (`specs/Configuration.antt`), and its
//! accessors return these parts.
//! Every one is sound: each value is in its range, each list is within its limit, the subnets obey
//! the rules over the whole (`specs/Rules.antt`), and the classes are in order with tests that are
//! accepted programs (`specs/Sound.antt`). `Config::of` makes one of parts that are sound together,
//! as the readers of operators' texts do. `Config::builtin` returns the built-in configuration.
//! What follows for addresses, clients and tests are laws (`specs/Laws.antt`).
#![tactic(auto)]

mod builtin;
mod classed;
mod clients;
mod config;
mod copies;
mod extensions;
pub mod laws;
mod networks;
mod pool;
mod prefix;
mod range;
mod reservation;
mod reservations;
mod subnet;
mod term;
mod times;

pub use classed::admits;
pub use config::Config;
pub use copies::{classes_copied, classes_joined, classes_of, options_copied};
pub use extensions::{Extensions, Policy};
pub use kd_wire::Entries;
pub use pool::Pool;
pub use prefix::Prefix;
pub use range::Range;
pub use reservation::{Identity, IdentityKind, Reservation};
pub use reservations::Reservations;
pub use subnet::Subnet;
pub use term::{Term, Timer, seconds_of};
pub use times::Times;
