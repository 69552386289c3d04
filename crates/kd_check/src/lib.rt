//! Reports in words what is wrong with a configuration.
//!
//! What this layer promises to the one above: the report of a text and of the fault found in it is
//! that of `specs/Report.antt`, byte for byte, except for two parts that the JSON reader chooses:
//! the place where a text stops being JSON, and the digits of a number that is not an integer. The
//! words for the faults are in `specs/Words.antt`, the value of the configuration that a fault is
//! about in `specs/Lookup.antt`, and the mark under a place in `specs/Mark.antt`. Where a path leads
//! in a text is defined in `specs/Place.antt` (with a law in `specs/PlaceLaws.antt`), and the report
//! that shows it in `specs/Located.antt`.
#![tactic(auto)]

mod class;
pub mod laws;
mod line;
mod located;
mod lookup;
mod mark;
mod place;
mod report;
mod unread;
mod value;
mod words;

pub use located::{located_report, located_value_report};
pub use place::place_of;
pub use report::{config_report, path_words};
