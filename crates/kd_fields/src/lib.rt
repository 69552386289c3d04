//! Reads the values in a configuration's JSON text, and names their places.
//!
//! What this layer promises to the one above: `value_of` returns the JSON value that a text spells
//! (`specs/Text.antt`). An object with keys that are required or known, a number, an address, a text,
//! hexadecimal bytes and a list are read by one definition each (`specs/Values.antt`,
//! `specs/Lists.antt`), unless memory runs out. A fault has the path of its value (`specs/Place.antt`).
#![tactic(auto)]

pub mod address;
pub mod faults;
mod hex_text;
pub mod lists;
pub mod place;
pub mod text;
pub mod values;
