//! Reads the values of options from text, as people write them.
//!
//! What this layer promises to the one above: `value_of` returns the bytes of the value that a text
//! gives for a type of option (`specs/Spelled.antt`), or nothing if it gives none. `fields_of` does
//! so for the fields of an option that a configuration defines (`specs/Fields.antt`).
#![tactic(auto)]

mod digits;
mod field_type;
mod fields;
pub mod laws;
mod names;
mod number;
mod parts;
mod reading;
mod signs;

pub use field_type::FieldType;
pub use fields::fields_of;
pub use parts::{first_part, trim};
pub use reading::value_of;
