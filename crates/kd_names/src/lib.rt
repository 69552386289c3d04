//! The names of options, and their values as text.
//!
//! What this layer promises to the one above: `put_named` appends the line of an option that has a
//! name (`specs/Table.antt`) and a value of the form of its type, and that line is the one of
//! `specs/Values.antt`, byte for byte. For any other option it appends nothing. `option_named` and
//! `kind_of` look an option up in that list. `message_type_name` returns the name of a message
//! type. `is_name_label` and `is_whole_route` are the tests of names and routes. `put_signs`
//! appends any text, and `signs_of` returns it, so that a terminal may show it.
#![tactic(auto)]

mod form;
mod kind;
mod lookup;
mod named;
mod number;
mod pieces;
mod table;
mod text;

pub use kind::Kind;
pub use lookup::{kind_of, option_named};
pub use named::put_named;
pub use pieces::{is_name_label, is_whole_route};
pub use text::{message_type_name, put_signs, signs_of};
