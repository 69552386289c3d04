//! Turns a text of ISC Kea's DHCPv4 server into plain JSON, and finds its include directives.
//!
//! What this layer promises to the one above: `plain_text` returns the JSON text that a text stands
//! for by our definition, unless memory runs out (`specs/Plain.antt`), with each other byte in its
//! place (`laws`). `include_in` returns the first include directive outside strings and comments.
#![tactic(auto)]

mod ends;
mod include;
pub mod laws;
mod output;
mod plain;
mod space;
mod span;
mod zero;

pub use include::include_in;
pub use plain::plain_text;
