//! Why a client gets the answer it gets: what a server would do with one datagram, explained.
//!
//! What this layer promises to the one above: the text of an explanation is what `kd_explain` says
//! of the datagram at the same time and over the same rows, and then the line that a replay would
//! write (`specs/Saying.antt`). A line of an input is explained over the rows that the events of
//! the lines before it leave (`specs/Inquiring.antt`).
#![tactic(auto)]

mod inquiry;
mod why;

pub use inquiry::why_line;
pub use why::why_text;
