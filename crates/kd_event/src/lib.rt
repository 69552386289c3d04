//! What comes in and what goes out: an event, what was done with it, where a reply goes, and why
//! none is sent.
//!
//! What this layer promises to the one above: the numbers and names of the reasons are those that
//! are printed (`specs/Reason.antt`). Everything else here is plain data without rules of its own.
#![tactic(auto)]

mod destination;
mod event;
mod ports;
mod reason;

pub use destination::{Destination, Mode};
pub use event::{Event, Handled, Response};
pub use ports::Ports;
pub use reason::Reason;
