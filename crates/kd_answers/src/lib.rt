//! What an order prints that needs only its arguments: `show`, `expr`, `compile`, `verify` and
//! `eval`.
//!
//! What this layer promises to the one above: `answer` returns what such an order prints on
//! standard output and standard error, and its exit status (`specs/Printed.antt`,
//! `specs/Show.antt`, `specs/Status.antt`), unless memory runs out.
#![tactic(auto)]

mod answering;
mod class_test;
mod datagram;
mod printed;
mod refusal;
mod run;
mod show;
mod status;
mod token_file;

pub use answering::answer;
pub use printed::Printed;
pub use status::{exit_status, replay_status, serve_status};
