//! This machine as the host of the program: a database in a file, files, a socket and a clock.
//!
//! What this layer promises to the one above: a command line is carried out over the database of a
//! file, which held the bytes that a start stands for, and what remains below it is what a crash
//! may leave of its store (`specs/OnFiles.antt`, `run_on`). What follows for one run after another
//! is in `kd_laws`.
#![tactic(auto)]

mod machine;
mod running;

pub use kd_answers::{Printed, answer};
pub use kd_commands::{LineFault, Order, order};
pub use kd_io::{Input, Output, inherited_socket};
pub use kd_program::StandardEnds;
pub use kd_server::{Lease, lease_lines};
pub use machine::{Below, Machine};
pub use running::{refuse, run_on};
