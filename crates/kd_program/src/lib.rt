//! The program: what each command prints and where, and its exit status, whatever its host is.
//!
//! What this layer promises to the one above: `run` carries out the arguments of a command line
//! over a host (`Host`), which has files, stores of leases, a socket and a clock, and over the
//! three standard streams.
#![tactic(auto)]

mod advice;
mod banner;
mod checking;
mod ends;
mod explaining;
mod hiding;
mod host;
mod importing;
mod listing;
mod log;
mod looking;
mod printing;
mod report;
mod running;
mod serving;

pub use ends::StandardEnds;
pub use host::Host;
pub use printing::refuse_words;
pub use running::run;
