//! Why a server cannot start: the faults of a start, with their numbers, and the troubles with a
//! file, the database or the socket, in words.
//!
//! What this layer promises to the one above: the number of a fault is that of `specs/Faults.antt`,
//! and the words for a trouble are those of `specs/Troubles.antt`. Who finds them is above: a file
//! or a configuration in `kd_start`, and what a program does about them in `kd_program`, which
//! needs only this crate for it.
#![tactic(auto)]

mod fault;
mod troubles;

pub use fault::StartFault;
pub use troubles::{FileTrouble, SocketTrouble, StoreTrouble};
