//! What is skipped, refused or wrong in a configuration of ISC Kea's DHCPv4 server.
//!
//! What this layer promises to the one above: `notes_of` lists each key of a text that is skipped,
//! each that is refused, and each value that is wrong, with its path, by `specs/Notes.antt`, unless
//! memory runs out. By `laws`, a text describes settings exactly if none of its notes refuses
//! anything.
#![tactic(auto)]

mod around;
pub mod laws;
mod list;
mod networks;
mod notes;
mod objects;
mod times;
mod values;
mod walk;
mod wholes;

pub use notes::{Note, NoteKind, notes_of};
