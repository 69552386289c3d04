//! Token files of class tests: the tokens, a program and its file, in both versions, and the
//! verifier (our own format).
//!
//! What this layer promises to the one above: `Program::read` returns the program of a file exactly
//! if the bytes are the file of one, and `Program::write` returns these bytes (`specs/File.antt`).
//! A program has one file, and a file one program. For other bytes `Program::read` returns the
//! first fault with its place (`specs/FirstFault.antt`). `verify` accepts a program exactly if some
//! assignment of shapes to its places holds along every path through it (`specs/Shape.antt`,
//! `specs/Accepts.antt`), and otherwise reports the first place that no assignment can make sound.
//! Each of these functions may also run out of memory.
//!
//! `specs/Reading.antt` and `proofs/` tie the reader to the fields of a file (`proofs/Told.antt`,
//! `proofs/Fields.antt`). `specs/Table.antt` and `proofs/` tie the single pass of `verify` to
//! assignments: one step of it (`proofs/Passes.antt`), one place of the table
//! (`proofs/Visits.antt`), and its end (`proofs/Ends.antt`).
#![tactic(auto)]

mod fault;
pub mod laws;
mod program;
mod put;
mod reader;
mod reading;
mod shape;
mod table;
mod token;
mod verifier;
mod way;

pub use fault::{FileFault, VerifyFault};
pub use program::Program;
pub use shape::Kind;
pub use token::{Token, Version};
pub use verifier::{Verified, verify};
pub use way::Way;
