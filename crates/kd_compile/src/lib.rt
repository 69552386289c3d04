//! The compiler of class tests: from a typed tree to a verified program of tokens (Kea
//! Administrator Reference Manual, chapter Client Classification, and our own token format).
//!
//! What this layer promises to the one above: `compile` returns a program that the verifier has
//! accepted. Token for token it is the program of the expression's tree (`specs/Tokens.antt`), with
//! its measures (`specs/Measures.antt`), and its run over every message and every list of held
//! names ends with the expression's value (`specs/Value.antt`). Otherwise `compile` returns the
//! first limit that these measures are over (`specs/Compiled.antt`), or runs out of memory.
//!
//! `proofs/` ties the tokens of a tree to its value and its measures.
#![tactic(auto)]

mod compiler;
mod emit;
mod fault;
mod lengths;
mod measure;

pub use compiler::compile;
pub use fault::CompileFault;
