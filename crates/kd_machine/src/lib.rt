//! The token machine: runs verified programs over a message and a set of held class names (our own
//! format).
//!
//! What this layer promises to the one above: `eval` returns the outcome of the program's run
//! (`specs/Run.antt`), within the steps, the depth and the value length that the program declares,
//! and allocates memory for only five of the tokens. A step applies the rule of one token; a run is
//! a chain of steps from the first place with an empty stack to the end with one truth value.
//! `laws` says that every accepted program has a run over every message, and only one.
//!
//! `specs/Fits.antt` and `proofs/` tie values to the shapes of the verifier: if values fit a shape,
//! what a token makes of them fits what it makes of the shape (`proofs/Rules.antt`). So a stack
//! that fits at one place of an accepted program fits at the next (`proofs/Standing.antt`), up to
//! the end (`proofs/Ending.antt`).
#![tactic(auto)]

mod bounds;
mod fault;
mod held;
pub mod laws;
mod run;
mod stack;
mod step;
mod text;
mod texts;
mod value;

pub use fault::EvalFault;
pub use held::Held;
pub use run::{Outcome, eval};
