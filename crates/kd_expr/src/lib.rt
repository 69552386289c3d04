//! Class tests in Kea's language (Kea Administrator Reference Manual, chapter Client
//! Classification), from text to typed tree.
//!
//! What this layer promises to the one above: `read` returns the tree of a text exactly if the
//! grammar gives it one (`specs/Lexical.antt` has the words, `specs/Grammar.antt` the productions),
//! `TooLong` exactly if the text has more than 4,096 bytes, and otherwise the first fault
//! (`specs/FirstFault.antt`), unless memory runs out. `type_of` returns the first type fault with
//! its place, or the same expression as one of type Bool (`specs/Typing.antt`).
//! Trees hold their children in boxes, so contracts speak of the tree without memory that a node is
//! seen as (`specs/Tree.antt`, `specs/View.antt`).
#![tactic(auto)]

mod address;
mod class;
mod expr;
mod fault;
mod forms;
mod lexer;
mod literal;
mod names;
mod node;
mod number;
mod parser;
mod reader;
mod take;
mod token;
mod typing;

pub use address::read_address;
pub use expr::{Expr, Typed, type_of};
pub use fault::{ExprFault, TypeFault};
pub use node::Node;
pub use reader::read;
pub use typing::ValueType;
