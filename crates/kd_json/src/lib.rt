//! Reads a configuration from an operator's JSON text, with Kea's keys.
//!
//! What this layer promises to the one above: `read_config` returns the configuration that a text
//! describes, together with token files, exactly when it describes one, unless memory runs out
//! (`specs/Configured.antt`). The settings are those of `specs/Document.antt`, object by object
//! down to `specs/Address.antt` and the values of kd_fields, and the subnets obey the rules over the
//! whole configuration (`specs/Rules.antt` of kd_config). Each class test is a program that its
//! text compiles to or that its token file contains, and the classes are in order. A fault says
//! what is wrong and where: the first in the text (`specs/FirstFault.antt`).
//!
//! A reader of another text with the same values takes its parts from `objects`, and makes its
//! configuration by `config_of`.
#![tactic(auto)]

mod fault;
pub mod objects;
mod read;
mod rules;
mod text;
mod token_file;

pub use fault::{ConfigFault, FileTestFault, TestFault};
pub use read::{config_of, read_config};
pub use token_file::TokenFile;
