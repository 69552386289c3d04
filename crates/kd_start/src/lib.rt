//! What a server starts with: the configuration of files, or why there is none.
//!
//! What this layer promises to the one above: a configuration is that of a text that was read, with
//! the token files of a folder, or the built-in one; and a fault is that of the text, or of the
//! files (`specs/Start.antt`). What a start would meet on this machine is tried, and nothing is changed
//! (`specs/Trials.antt`): which files are at a path and which ports are free, no proof knows.
#![tactic(auto)]

mod start;
mod tokens;
mod trying;

pub use start::{config_of, configuration, kea_configuration};
pub use tokens::token_files;
pub use trying::{try_database, try_socket};
