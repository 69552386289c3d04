//! Short callers of the library crates, as a user of each would write them: one function for a
//! crate, in the module that has its name without `kd_`.
//!
//! What this crate shows: the conditions of each call are met, and what the caller promises follows
//! from the contracts of the calls alone, in the words of the called crate. The README of each of
//! these crates quotes its function (`tools/uses` compares them).
#![tactic(auto)]

pub mod answers;
pub mod check;
pub mod classes;
pub mod commands;
pub mod compile;
pub mod config;
pub mod database;
pub mod event;
pub mod explain;
pub mod expr;
pub mod fields;
pub mod io;
pub mod json;
pub mod kea;
pub mod keeps;
pub mod keys;
pub mod lease;
pub mod listing;
pub mod log;
pub mod loops;
pub mod machine;
pub mod names;
pub mod notes;
pub mod options;
pub mod plain;
pub mod pools;
pub mod program;
pub mod reports;
pub mod rows;
pub mod server;
pub mod start;
pub mod store;
pub mod text;
pub mod token;
pub mod trouble;
pub mod values;
pub mod why;
pub mod wire;
