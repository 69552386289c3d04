//! The lines of a log, and what is printed of them for people: one line for each reply.

pub(crate) mod filter;
mod handled;
pub(crate) mod log;
mod people;
pub(crate) mod printed;
mod time;
mod words;
