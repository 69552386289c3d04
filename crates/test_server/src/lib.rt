//! Tests of the server by what only values can show. Everything else is data: `cases`.
//!
//! - Memory that is refused, files and folders, sources and sinks that fail in mid-stream, sockets,
//!   and the order in which things happen.
//! - Leases: days of a few events, worked out by hand from the rules, over a store in memory; the
//!   state after a store that fails; the decision for a single message; where replies go; and what is
//!   offered when hundreds of addresses are reserved.
//! - What the program does not show: the steady clock; a look at a database whose log is restarted in
//!   the meantime; more rows than any block of them; and the record of received datagrams. The script
//!   `system-tests/host` tests the program over sockets and files.
//!
//! They are a separate crate because a crate is proved again together with its tests, and are
//! separate from `test_messages` because the crates tested there are below the server's.
#![tactic(auto)]

#[cfg(test)]
mod clock;
#[cfg(test)]
mod config;
#[cfg(test)]
mod datagrams;
#[cfg(test)]
mod days;
#[cfg(test)]
mod decisions;
#[cfg(test)]
mod doubles;
#[cfg(test)]
mod ends;
#[cfg(test)]
mod fields;
#[cfg(test)]
mod files;
#[cfg(test)]
mod leased;
#[cfg(test)]
mod lines;
#[cfg(test)]
mod looks;
#[cfg(test)]
mod many;
#[cfg(test)]
mod places;
#[cfg(test)]
mod plain;
#[cfg(test)]
mod record;
#[cfg(test)]
mod replay;
#[cfg(test)]
mod reserved;
#[cfg(test)]
mod scenes;
#[cfg(test)]
mod server;
#[cfg(test)]
mod serving;
#[cfg(test)]
mod support;
