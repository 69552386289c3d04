//! Tests of messages, class tests and their programs by what only values can show: laws, and readers
//! that no command of the program reaches. Everything else is data: `cases`. The script
//! `system-tests/memory` refuses memory to the program.
//!
//! They are a separate crate because a crate is proved again together with its tests; so these are
//! proved by themselves.
#![tactic(auto)]

#[cfg(test)]
mod answer;
#[cfg(test)]
mod classes;
#[cfg(test)]
mod compile;
#[cfg(test)]
mod expr;
#[cfg(test)]
mod machine;
#[cfg(test)]
mod message;
#[cfg(test)]
mod reply;
#[cfg(test)]
mod support;
#[cfg(test)]
mod token;
#[cfg(test)]
mod wire;
