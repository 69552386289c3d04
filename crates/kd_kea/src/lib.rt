//! Reads the configuration files of ISC Kea's DHCPv4 server as they are.
//!
//! What this layer promises to the one above: `read_kea` returns the configuration that a text of
//! Kea's describes by our definitions, exactly when it describes one, unless memory runs out
//! (`specs/Kea.antt`). The settings are those of `specs/Settings.antt`, object by object; kd_keys has
//! their keys, and the values that several objects have. Nothing that a client notices is skipped. The
//! rules over the whole, the classes and the faults are those of kd_json. What is skipped, refused or
//! wrong in a text is noted by kd_notes, which calls the readers of `objects` on each value by itself.
#![tactic(auto)]

pub mod objects;
mod read;

pub use read::read_kea;
