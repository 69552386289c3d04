//! The keys of the objects in a configuration of ISC Kea's DHCPv4 server, and the values that several
//! of these objects have.
//!
//! What this layer promises to the one above: `check_keys` accepts an object exactly if each of its
//! keys may be there, by the tables of `specs/Tables.antt`, which say of each key whether it is read,
//! skipped, or allowed with its usual values alone. Options, their definitions, boot fields, host
//! names, the clients of reservations and their classes, relays, hooks and the policy of the server are read by one
//! definition each, unless memory runs out.
#![tactic(auto)]

pub mod alone;
pub mod boot;
pub mod checking;
pub mod class_names;
pub mod definition;
pub mod entry;
pub mod flags;
pub mod hooks;
pub mod host_client;
pub mod host_kinds;
pub mod host_name;
mod inside;
pub mod keys;
mod option_value;
pub mod options;
pub mod parts;
pub mod policy;
mod quoted;
pub mod relay;
pub mod scope;
mod space;
pub mod tables;
mod whole_bytes;
