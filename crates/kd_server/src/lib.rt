//! The server: what it sends for a datagram, and which leases it keeps.
//!
//! What this layer promises to the one above: the server answers an event as the history of events
//! says, by the rules of `kd_lease`, over its configuration and its rows, and its store keeps those
//! rows (`specs/Server.antt`). `run` and `replay` are those of `kd_loops`, over this server. What
//! follows for histories of events is in `kd_laws`.
#![tactic(auto)]

mod batching;
mod leases;
mod server;
mod terms;
mod trial;
mod turning;

pub use kd_event::{Event, Handled, Ports, Reason, Response};
pub use kd_listing::{Lease, lease_lines};
pub use kd_loops::{EndFailed, LoopFault, ReplayFault, ServeFault, Sink, Source, replay, serve};
pub use leases::{leases_at, time_of_look};
pub use server::Server;
pub use terms::Terms;
pub use trial::Trial;
