//! Reads events and writes a history: the lines of a log, and what any server makes of them.
//!
//! What this layer promises to the one above: whatever a server does with an event (`Serves`), a
//! run gives the history of its events (`specs/History.antt`), and a replay reads lines and writes
//! the text of exactly that history (`specs/Lines.antt`, `specs/Replay.antt`, `specs/Text.antt`),
//! up to the first fault (`specs/Faults.antt`). `event_line` returns the line of a single event.
//!
//! Whatever a server does with a batch (`ServesAll`), serving takes the datagrams of a link in
//! batches, each with the time of the clock after it came (`specs/Trace.antt`,
//! `specs/Arriving.antt`), records them (`specs/Recording.antt`), answers them in order
//! (`specs/Serving.antt`), and ends if the clock is ahead (`specs/Ahead.antt`). The record is an
//! input of a replay (`specs/Laws.antt`).
#![tactic(auto)]

mod ahead;
mod answering;
mod arrived;
mod bytes;
mod clocks;
mod ends;
mod fault;
mod filtering;
mod happening;
mod laws;
mod line;
mod lines;
mod link;
mod post;
mod recording;
mod replaying;
mod room;
mod running;
mod served;
mod serves;
mod serving;
mod text;
mod writing;

pub use arrived::Arrived;
pub use bytes::{MemorySink, replay_bytes};
pub use clocks::{Clocks, starts_behind};
pub use ends::{EndFailed, Sink, Source};
pub use fault::{LoopFault, ReplayFault, ServeFault};
pub use filtering::{Filters, filter_with};
pub use happening::{Happening, Packet};
pub use laws::records_replay;
pub use link::Link;
pub use replaying::replay;
pub use running::run_with;
pub use served::{ServedBytes, serve_bytes};
pub use serves::{Serves, ServesAll};
pub use serving::{Limits, serve};
pub use text::event_line;
pub use writing::write_all;
