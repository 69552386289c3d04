//! The edges of the program: what it reads from its host and writes to it.
//!
//! What this layer promises to the one above: a reader is the source of a replay with the reader's
//! bytes, and a writer is a sink with the writer's bytes; each has failed if and only if one of its
//! calls has failed. A file is read whole; what a file system returns, no proof knows. A database
//! that another process writes is read without a lock (`specs/Looking.antt`). A socket is the link
//! of a server (`specs/Sending.antt`); what it receives and sends, no proof knows either.
#![tactic(auto)]

mod activation;
mod appending;
mod files;
mod link;
mod look;
mod source;
mod streams;
mod system;
mod watching;

pub use activation::inherited_socket;
pub use appending::{Appended, journal};
pub use files::{InputFault, MOST_BYTES, read_file, read_whole};
pub use link::{Sending, Socket, place_at, seconds_of, target};
pub use look::{Copied, FilePart, LookFault, Watched, settled_copy};
pub use source::read_source;
pub use streams::{Input, Output};
pub use system::System;
pub use watching::copy_at;
