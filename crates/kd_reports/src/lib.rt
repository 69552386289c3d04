//! Says in words why files give no configuration, and which keys of a file are skipped.
//!
//! What this layer promises to the one above: the words are those of `specs/Words.antt` and, of a file
//! of Kea's, of `specs/KeaWords.antt`, on a text of at most 16 MiB. The file is read again for them,
//! and no proof knows what is at a path.
#![tactic(auto)]

mod kea_words;
mod words;

pub use kea_words::{kea_remarks, kea_start_words};
pub use words::start_words;
