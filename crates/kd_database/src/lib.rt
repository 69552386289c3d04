//! The database of leases that a program opens.
//!
//! What this layer promises to the one above: a store of leases is opened in memory, at the empty
//! table, or in a file, at the table of the database that the file holds, with the rows of that
//! table (`specs/Stores.antt`). On what a crash left, it is opened at the table from before the
//! last call or at the one after it (`specs/Stops.antt`). The leases in the bytes of a database and
//! its log are read without a file (`specs/Image.antt`), and so is the number of bytes of a damaged
//! log that a start leaves out (`specs/Tail.antt`).
#![tactic(auto)]

mod image;
mod read_only;
mod stops;
mod stores;
mod tail;

pub use image::rows_in_bytes;
pub use stops::{kills, let_go, restarts};
pub use stores::{InFile, InMemory, store_from, store_in_file, store_in_memory, store_over};
pub use tail::left_out;
