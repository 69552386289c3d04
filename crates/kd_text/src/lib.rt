//! Writes addresses, prefixes and bytes, and reads them and numbers back.
//!
//! What this layer promises to the one above: a printer appends the text of its value
//! (`specs/Text.antt`), and from the text of an address, of bytes or of a number its reader returns
//! that value. Nothing is promised for any other word, so a caller that reads a line must compare
//! it with the text of the values. A text is split at the first occurrence of a byte
//! (`specs/Words.antt`).
#![tactic(auto)]

mod address;
mod bytes;
mod number;
mod parts;

pub use address::{address_of_word, put_address, put_prefix};
pub use bytes::{bytes_of_hex, bytes_of_word, put_bytes};
pub use number::{byte_of_word, number_of_word, port_of_word};
pub use parts::cut;
