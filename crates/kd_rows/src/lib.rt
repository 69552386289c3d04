//! The table of leases in memory: one row per address, found by address and by client.
//!
//! What this layer promises to the one above: the table is the list of its rows in ascending order
//! of address (`specs/Table.antt`), each call states what it reads or changes there, and setting a
//! row takes no memory, because the memory is reserved before. There is also a table with withheld
//! addresses (`specs/Withheld.antt`). Times are in seconds, in the ranges of `specs/Row.antt`.
//!
//! The public types are in `rows`, `row` and `withheld`. The other modules, by what they keep:
//!
//! - the rows in three orders, by address, client and age: `sorted` holds them, `tiered` is a list
//!   of their numbers, `numbers` makes the three lists, `heads` has the first bytes of each client,
//!   and `put` sets a row;
//! - searches of these: `search` halves a range; `find` searches by address, `index` by client,
//!   `age` by age, and `across` by age over several `zones` of addresses;
//! - summaries that spare searches: `blocks` has for each 64 addresses a time before which no row
//!   ends, which `ended` uses; `full` has ranges without a gap; `holds` has the longest time for
//!   which a row of each state was set;
//! - withheld addresses: `addresses` is a list of them, `free` finds an address that is neither
//!   withheld nor leased, and `open_rows` leaves out the rows at withheld addresses.
#![tactic(auto)]

mod across;
mod addresses;
mod age;
mod blocks;
mod ended;
mod find;
mod free;
mod full;
mod heads;
mod holds;
mod index;
pub mod laws;
mod numbers;
mod open_rows;
mod put;
mod row;
mod rows;
mod search;
mod sorted;
mod tiered;
mod withheld;
mod zones;

pub use row::{MOMENTS, Row, State};
pub use rows::Rows;
pub use withheld::Withheld;
