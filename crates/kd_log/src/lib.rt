//! Reads back what the program printed: the lines of leases as a table, and the lines of a log as
//! human-readable lines.
//!
//! What this layer promises to the one above: a line is read only if it is, byte for byte, what is
//! printed for a lease that can be stored (`specs/Import.antt`), or what a server writes for an
//! event (`specs/Logged.antt`). A text is the table of its lines of leases, if no two of them have
//! the same address, and any other text is refused at its first bad line. What is printed for a
//! line of a log is defined in `specs/Printed.antt`, and the text of a reply in
//! `specs/People.antt`. The lines that `kdhcp serve` writes beside those of events are skipped, and
//! any other line is bad. What is printed for a table is read back as that table, and the lines of
//! each log are read (`specs/Laws.antt`).
#![tactic(auto)]

mod events;
mod laws;
mod leases;

pub use events::filter::Filter;
pub use events::log::events_with;
pub use events::printed::text_of_line;
pub use laws::{logs_are_read, printed_is_read, served_logs_are_read};
pub use leases::fault::ImportFault;
pub use leases::table::leases_in;
