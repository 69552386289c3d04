//! What there is to say of one datagram: what the rules do with it, part by part.
//!
//! What this layer promises to the one above: the parts of an explanation are those of the rules
//! (`specs/Explaining.antt`): the value of each class test and its steps, the subnet, the
//! reservation, the first address of each rank, and the decision. `specs/CheckLines.antt` says
//! which checks it tells, `specs/Origins.antt` where each option comes from, `specs/Lifetimes.antt`
//! where the lifetime of a lease does, and `specs/BootLines.antt` where the value of each boot field
//! does. The text is these parts, line by line (`specs/Account.antt`).
#![tactic(auto)]

mod account;
mod boot_lines;
mod boot_origins;
mod check_lines;
mod class_lines;
mod classes;
mod explaining;
mod finding_lines;
mod gift;
pub mod laws;
mod lifetime_origins;
mod message_lines;
mod moving_lines;
mod option_lines;
mod origins;
mod outcome_lines;
mod rank_lines;
mod subnet_lines;
mod text;
mod words;

pub use account::account_text;
pub use boot_origins::{BootField, boot_origin_of};
pub use classes::{Trace, trace_classes};
pub use explaining::{Explanation, explain};
pub use lifetime_origins::lifetime_origin_of;
pub use origins::{Origin, origin_of};
