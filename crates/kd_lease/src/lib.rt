//! The lease rules: what each message of a client gets, and where the reply is sent.
//!
//! What this layer promises to the one above: a message gets what the rules say for the
//! configuration and the classes that the message is in (`specs/Change.antt`,
//! `specs/Membership.antt`), in the subnet that
//! serves it (`specs/SubnetOf.antt`), or in which its client keeps a lease (`specs/Kept.antt`). Its
//! effect on the table of leases is that of `specs/Rules.antt`, and the address that a client is
//! offered is that of `specs/Choice.antt`; `specs/Laws.antt` says what is true of these rules for
//! every table. The configured options of a reply are those that the configuration gives to the
//! client (`specs/Given.antt`), as are its boot fields (`specs/Booting.antt`); its header and its
//! destination are those of `specs/ReplyOf.antt` and `specs/Destination.antt`. All this holds for
//! every table, whether or not it knows the addresses that the configuration reserves (`Ground`);
//! the table of `Leases` (`specs/Leases.antt`) knows them and skips them.
#![tactic(auto)]

mod ages;
mod booting;
mod candidates;
mod changes;
mod checks;
mod choice;
mod client;
mod cuts;
mod decision;
mod effects;
mod fit;
mod free;
mod given;
mod grounds;
mod identities;
mod items;
mod keeping;
pub mod laws;
mod leases;
mod matter;
mod membership;
mod parts;
mod plan;
mod pool_search;
mod question;
mod ranks;
mod recipient;
mod reply;
mod reservation;
mod reserve_list;
mod rule;
mod search;
mod server;
mod subnet;
mod times;
mod values;
mod verdict;

pub use booting::{BootFields, boot_given};
pub use checks::{awaited, ending_of, holds};
pub use client::asks_for;
pub use decision::{decide, decide_on};
pub use effects::effect_of;
pub use fit::{contains, fits, in_pools, is_free, requested_of};
pub use grounds::Ground;
pub use identities::{identity, identity_for};
pub use kd_event::{Destination, Mode, Ports};
pub use kd_rows::{Row, Rows, State};
pub use keeping::{is_to_keep, subnet_kept};
pub use leases::Leases;
pub use matter::Matter;
pub use membership::{classes_held, names_before, subnet_kept_for};
pub use plan::{Outline, Plan, PlanKind};
pub use question::{Question, subnet_or};
pub use ranks::{Ranks, ranks_of};
pub use recipient::destination;
pub use reservation::{
    is_own_in_some, is_reserved, reservation_for, reservation_of, reservation_options,
};
pub use rule::{Check, Ending, Line, Rule};
pub use search::{is_client_at, is_held_at, knows_client};
pub use server::{renewed_of, server_identifier_of, server_of};
pub use subnet::{comes_by_relay, is_at, link_selected, place_of, pool_options, serves, subnet_of};
pub use verdict::{Decision, Verdict};
