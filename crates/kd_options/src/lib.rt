//! DHCP messages: their options, joined over all areas in use (RFC 2131, 2132, 3396), and the
//! sub-options of relay information (RFC 3046).
//!
//! What this layer promises to the one above: `Message::read` returns the message that a datagram's
//! bytes read as, or the first fault in order (`specs/Message.antt`). What each reader returns is
//! stated exactly in terms of that message (`specs/Joined.antt`, `specs/Relay.antt`). A message
//! borrows its datagram. `Reply::write` returns a reply's text (`specs/Reply.antt`), and by the law
//! `laws::text_reads` that text reads back as the reply's header and its kept items
//! (`specs/Laws.antt`).
#![tactic(auto)]

mod areas;
pub mod codes;
mod fault;
mod item;
mod joining;
mod kind;
pub mod laws;
mod message;
mod relay;
mod reply;

pub use fault::{AddressOption, ReadFault, WriteFault};
pub use item::{Item, Items};
pub use kind::MessageType;
pub use message::Message;
pub use reply::Reply;
