use crate::pool::Pool;
use crate::prefix::Prefix;
use crate::reservations::Reservations;
use crate::term::Term;
use kd_classes::{Boot, OptionList};
use kd_wire::{Bytes, Entries};

/// A subnet that the server serves.
#[derive(Drop)]
pub struct Subnet {
    /// The addresses of the subnet.
    pub prefix: Prefix,
    /// The addresses of relays that stand for the subnet, in host order, at most 64. A message
    /// from one of them is of this subnet, whatever its prefix.
    pub relays: Entries<u32>,
    /// The classes that a client must be in, each of them; there may be none.
    pub classes: Entries<Bytes>,
    /// Its pools, at most 64.
    pub pools: Entries<Pool>,
    /// Its reservations, at most 4,096.
    pub reservations: Reservations,
    /// The options of the replies to its clients.
    pub options: OptionList,
    /// The number of the shared network that it is in, from 1; 0 if it is in none.
    pub network: u32,
    /// The options of that network.
    pub shared: OptionList,
    /// What the subnet gives to the boot fields of the replies, with what its network and the whole
    /// server do.
    pub boot: Boot,
    /// How long leases in the subnet last, and when their clients renew them, if that can differ from
    /// the times of the whole server.
    pub term: Option<Term>,
}
