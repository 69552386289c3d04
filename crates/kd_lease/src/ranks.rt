ghost use Rattle.kd_lease.specs.Ranks.{AreRanks};
ghost use Rattle.kd_lease.specs.Rules.{asking};

use crate::candidates::Choosing;
use crate::choice::{asked_for, kept_address};
use crate::pool_search::pool_choice;
use crate::question::Question;
use crate::search::{newest_own, newest_past};
use kd_config::Subnet;

/// The ranks of addresses, the strongest first, and the first address of each rank for a client in
/// a subnet (RFC 2131 section 4.3.1; the order of pools is our choice). An address is in host
/// order.
#[derive(Clone, Copy)]
pub struct Ranks {
    /// It is reserved for the client, and free.
    pub reserved: Option<u32>,
    /// The client holds it, and it fits.
    pub own: Option<u32>,
    /// The client had it, and it fits.
    pub past: Option<u32>,
    /// The client asks for it, it fits, and it is free.
    pub asked: Option<u32>,
    /// It has no row, and it fits.
    pub fresh: Option<u32>,
    /// Its row has ended, and it fits.
    pub expired: Option<u32>,
}

/// Returns the first address of each rank. The client is offered the address of the strongest rank
/// that has one.
pub fn ranks_of(question: &Question<'_>, subnet: &Subnet) -> Ranks
    ensures { AreRanks (asking question.now) subnet.now result }
{
    let choosing = Choosing::new(question, subnet);
    Ranks {
        reserved: kept_address(&choosing),
        own: newest_own(&choosing),
        past: newest_past(&choosing),
        asked: asked_for(&choosing),
        fresh: pool_choice(&choosing, true),
        expired: pool_choice(&choosing, false),
    }
}
