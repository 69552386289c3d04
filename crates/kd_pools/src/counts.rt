ghost use Rattle.std.specs.Prelude.{◌≡◌, ◌^◌, not};
ghost use Rattle.std.specs.Option.{option_copied};
ghost use Rattle.kd_lease.specs.Choice.{has_such, live_row};
ghost use Rattle.kd_lease.specs.Kept.{bound_state};
ghost use Rattle.kd_lease.specs.Rules.{offered_state};
ghost use Rattle.kd_pools.specs.Counts.{declined_state, live_in};
ghost use Rattle.kd_pools.specs.Walking.{IsAtMost, both_counts, counts_at, no_counts};

use kd_rows::{Row, State};

/// The number of addresses, and how many of them are in each condition at a given time. An address
/// counts as bound, offered or declined if its row has that state and has not ended, and as ended
/// if its row has ended.
#[derive(Clone, Copy)]
pub struct Counts {
    /// All addresses.
    pub addresses: u64,
    /// Addresses reserved for a client, in any subnet; they are also counted below.
    pub reserved: u64,
    /// Addresses that are leased.
    pub bound: u64,
    /// Addresses that are offered.
    pub offered: u64,
    /// Addresses that are held back after a DECLINE.
    pub declined: u64,
    /// Addresses whose row has ended.
    pub ended: u64,
    /// Addresses that have no row.
    pub unused: u64,
    /// Addresses that a new client could get: not reserved, and unused or ended.
    pub free: u64,
}

impl Counts {
    // The counts for no addresses.
    pub(crate) fn new() -> Counts
        ensures { result ≡ no_counts }
    {
        Counts {
            addresses: 0,
            reserved: 0,
            bound: 0,
            offered: 0,
            declined: 0,
            ended: 0,
            unused: 0,
            free: 0,
        }
    }

    // The counts for one address at a given time.
    pub(crate) fn of_one(reserved: bool, row: Option<&Row>, now: u64) -> Counts
        ensures { result ≡ counts_at reserved (option_copied row.entry) now }
    {
        let ended = has_ended(row, now);
        let unused = row.is_none();
        Counts {
            addresses: 1,
            reserved: u64::from(reserved),
            bound: u64::from(is_bound(row, now)),
            offered: u64::from(is_offered(row, now)),
            declined: u64::from(is_declined(row, now)),
            ended: u64::from(ended),
            unused: u64::from(unused),
            free: u64::from(!reserved && (unused || ended)),
        }
    }

    // Adds two counts.
    pub(crate) fn and(self, other: Counts) -> Counts
        requires left { IsAtMost (2 ^ 62) self }
        requires right { IsAtMost (2 ^ 62) other }
        ensures { result ≡ both_counts self other }
    {
        Counts {
            addresses: self.addresses + other.addresses,
            reserved: self.reserved + other.reserved,
            bound: self.bound + other.bound,
            offered: self.offered + other.offered,
            declined: self.declined + other.declined,
            ended: self.ended + other.ended,
            unused: self.unused + other.unused,
            free: self.free + other.free,
        }
    }
}

// Reports whether there is a row and it has ended.
fn has_ended(row: Option<&Row>, now: u64) -> bool
    ensures { result ≡ has_such (λ r. not (live_row now r)) (option_copied row.entry) }
{
    match row {
        Some(row) => !row.is_live(now),
        None => false,
    }
}

// Reports whether there is a row that has not ended and its address is leased.
fn is_bound(row: Option<&Row>, now: u64) -> bool
    ensures { result ≡ has_such (live_in bound_state now) (option_copied row.entry) }
{
    match row {
        Some(row) => row.is_live(now) && row.state == State::Bound,
        None => false,
    }
}

// Reports whether there is a row that has not ended and its address is offered.
fn is_offered(row: Option<&Row>, now: u64) -> bool
    ensures { result ≡ has_such (live_in offered_state now) (option_copied row.entry) }
{
    match row {
        Some(row) => row.is_live(now) && row.state == State::Offered,
        None => false,
    }
}

// Reports whether there is a row that has not ended and its address is held back.
fn is_declined(row: Option<&Row>, now: u64) -> bool
    ensures { result ≡ has_such (live_in declined_state now) (option_copied row.entry) }
{
    match row {
        Some(row) => row.is_live(now) && row.state == State::Declined,
        None => false,
    }
}
