ghost use Rattle.std.specs.Prelude.{◌≡◌, ◌*◌, ◌/◌};
ghost use Rattle.kd_config.specs.Term.{rebind_for, rebind_sent, renew_for, renew_sent, sent_below, share_of, time_by, times_of_term};

use crate::times::Times;
use kd_classes::Lifetime;
use std::num;

/// When a client renews its lease or rebinds it, by a configuration.
#[derive(Clone, Copy)]
pub enum Timer {
    /// The configuration does not say it.
    Unset,
    /// After this many seconds.
    After(u32),
    /// After this share of the lifetime.
    Share(f64),
}

/// How long leases last, and when their clients renew and rebind them (Kea, Lease Lifetimes, and
/// Sending T1 and T2).
#[derive(Clone, Copy)]
pub struct Term {
    /// The lifetime, for members of no class that has one.
    pub lifetime: Lifetime,
    /// T1 of RFC 2131 section 4.4.5.
    pub renew: Timer,
    /// T2 of RFC 2131 section 4.4.5.
    pub rebind: Timer,
}

impl Term {
    /// Returns the times of a lease with this lifetime, with the holds of others.
    #[tactic(auto, unfolding(crate::specs::Term::times_of_term))]
    pub fn times(self, others: Times, lifetime: u32) -> Times
        ensures { result ≡ times_of_term self others lifetime }
    {
        Times {
            lifetime,
            renew: self.renew_after(lifetime),
            rebind: self.rebind_after(lifetime),
            offer_hold: others.offer_hold,
            decline_hold: others.decline_hold,
        }
    }

    // Returns T1 for a lease with this lifetime.
    fn renew_after(self, lifetime: u32) -> u32
        ensures { result ≡ renew_for self lifetime }
    {
        let rebind = self.sent_rebind(lifetime).unwrap_or(lifetime);
        match self.sent_renew(lifetime) {
            Some(seconds) => seconds,
            None => rebind.min(lifetime / 2),
        }
    }

    // Returns T2 for a lease with this lifetime.
    fn rebind_after(self, lifetime: u32) -> u32
        ensures { result ≡ rebind_for self lifetime }
    {
        match self.sent_rebind(lifetime) {
            Some(seconds) => seconds,
            None => self.renew_after(lifetime).max(seven_eighths(lifetime)),
        }
    }

    // Returns T2 for a lease with this lifetime, if Kea sends it.
    fn sent_rebind(self, lifetime: u32) -> Option<u32>
        ensures { result ≡ rebind_sent self lifetime }
    {
        if_below(lifetime, self.rebind.after(lifetime))
    }

    // Returns T1 for a lease with this lifetime, if Kea sends it.
    fn sent_renew(self, lifetime: u32) -> Option<u32>
        ensures { result ≡ renew_sent self lifetime }
    {
        let bound = self.sent_rebind(lifetime).unwrap_or(lifetime);
        if_below(bound, self.renew.after(lifetime))
    }
}

impl Timer {
    // Returns the time of a lease with this lifetime, if the configuration says one.
    fn after(self, lifetime: u32) -> Option<u32>
        ensures { result ≡ time_by self lifetime }
    {
        match self {
            Timer::Unset => None,
            Timer::After(seconds) => Some(seconds),
            Timer::Share(share) => Some(seconds_of(share, lifetime)),
        }
    }
}

/// Returns a share of a lifetime in whole seconds, as Kea calculates it.
pub fn seconds_of(share: f64, lifetime: u32) -> u32
    ensures { result ≡ share_of share lifetime }
{
    num::saturating_f64_to_u32((share * f64::from(lifetime)).round())
}

// Returns a time if it is one that Kea sends: not 0, and below this bound.
fn if_below(bound: u32, time: Option<u32>) -> Option<u32>
    ensures { result ≡ sent_below bound time }
{
    match time {
        Some(seconds) if 0 < seconds && seconds < bound => Some(seconds),
        _ => None,
    }
}

// Returns seven eighths of a lifetime.
fn seven_eighths(lifetime: u32) -> u32
    ensures { result ≡ lifetime * 7 / 8 }
{
    (u64::from(lifetime) * 7 / 8) as u32
}
