ghost use Rattle.std.specs.Prelude.{◌≡◌, ◌+◌, nat_lt};
ghost use Rattle.std.specs.List.{list_any};
ghost use Rattle.kd_loops.specs.Ahead.{clocks_asked, is_ahead, is_behind};
ghost use Rattle.kd_loops.specs.Trace.{Grows};

use crate::arrived::Arrived;
use crate::link::Link;

/// The readings of the two clocks of a link, one after the other.
#[derive(Clone, Copy)]
pub struct Clocks {
    /// The time, in whole seconds.
    pub moment: u64,
    /// The number of whole seconds that the steady clock has counted.
    pub steady: u64,
}

impl Clocks {
    // Reads both clocks of a link.
    pub(crate) fn ask<L: Link>(link: &mut L) -> Clocks
        ensures asked { Grows (L.trace link.old) (L.trace link.new) (clocks_asked result) }
        ensures failed { L.has_failed link.new ≡ L.has_failed link.old }
    {
        let moment = link.now();
        let steady = link.steady();
        Clocks { moment, steady }
    }

    // Reports whether a time is ahead of these clocks, at the given reading of the steady clock,
    // and also ahead of the latest change.
    fn are_passed_by(self, limit: Option<u64>, latest: u64, steady: u64, moment: u64) -> bool
        ensures { result ≡ is_ahead limit latest self steady moment }
    {
        match limit {
            Some(limit) => {
                let passed = steady.saturating_sub(self.steady);
                exceeds(moment, latest, 0, limit) && exceeds(moment, self.moment, passed, limit)
            }
            None => false,
        }
    }
}

// Reports whether some event is ahead.
pub(crate) fn some_ahead(
    limit: Option<u64>,
    latest: u64,
    before: Clocks,
    steady: u64,
    events: &[Arrived],
) -> bool
    ensures { result
        ≡ list_any (λ event. is_ahead limit latest before steady event.moment) events.now }
{
    for event in events {
        if before.are_passed_by(limit, latest, steady, event.moment()) {
            return true;
        }
    }
    false
}

/// Reports whether a time is behind the latest change by more than a limit, in seconds; without a
/// limit it is not.
pub fn starts_behind(limit: Option<u64>, latest: u64, moment: u64) -> bool
    ensures { result ≡ is_behind limit latest moment }
{
    match limit {
        Some(limit) => exceeds(latest, moment, 0, limit),
        None => false,
    }
}

// Reports whether a time is after the sum of another, the time that passed and a limit. If the sum
// exceeds a u64, no time is after it.
fn exceeds(moment: u64, from: u64, passed: u64, limit: u64) -> bool
    ensures { result ≡ nat_lt (from + passed + limit) moment }
{
    let Some(expected) = from.checked_add(passed) else {
        return false;
    };
    match expected.checked_add(limit) {
        Some(most) => most < moment,
        None => false,
    }
}
