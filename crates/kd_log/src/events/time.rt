ghost use Rattle.std.specs.Prelude.{◌≡◌, ◌*◌, ◌<◌, ◌≤◌, IfOk, MatchOption, pos, string_bytes};
ghost use Rattle.jiff.specs.Words.{civil_nanos};
ghost use Rattle.kd_log.specs.People.{IsTimeText, last_dated};

use jiff::Timestamp;
use jiff::civil::DateTime;
use jiff::tz::Offset;
use std::alloc::{AllocError, Global};

// The last time that has a date and time of day: 9999-12-30T22:00:00Z.
const LAST_DATED: u64 = 253_402_207_200;

// Returns a time as date and time of day in UTC, or as its seconds in decimal if it is later than
// the last dated one.
pub(crate) fn time_text(alloc: Global, moment: u64) -> Result<String, AllocError>
    ensures { IfOk result (λ text. IsTimeText moment (string_bytes text)) }
{
    match clock_at(moment) {
        Some(clock) => format!(in alloc; "{clock}Z"),
        None => format!(in alloc; "{moment}"),
    }
}

// Returns what a UTC clock shows at a given time, if that is not later than the last dated one.
fn clock_at(moment: u64) -> Option<DateTime>
    ensures { MatchOption result (last_dated < moment) (λ clock.
        (moment ≤ last_dated) × (civil_nanos clock ≡ pos (moment * 1000000000))) }
{
    if moment > LAST_DATED {
        return None;
    }
    match Timestamp::from_second(moment as i64) {
        Ok(timestamp) => Some(Offset::UTC.to_datetime(timestamp)),
        Err(_) => unreachable!(),
    }
}
