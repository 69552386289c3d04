ghost use Rattle.std.specs.Prelude.{◌≡◌};
ghost use Rattle.kd_lease.specs.Choice.Rank.{asked, reserved};
ghost use Rattle.kd_lease.specs.Rules.{IsChosen, asking};
ghost use Rattle.kd_lease.specs.Ranks.{IsRanked};

use crate::candidates::Choosing;
use crate::fit::{fits_with, is_free, requested_of};
use crate::pool_search::pool_choice;
use crate::question::Question;
use crate::search::newest_known;
use kd_config::Subnet;

// Returns the address that a client is offered in a subnet, if there is one (RFC 2131 section
// 4.3.1).
pub(crate) fn choose(question: &Question<'_>, subnet: &Subnet) -> Option<u32>
    ensures { IsChosen (asking question.now) subnet.now result }
{
    let choosing = Choosing::new(question, subnet);
    match kept_address(&choosing) {
        Some(address) => return Some(address),
        None => {}
    }
    let known = newest_known(&choosing);
    match known.own {
        Some(address) => return Some(address),
        None => {}
    }
    match known.past {
        Some(address) => return Some(address),
        None => {}
    }
    match asked_for(&choosing) {
        Some(address) => return Some(address),
        None => {}
    }
    match pool_choice(&choosing, true) {
        Some(address) => return Some(address),
        None => {}
    }
    pool_choice(&choosing, false)
}

// Returns the address that is reserved for the client, if it is free.
pub(crate) fn kept_address(choosing: &Choosing<'_>) -> Option<u32>
    ensures { IsRanked (asking choosing.now.question.now) choosing.now.subnet.now reserved result }
{
    match choosing.own {
        Some(address) => {
            if is_free(choosing.question, address) {
                Some(address)
            } else {
                None
            }
        }
        None => None,
    }
}

// Returns the address that the client asks for, if it fits and is free.
pub(crate) fn asked_for(choosing: &Choosing<'_>) -> Option<u32>
    ensures { IsRanked (asking choosing.now.question.now) choosing.now.subnet.now asked result }
{
    match requested_of(choosing.question.message) {
        Some(address) => {
            if fits_with(choosing, address) && is_free(choosing.question, address) {
                Some(address)
            } else {
                None
            }
        }
        None => None,
    }
}
