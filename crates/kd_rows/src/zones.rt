ghost use Rattle.std.specs.Prelude.{◌≡◌, ◌<◌, ◌^◌};
ghost use Rattle.std.specs.List.Sorted.{IsPermutation};
ghost use Rattle.kd_rows.specs.Zones.{group_in, group_number, zone_in};

use crate::row::{Row, State};
use std::marker::Model;

// Zones of addresses, each from one cut to the next.
#[derive(Drop)]
pub(crate) struct Zones {
    // In ascending order.
    cuts: Vec<u32>,
}

impl Model for Zones {
    ghost use Rattle.std.specs.Prelude.{ℕ, List};
    ghost use Rattle.std.specs.List.Sorted.{IsNonDecreasing};

    ghost Value = { List ℕ };

    ghost view = { λ s. s.cuts.items };

    ghost invariant = { λ s. IsNonDecreasing s.cuts.items };
}

impl Zones {
    // Makes the zones between cuts, which may come in any order.
    pub(crate) fn between(cuts: Vec<u32>) -> Zones
        ensures { IsPermutation cuts.items result }
    {
        let mut cuts = cuts;
        cuts.sort_unstable();
        Zones { cuts }
    }

    // Returns the zone of an address.
    pub(crate) fn of(&self, address: u32) -> u32
        ensures { result ≡ zone_in self.now address }
    {
        let zone = self.cuts.as_slice().partition_point(|cut| *cut <= address);
        zone.min(0xffff_ffff) as u32
    }

    // Returns the group of a row.
    pub(crate) fn group(&self, row: &Row) -> u64
        ensures { result ≡ group_in self.now row.now }
    {
        group(row.state, self.of(row.address))
    }
}

// Returns a state and a zone as one number.
pub(crate) fn group(state: State, zone: u32) -> u64
    ensures { result ≡ group_number state zone }
{
    (u64::from(state.number()) << 32) + u64::from(zone)
}
