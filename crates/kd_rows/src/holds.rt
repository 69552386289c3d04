ghost use Rattle.std.specs.Prelude.{◌≡◌, ◌+◌, ◌-◌, ◌≤◌, max, if◌then◌else◌, ◌==◌};
ghost use Rattle.std.specs.List.{All};
ghost use Rattle.kd_rows.specs.Holds.{AreHolds, IsLonger, hold_of};
ghost use Rattle.kd_rows.specs.Row.{IsInRange};

use crate::row::{Row, State};

// The greatest number of seconds that the rows of each state hold after they were set.
#[derive(Clone, Copy)]
pub(crate) struct Holds {
    pub(crate) offered: u64,
    pub(crate) bound: u64,
    pub(crate) released: u64,
    pub(crate) declined: u64,
}

impl Holds {
    // Returns how long the rows of a state hold at most.
    pub(crate) fn of(&self, state: State) -> u64
        ensures { result ≡ hold_of self.now state }
    {
        match state {
            State::Offered => self.offered,
            State::Bound => self.bound,
            State::Released => self.released,
            State::Declined => self.declined,
        }
    }

    // Returns the same with one more row.
    pub(crate) fn with(self, row: &Row) -> Holds
        requires { row.now.changed ≤ row.now.ends }
        ensures { IsLonger self row.now result }
    {
        let hold = row.ends - row.changed;
        let mut holds = self;
        match row.state {
            State::Offered => holds.offered = hold.max(self.offered),
            State::Bound => holds.bound = hold.max(self.bound),
            State::Released => holds.released = hold.max(self.released),
            State::Declined => holds.declined = hold.max(self.declined),
        }
        holds
    }
}

// Returns how long the rows of each state hold at most.
pub(crate) fn holds_in(rows: &[Row]) -> Holds
    requires { All IsInRange rows.now }
    ensures { AreHolds result rows.now }
{
    let mut holds = Holds {
        offered: 0,
        bound: 0,
        released: 0,
        declined: 0,
    };
    for row in rows {
        holds = holds.with(row);
    }
    holds
}
