ghost use Rattle.std.specs.Prelude.{◌≡◌, ◌≢◌, ◌↔◌, IfOk, IsTrue, MatchOption, nat_lt};
ghost use Rattle.kd_rows.specs.Row.{IsInRange, state_number};
ghost use Rattle.kd_rows.specs.declared.row.State.{State};

use kd_wire::Bytes;
use std::alloc::{AllocError, Global};

/// The first time, in whole seconds, that is too large for a row to be set at.
pub const MOMENTS: u64 = 1 << 40;

/// What became of an address that was offered or leased.
#[derive(Clone, Copy, PartialEq, Eq)]
pub enum State {
    /// Offered to a client, which has not requested it yet.
    Offered,
    /// Leased to a client.
    Bound,
    /// Given back by its client.
    Released,
    /// Found in use by another host.
    Declined,
}

impl State {
    /// Returns the number by which a state is stored.
    pub fn number(self) -> u8
        ensures { result ≡ state_number self }
    {
        match self {
            State::Offered => 1,
            State::Bound => 2,
            State::Released => 3,
            State::Declined => 4,
        }
    }

    /// Returns the state with this number, if there is one.
    pub fn of_number(number: u8) -> Option<State>
        ensures { MatchOption result ((s : State) → state_number s ≢ number)
            (λ s. state_number s ≡ number) }
    {
        match number {
            1 => Some(State::Offered),
            2 => Some(State::Bound),
            3 => Some(State::Released),
            4 => Some(State::Declined),
            _ => None,
        }
    }
}

/// The lease of an address.
#[derive(Drop)]
pub struct Row {
    /// The IPv4 address, as a number in host byte order.
    pub address: u32,
    /// The identity of the client.
    pub client: Bytes,
    /// What became of the address.
    pub state: State,
    /// The time at which the row was set, in seconds.
    pub changed: u64,
    /// The time from which the row no longer holds, in seconds.
    pub ends: u64,
}

impl Row {
    /// Whether the times are in range: the row was set below 2^40, and ends no earlier than that
    /// and at most 2^31 - 1 seconds later.
    pub fn is_in_range(&self) -> bool
        ensures { IsTrue result ↔ IsInRange self.now }
    {
        self.changed < MOMENTS
            && self.changed <= self.ends
            && self.ends - self.changed <= 0x7fff_ffff
    }

    /// Reports whether the row holds at a time, in seconds: it has not ended yet.
    pub fn is_live(&self, now: u64) -> bool
        ensures { result ≡ nat_lt now self.now.ends }
    {
        now < self.ends
    }

    /// Returns a copy of the row.
    ///
    /// # Errors
    ///
    /// Out of memory.
    pub fn try_clone(&self, alloc: Global) -> Result<Row, AllocError>
        ensures { IfOk result (λ copy. copy ≡ self.now) }
    {
        Ok(Row {
            address: self.address,
            client: Bytes::own(Vec::from_slice(alloc, self.client.as_slice())?),
            state: self.state,
            changed: self.changed,
            ends: self.ends,
        })
    }
}
