ghost use Rattle.std.specs.Prelude.{◌≡◌, ◌≤◌, ℕ, IsTrue, Some, false, true};
ghost use Rattle.kd_lease.specs.Aging.{given_sought, live_sought, newer_found, reserved_sought, sought_for, sought_in, sought_within, state_sought};
ghost use Rattle.kd_lease.specs.Choice.{live_row};
ghost use Rattle.kd_lease.specs.Rules.{IsNewest, asking};
ghost use Rattle.kd_lease.specs.Seeking.{sought_at};
ghost use Rattle.kd_rows.specs.Table.{row_at};
ghost use Rattle.kd_rows.specs.declared.row.Row.{Row as RowOf};

use crate::candidates::Choosing;
use crate::fit::is_holding;
use crate::question::Question;
use crate::search::{Sought, is_newer, is_offered, is_sought};
use kd_config::{Pool, admits};
use kd_machine::Held;
use kd_rows::{Row, Rows, State};

// Returns the newest of the client's addresses that are sought, by searching its rows by age.
pub(crate) fn newest(question: &Question<'_>, sought: &Sought<'_>) -> Option<u32>
    ensures { IsNewest (asking question.now).rows
        (sought_at (asking question.now) sought.now) result }
{
    match sought {
        Sought::Own(choosing) => newest_in(question, sought, choosing),
        Sought::Past(choosing) => newest_in(question, sought, choosing),
        Sought::Offer => {
            // Every address has 32 bits; the contract of `len` states it.
            let _count = question.rows.len();
            newest_within(question, sought, 0, u32::MAX)
        }
    }
}

// Returns the newest of those that are reserved for the client in a subnet or that a pool of it has
// for the client.
fn newest_in(question: &Question<'_>, sought: &Sought<'_>, choosing: &Choosing<'_>) -> Option<u32>
    ensures { IsNewest (asking question.now).rows
        (sought_for (asking question.now) sought.now choosing.now) result }
{
    let mut best = newest_reserved(question, sought, choosing.own);
    for pool in choosing.subnet.pools.as_slice() {
        let found = newest_given(question, sought, choosing.question.names, pool);
        best = newer(question.rows, best, found);
    }
    best
}

// Returns the address that is reserved for the client, if it is sought.
fn newest_reserved(question: &Question<'_>, sought: &Sought<'_>, own: Option<u32>) -> Option<u32>
    ensures { IsNewest (asking question.now).rows
        (reserved_sought (asking question.now) sought.now own) result }
{
    match own {
        Some(address) => {
            if is_sought(question, sought, address) {
                Some(address)
            } else {
                None
            }
        }
        None => None,
    }
}

// Returns the newest of those that a pool has for a client in the classes with these names.
fn newest_given(
    question: &Question<'_>,
    sought: &Sought<'_>,
    names: &Held,
    pool: &Pool,
) -> Option<u32>
    ensures { IsNewest (asking question.now).rows
        (given_sought (asking question.now) sought.now names.now pool.now) result }
{
    if admits(pool.classes.as_slice(), names) {
        newest_within(question, sought, pool.range.first, pool.range.last)
    } else {
        None
    }
}

// Returns the newest of those from `first` to `last`.
fn newest_within(question: &Question<'_>, sought: &Sought<'_>, first: u32, last: u32) -> Option<u32>
    ensures { IsNewest (asking question.now).rows
        (sought_within (asking question.now) sought.now first last) result }
{
    let rows = question.rows;
    let offered = newest_of(question, sought, State::Offered, first, last);
    let bound = newest_of(question, sought, State::Bound, first, last);
    let released = newest_of(question, sought, State::Released, first, last);
    let declined = newest_of(question, sought, State::Declined, first, last);
    newer(
        rows,
        newer(rows, offered, bound),
        newer(rows, released, declined),
    )
}

// Returns the newest of those from `first` to `last` whose row is in a state.
fn newest_of(
    question: &Question<'_>,
    sought: &Sought<'_>,
    state: State,
    first: u32,
    last: u32,
) -> Option<u32>
    ensures { IsNewest (asking question.now).rows
        (sought_in (asking question.now) sought.now state first last) result }
{
    if !may_have(sought, state) {
        return None;
    }
    let rows = question.rows;
    let mut found = rows.newest_of(question.client, state, first, last, None);
    while let Some(row) = found {
        if is_sought(question, sought, row.address) {
            return Some(row.address);
        }
        if is_over(question, sought, state, row) {
            return None;
        }
        found = rows.newest_of(question.client, state, first, last, Some(row));
    }
    None
}

// Reports that the search can stop: only rows that have not ended are sought, and every row in this
// state that was set no later than this one has ended.
fn is_over(question: &Question<'_>, sought: &Sought<'_>, state: State, row: &Row) -> bool
    ensures live { IsTrue result → live_sought sought.now ≡ true }
    ensures ended { IsTrue result → (a : ℕ) (other : RowOf)
        → row_at (asking question.now).rows a ≡ Some other → other.state ≡ state
        → other.changed ≤ row.now.changed → live_row (asking question.now).now other ≡ false }
{
    if !is_live_sought(sought) {
        return false;
    }
    match question.moment.checked_sub(question.rows.longest(state)) {
        Some(moment) => row.changed <= moment,
        None => false,
    }
}

// Reports whether only rows that have not ended are sought.
fn is_live_sought(sought: &Sought<'_>) -> bool
    ensures { result ≡ live_sought sought.now }
{
    match sought {
        Sought::Own(_) => true,
        Sought::Past(_) => false,
        Sought::Offer => true,
    }
}

// Reports whether a row that is sought can be in this state.
fn may_have(sought: &Sought<'_>, state: State) -> bool
    ensures { result ≡ state_sought sought.now state }
{
    match sought {
        Sought::Own(_) => is_holding(state),
        Sought::Past(_) => true,
        Sought::Offer => is_offered(state),
    }
}

// Returns the newer of two addresses; either may be missing.
fn newer(rows: &Rows, found: Option<u32>, other: Option<u32>) -> Option<u32>
    ensures { result ≡ newer_found rows.now.rows found other }
{
    match found {
        None => other,
        Some(a) => match other {
            None => Some(a),
            Some(b) => {
                if is_newer(rows, b, a) {
                    Some(b)
                } else {
                    Some(a)
                }
            }
        },
    }
}
