ghost use Rattle.std.specs.Prelude.{◌≡◌, ◌<◌, ◌^◌, IfOk};
ghost use Rattle.kd_lease.specs.Rules.{asking, declined_row, leased_row, row_of_offer, offered_row, released_row, row_set_now};

use crate::question::Question;
use crate::search::is_leased;
use crate::times::times_for;
use kd_rows::{Row, State};
use kd_wire::Bytes;
use std::alloc::{AllocError, Global};

// Returns the row that an offer sets; none if the client leases the address.
pub(crate) fn offer_row(
    alloc: Global,
    question: &Question<'_>,
    address: u32,
) -> Result<Option<Row>, AllocError>
    requires { question.now.moment < 2 ^ 40 }
    ensures { IfOk result (λ row. row ≡ row_of_offer (asking question.now) address) }
{
    if is_leased(question, address) {
        Ok(None)
    } else {
        Ok(Some(make_offered_row(alloc, question, address)?))
    }
}

// Returns the row of an address that is offered.
fn make_offered_row(alloc: Global, question: &Question<'_>, address: u32) -> Result<Row, AllocError>
    requires { question.now.moment < 2 ^ 40 }
    ensures { IfOk result (λ row. row ≡ offered_row (asking question.now) address) }
{
    let ends = question.moment + u64::from(question.config.times().offer_hold);
    row_of(alloc, question, address, State::Offered, ends)
}

// Returns the row of an address that is leased.
pub(crate) fn make_leased_row(
    alloc: Global,
    question: &Question<'_>,
    address: u32,
) -> Result<Row, AllocError>
    requires { question.now.moment < 2 ^ 40 }
    ensures { IfOk result (λ row. row ≡ leased_row (asking question.now) address) }
{
    let ends = question.moment + u64::from(times_for(question, address).lifetime);
    row_of(alloc, question, address, State::Bound, ends)
}

// Returns the row of an address that its client released.
pub(crate) fn make_released_row(
    alloc: Global,
    question: &Question<'_>,
    address: u32,
) -> Result<Row, AllocError>
    ensures { IfOk result (λ row. row ≡ released_row (asking question.now) address) }
{
    row_of(alloc, question, address, State::Released, question.moment)
}

// Returns the row of an address that another host uses.
pub(crate) fn make_declined_row(alloc: Global, question: &Question<'_>, address: u32) -> Row
    requires { question.now.moment < 2 ^ 40 }
    ensures { result ≡ declined_row (asking question.now) address }
{
    Row {
        address,
        client: Bytes::own(Vec::new(alloc)),
        state: State::Declined,
        changed: question.moment,
        ends: question.moment + u64::from(question.config.times().decline_hold),
    }
}

// Returns a row of the client, set at the time of the question.
fn row_of(
    alloc: Global,
    question: &Question<'_>,
    address: u32,
    state: State,
    ends: u64,
) -> Result<Row, AllocError>
    ensures { IfOk result (λ row. row ≡ row_set_now (asking question.now) address state ends) }
{
    Ok(Row {
        address,
        client: Bytes::own(Vec::from_slice(alloc, question.client)?),
        state,
        changed: question.moment,
        ends,
    })
}
