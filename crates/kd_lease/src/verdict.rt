ghost use Rattle.std.specs.Prelude.{◌≡◌, Err, None};

use crate::plan::Plan;
use kd_event::Reason;
use kd_rows::Row;

/// What a message sets and gets.
#[derive(Drop)]
pub struct Verdict<A> {
    /// The row that is set in the table of leases, if one is.
    pub row: Option<Row>,
    /// What is sent, or the reason why nothing is.
    pub answer: Result<A, Reason>,
}

/// The decision for a message: the row, and the reply or the reason.
pub type Decision = Verdict<Plan>;

// Sets no row and sends no reply, for this reason.
pub(crate) fn quiet<A>(reason: Reason) -> Verdict<A>
    ensures row { result.row ≡ None }
    ensures answer { result.answer ≡ Err reason }
{
    Verdict {
        row: None,
        answer: Err(reason),
    }
}
