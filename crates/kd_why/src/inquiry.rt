ghost use Rattle.std.specs.Prelude.{◌≡◌, ℕ, List, MatchResult, Some, false, true};
ghost use Rattle.kd_server.specs.Trial.{trying};
ghost use Rattle.kd_why.specs.Inquiring.{IsExplainedAt, IsNotExplained, IsReached, ending_fault};

use crate::why::why_text;
use kd_event::Handled;
use kd_loops::{MemorySink, ReplayFault, ServeFault, Serves, Source, replay};
use kd_rows::Rows;
use kd_server::{Terms, Trial};
use std::marker::Model;

/// Explains the event of a line of an input, over the rows that the events of the lines before it
/// leave. Those events are handled on these terms, starting from these rows, which are not changed.
/// Lines are counted from 1.
///
/// # Errors
///
/// Those of a replay of the lines up to this one, except `Write`; and `BadLine` with the number if
/// the input has no such line.
pub fn why_line<R: Source>(
    source: &mut R,
    terms: Terms<'_>,
    rows: &Rows,
    number: u64,
) -> Result<Vec<u8>, ReplayFault>
    requires source { R.has_failed source.old ≡ false }
    ensures explained { (input : List ℕ) → R.remaining source.old ≡ Some input
        → MatchResult result
        (λ text. IsExplainedAt (trying terms.entry rows.now.rows) input number text.items)
        (IsNotExplained (R.has_failed source.new ≡ true) (trying terms.entry rows.now.rows) input
        number) }
{
    let Some(left) = number.checked_sub(1) else {
        return Err(ReplayFault::BadLine(0));
    };
    let mut sink = MemorySink::new(terms.alloc);
    let mut inquiry = Inquiry {
        trial: Trial::over(terms, rows)?,
        left,
        text: None,
    };
    let done = replay(terms.alloc, source, &mut sink, &mut inquiry);
    let Inquiry { text, .. } = inquiry;
    match text {
        Some(text) => Ok(text),
        None => Err(ending(done, number)),
    }
}

// Returns why a line is not explained, given how the replay of the lines before it ended.
fn ending(done: Result<u64, ReplayFault>, number: u64) -> ReplayFault
    ensures { result ≡ ending_fault done number }
{
    match done {
        Ok(_) => ReplayFault::BadLine(number),
        Err(ReplayFault::Write) => ReplayFault::Memory,
        Err(fault) => fault,
    }
}

// A server that handles the next `left` events and explains the one after them.
#[derive(Drop)]
struct Inquiry<'a> {
    trial: Trial<'a>,
    left: u64,
    text: Option<Vec<u8>>,
}

impl<'a> Model for Inquiry<'a> {
    ghost use Rattle.std.specs.Prelude.{option_map};
    ghost use Rattle.kd_why.specs.Inquiring.{Inquiring};

    ghost Value = { Inquiring };

    ghost view = { λ i. record {
      trial = i.trial;
      left = i.left;
      text = option_map (λ text. text.items) i.text;
    } };
}

impl Inquiry<'_> {
    // Explains an event, and returns the fault that ends the replay there.
    fn explain(&mut self, moment: u64, bytes: &[u8]) -> ServeFault
        ensures reached { IsReached self.old (record { moment = moment; bytes = bytes.now }) result
            self.new }
    {
        match why_text(self.trial.terms(), self.trial.rows(), moment, bytes) {
            Ok(text) => {
                self.text = Some(text);
                ServeFault::Failed
            }
            Err(fault) => fault,
        }
    }
}

impl Serves for Inquiry<'_> {
    ghost use Rattle.kd_why.specs.Inquiring.{IsEarlier, IsEnding};

    ghost gives = { IsEarlier };

    ghost fails = { IsEnding };

    fn handle(&mut self, moment: u64, bytes: &[u8]) -> Result<Handled, ServeFault> {
        match self.left.checked_sub(1) {
            Some(left) => {
                let handled = self.trial.handle(moment, bytes)?;
                self.left = left;
                Ok(handled)
            }
            None => Err(self.explain(moment, bytes)),
        }
    }
}
