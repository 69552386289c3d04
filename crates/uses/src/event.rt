ghost use Rattle.std.specs.Prelude.{◌≡◌, IsSomeAnd};
ghost use Rattle.kd_event.specs.Reason.{reason_name, reason_number};
ghost use Rattle.kd_event.specs.declared.event.Response.TheVariants.{Quiet};
ghost use Rattle.kd_event.specs.declared.reason.Reason.{Reason as WhyQuiet};

use kd_event::{Handled, Response};

/// Returns the number and the name of the reason why an event gets no reply, if it gets none.
pub fn why_quiet(handled: &Handled) -> Option<(u8, &'static str)>
    ensures { (reason : WhyQuiet) → handled.entry.now.response ≡ Quiet reason
        → IsSomeAnd result (λ said. (said.0 ≡ reason_number reason)
        × (said.1.now ≡ reason_name reason)) }
{
    match &handled.response {
        Response::Quiet(reason) => Some((reason.number(), reason.name())),
        Response::Reply(..) => None,
    }
}
