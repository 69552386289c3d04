use crate::arrived::Arrived;
use crate::fault::ServeFault;
use kd_event::Handled;

/// A server that handles events one by one; `replay` and `run_with` are generic over it.
pub trait Serves {
    ghost use Rattle.std.specs.Prelude.{◌≡◌, IfErr, IfOk};
    ghost use Rattle.std.specs.Result.{IsErrOf};
    ghost use Rattle.kd_loops.specs.Text.{IsSmall};
    ghost use Rattle.kd_event.specs.declared.event.Event.{Event};
    ghost use Rattle.kd_event.specs.declared.event.Handled.{Handled};
    ghost use Rattle.kd_loops.specs.declared.fault.ServeFault.{ServeFault};
    ghost use Rattle.kd_loops.specs.declared.fault.ServeFault.TheVariants as faults;

    /// The effect of an event: the server before it, the event, what was done with it, and the
    /// server after it.
    ghost gives: { Self → Event → Handled → Self → Type 0 };

    /// The effect of a fault: the server before the event, the event, the fault, and the server
    /// after.
    ghost fails: { Self → Event → ServeFault → Self → Type 0 };

    /// Handles a datagram that came at this time, in whole seconds; returns what is sent for it.
    ///
    /// # Errors
    ///
    /// `Memory` changes nothing; `fails` says what holds after any other fault.
    fn handle(&mut self, moment: u64, bytes: &[u8]) -> Result<Handled, ServeFault>
        ensures handled { IfOk result (λ handled.
            gives self.old (record { moment = moment; bytes = bytes.now }) handled self.new) }
        ensures small { IfOk result (λ handled. IsSmall handled.response) }
        ensures failed { IfErr result (λ fault.
            fails self.old (record { moment = moment; bytes = bytes.now }) fault self.new) }
        ensures memory { IsErrOf result faults.Memory → self.new ≡ self.old };
}

/// A server that handles events in batches; `serve` is generic over it.
pub trait ServesAll {
    ghost use Rattle.std.specs.Prelude.{◌≡◌, ℕ, List, Option};
    ghost use Rattle.std.specs.List.{All};
    ghost use Rattle.kd_loops.specs.Text.{IsSmall};
    ghost use Rattle.kd_event.specs.declared.event.Event.{Event};
    ghost use Rattle.kd_event.specs.declared.event.Handled.{Handled};
    ghost use Rattle.kd_loops.specs.declared.fault.ServeFault.{ServeFault};

    /// The time of the latest change of its table, in whole seconds.
    ghost latest: { Self → ℕ };

    /// The effect of a batch: the server before it, its events, what was done with the first of
    /// them, the fault of the next, and the server after it.
    ghost batches: { Self → List Event → List Handled → Option ServeFault → Self → Type 0 };

    /// Returns the time of the latest change of its table, in whole seconds; 0 if nothing has
    /// changed.
    fn latest(&self) -> u64
        ensures { result ≡ latest self.now };

    /// Handles the events of a batch in order, up to the first fault, and returns what is sent for
    /// each.
    fn handle_all(&mut self, events: &[Arrived]) -> (Vec<Handled>, Option<ServeFault>)
        ensures batch { batches self.old events.now result.0.items result.1 self.new }
        ensures small { All (λ handled. IsSmall handled.response) result.0.items };
}
