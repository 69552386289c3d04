use crate::ends::EndFailed;
use kd_event::Destination;

/// Receives datagrams, gives the time by a clock, counts the time by another, and hands over
/// replies to be sent.
pub trait Link {
    ghost use Rattle.std.specs.Prelude.{Bool, List, Option, ◌≡◌, ◌≤◌, ◌||◌, ◌∷◌, [], ℕ, true, false, length, take, IfNone, IfOk, IfSome, OnErr, is_err, is_ok};
    ghost use Rattle.kd_loops.specs.Trace.{Comes, Grows};
    ghost use Rattle.kd_loops.specs.declared.happening.Happening.{Happening};
    ghost use Rattle.kd_loops.specs.declared.happening.Happening.TheVariants as happens;

    /// What happened, in order, if that is known.
    ghost trace: { Self → Option (List Happening) };

    /// Whether a call that waits has failed to receive.
    ghost has_failed: { Self → Bool };

    /// Waits for a datagram, receives it to the start of the buffer, and returns its length there;
    /// what does not fit is cut off.
    ///
    /// # Errors
    ///
    /// Nothing can be received.
    fn receive(&mut self, buf: &mut [u8]) -> Result<usize, EndFailed>
        ensures count { IfOk result (λ n. n ≤ length buf.new) }
        ensures came { IfOk result (λ n.
            Comes true (trace self.old) (trace self.new) (length buf.new) (take n buf.new)) }
        ensures none { OnErr result (trace self.new ≡ trace self.old) }
        ensures failed { has_failed self.new ≡ (has_failed self.old || is_err result) };

    /// Receives a datagram that has come already, like `receive`, and never waits; a failure counts
    /// as no datagram.
    fn receive_waiting(&mut self, buf: &mut [u8]) -> Option<usize>
        ensures count { IfSome result (λ n. n ≤ length buf.new) }
        ensures came { IfSome result (λ n.
            Comes false (trace self.old) (trace self.new) (length buf.new) (take n buf.new)) }
        ensures none { IfNone result (trace self.new ≡ trace self.old) }
        ensures failed { has_failed self.new ≡ has_failed self.old };

    /// Returns the time of the clock, in whole seconds.
    fn now(&mut self) -> u64
        ensures said { Grows (trace self.old) (trace self.new) (happens.Said result ∷ []) }
        ensures failed { has_failed self.new ≡ has_failed self.old };

    /// Returns how many whole seconds the steady clock has counted since some start. No one sets
    /// this clock.
    fn steady(&mut self) -> u64
        ensures said { Grows (trace self.old) (trace self.new) (happens.Passed result ∷ []) }
        ensures failed { has_failed self.new ≡ has_failed self.old };

    /// Hands a datagram over to be sent.
    ///
    /// # Errors
    ///
    /// It was not sent.
    fn send(&mut self, bytes: &[u8], to: Destination) -> Result<(), EndFailed>
        ensures went { Grows (trace self.old) (trace self.new)
            (happens.Went (record {
              destination = to;
              bytes = bytes.now;
              sent = is_ok result;
            }) ∷ []) }
        ensures failed { has_failed self.new ≡ has_failed self.old };
}
