ghost use Rattle.std.specs.Prelude.{◌≡◌};
ghost use Rattle.kd_classes.specs.Lifetime.{lifetime_granted};

/// How long leases last, in seconds (RFC 2131 section 3.3; Kea, Lease Lifetimes). Each is at least 1
/// and at most 2147483647, and they are in this order.
#[derive(Clone, Copy)]
pub struct Lifetime {
    /// The least that a client gets.
    pub least: u32,
    /// What a client gets that asks for no time.
    pub usual: u32,
    /// The most that a client gets.
    pub most: u32,
}

impl Lifetime {
    /// Returns how long the lease of a client lasts that asks for some seconds (option 51, RFC 2132
    /// section 9.2): as many as it asks for, within the bounds. 0 asks for none.
    pub fn granted(self, asked: u32) -> u32
        ensures { result ≡ lifetime_granted self asked }
    {
        if asked == 0 {
            self.usual
        } else {
            asked.max(self.least).min(self.most)
        }
    }
}
