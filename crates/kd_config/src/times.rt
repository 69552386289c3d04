/// Lease and offer times, in seconds.
#[derive(Clone, Copy, PartialEq, Eq)]
pub struct Times {
    /// How long a lease lasts.
    pub lifetime: u32,
    /// When a client renews its lease: T1 of RFC 2131 section 4.4.5.
    pub renew: u32,
    /// When a client rebinds its lease: T2 of RFC 2131 section 4.4.5.
    pub rebind: u32,
    /// How long an offered address is held.
    pub offer_hold: u32,
    /// How long a declined address is not assigned.
    pub decline_hold: u32,
}
