ghost use Rattle.std.specs.Prelude.{◌≡◌, ◌&&◌, nat_le};

/// The addresses of a pool: at least 1 and at most 65,536, in host order.
#[derive(Clone, Copy, PartialEq, Eq)]
pub struct Range {
    /// The lowest address.
    pub first: u32,
    /// The highest address.
    pub last: u32,
}

impl Range {
    /// Reports whether an address, in host order, is in the range.
    pub fn contains(self, address: u32) -> bool
        ensures { result ≡ (nat_le self.first address && nat_le address self.last) }
    {
        self.first <= address && address <= self.last
    }
}
