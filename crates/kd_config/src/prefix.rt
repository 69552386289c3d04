ghost use Rattle.std.specs.Prelude.{◌+◌, ◌-◌, ◌≡◌};
ghost use Rattle.kd_config.specs.Address.{has_address, prefix_size};

/// The prefix of a subnet: the addresses that have the same first `length` bits.
#[derive(Clone, Copy, PartialEq, Eq)]
pub struct Prefix {
    /// The first address, in host order.
    pub address: u32,
    /// The number of bits that are compared, 0 to 32.
    pub length: u8,
}

impl Prefix {
    /// Returns the number of addresses in the prefix, 1 to 2^32.
    pub fn size(self) -> u64
        ensures { result ≡ prefix_size self.length }
    {
        1 << 32u8.saturating_sub(self.length)
    }

    /// Returns the last address of the prefix, in host order. It may exceed 32 bits, because the
    /// first address may be any.
    pub fn last(self) -> u64
        ensures { result ≡ self.address + (prefix_size self.length - 1) }
    {
        u64::from(self.address) + (self.size() - 1)
    }

    /// Reports whether an address, in host order, is in the prefix.
    pub fn contains(self, address: u32) -> bool
        ensures { result ≡ has_address self address }
    {
        address >= self.address && u64::from(address) < u64::from(self.address) + self.size()
    }
}
