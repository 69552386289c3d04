ghost use Rattle.std.specs.Prelude.{◌≡◌, ℕ, IfOk};
ghost use Rattle.std.specs.List.Sorted.{IsNonDecreasing};
ghost use Rattle.kd_lease.specs.Choice.{reserved_anywhere};
ghost use Rattle.kd_pools.specs.Walking.{PassesBelow, IsPlaceFor, subnets_reserved, is_listed};

use kd_config::{Config, Subnet};
use std::alloc::{AllocError, Global};

// Returns the addresses that are reserved in a configuration, in ascending order.
pub(crate) fn reserved_addresses(alloc: Global, config: &Config) -> Result<Vec<u32>, AllocError>
    ensures rising { IfOk result (λ list. IsNonDecreasing list.items) }
    ensures same { IfOk result (λ list.
        (a : ℕ) → is_listed list.items a ≡ reserved_anywhere config.now a) }
{
    let mut list = reserved_in_order(alloc, config.subnets())?;
    list.sort()?;
    Ok(list)
}

// Collects the addresses that subnets reserve, in the order of the configuration.
fn reserved_in_order(alloc: Global, subnets: &[Subnet]) -> Result<Vec<u32>, AllocError>
    ensures { IfOk result (λ list. list.items ≡ subnets_reserved subnets.now) }
{
    let mut list = Vec::new(alloc);
    for subnet in subnets {
        subnet.reservations.put_addresses(&mut list)?;
    }
    Ok(list)
}

// Returns the place of the first address of a list that is not below this one.
pub(crate) fn place_of(list: &[u32], address: u32) -> usize
    requires { IsNonDecreasing list.now }
    ensures { IsPlaceFor list.now result address }
{
    list.partition_point(|other| *other < address)
}

// Returns the same, given a place before which all addresses are below this one.
pub(crate) fn place_from(list: &[u32], start: usize, address: u32) -> usize
    requires rising { IsNonDecreasing list.now }
    requires start { PassesBelow list.now start address }
    ensures { IsPlaceFor list.now result address }
{
    let mut place = start;
    'below: while place < list.len() && list[place] < address {
        place += 1;
    }
    place
}

// Reports whether the address at a place of a list is this one.
pub(crate) fn is_at(list: &[u32], place: usize, address: u32) -> bool
    requires rising { IsNonDecreasing list.now }
    requires place { IsPlaceFor list.now place address }
    ensures { result ≡ is_listed list.now address }
{
    place < list.len() && list[place] == address
}
