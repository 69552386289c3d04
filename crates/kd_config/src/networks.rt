ghost use Rattle.std.specs.Prelude.{◌≡◌, ◌+◌, ◌++◌, ◌==◌, IfOk, OnOk, map, option_copied};
ghost use Rattle.std.specs.List.{find, flat_map, list_any};
ghost use Rattle.kd_config.specs.Networks.{is_part, network_count, network_of, networks_in, pool_for, pools_within, prefix_or_none, reservation_for, reservations_within};

use crate::copies::{classes_joined, options_copied, reservation_copied};
use crate::pool::Pool;
use crate::prefix::Prefix;
use crate::reservation::Reservation;
use crate::reservations::Reservations;
use crate::subnet::Subnet;
use kd_classes::{Boot, OptionList};
use kd_wire::{Bytes, Entries};
use std::alloc::{AllocError, Global};

// Returns the networks of subnets, each as one subnet.
pub(crate) fn networks_of(alloc: Global, subnets: &[Subnet]) -> Result<Vec<Subnet>, AllocError>
    ensures { IfOk result (λ networks. networks.items ≡ networks_in subnets.now) }
{
    let mut networks = Vec::new(alloc);
    for i in 0..count_networks(subnets) {
        networks.push(joined(alloc, subnets, i + 1)?)?;
    }
    Ok(networks)
}

// Returns the greatest number of a network, or 0.
fn count_networks(subnets: &[Subnet]) -> u32
    ensures { result ≡ network_count subnets.now }
{
    let mut count = 0;
    for subnet in subnets {
        count = subnet.network.max(count);
    }
    count
}

// Returns the network with a number as one subnet.
#[tactic(auto, unfolding(crate::specs::Networks::network_of))]
fn joined(alloc: Global, subnets: &[Subnet], number: u32) -> Result<Subnet, AllocError>
    ensures { IfOk result (λ network. network ≡ network_of subnets.now number) }
{
    Ok(Subnet {
        prefix: first_prefix(subnets, number),
        relays: Entries::own(Vec::new(alloc)),
        classes: Entries::own(Vec::new(alloc)),
        pools: Entries::own(joined_pools(alloc, subnets, number)?),
        reservations: Reservations::own(alloc, joined_reservations(alloc, subnets, number)?)?,
        options: OptionList::own(Vec::new(alloc)),
        network: number,
        shared: OptionList::own(Vec::new(alloc)),
        boot: Boot::none(),
        term: None,
    })
}

// Returns the prefix of the first subnet of a network.
fn first_prefix(subnets: &[Subnet], number: u32) -> Prefix
    ensures { result ≡ prefix_or_none (find (λ s. s.network == number) subnets.now) }
{
    match first_of(subnets, number) {
        Some(subnet) => subnet.prefix,
        None => Prefix {
            address: 0,
            length: 32,
        },
    }
}

// Returns the first subnet of a network.
fn first_of(subnets: &[Subnet], number: u32) -> Option<&Subnet>
    ensures { option_copied result ≡ find (λ s. s.network == number) subnets.now }
{
    subnets.iter().find(|subnet| subnet.network == number)
}

// Copies the pools of the subnets of a network.
fn joined_pools(alloc: Global, subnets: &[Subnet], number: u32) -> Result<Vec<Pool>, AllocError>
    ensures { IfOk result (λ pools. pools.items ≡ flat_map (pools_within number) subnets.now) }
{
    let mut pools = Vec::new(alloc);
    for subnet in subnets {
        push_pools_of(alloc, &mut pools, subnet, number)?;
    }
    Ok(pools)
}

// Appends the pools of a subnet if it is in the network.
fn push_pools_of(
    alloc: Global,
    out: &mut Vec<Pool>,
    subnet: &Subnet,
    number: u32,
) -> Result<(), AllocError>
    ensures { OnOk result (out.new.items ≡ out.old.items ++ pools_within number subnet.now) }
{
    if subnet.network == number {
        push_pools(
            alloc,
            out,
            subnet.pools.as_slice(),
            subnet.classes.as_slice(),
        )?;
    }
    Ok(())
}

// Appends pools, each for its own classes and for these.
fn push_pools(
    alloc: Global,
    out: &mut Vec<Pool>,
    pools: &[Pool],
    classes: &[Bytes],
) -> Result<(), AllocError>
    ensures { OnOk result (out.new.items ≡ out.old.items ++ map (pool_for classes.now) pools.now) }
{
    for pool in pools {
        out.push(pool_copied(alloc, pool, classes)?)?;
    }
    Ok(())
}

// Copies a pool, for its own classes and for these.
fn pool_copied(alloc: Global, pool: &Pool, classes: &[Bytes]) -> Result<Pool, AllocError>
    ensures { IfOk result (λ copy. copy ≡ pool_for classes.now pool.now) }
{
    Ok(Pool {
        range: pool.range,
        classes: classes_joined(alloc, pool.classes.as_slice(), classes)?,
        options: options_copied(alloc, pool.options.as_slice())?,
    })
}

// Copies the reservations of the subnets of a network.
fn joined_reservations(
    alloc: Global,
    subnets: &[Subnet],
    number: u32,
) -> Result<Vec<Reservation>, AllocError>
    ensures { IfOk result
        (λ list. list.items ≡ flat_map (reservations_within number) subnets.now) }
{
    let mut list = Vec::new(alloc);
    for subnet in subnets {
        push_reservations_of(alloc, &mut list, subnet, number)?;
    }
    Ok(list)
}

// Appends the reservations of a subnet if it is in the network.
fn push_reservations_of(
    alloc: Global,
    out: &mut Vec<Reservation>,
    subnet: &Subnet,
    number: u32,
) -> Result<(), AllocError>
    ensures { OnOk result
        (out.new.items ≡ out.old.items ++ reservations_within number subnet.now) }
{
    if subnet.network == number {
        push_reservations(
            alloc,
            out,
            subnet.reservations.as_slice(),
            subnet.classes.as_slice(),
        )?;
    }
    Ok(())
}

// Appends reservations, each for its own classes and for these.
fn push_reservations(
    alloc: Global,
    out: &mut Vec<Reservation>,
    reservations: &[Reservation],
    classes: &[Bytes],
) -> Result<(), AllocError>
    ensures { OnOk result (out.new.items
        ≡ out.old.items ++ map (reservation_for classes.now) reservations.now) }
{
    for reservation in reservations {
        out.push(reservation_copied(alloc, reservation, classes)?)?;
    }
    Ok(())
}

// Reports whether a subnet of the network with a number has an address in its prefix.
pub(crate) fn has_in(subnets: &[Subnet], number: u32, address: u32) -> bool
    ensures { result ≡ list_any (is_part number address) subnets.now }
{
    subnets
        .iter()
        .any(|subnet| is_part_of(subnet, number, address))
}

// Returns the first subnet of the network with a number that has an address in its prefix.
pub(crate) fn part_of(subnets: &[Subnet], number: u32, address: u32) -> Option<&Subnet>
    ensures { option_copied result ≡ find (is_part number address) subnets.now }
{
    subnets
        .iter()
        .find(|subnet| is_part_of(subnet, number, address))
}

// Reports whether a subnet is in the network with a number and has an address in its prefix.
fn is_part_of(subnet: &Subnet, number: u32, address: u32) -> bool
    ensures { result ≡ is_part number address subnet.now }
{
    subnet.network == number && subnet.prefix.contains(address)
}
