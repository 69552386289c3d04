ghost use Rattle.std.specs.Prelude.{◌≡◌, ◌==◌, IfOk};
ghost use Rattle.std.specs.List.{find};
ghost use Rattle.std.specs.Option.{option_copied};
ghost use Rattle.std.specs.List.Sorted.{IsNonDecreasing};
ghost use Rattle.kd_config.specs.Sound.{IsSubnet};
ghost use Rattle.kd_pools.specs.Uses.{all_uses, greatest_network, network_use, network_uses, prefix_in_use, subnet_use, subnet_uses, sums_within};
ghost use Rattle.kd_pools.specs.Walking.{AreSubnetUses, IsAtMost, IsOneSubnet, both_within, is_listed};

use crate::counts::Counts;
use crate::reserved::reserved_addresses;
use crate::walking::counts_in;
use kd_config::{Config, Prefix, Range, Subnet};
use kd_rows::Rows;
use std::alloc::{AllocError, Global};
use std::marker::Model;

/// How full a pool is.
#[derive(Clone, Copy)]
pub struct PoolUse {
    /// The addresses of the pool.
    pub range: Range,
    /// The counts of its addresses.
    pub counts: Counts,
}

/// How full a subnet is.
#[derive(Drop)]
pub struct SubnetUse {
    /// The prefix of the subnet.
    pub prefix: Prefix,
    /// The number of its shared network, from 1; 0 if it is in none.
    pub network: u32,
    /// Its pools, in the order in which they are written.
    pub pools: Vec<PoolUse>,
    /// The sums of the counts of the pools.
    pub counts: Counts,
}

impl Model for SubnetUse {
    ghost use Rattle.kd_pools.specs.Uses.{UseOfSubnet};

    ghost Value = { UseOfSubnet };

    ghost view = { λ s. record {
      prefix = s.prefix;
      network = s.network;
      pools = s.pools.items;
      counts = s.counts;
    } };
}

/// How full a shared network is.
#[derive(Clone, Copy)]
pub struct NetworkUse {
    /// The prefix of its first subnet.
    pub prefix: Prefix,
    /// The sums of the counts of its subnets.
    pub counts: Counts,
}

/// How full the subnets and the shared networks of a configuration are.
#[derive(Drop)]
pub struct Uses {
    /// The subnets, in the order in which they are written: those of networks first.
    pub subnets: Vec<SubnetUse>,
    /// The shared networks, in the order in which they are written.
    pub networks: Vec<NetworkUse>,
}

impl Model for Uses {
    ghost use Rattle.kd_pools.specs.Uses.{AllUses};

    ghost Value = { AllUses };

    ghost view = { λ u. record { subnets = u.subnets.items; networks = u.networks.items } };
}

/// Counts how full the pools of each subnet and of each shared network of a configuration are at a
/// given time, over the rows of leases; subnets and pools are in the order in which they are written.
///
/// # Errors
///
/// Out of memory.
pub fn uses_of(alloc: Global, config: &Config, rows: &Rows, now: u64) -> Result<Uses, AllocError>
    ensures { IfOk result (λ uses. uses ≡ all_uses config.now rows.now.rows now) }
{
    let subnets = subnets_used(alloc, config, rows, now)?;
    let networks = networks_used(alloc, subnets.as_slice())?;
    Ok(Uses { subnets, networks })
}

// Counts how full each subnet of a configuration is at a given time.
fn subnets_used(
    alloc: Global,
    config: &Config,
    rows: &Rows,
    now: u64,
) -> Result<Vec<SubnetUse>, AllocError>
    ensures uses { IfOk result (λ list. list.items ≡ subnet_uses config.now rows.now.rows now) }
    ensures few { IfOk result (λ list. AreSubnetUses list.items) }
{
    let reserved = reserved_addresses(alloc, config)?;
    let subnets = config.subnets();
    let mut list = Vec::with_capacity(alloc, subnets.len())?;
    for subnet in subnets {
        list.push(use_of(alloc, reserved.as_slice(), rows, now, subnet)?)?;
    }
    Ok(list)
}

// Counts how full a subnet is at a given time, with these addresses reserved.
fn use_of(
    alloc: Global,
    reserved: &[u32],
    rows: &Rows,
    now: u64,
    subnet: &Subnet,
) -> Result<SubnetUse, AllocError>
    requires rising { IsNonDecreasing reserved.now }
    requires subnet { IsSubnet subnet.now }
    ensures same { IfOk result (λ found.
        found ≡ subnet_use (is_listed reserved.now) rows.now.rows now subnet.now) }
    ensures few { IfOk result IsOneSubnet }
{
    let mut pools = Vec::new(alloc);
    let mut counts = Counts::new();
    for pool in subnet.pools.as_slice() {
        let here = counts_in(reserved, rows, now, pool.range);
        pools.push(PoolUse {
            range: pool.range,
            counts: here,
        })?;
        counts = counts.and(here);
    }
    Ok(SubnetUse {
        prefix: subnet.prefix,
        network: subnet.network,
        pools,
        counts,
    })
}

// Sums how full each shared network is, by the uses of all subnets.
fn networks_used(alloc: Global, uses: &[SubnetUse]) -> Result<Vec<NetworkUse>, AllocError>
    requires { AreSubnetUses uses.now }
    ensures { IfOk result (λ networks. networks.items ≡ network_uses uses.now) }
{
    let mut networks = Vec::new(alloc);
    for i in 0..count_networks(uses) {
        networks.push(NetworkUse {
            prefix: prefix_within(uses, i + 1),
            counts: counts_within(uses, i + 1),
        })?;
    }
    Ok(networks)
}

// Returns the greatest number of a network, or 0.
fn count_networks(uses: &[SubnetUse]) -> u32
    ensures { result ≡ greatest_network uses.now }
{
    let mut count = 0;
    for subnet in uses {
        count = subnet.network.max(count);
    }
    count
}

// Returns the prefix of the first subnet of the network with a number.
fn prefix_within(uses: &[SubnetUse], network: u32) -> Prefix
    ensures { result ≡ prefix_in_use (find (λ u. u.network == network) uses.now) }
{
    match first_within(uses, network) {
        Some(subnet) => subnet.prefix,
        None => Prefix {
            address: 0,
            length: 32,
        },
    }
}

// Returns the first subnet of the network with a number.
fn first_within(uses: &[SubnetUse], network: u32) -> Option<&SubnetUse>
    ensures { option_copied result ≡ find (λ u. u.network == network) uses.now }
{
    uses.iter().find(|subnet| subnet.network == network)
}

// Sums the counts of the subnets of the network with a number.
fn counts_within(uses: &[SubnetUse], network: u32) -> Counts
    requires { AreSubnetUses uses.now }
    ensures { result ≡ sums_within network uses.now }
{
    let mut counts = Counts::new();
    for subnet in uses {
        counts = counts_with(counts, subnet, network);
    }
    counts
}

// Adds the counts of a subnet if it is in the network with a number.
fn counts_with(counts: Counts, subnet: &SubnetUse, network: u32) -> Counts
    requires many { IsAtMost 1073741824 counts }
    requires one { IsOneSubnet subnet.now }
    ensures { result ≡ both_within network counts subnet.now }
{
    if subnet.network == network {
        counts.and(subnet.counts)
    } else {
        counts
    }
}
