ghost use Rattle.std.specs.Prelude.{◌≡◌, ◌++◌, IfOk, OnOk, string_bytes};
ghost use Rattle.std.specs.List.{flat_map};
ghost use Rattle.kd_pools.specs.Printed.{lines_text, network_line, pool_line, subnet_line, subnet_lines};

use crate::text::{put_counts, put_range};
use crate::uses::{NetworkUse, PoolUse, SubnetUse, Uses};
use kd_config::Prefix;
use kd_text::put_prefix;
use std::alloc::{AllocError, Global};

/// Prints the lines of subnets and of shared networks, each with its line feed. For each subnet there
/// is one line for each of its pools, `pool FIRST-LAST subnet PREFIX` and the counts, each after its
/// name, and then the subnet's own line, `subnet PREFIX` and its counts. At last there is one line for
/// each network, `network PREFIX` and its counts, with the prefix of its first subnet.
///
/// # Errors
///
/// Out of memory.
pub fn use_lines(alloc: Global, uses: &Uses) -> Result<String, AllocError>
    ensures { IfOk result (λ text. string_bytes text ≡ lines_text uses.now) }
{
    let mut out = String::new(alloc);
    put_subnets(&mut out, uses.subnets.as_slice())?;
    put_networks(&mut out, uses.networks.as_slice())?;
    Ok(out)
}

// Appends the lines of subnets.
fn put_subnets(out: &mut String, subnets: &[SubnetUse]) -> Result<(), AllocError>
    ensures { OnOk result (string_bytes out.new
        ≡ string_bytes out.old ++ flat_map subnet_lines subnets.now) }
{
    for subnet in subnets {
        put_subnet(out, subnet)?;
    }
    Ok(())
}

// Appends the lines of networks.
fn put_networks(out: &mut String, networks: &[NetworkUse]) -> Result<(), AllocError>
    ensures { OnOk result (string_bytes out.new
        ≡ string_bytes out.old ++ flat_map network_line networks.now) }
{
    for network in networks {
        put_network(out, *network)?;
    }
    Ok(())
}

// Appends the line of a network.
#[tactic(auto, unfolding(crate::specs::Printed::network_line))]
fn put_network(out: &mut String, network: NetworkUse) -> Result<(), AllocError>
    ensures { OnOk result (string_bytes out.new ≡ string_bytes out.old ++ network_line network) }
{
    out.push_str("network ")?;
    put_prefix(out, network.prefix.address, network.prefix.length)?;
    put_counts(out, network.counts)?;
    out.push_str("\n")
}

// Appends the lines of a subnet.
#[tactic(auto, unfolding(crate::specs::Printed::subnet_lines))]
fn put_subnet(out: &mut String, subnet: &SubnetUse) -> Result<(), AllocError>
    ensures { OnOk result (string_bytes out.new
        ≡ string_bytes out.old ++ subnet_lines subnet.now) }
{
    for pool in &subnet.pools {
        put_pool(out, subnet.prefix, pool)?;
    }
    put_own(out, subnet)
}

// Appends the line of a pool.
#[tactic(auto, unfolding(crate::specs::Printed::pool_line))]
fn put_pool(out: &mut String, prefix: Prefix, pool: &PoolUse) -> Result<(), AllocError>
    ensures { OnOk result (string_bytes out.new
        ≡ string_bytes out.old ++ pool_line prefix pool.now) }
{
    out.push_str("pool ")?;
    put_range(out, pool.range)?;
    out.push_str(" subnet ")?;
    put_prefix(out, prefix.address, prefix.length)?;
    put_counts(out, pool.counts)?;
    out.push_str("\n")
}

// Appends the line of the subnet itself.
#[tactic(auto, unfolding(crate::specs::Printed::subnet_line))]
fn put_own(out: &mut String, subnet: &SubnetUse) -> Result<(), AllocError>
    ensures { OnOk result (string_bytes out.new
        ≡ string_bytes out.old ++ subnet_line subnet.now) }
{
    out.push_str("subnet ")?;
    put_prefix(out, subnet.prefix.address, subnet.prefix.length)?;
    put_counts(out, subnet.counts)?;
    out.push_str("\n")
}
