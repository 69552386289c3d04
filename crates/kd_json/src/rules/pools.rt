ghost use Rattle.std.specs.Prelude.{◌≡◌, ◌≢◌, ◌<◌, ◌+◌, ◌++◌, ◌&&◌, IfErr, IfOk, OnOk, codes, false, if◌then◌else◌, length, nat_le, take, true};
ghost use Rattle.kd_config.specs.Apart.{lie_apart};
ghost use Rattle.kd_json.specs.Faults.{config_fault_number, fault_path};
ghost use Rattle.kd_json.specs.FirstFault.{PoolFails};
ghost use Rattle.kd_fields.specs.Place.{path_below};
ghost use Rattle.kd_fields.specs.Gives.{Means};
ghost use Rattle.kd_json.specs.Parts.{lie_and_fit};
ghost use Rattle.kd_fields.specs.Place.{path_at};
ghost use Rattle.kd_config.specs.Rules.{pool_ranges, lies_within, ranges_in};
ghost use Rattle.kd_fields.specs.Steps.{must};
ghost use Rattle.kd_json.specs.declared.fault.ConfigFault.TheVariants.{Memory};

use crate::fault::ConfigFault;
use crate::rules::apart::are_apart;
use crate::rules::fault_at::{outside, overlap};
use kd_config::{Pool, Prefix, Range, Subnet};
use kd_fields::place::Place;
use std::alloc::{AllocError, Global};

// Returns the number of ranges before the first that shares an address with an earlier one: all of
// them if none does.
#[tactic(auto, using(crate::proofs::Shared::some_ranges))]
pub(crate) fn first_overlap(alloc: Global, ranges: &[Range]) -> Result<usize, AllocError>
    ensures all { IfOk result (λ number. nat_le (length ranges.now) number ≡ lie_apart ranges.now) }
    ensures apart { IfOk result (λ number. lie_apart (take number ranges.now) ≡ true) }
    ensures first { IfOk result (λ number. number < length ranges.now
        → lie_apart (take (number + 1) ranges.now) ≡ false) }
{
    if are_apart(alloc, ranges)? {
        return Ok(ranges.len());
    }
    let mut apart = 0;
    let mut not_apart = ranges.len();
    while not_apart - apart > 1 {
        let middle = apart + (not_apart - apart) / 2;
        if are_apart(alloc, &ranges[..middle])? {
            apart = middle;
        } else {
            not_apart = middle;
        }
    }
    Ok(apart)
}

// Collects the addresses of all pools, in order.
pub(crate) fn all_ranges(alloc: Global, subnets: &[Subnet]) -> Result<Vec<Range>, AllocError>
    ensures { IfOk result (λ ranges. ranges.items ≡ pool_ranges subnets.now) }
{
    let mut ranges = Vec::new(alloc);
    for subnet in subnets {
        push_ranges(&mut ranges, subnet.pools.as_slice())?;
    }
    Ok(ranges)
}

// Appends the addresses of pools to others.
fn push_ranges(ranges: &mut Vec<Range>, pools: &[Pool]) -> Result<(), AllocError>
    ensures { OnOk result (ranges.new.items ≡ ranges.old.items ++ ranges_in pools.now) }
{
    for pool in pools {
        ranges.push(pool.range)?;
    }
    Ok(())
}

// Checks that pools are within their subnet's prefix, and that there are at most `apart` of them.
pub(crate) fn check_pools(
    alloc: Global,
    prefix: Prefix,
    pools: &[Pool],
    apart: usize,
    at: &Place<'_>,
) -> Result<(), ConfigFault>
    ensures checked { Means Memory result (must (lie_and_fit prefix apart pools.now)) }
    ensures first { IfErr result (λ fault. fault ≢ Memory
        → PoolFails (lie_and_fit prefix apart) (path_at at.now) prefix pools.now fault) }
{
    for (i, pool) in pools.iter().enumerate() {
        check_pool(alloc, prefix, pool, i < apart, &Place::Item(&*at, i))?;
    }
    Ok(())
}

// Checks that a pool is within its subnet's prefix and shares no address with an earlier one.
fn check_pool(
    alloc: Global,
    prefix: Prefix,
    pool: &Pool,
    is_apart: bool,
    at: &Place<'_>,
) -> Result<(), ConfigFault>
    ensures checked { Means Memory result (must (lies_within prefix pool.now && is_apart)) }
    ensures kind { IfErr result (λ fault. fault ≢ Memory
        → config_fault_number fault ≡ (if lies_within prefix pool.now then 75 else 74)) }
    ensures path { IfErr result (λ fault. fault ≢ Memory
        → fault_path fault ≡ path_below (path_at at.now) (codes "pool")) }
{
    if !is_within(prefix, pool) {
        Err(outside(alloc, at, "pool"))
    } else if !is_apart {
        Err(overlap(alloc, at, "pool"))
    } else {
        Ok(())
    }
}

// Reports whether a pool is within a prefix.
fn is_within(prefix: Prefix, pool: &Pool) -> bool
    ensures { result ≡ lies_within prefix pool.now }
{
    prefix.contains(pool.range.first) && prefix.contains(pool.range.last)
}
