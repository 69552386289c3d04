ghost use Rattle.std.specs.Prelude.{◌≡◌, ◌++◌, ◌+◌, ◌-◌, ◌*◌, ◌≤◌, IfOk, OnOk};
ghost use Rattle.std.specs.List.{flat_map};
ghost use Rattle.kd_fields.specs.Gives.{Means};
ghost use Rattle.kd_fields.specs.declared.faults.SettingsFault.TheVariants.{Memory};
ghost use Rattle.kd_keys.specs.Parts.{first_part, first_parts, pool_part, part_count, parts_of, parts_of_all};

use kd_config::{Pool, Range, classes_copied, options_copied};
use kd_fields::faults::SettingsFault;
use kd_fields::place::{Place, bad_value};
use kd_wire::Entries;
use std::alloc::{AllocError, Global};

// The most pools of a subnet.
const MOST_POOLS: usize = 64;

/// Returns the parts of all these pools, the list at the key `pools`: at most 64.
///
/// # Errors
///
/// `BadValue` with the path of the list for more than 64.
#[tactic(auto, unfolding(crate::specs::Parts::parts_of_all))]
pub fn parts_of_pools(
    alloc: Global,
    pools: &[Pool],
    at: &Place<'_>,
) -> Result<Entries<Pool>, SettingsFault>
    ensures { Means Memory result (parts_of_all pools.now) }
{
    let parts = parts_in(alloc, pools)?;
    if parts.len() <= MOST_POOLS {
        Ok(Entries::own(parts))
    } else {
        Err(bad_value(alloc, at, "pools"))
    }
}

// Returns the parts of all these pools.
fn parts_in(alloc: Global, pools: &[Pool]) -> Result<Vec<Pool>, AllocError>
    ensures { IfOk result (λ parts. parts.items ≡ flat_map parts_of pools.now) }
{
    let mut parts = Vec::new(alloc);
    for pool in pools {
        push_parts(alloc, &mut parts, pool, count_parts(pool.range))?;
    }
    Ok(parts)
}

// Returns how many parts some addresses have.
fn count_parts(range: Range) -> u32
    ensures { result ≡ part_count range }
{
    range.last.saturating_sub(range.first) / 65_536 + 1
}

// Appends so many parts of a pool, from the first on.
fn push_parts(alloc: Global, out: &mut Vec<Pool>, pool: &Pool, count: u32) -> Result<(), AllocError>
    requires { count ≤ part_count pool.now.range }
    ensures { OnOk result (out.new.items ≡ out.old.items ++ first_parts pool.now count) }
{
    for i in 0..count {
        let part = part_of(alloc, pool, i)?;
        out.push(part)?;
    }
    Ok(())
}

// Returns the part of a pool behind so many parts of 65,536 addresses.
fn part_of(alloc: Global, pool: &Pool, i: u32) -> Result<Pool, AllocError>
    requires { 65536 * i ≤ pool.now.range.last - pool.now.range.first }
    ensures { IfOk result (λ part. part ≡ pool_part pool.now i) }
{
    Ok(Pool {
        range: nth_part(pool.range, i),
        classes: classes_copied(alloc, pool.classes.as_slice())?,
        options: options_copied(alloc, pool.options.as_slice())?,
    })
}

// Returns the addresses behind so many parts of a range: at most 65,536.
fn nth_part(range: Range, i: u32) -> Range
    requires { 65536 * i ≤ range.last - range.first }
    ensures { result ≡ first_part (range.first + 65536 * i) range.last }
{
    let Range { first, last } = range;
    beginning(first + 65_536 * i, last)
}

// Returns the first 65,536 of some addresses, or all of fewer.
fn beginning(first: u32, last: u32) -> Range
    ensures { result ≡ first_part first last }
{
    if last.saturating_sub(first) < 65_536 {
        Range { first, last }
    } else {
        Range {
            first,
            last: first + 65_535,
        }
    }
}
