ghost use Rattle.std.specs.Prelude.{◌≡◌, IfOk, OnOk};
ghost use Rattle.std.specs.List.Sorted.{IsNonDecreasingBy, IsPermutation};
ghost use Rattle.kd_config.specs.Apart.{lie_apart, share_one};

use kd_config::Range;
use std::alloc::{AllocError, Global};

// Reports whether no two ranges share an address.
pub(crate) fn are_apart(alloc: Global, ranges: &[Range]) -> Result<bool, AllocError>
    ensures { IfOk result (λ apart. apart ≡ lie_apart ranges.now) }
{
    let mut sorted = Vec::from_slice(alloc, ranges)?;
    sort(&mut sorted)?;
    Ok(are_steps_apart(&sorted))
}

// Sorts ranges by their first addresses.
fn sort(ranges: &mut Vec<Range>) -> Result<(), AllocError>
    ensures permutation { IsPermutation ranges.old.items ranges.new.items }
    ensures sorted { OnOk result (IsNonDecreasingBy (λ range. range.first) ranges.new.items) }
{
    ranges.sort_by_key(|range| range.first)?;
    Ok(())
}

// Reports whether no range of a sorted list shares an address with the next.
fn are_steps_apart(ranges: &[Range]) -> bool
    requires { IsNonDecreasingBy (λ range. range.first) ranges.now }
    ensures { result ≡ lie_apart ranges.now }
{
    for i in 1..ranges.len() {
        if shares(ranges[i - 1], ranges[i]) {
            return false;
        }
    }
    true
}

// Reports whether two ranges share an address: one contains the first address of the other.
fn shares(a: Range, b: Range) -> bool
    ensures { result ≡ share_one a b }
{
    a.contains(b.first) || b.contains(a.first)
}
