ghost use Rattle.std.specs.Prelude.{◌≡◌, ◌++◌, OnOk, string_bytes};
ghost use Rattle.kd_pools.specs.Printed.{counts_text, range_text};

use crate::counts::Counts;
use kd_config::Range;
use kd_text::put_address;
use std::alloc::AllocError;
use std::fmt::Write;

// Appends a range: its first and its last address.
#[tactic(auto, unfolding(crate::specs::Printed::range_text))]
pub(crate) fn put_range(out: &mut String, range: Range) -> Result<(), AllocError>
    ensures { OnOk result (string_bytes out.new ≡ string_bytes out.old ++ range_text range) }
{
    put_address(out, range.first)?;
    out.push_str("-")?;
    put_address(out, range.last)
}

// Appends counts, each after its name.
#[tactic(auto, unfolding(crate::specs::Printed::counts_text))]
pub(crate) fn put_counts(out: &mut String, counts: Counts) -> Result<(), AllocError>
    ensures { OnOk result (string_bytes out.new ≡ string_bytes out.old ++ counts_text counts) }
{
    let Counts {
        addresses,
        reserved,
        bound,
        offered,
        declined,
        ended,
        unused,
        free,
    } = counts;
    write!(
        out,
        " addresses {addresses} reserved {reserved} bound {bound} offered {offered}"
    )?;
    write!(
        out,
        " declined {declined} ended {ended} unused {unused} free {free}"
    )?;
    Ok(())
}
