ghost use Rattle.std.specs.Prelude.{◌≡◌, ◌++◌, IfOk, OnOk, codes, string_bytes};
ghost use Rattle.std.specs.Fmt.{decimal};
ghost use Rattle.std.specs.List.{flat_map};
ghost use Rattle.kd_listing.specs.Leases.{lease_line, row_text, word_of_live, word_of_state};

use crate::leases::Lease;
use kd_rows::{Row, State};
use kd_text::{put_address, put_bytes};
use std::alloc::{AllocError, Global};
use std::fmt::Write;

/// Returns the lines of leases, each with its line feed:
/// `ADDRESS STATE CLIENT changed MOMENT ends MOMENT`, and `live` or `past`. The client's identity
/// is in hexadecimal, or a dash if there is none.
///
/// # Errors
///
/// Out of memory.
pub fn lease_lines(alloc: Global, leases: &[Lease]) -> Result<String, AllocError>
    ensures { IfOk result (λ text. string_bytes text ≡ flat_map lease_line leases.now) }
{
    let mut out = String::new(alloc);
    for lease in leases {
        put_lease(alloc, &mut out, lease)?;
    }
    Ok(out)
}

// The line of a lease.
#[tactic(auto, unfolding(crate::specs::Leases::lease_line))]
fn put_lease(alloc: Global, out: &mut String, lease: &Lease) -> Result<(), AllocError>
    ensures { OnOk result (string_bytes out.new ≡ string_bytes out.old ++ lease_line lease.now) }
{
    put_row(alloc, out, &lease.row)?;
    let word = live_word(lease.live);
    write!(out, " {word}\n")
}

/// Appends a row: `ADDRESS STATE CLIENT changed MOMENT ends MOMENT`. The client's identity is in
/// hexadecimal, or a dash if there is none.
///
/// # Errors
///
/// Out of memory.
#[tactic(auto, unfolding(crate::specs::Leases::row_text))]
pub fn put_row(alloc: Global, out: &mut String, row: &Row) -> Result<(), AllocError>
    ensures { OnOk result (string_bytes out.new ≡ string_bytes out.old ++ row_text row.now) }
{
    put_address(out, row.address)?;
    put_state(out, row.state)?;
    put_bytes(alloc, out, row.client.as_slice())?;
    put_times(out, row.changed, row.ends)
}

// The word for a state, between spaces.
fn put_state(out: &mut String, state: State) -> Result<(), AllocError>
    ensures { OnOk result (string_bytes out.new
        ≡ string_bytes out.old ++ (codes " " ++ word_of_state state ++ codes " ")) }
{
    let word = state_word(state);
    write!(out, " {word} ")
}

// The time at which a row was set, and its end.
fn put_times(out: &mut String, changed: u64, ends: u64) -> Result<(), AllocError>
    ensures { OnOk result (string_bytes out.new ≡ string_bytes out.old
        ++ (codes " changed " ++ decimal changed ++ codes " ends " ++ decimal ends)) }
{
    write!(out, " changed {changed} ends {ends}")
}

// The word for a state.
fn state_word(state: State) -> &'static str
    ensures { result.now ≡ word_of_state state }
{
    match state {
        State::Offered => "Offered",
        State::Bound => "Bound",
        State::Released => "Released",
        State::Declined => "Declined",
    }
}

// The word for whether a row is live.
fn live_word(live: bool) -> &'static str
    ensures { result.now ≡ word_of_live live }
{
    if live { "live" } else { "past" }
}
