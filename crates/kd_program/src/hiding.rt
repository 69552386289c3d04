ghost use Rattle.std.specs.Prelude.{◌≡◌, ◌++◌, OnOk, string_bytes};
ghost use Rattle.std.specs.List.{flat_map};
ghost use Rattle.kd_program.specs.Advice.{hidden_note, hidden_notes, hidden_text, hides, is_subprefix};

use kd_config::{Prefix, Subnet};
use kd_text::put_prefix;
use std::alloc::AllocError;

// Prints a line for each subnet that one before it hides.
#[tactic(auto, unfolding(crate::specs::Advice::hidden_notes))]
pub(crate) fn put_hidden(
    text: &mut String,
    name: &str,
    subnets: &[Subnet],
) -> Result<(), AllocError>
    ensures { OnOk result (string_bytes text.new
        ≡ string_bytes text.old ++ hidden_notes name.now subnets.now) }
{
    let mut left = subnets;
    while let [subnet, rest @ ..] = left {
        put_hidden_by(text, name, subnet, rest)?;
        left = rest;
    }
    Ok(())
}

// Prints a line for each of these subnets that another one hides.
fn put_hidden_by(
    text: &mut String,
    name: &str,
    subnet: &Subnet,
    others: &[Subnet],
) -> Result<(), AllocError>
    ensures { OnOk result (string_bytes text.new ≡ string_bytes text.old
        ++ flat_map (hidden_note name.now subnet.now) others.now) }
{
    for other in others {
        put_if_hidden(text, name, subnet, other)?;
    }
    Ok(())
}

fn put_if_hidden(
    text: &mut String,
    name: &str,
    subnet: &Subnet,
    other: &Subnet,
) -> Result<(), AllocError>
    ensures { OnOk result (string_bytes text.new
        ≡ string_bytes text.old ++ hidden_note name.now subnet.now other.now) }
{
    if is_hiding(subnet, other) {
        put_hidden_line(text, name, other.prefix, subnet.prefix)
    } else {
        Ok(())
    }
}

// Reports whether a subnet serves each client of another one after it.
fn is_hiding(subnet: &Subnet, other: &Subnet) -> bool
    ensures { result ≡ hides subnet.now other.now }
{
    subnet.classes.as_slice().len() == 0
        && (is_inside(other.prefix, subnet.prefix)
            && (other.relays.as_slice().len() == 0 && other.network == 0))
}

// Reports whether all addresses of a prefix are those of another one.
fn is_inside(inner: Prefix, outer: Prefix) -> bool
    ensures { result ≡ is_subprefix inner outer }
{
    outer.length <= inner.length && outer.contains(inner.address)
}

#[tactic(auto, unfolding(crate::specs::Advice::hidden_text))]
fn put_hidden_line(
    text: &mut String,
    name: &str,
    prefix: Prefix,
    before: Prefix,
) -> Result<(), AllocError>
    ensures { OnOk result (string_bytes text.new
        ≡ string_bytes text.old ++ hidden_text name.now prefix before) }
{
    text.push_str(name)?;
    text.push_str(": subnet ")?;
    put_prefix(text, prefix.address, prefix.length)?;
    text.push_str(": no client gets an address here, because subnet ")?;
    put_prefix(text, before.address, before.length)?;
    text.push_str(" before it serves them all\n")?;
    Ok(())
}
