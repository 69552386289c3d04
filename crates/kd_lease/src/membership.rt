ghost use Rattle.std.specs.Prelude.{◌≡◌, ◌<◌, ◌^◌, IfOk, OnOk, true};
ghost use Rattle.std.specs.Option.{option_copied};
ghost use Rattle.kd_lease.specs.Membership.{InClasses, StartsBy, StartsWith, counting_in, kept_for, subnet_for, with_client, with_names};

use crate::grounds::Ground;
use crate::identities::identity_for;
use crate::keeping::subnet_kept;
use crate::question::subnet_or;
use crate::reservation::reservation_for;
use kd_config::{Config, Reservation, Subnet};
use kd_machine::Held;
use kd_options::Message;
use kd_wire::Bytes;
use std::alloc::{AllocError, Global};

/// Returns the names of the classes that a message is in, at a time in seconds: those that its client
/// has before any test and then, in order, the name of each class whose test is true over the names
/// held so far (Kea Administrator Reference Manual, Client Classification).
///
/// # Errors
///
/// Out of memory for the names, the values of the runs or the client's identity.
pub fn classes_held(
    alloc: Global,
    over: Ground<'_>,
    message: &Message<'_>,
    moment: u64,
) -> Result<Held, AllocError>
    ensures { IfOk result
        (InClasses over.entry.config.now over.entry.rows.now.rows message.now moment) }
{
    let mut names = names_before(alloc, over, message, moment)?;
    over.config.classes().join_all(alloc, message, &mut names)?;
    Ok(names)
}

/// Returns the names that a message has before any test, at a time in seconds: `ALL` and that of its
/// option 60. Where clients are known by their reservations, those of the classes that the
/// reservation of the client gives follow, and `KNOWN`, or else `UNKNOWN`. The reservation is looked
/// for by the classes of a client of which nothing is known (Kea Administrator Reference Manual,
/// Built-in Client Classes).
///
/// # Errors
///
/// The same as those of `classes_held`.
pub fn names_before(
    alloc: Global,
    over: Ground<'_>,
    message: &Message<'_>,
    moment: u64,
) -> Result<Held, AllocError>
    ensures { IfOk result
        (StartsWith over.entry.config.now over.entry.rows.now.rows message.now moment) }
{
    if over.config.extensions().knows_clients {
        known_names(alloc, over, message, moment)
    } else {
        Held::base(alloc, message)
    }
}

// Returns the names that a message has before any test where clients are known by their reservations.
fn known_names(
    alloc: Global,
    over: Ground<'_>,
    message: &Message<'_>,
    moment: u64,
) -> Result<Held, AllocError>
    ensures { IfOk result
        (StartsBy true over.entry.config.now over.entry.rows.now.rows message.now moment) }
{
    let others = over.config.classes().held(alloc, message)?;
    let client = identity_for(alloc, over.config, message)?;
    let kept = subnet_kept_for(over, message, &client, moment);
    let subnet = subnet_or(kept, over.config, &others, message);
    let mut names = Held::base(alloc, message)?;
    add_client(counting(over.config, &others, message, subnet), &mut names)?;
    Ok(names)
}

/// Returns the subnet in which a client keeps the lease that it renews, at a time in seconds, if the
/// message has a client that does (our own choice).
pub fn subnet_kept_for<'a>(
    over: Ground<'a>,
    message: &Message<'_>,
    client: &Option<Bytes>,
    moment: u64,
) -> Option<&'a Subnet>
    ensures { option_copied result ≡ kept_for client.now over.entry.config.now
        over.entry.rows.now.rows message.now moment }
{
    match client {
        Some(client) => subnet_kept(over, message, client.as_slice(), moment),
        None => None,
    }
}

// Returns the reservation in a subnet that counts for a message, if there is a subnet.
fn counting<'a>(
    config: &Config,
    names: &Held,
    message: &Message<'_>,
    subnet: Option<&'a Subnet>,
) -> Option<&'a Reservation>
    ensures { option_copied result
        ≡ counting_in config.now names.now message.now (option_copied subnet.entry) }
{
    match subnet {
        Some(subnet) => { reservation_for(config, names, message, subnet, message.header().ciaddr) }
        None => None,
    }
}

// Adds the names of the classes that the reservation of a client gives, and whether it has one.
fn add_client(found: Option<&Reservation>, names: &mut Held) -> Result<(), AllocError>
    ensures { OnOk result (names.new ≡ with_client (option_copied found.entry) names.old) }
{
    match found {
        Some(reservation) => {
            add_names(reservation.joins.as_slice(), names)?;
            names.add(b"KNOWN")
        }
        None => names.add(b"UNKNOWN"),
    }
}

// Adds names.
fn add_names(more: &[Bytes], names: &mut Held) -> Result<(), AllocError>
    ensures { OnOk result (names.new ≡ with_names more.now names.old) }
{
    for name in more {
        names.add(name.as_slice())?;
    }
    Ok(())
}
