ghost use Rattle.std.specs.Prelude.{◌≡◌, ◌==◌, option_map};
ghost use Rattle.std.specs.List.{find};
ghost use Rattle.std.specs.Option.{option_copied};
ghost use Rattle.kd_lease.specs.Client.{kind_of};
ghost use Rattle.kd_config.specs.Networks.{home_of};
ghost use Rattle.kd_lease.specs.Keeper.{keeper_in};
ghost use Rattle.kd_lease.specs.Kept.{has_to_keep, is_leased_in, kept_in, passes, renews_alone, renews_lease};
ghost use Rattle.kd_options.specs.Kind.{type_number};
ghost use Rattle.kd_options.specs.declared.kind.MessageType.TheVariants as types;

use crate::fit::contains;
use crate::grounds::Ground;
use crate::matter::ciaddr_of;
use crate::reservation::is_reserved_in;
use crate::search::is_bound_to;
use crate::server::server_of;
use kd_config::{Config, Subnet};
use kd_options::{Message, MessageType};
use kd_rows::Rows;

/// Returns the subnet in which a client keeps the lease that it renews, at a time in seconds, if it
/// does (our own choice). A renewal is sent to the server alone, so no relay adds to it what the
/// client's classes are chosen by (RFC 2131 section 4.4.5, RFC 3046): then no class guards the
/// address.
#[tactic(auto, using(crate::proofs::Homes::kept_home))]
pub fn subnet_kept<'a>(
    over: Ground<'a>,
    message: &Message<'_>,
    client: &[u8],
    moment: u64,
) -> Option<&'a Subnet>
    ensures { option_copied result ≡ kept_in over.entry.config.now over.entry.rows.now.rows
        message.now moment client.now }
{
    home_of_keeper(over.config, keeper_of(over, message, client, moment))
}

// Returns the first subnet that has the address of the lease that a client keeps, if it does.
pub(crate) fn keeper_of<'a>(
    over: Ground<'a>,
    message: &Message<'_>,
    client: &[u8],
    moment: u64,
) -> Option<&'a Subnet>
    ensures { option_copied result ≡ keeper_in over.entry.config.now over.entry.rows.now.rows
        message.now moment client.now }
{
    let keeps = over.config.extensions().keeps_leases;
    if keeps && renews(over.rows, message, client, moment) {
        first_to_keep(over.config.subnets(), message.header().ciaddr)
    } else {
        None
    }
}

// Returns the subnet in which a client keeps its lease, by the one that has its address.
pub(crate) fn home_of_keeper<'a>(
    config: &'a Config,
    keeper: Option<&'a Subnet>,
) -> Option<&'a Subnet>
    ensures { option_copied result
        ≡ option_map (home_of config.now.subnets) (option_copied keeper.entry) }
{
    match keeper {
        Some(subnet) => Some(config.home(subnet)),
        None => None,
    }
}

// Reports whether a client renews its lease without a relay.
fn renews(rows: &Rows, message: &Message<'_>, client: &[u8], moment: u64) -> bool
    ensures { result ≡ renews_lease rows.now.rows message.now moment client.now }
{
    is_request(message)
        && (server_of(message).is_none()
            && (message.header().giaddr == 0
                && is_leased_to(rows, client, moment, ciaddr_of(message))))
}

// Reports whether a message renews an address without a relay.
pub(crate) fn is_renewed_alone(message: &Message<'_>, address: u32) -> bool
    ensures { result ≡ renews_alone message.now address }
{
    is_request(message)
        && (server_of(message).is_none()
            && (message.header().giaddr == 0 && message.header().ciaddr == address))
}

// Reports whether a message is a REQUEST.
fn is_request(message: &Message<'_>) -> bool
    ensures { result ≡ (kind_of message.now == type_number types.Request) }
{
    match message.kind() {
        MessageType::Request => true,
        _ => false,
    }
}

// Reports whether there is an address and a client leases it.
fn is_leased_to(rows: &Rows, client: &[u8], moment: u64, address: Option<u32>) -> bool
    ensures { result ≡ passes (is_leased_in rows.now.rows moment client.now) address }
{
    match address {
        Some(address) => is_bound_to(rows, client, moment, address),
        None => false,
    }
}

// Returns the first of these subnets that has an address to keep, in host order.
fn first_to_keep(subnets: &[Subnet], address: u32) -> Option<&Subnet>
    ensures { option_copied result ≡ find (has_to_keep address) subnets.now }
{
    subnets.iter().find(|subnet| is_to_keep(address, subnet))
}

/// Reports whether a subnet has an address to keep, in host order: its prefix does, and a pool
/// contains it, or it is reserved.
pub fn is_to_keep(address: u32, subnet: &Subnet) -> bool
    ensures { result ≡ has_to_keep address subnet.now }
{
    subnet.prefix.contains(address)
        && (contains(subnet, address) || is_reserved_in(address, subnet))
}
