ghost use Rattle.std.specs.Prelude.{◌≡◌, codes, option_and_then};
ghost use Rattle.serde_json.specs.Find.{get};
ghost use Rattle.serde_json.specs.View.{view};
ghost use Rattle.std.specs.List.{list_all, list_any};
ghost use Rattle.kd_config.specs.Apart.{has};
ghost use Rattle.kd_fields.specs.Gives.{Means};
ghost use Rattle.kd_fields.specs.Lists.{list_of};
ghost use Rattle.kd_fields.specs.Steps.{must};
ghost use Rattle.kd_json.specs.Subnet.{subnet_prefix};
ghost use Rattle.kd_fields.specs.declared.faults.SettingsFault.TheVariants.{Memory};
ghost use Rattle.kd_keys.specs.Parts.{parts_of_all};
ghost use Rattle.kd_kea.specs.Pool.{kea_pool};
ghost use Rattle.kd_kea.specs.Subnet.{above_within, has_subnet_form, is_at_server, is_in_none, kea_subnet, kea_subnet_with, lies_outside, stand_beside};

use crate::objects::lifetimes::{TermKeys, keys_of, term_in};
use crate::objects::pool::PoolReader;
use crate::objects::reservation::ReservationReader;
use kd_classes::{Boot, OptionList};
use kd_config::{Policy, Pool, Prefix, Reservation, Reservations, Subnet, Times, classes_of};
use kd_fields::faults::SettingsFault;
use kd_fields::lists::{EntryReader, entries_of};
use kd_fields::place::{Place, bad_value, missing, unknown};
use kd_fields::values::{number_or, text_or_none};
use kd_json::objects::subnet::prefix_in;
use kd_keys::boot::boot_of;
use kd_keys::checking::check_keys;
use kd_keys::definition::DefinedOption;
use kd_keys::flags::{flag_or_default, non_empty};
use kd_keys::host_kinds::HostKinds;
use kd_keys::host_name::names_are_bare;
use kd_keys::options::options_of;
use kd_keys::parts::parts_of_pools;
use kd_keys::policy::check_policy;
use kd_keys::relay::relays_in;
use kd_keys::scope::part_scope;
use kd_keys::tables::ObjectKind;
use kd_wire::{Bytes, Entries};
use serde_json::Value;
use std::alloc::Global;

/// What holds for the whole server or a network, above its subnets.
#[derive(Clone, Copy)]
pub struct Above {
    /// The server's address.
    pub server: u32,
    /// The lease and offer times.
    pub times: Times,
    /// What the keys for the times of leases say, unless a subnet says something else.
    pub keys: TermKeys,
    /// A class has a lifetime.
    pub by_class: bool,
    /// Reservations are looked for outside pools alone, unless a subnet says otherwise.
    pub outside: bool,
    /// By which kinds of identity reservations are looked for.
    pub kinds: HostKinds,
    /// Host names have no suffix, unless a subnet says otherwise.
    pub bare: bool,
    /// What holds of clients.
    pub policy: Policy,
    /// What is given to the boot fields, unless a subnet gives something else.
    pub boot: Boot,
}

/// Reads subnets.
#[derive(Clone, Copy)]
pub struct SubnetReader<'a> {
    pub above: Above,
    /// The definitions of options.
    pub known: &'a [DefinedOption],
}

impl<'a> EntryReader for SubnetReader<'a> {
    type Entry = Subnet;

    ghost means = { λ reader. kea_subnet reader.above reader.known.now };

    #[tactic(auto, unfolding(crate::specs::Subnet::kea_subnet))]
    fn read(&self, alloc: Global, value: &Value, at: &Place<'_>) -> Result<Subnet, SettingsFault> {
        check_form(alloc, value, at, self.above)?;
        let Some(text) = value.get("subnet") else {
            return Err(missing(alloc, at, "subnet"));
        };
        let Some(prefix) = prefix_in(text) else {
            return Err(bad_value(alloc, at, "subnet"));
        };
        check_interface(alloc, value, at, self.above.server, prefix)?;
        let class = text_or_none(alloc, value, at, "client-class")?;
        let above = above_in(alloc, value, at, self.above)?;
        let known = self.known;
        let reader = SubnetReader { above, known };
        let classes = classes_of(alloc, non_empty(class))?;
        subnet_of_lists(alloc, value, at, reader, prefix, classes)
    }
}

// Checks that the value has the keys of a subnet, with values that change nothing for it.
#[tactic(auto, unfolding(crate::specs::Subnet::has_subnet_form))]
fn check_form(
    alloc: Global,
    value: &Value,
    at: &Place<'_>,
    above: Above,
) -> Result<(), SettingsFault>
    ensures { Means Memory result (has_subnet_form above (view value.now)) }
{
    check_keys(alloc, value, at, ObjectKind::Subnet)?;
    check_policy(alloc, value, at, above.policy)?;
    number_or(alloc, value, at, "id", 1, 4_294_967_294, 1)?;
    Ok(())
}

// Checks that a subnet's interface is the one with the server's address.
fn check_interface(
    alloc: Global,
    subnet: &Value,
    at: &Place<'_>,
    server: u32,
    prefix: Prefix,
) -> Result<(), SettingsFault>
    ensures { Means Memory result
        (must (is_at_server server prefix (get (codes "interface") (view subnet.now)))) }
{
    if has_server_interface(subnet, server, prefix) {
        Ok(())
    } else {
        Err(unknown(alloc, at, "interface"))
    }
}

/// Reports whether a subnet's interface, if it is given, is the one with the server's address.
pub fn has_server_interface(subnet: &Value, server: u32, prefix: Prefix) -> bool
    ensures { result
        ≡ is_at_server server prefix (get (codes "interface") (view subnet.now)) }
{
    let Some(value) = subnet.get("interface") else {
        return true;
    };
    match value.as_str() {
        Some(name) => name.is_empty() || prefix.contains(server),
        None => false,
    }
}

/// Returns a subnet's prefix, if it is given and right.
pub fn written_prefix(subnet: &Value) -> Option<Prefix>
    ensures { result ≡ option_and_then subnet_prefix (get (codes "subnet") (view subnet.now)) }
{
    prefix_in(subnet.get("subnet")?)
}

// Reads what holds in a subnet, or in a network above its members: what its own keys say, and else what
// holds above it.
#[tactic(auto, unfolding(crate::specs::Subnet::above_within))]
pub(crate) fn above_in(
    alloc: Global,
    value: &Value,
    at: &Place<'_>,
    above: Above,
) -> Result<Above, SettingsFault>
    ensures { Means Memory result (above_within above (view value.now)) }
{
    let keys = keys_of(alloc, value, at, above.keys)?;
    let key = "reservations-out-of-pool";
    let outside = flag_or_default(alloc, value, at, key, above.outside)?;
    let boot = boot_of(alloc, value, at)?;
    Ok(Above {
        server: above.server,
        times: above.times,
        keys,
        by_class: above.by_class,
        outside,
        kinds: above.kinds,
        bare: names_are_bare(value, above.bare),
        policy: above.policy,
        boot: boot.or(above.boot),
    })
}

// Builds the subnet of a prefix and classes with the lists in a value, by what holds in it and the
// definitions of options. It is in no network.
#[tactic(auto, unfolding(crate::specs::Subnet::kea_subnet_with))]
fn subnet_of_lists(
    alloc: Global,
    value: &Value,
    at: &Place<'_>,
    reader: SubnetReader<'_>,
    prefix: Prefix,
    classes: Entries<Bytes>,
) -> Result<Subnet, SettingsFault>
    ensures { Means Memory result
        (kea_subnet_with reader.entry.known.now reader.entry.above prefix classes
        (view value.now)) }
{
    let SubnetReader { above, known } = reader;
    let hosts = ReservationReader {
        known,
        kinds: above.kinds,
        bare: above.bare,
    };
    let relays = relays_in(alloc, value, at)?;
    let pools = pools_of(alloc, value, at, known)?;
    let reservations = entries_of(alloc, value, at, "reservations", 4096, &hosts)?;
    check_outside(
        alloc,
        at,
        above.outside,
        pools.as_slice(),
        reservations.as_slice(),
    )?;
    let options = options_of(alloc, value, at, part_scope(known))?;
    let reservations = Reservations::own(alloc, reservations.into_vec())?;
    Ok(Subnet {
        prefix,
        relays,
        classes,
        pools,
        reservations,
        options,
        network: 0,
        shared: OptionList::own(Vec::new(alloc)),
        boot: above.boot,
        term: term_in(above),
    })
}

/// Reads the pools of the list at the key `pools`.
///
/// # Errors
///
/// `BadValue` with the path of the list for more than 64 pools, or parts of pools; else the first fault of
/// a pool.
pub fn pools_of(
    alloc: Global,
    subnet: &Value,
    at: &Place<'_>,
    known: &[DefinedOption],
) -> Result<Entries<Pool>, SettingsFault>
    ensures { Means Memory result
        (option_and_then parts_of_all
        (list_of 64 (kea_pool known.now) (get (codes "pools") (view subnet.now)))) }
{
    let pools = entries_of(alloc, subnet, at, "pools", 64, &PoolReader { known })?;
    parts_of_pools(alloc, pools.as_slice(), at)
}

// Checks that reservations may stand beside pools: if they are looked for outside pools alone, that
// no pool has the address of one.
fn check_outside(
    alloc: Global,
    at: &Place<'_>,
    outside: bool,
    pools: &[Pool],
    reservations: &[Reservation],
) -> Result<(), SettingsFault>
    ensures { Means Memory result (must (stand_beside outside pools.now reservations.now)) }
{
    if may_be_beside(outside, pools, reservations) {
        Ok(())
    } else {
        Err(unknown(alloc, at, "reservations-out-of-pool"))
    }
}

/// Reports whether reservations may stand beside pools.
pub fn may_be_beside(outside: bool, pools: &[Pool], reservations: &[Reservation]) -> bool
    ensures { result ≡ stand_beside outside pools.now reservations.now }
{
    !outside || are_outside(pools, reservations)
}

// Reports whether no pool has the address of a reservation.
fn are_outside(pools: &[Pool], reservations: &[Reservation]) -> bool
    ensures { result ≡ list_all (lies_outside pools.now) reservations.now }
{
    reservations.iter().all(|it| is_outside(pools, it.address))
}

// Reports whether no pool has an address, or there is no address.
fn is_outside(pools: &[Pool], address: Option<u32>) -> bool
    ensures { result ≡ is_in_none pools.now address }
{
    match address {
        Some(address) => !is_inside(pools, address),
        None => true,
    }
}

// Reports whether a pool has an address.
fn is_inside(pools: &[Pool], address: u32) -> bool
    ensures { result ≡ list_any (λ pool. has pool.range address) pools.now }
{
    pools.iter().any(|pool| pool.range.contains(address))
}
