ghost use Rattle.std.specs.Prelude.{◌≡◌, ◌≤◌, ◌++◌, IfOk, OnOk, codes, is_some, length, map, option_and_then};
ghost use Rattle.serde_json.specs.Find.{as_str, get};
ghost use Rattle.serde_json.specs.View.{view};
ghost use Rattle.kd_fields.specs.Gives.{Means};
ghost use Rattle.kd_fields.specs.Steps.{must};
ghost use Rattle.kd_fields.specs.declared.faults.SettingsFault.TheVariants.{Memory};
ghost use Rattle.kd_kea.specs.Network.{all_subnets, as_member, has_network_form, is_in_one_of, is_interface_of, kea_common, kea_member, kea_network, kea_subnets, numbered, relays_or, with_network};

use crate::objects::subnet::{Above, SubnetReader, above_in};
use kd_classes::OptionList;
use kd_config::{Subnet, classes_joined, classes_of, options_copied};
use kd_fields::faults::SettingsFault;
use kd_fields::lists::{EntryReader, entries_of};
use kd_fields::place::{Place, bad_value, unknown};
use kd_fields::values::text_or_none;
use kd_keys::checking::check_keys;
use kd_keys::definition::DefinedOption;
use kd_keys::flags::{non_empty, text_at};
use kd_keys::options::options_of;
use kd_keys::policy::check_policy;
use kd_keys::relay::relays_in;
use kd_keys::scope::part_scope;
use kd_keys::tables::ObjectKind;
use kd_wire::{Bytes, Entries};
use serde_json::Value;
use std::alloc::{AllocError, Global};

// The most subnets of a server.
const MOST_SUBNETS: usize = 256;

// Reads the subnets in the value of `Dhcp4`: the members of its networks, and then the others.
#[tactic(auto, unfolding(crate::specs::Network::kea_subnets), using(kd_json::proofs::Came::few_meant))]
pub(crate) fn subnets_of(
    alloc: Global,
    dhcp4: &Value,
    at: &Place<'_>,
    above: Above,
    known: &[DefinedOption],
) -> Result<Entries<Subnet>, SettingsFault>
    ensures { Means Memory result (kea_subnets above known.now (view dhcp4.now)) }
{
    let reader = NetworkReader { above, known };
    let networks = entries_of(alloc, dhcp4, at, "shared-networks", 256, &reader)?;
    let reader = SubnetReader { above, known };
    let others = entries_of(alloc, dhcp4, at, "subnet4", 256, &reader)?;
    subnets_together(alloc, at, networks, others)
}

// Returns the members of networks, numbered, and then other subnets: at most 256 together.
fn subnets_together(
    alloc: Global,
    at: &Place<'_>,
    networks: Entries<Entries<Subnet>>,
    others: Entries<Subnet>,
) -> Result<Entries<Subnet>, SettingsFault>
    requires { length networks ≤ 256 }
    ensures { Means Memory result (all_subnets networks others) }
{
    let mut all = numbered_members(alloc, networks)?;
    let mut others = others.into_vec();
    all.append(&mut others)?;
    if all.len() <= MOST_SUBNETS {
        Ok(Entries::own(all))
    } else {
        Err(bad_value(alloc, at, "shared-networks"))
    }
}

// Returns the members of networks, each with the number of its network, from 1.
fn numbered_members(
    alloc: Global,
    networks: Entries<Entries<Subnet>>,
) -> Result<Vec<Subnet>, AllocError>
    requires { length networks ≤ 256 }
    ensures { IfOk result (λ members. members.items ≡ numbered 1 networks) }
{
    let mut all = Vec::new(alloc);
    let mut number = 1;
    for members in networks.into_vec() {
        push_members(&mut all, members, number)?;
        number += 1;
    }
    Ok(all)
}

// Appends the members of the network with a number.
fn push_members(
    out: &mut Vec<Subnet>,
    members: Entries<Subnet>,
    number: u32,
) -> Result<(), AllocError>
    ensures { OnOk result (out.new.items ≡ out.old.items ++ map (with_network number) members) }
{
    for member in members.into_vec() {
        out.push(Subnet {
            network: number,
            ..member
        })?;
    }
    Ok(())
}

/// What the members of a network have in common.
#[derive(Drop)]
pub struct Common {
    /// The relays of a member that names none.
    pub relays: Entries<u32>,
    /// The classes that each member requires.
    pub classes: Entries<Bytes>,
    /// The options of the network.
    pub options: OptionList,
}

/// Reads networks.
#[derive(Clone, Copy)]
pub struct NetworkReader<'a> {
    pub above: Above,
    /// The definitions of options.
    pub known: &'a [DefinedOption],
}

impl<'a> EntryReader for NetworkReader<'a> {
    type Entry = Entries<Subnet>;

    ghost means = { λ reader. kea_network reader.above reader.known.now };

    #[tactic(auto, unfolding(crate::specs::Network::kea_network))]
    fn read(
        &self,
        alloc: Global,
        value: &Value,
        at: &Place<'_>,
    ) -> Result<Entries<Subnet>, SettingsFault> {
        check_form(alloc, value, at, self.above)?;
        let common = common_of(alloc, value, at, self.known)?;
        let above = above_in(alloc, value, at, self.above)?;
        let reader = MemberReader {
            above,
            known: self.known,
            common: &common,
        };
        let members = entries_of(alloc, value, at, "subnet4", 64, &reader)?;
        check_interface(alloc, value, at, self.above.server, members.as_slice())?;
        Ok(members)
    }
}

// Checks that the value has the keys of a network, with values that change nothing for it.
#[tactic(auto, unfolding(crate::specs::Network::has_network_form))]
fn check_form(
    alloc: Global,
    value: &Value,
    at: &Place<'_>,
    above: Above,
) -> Result<(), SettingsFault>
    ensures { Means Memory result (has_network_form above (view value.now)) }
{
    check_keys(alloc, value, at, ObjectKind::Network)?;
    check_policy(alloc, value, at, above.policy)?;
    check_name(alloc, value, at)
}

// Checks that a network has a name.
fn check_name(alloc: Global, network: &Value, at: &Place<'_>) -> Result<(), SettingsFault>
    ensures { Means Memory result
        (must (is_some (option_and_then as_str (get (codes "name") (view network.now))))) }
{
    text_at(alloc, network, at, "name")?;
    Ok(())
}

// Reads what the members of a network have in common.
#[tactic(auto, unfolding(crate::specs::Network::kea_common))]
fn common_of(
    alloc: Global,
    network: &Value,
    at: &Place<'_>,
    known: &[DefinedOption],
) -> Result<Common, SettingsFault>
    ensures { Means Memory result (kea_common known.now (view network.now)) }
{
    let relays = relays_in(alloc, network, at)?;
    let class = text_or_none(alloc, network, at, "client-class")?;
    let options = options_of(alloc, network, at, part_scope(known))?;
    let classes = classes_of(alloc, non_empty(class))?;
    Ok(Common {
        relays,
        classes,
        options,
    })
}

// Checks that a network's interface is the one with the server's address.
fn check_interface(
    alloc: Global,
    network: &Value,
    at: &Place<'_>,
    server: u32,
    members: &[Subnet],
) -> Result<(), SettingsFault>
    ensures { Means Memory result
        (must (is_interface_of (is_in_one_of members.now server)
        (get (codes "interface") (view network.now)))) }
{
    if has_own_interface(network, are_around(members, server)) {
        Ok(())
    } else {
        Err(unknown(alloc, at, "interface"))
    }
}

/// Reports whether a network's interface, if it is given, is the one with the server's address,
/// which is inside the network or not.
pub fn has_own_interface(network: &Value, inside: bool) -> bool
    ensures { result ≡ is_interface_of inside (get (codes "interface") (view network.now)) }
{
    let Some(value) = network.get("interface") else {
        return true;
    };
    match value.as_str() {
        Some(name) => name.is_empty() || inside,
        None => false,
    }
}

// Reports whether an address is in the prefix of one of these members.
fn are_around(members: &[Subnet], address: u32) -> bool
    ensures { result ≡ is_in_one_of members.now address }
{
    members.iter().any(|member| member.prefix.contains(address))
}

// Reads the members of a network.
#[derive(Clone, Copy)]
struct MemberReader<'a> {
    above: Above,
    // The definitions of options.
    known: &'a [DefinedOption],
    common: &'a Common,
}

impl<'a> EntryReader for MemberReader<'a> {
    type Entry = Subnet;

    ghost means = { λ reader. kea_member reader.above reader.known.now reader.common.now };

    #[tactic(auto, unfolding(crate::specs::Network::kea_member))]
    fn read(&self, alloc: Global, value: &Value, at: &Place<'_>) -> Result<Subnet, SettingsFault> {
        let reader = SubnetReader {
            above: self.above,
            known: self.known,
        };
        let subnet = reader.read(alloc, value, at)?;
        Ok(member_of(alloc, self.common, subnet)?)
    }
}

// Makes a subnet a member of a network that has this in common.
#[tactic(auto, unfolding(crate::specs::Network::as_member))]
fn member_of(alloc: Global, common: &Common, subnet: Subnet) -> Result<Subnet, AllocError>
    ensures { IfOk result (λ member. member ≡ as_member common.now subnet) }
{
    let relays = relays_of_both(alloc, subnet.relays.as_slice(), common.relays.as_slice())?;
    let classes = classes_joined(alloc, subnet.classes.as_slice(), common.classes.as_slice())?;
    let shared = options_copied(alloc, common.options.as_slice())?;
    Ok(Subnet {
        prefix: subnet.prefix,
        relays,
        classes,
        pools: subnet.pools,
        reservations: subnet.reservations,
        options: subnet.options,
        network: 0,
        shared,
        boot: subnet.boot,
        term: subnet.term,
    })
}

// Returns the relays of a member: its own, or those of its network if it names none.
fn relays_of_both(alloc: Global, own: &[u32], others: &[u32]) -> Result<Entries<u32>, AllocError>
    ensures { IfOk result (λ relays. relays ≡ relays_or own.now others.now) }
{
    Ok(Entries::own(Vec::from_slice(alloc, one_of(own, others))?))
}

// Returns some relays, or others if there are none.
fn one_of<'a>(own: &'a [u32], others: &'a [u32]) -> &'a [u32]
    ensures { result.now ≡ relays_or own.now others.now }
{
    match own {
        [] => others,
        _ => own,
    }
}
