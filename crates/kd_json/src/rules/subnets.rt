ghost use Rattle.std.specs.Prelude.{◌≡◌, ◌≢◌, ◌==◌, ◌-◌, ◌++◌, [], IfErr, IfOk, if◌then◌else◌, length};
ghost use Rattle.std.specs.Fmt.{decimal};
ghost use Rattle.indexmap.specs.IndexSet.{keys};
ghost use Rattle.kd_json.specs.FirstFault.{SubnetFails, SubnetsFail, in_network};
ghost use Rattle.kd_fields.specs.Place.{path_below};
ghost use Rattle.kd_fields.specs.Gives.{Means, GivesAs};
ghost use Rattle.kd_json.specs.Parts.{obey_within, obeys_within};
ghost use Rattle.kd_fields.specs.Place.{path_at};
ghost use Rattle.kd_config.specs.Rules.{may_stand, reserved};
ghost use Rattle.kd_fields.specs.Steps.{must};
ghost use Rattle.kd_json.specs.declared.fault.ConfigFault.TheVariants.{Memory};

use crate::fault::ConfigFault;
use crate::rules::pools::{all_ranges, check_pools, first_overlap};
use crate::rules::reservations::check_reservations;
use indexmap::IndexSet;
use kd_config::Subnet;
use kd_fields::place::Place;
use std::alloc::Global;

// Checks that the subnets obey the rules together.
#[tactic(auto, unfolding(kd_config::specs::Rules::may_stand))]
pub(crate) fn check_rules(alloc: Global, subnets: &[Subnet]) -> Result<(), ConfigFault>
    ensures checked { Means Memory result (must (may_stand subnets.now)) }
    ensures first { IfErr result (λ fault. fault ≢ Memory
        → SubnetsFail may_stand subnets.now fault) }
{
    let ranges = all_ranges(alloc, subnets)?;
    let apart = first_overlap(alloc, &ranges)?;
    check_each(alloc, subnets, apart)
}

// Checks that the subnets obey the rules in order, and have at most `apart` pools.
fn check_each(alloc: Global, subnets: &[Subnet], apart: usize) -> Result<(), ConfigFault>
    ensures checked { Means Memory result (must (obey_within apart [] subnets.now)) }
    ensures first { IfErr result (λ fault. fault ≢ Memory
        → SubnetsFail (obey_within apart []) subnets.now fault) }
{
    let root = Place::Root;
    let dhcp4 = Place::Key(&root, "Dhcp4");
    let networks = Place::Key(&dhcp4, "shared-networks");
    let mut left = apart;
    let mut earlier = IndexSet::new(alloc);
    for i in 0..subnets.len() {
        let subnet = &subnets[i];
        let owner = owner_at(&dhcp4, &networks, subnet.network);
        let list = Place::Key(&owner, "subnet4");
        let place = Place::Item(&list, count_in(&subnets[..i], subnet.network));
        left = check_subnet(alloc, subnet, left, &place, &mut earlier)?;
    }
    Ok(())
}

// Returns the place of the object that lists the subnets of the network with a number: its item in
// `networks`, or `dhcp4` if the number is 0.
fn owner_at<'a>(dhcp4: &Place<'a>, networks: &'a Place<'a>, number: u32) -> Place<'a>
    ensures { path_at result ≡ (if number == 0 then path_at dhcp4.now
        else path_below (path_at networks.now) (decimal (number - 1))) }
{
    match number {
        0 => *dhcp4,
        _ => Place::Item(networks, number as usize - 1),
    }
}

// Counts the subnets that are in the network with a number, or in none if it is 0.
fn count_in(subnets: &[Subnet], number: u32) -> usize
    ensures { result ≡ in_network number subnets.now }
{
    subnets.iter().filter(|s| s.network == number).count()
}

// Checks that a subnet obeys its rules and has at most `apart` pools. Returns how many pools may
// still follow; the reserved addresses of the subnet are added to the earlier ones.
#[tactic(auto, unfolding(kd_config::specs::Rules::obeys))]
fn check_subnet(
    alloc: Global,
    subnet: &Subnet,
    apart: usize,
    at: &Place<'_>,
    earlier: &mut IndexSet<u32>,
) -> Result<usize, ConfigFault>
    ensures left { IfOk result (λ left. left ≡ apart - length subnet.now.pools) }
    ensures joined { IfOk result
        (λ _. keys earlier.new ≡ keys earlier.old ++ reserved subnet.now.reservations) }
    ensures checked { GivesAs Memory (λ _. tt) result
        (must (obeys_within apart (keys earlier.old) subnet.now)) }
    ensures first { IfErr result (λ fault. fault ≢ Memory
        → SubnetFails (obeys_within apart (keys earlier.old)) (path_at at.now) (keys earlier.old)
        subnet.now fault) }
{
    let pools = subnet.pools.as_slice();
    check_pools(
        alloc,
        subnet.prefix,
        pools,
        apart,
        &Place::Key(&*at, "pools"),
    )?;
    let reservations = Place::Key(&*at, "reservations");
    let list = subnet.reservations.as_slice();
    check_reservations(alloc, subnet.prefix, list, &reservations, earlier)?;
    Ok(apart - pools.len())
}
