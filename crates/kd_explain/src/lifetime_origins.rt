ghost use Rattle.kd_config.specs.Networks.{part_holding};
ghost use Rattle.kd_explain.specs.Lifetimes.{IsLifetimeOrigin};

use crate::gift::{Gift, class_giving};
use crate::origins::Origin;
use kd_config::{Config, Subnet};
use kd_machine::Held;

/// Returns where the lifetime of a lease comes from at an address, in host order, of a subnet, for a
/// client that is a member of the classes with these names. This is the first class that has a
/// lifetime, or else the subnet; `None` if the subnet has none, so that it is that of the whole
/// server. In a shared network the subnet is the one that has the address.
pub fn lifetime_origin_of(
    config: &Config,
    subnet: &Subnet,
    names: &Held,
    address: u32,
) -> Option<Origin>
    ensures { IsLifetimeOrigin config.now (part_holding config.now.subnets subnet.now address).term
        names.now result }
{
    if config.term_at(subnet, address).is_none() {
        return None;
    }
    match class_giving(config.classes(), names, Gift::Lifetime) {
        Some(index) => Some(Origin::Class(index)),
        None => Some(Origin::Subnet),
    }
}
