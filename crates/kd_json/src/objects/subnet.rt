ghost use Rattle.std.specs.Prelude.{◌≡◌};
ghost use Rattle.serde_json.specs.View.{view};
ghost use Rattle.kd_fields.specs.Gives.{Means};
ghost use Rattle.kd_fields.specs.Steps.{must};
ghost use Rattle.kd_json.specs.Subnet.{has_subnet_keys, subnet_of, subnet_prefix, subnet_with};
ghost use Rattle.kd_fields.specs.declared.faults.SettingsFault.TheVariants.{Memory};

use crate::objects::options::options_of;
use crate::objects::pool::PoolReader;
use crate::objects::reservation::ReservationReader;
use crate::text::prefix::prefix_of;
use kd_classes::{Boot, OptionList};
use kd_config::{Prefix, Reservations, Subnet, classes_of};
use kd_fields::faults::SettingsFault;
use kd_fields::lists::{EntryReader, entries_of};
use kd_fields::place::{Place, bad_value};
use kd_fields::values::{check_keys, number_or, text_or_none};
use kd_wire::{Bytes, Entries};
use serde_json::Value;
use std::alloc::Global;

// Reads subnets.
pub(crate) struct SubnetReader;

impl EntryReader for SubnetReader {
    type Entry = Subnet;

    ghost means = { λ _. subnet_of };

    #[tactic(auto, unfolding(crate::specs::Subnet::subnet_of))]
    fn read(&self, alloc: Global, value: &Value, at: &Place<'_>) -> Result<Subnet, SettingsFault> {
        check_subnet(alloc, value, at)?;
        number_or(alloc, value, at, "id", 1, 4_294_967_294, 1)?;
        let Some(prefix) = value.get("subnet").and_then(prefix_in) else {
            return Err(bad_value(alloc, at, "subnet"));
        };
        let class = text_or_none(alloc, value, at, "client-class")?;
        let classes = classes_of(alloc, class)?;
        subnet_of_lists(alloc, value, at, prefix, classes)
    }
}

// Builds the subnet of a prefix and classes with the lists in a value.
#[tactic(auto, unfolding(crate::specs::Subnet::subnet_with))]
fn subnet_of_lists(
    alloc: Global,
    value: &Value,
    at: &Place<'_>,
    prefix: Prefix,
    classes: Entries<Bytes>,
) -> Result<Subnet, SettingsFault>
    ensures { Means Memory result (subnet_with prefix classes (view value.now)) }
{
    let pools = entries_of(alloc, value, at, "pools", 64, &PoolReader)?;
    let reservations = entries_of(alloc, value, at, "reservations", 4096, &ReservationReader)?;
    let options = options_of(alloc, value, at)?;
    let reservations = Reservations::own(alloc, reservations.into_vec())?;
    Ok(Subnet {
        prefix,
        relays: Entries::own(Vec::new(alloc)),
        classes,
        pools,
        reservations,
        options,
        network: 0,
        shared: OptionList::own(Vec::new(alloc)),
        boot: Boot::none(),
        term: None,
    })
}

// Checks that the value is an object with the keys of a subnet.
#[tactic(auto, unfolding(crate::specs::Subnet::has_subnet_keys))]
fn check_subnet(alloc: Global, value: &Value, at: &Place<'_>) -> Result<(), SettingsFault>
    ensures { Means Memory result (must (has_subnet_keys (view value.now))) }
{
    let known = [
        "id",
        "subnet",
        "client-class",
        "pools",
        "reservations",
        "option-data",
    ];
    check_keys(alloc, value, at, &known, &["subnet"])
}

/// Returns the prefix of a subnet, `address/length`; bits of the address after the length are cleared.
#[tactic(auto, unfolding(crate::specs::Subnet::subnet_prefix))]
pub fn prefix_in(value: &Value) -> Option<Prefix>
    ensures { result ≡ subnet_prefix (view value.now) }
{
    prefix_of(value.as_str()?.as_bytes())
}
