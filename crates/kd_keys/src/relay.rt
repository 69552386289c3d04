ghost use Rattle.std.specs.Prelude.{codes};
ghost use Rattle.serde_json.specs.Find.{get};
ghost use Rattle.serde_json.specs.View.{view};
ghost use Rattle.kd_fields.specs.Gives.{Means};
ghost use Rattle.kd_fields.specs.Values.{address_given};
ghost use Rattle.kd_fields.specs.declared.faults.SettingsFault.TheVariants.{Memory};
ghost use Rattle.kd_keys.specs.Relay.{kea_relay, relays_by, relays_of};

use crate::checking::check_keys;
use crate::tables::ObjectKind;
use kd_fields::faults::SettingsFault;
use kd_fields::lists::{EntryReader, entries_of};
use kd_fields::place::{Place, bad_place, bad_value};
use kd_fields::values::address_in;
use kd_wire::Entries;
use serde_json::Value;
use std::alloc::Global;

// The most relays of a subnet.
const MOST_RELAYS: usize = 64;

/// Reads the relays of the subnet that a value describes; none if it names none.
///
/// # Errors
///
/// `BadValue` with the path of a value that names no relays; `Unknown` with that of a key that may not be
/// there.
pub fn relays_in(
    alloc: Global,
    subnet: &Value,
    at: &Place<'_>,
) -> Result<Entries<u32>, SettingsFault>
    ensures { Means Memory result (relays_of (get (codes "relay") (view subnet.now))) }
{
    match subnet.get("relay") {
        Some(relay) => RelayReader.read(alloc, relay, &Place::Key(&*at, "relay")),
        None => Ok(Entries::own(Vec::new(alloc))),
    }
}

/// Reads the relays of a subnet.
#[derive(Clone, Copy)]
pub struct RelayReader;

impl EntryReader for RelayReader {
    type Entry = Entries<u32>;

    ghost means = { λ _. kea_relay };

    #[tactic(auto, unfolding(crate::specs::Relay::kea_relay))]
    fn read(
        &self,
        alloc: Global,
        value: &Value,
        at: &Place<'_>,
    ) -> Result<Entries<u32>, SettingsFault> {
        check_keys(alloc, value, at, ObjectKind::Relay)?;
        relays_by_keys(alloc, value, at)
    }
}

// Reads relays at the key of a list, or at that of one alone.
fn relays_by_keys(
    alloc: Global,
    value: &Value,
    at: &Place<'_>,
) -> Result<Entries<u32>, SettingsFault>
    ensures { Means Memory result (relays_by (get (codes "ip-addresses") (view value.now))
        (get (codes "ip-address") (view value.now))) }
{
    let Some(one) = value.get("ip-address") else {
        return entries_of(
            alloc,
            value,
            at,
            "ip-addresses",
            MOST_RELAYS,
            &AddressReader,
        );
    };
    match (value.get("ip-addresses"), address_in(one)) {
        (None, Some(address)) => Ok(Entries::own(Vec::from_slice(alloc, &[address])?)),
        _ => Err(bad_value(alloc, at, "ip-address")),
    }
}

// Reads addresses.
struct AddressReader;

impl EntryReader for AddressReader {
    type Entry = u32;

    ghost means = { λ _. address_given };

    fn read(&self, alloc: Global, value: &Value, at: &Place<'_>) -> Result<u32, SettingsFault> {
        match address_in(value) {
            Some(address) => Ok(address),
            None => Err(bad_place(alloc, at)),
        }
    }
}
