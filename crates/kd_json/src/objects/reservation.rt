ghost use Rattle.std.specs.Prelude.{◌≡◌};
ghost use Rattle.serde_json.specs.View.{view};
ghost use Rattle.kd_fields.specs.Gives.{Means};
ghost use Rattle.kd_json.specs.Reservation.{has_reservation_keys, identity_given, one_identity, reservation_of};
ghost use Rattle.kd_fields.specs.Steps.{must};
ghost use Rattle.kd_fields.specs.declared.faults.SettingsFault.TheVariants.{Memory};

use kd_classes::{BootList, OptionList};
use kd_config::{Identity, Reservation};
use kd_fields::faults::SettingsFault;
use kd_fields::lists::EntryReader;
use kd_fields::place::{Place, bad_value, missing};
use kd_fields::values::{address_in, bytes_or_none, check_keys};
use kd_wire::{Bytes, Entries};
use serde_json::Value;
use std::alloc::Global;

// Reads reservations.
pub(crate) struct ReservationReader;

impl EntryReader for ReservationReader {
    type Entry = Reservation;

    ghost means = { λ _. reservation_of };

    #[tactic(auto, unfolding(crate::specs::Reservation::reservation_of))]
    fn read(
        &self,
        alloc: Global,
        value: &Value,
        at: &Place<'_>,
    ) -> Result<Reservation, SettingsFault> {
        check_reservation(alloc, value, at)?;
        let identity = identity_in(alloc, value, at)?;
        match value.get("ip-address").and_then(address_in) {
            Some(address) => Ok(Reservation {
                identity,
                address: Some(address),
                options: OptionList::own(Vec::new(alloc)),
                boots: BootList::own(Vec::new(alloc)),
                classes: Entries::own(Vec::new(alloc)),
                joins: Entries::own(Vec::new(alloc)),
            }),
            None => Err(bad_value(alloc, at, "ip-address")),
        }
    }
}

// Checks that the value is an object with the keys of a reservation.
#[tactic(auto, unfolding(crate::specs::Reservation::has_reservation_keys))]
fn check_reservation(alloc: Global, value: &Value, at: &Place<'_>) -> Result<(), SettingsFault>
    ensures { Means Memory result (must (has_reservation_keys (view value.now))) }
{
    let known = ["hw-address", "client-id", "ip-address"];
    check_keys(alloc, value, at, &known, &["ip-address"])
}

/// Reads the client of a reservation: the hexadecimal bytes at `hw-address`, 1 to 16, or at
/// `client-id`, 1 to 255.
///
/// # Errors
///
/// `BadValue` for a value that is not such bytes, and if both keys are there; `Missing` if none is.
#[tactic(auto, unfolding(crate::specs::Reservation::identity_given))]
pub fn identity_in(alloc: Global, value: &Value, at: &Place<'_>) -> Result<Identity, SettingsFault>
    ensures { Means Memory result (identity_given (view value.now)) }
{
    let hardware = bytes_or_none(alloc, value, at, "hw-address", 16)?;
    let client = bytes_or_none(alloc, value, at, "client-id", 255)?;
    identity_of(alloc, at, hardware, client)
}

// A reservation has one of the two identities, but not both.
fn identity_of(
    alloc: Global,
    at: &Place<'_>,
    hardware: Option<Bytes>,
    client: Option<Bytes>,
) -> Result<Identity, SettingsFault>
    ensures { Means Memory result (one_identity hardware client) }
{
    match (hardware, client) {
        (Some(hardware), None) => Ok(Identity::Hardware(hardware)),
        (None, Some(client)) => Ok(Identity::ClientId(client)),
        (None, None) => Err(missing(alloc, at, "hw-address")),
        (Some(_), Some(_)) => Err(bad_value(alloc, at, "client-id")),
    }
}
