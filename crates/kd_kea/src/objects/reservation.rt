ghost use Rattle.std.specs.Prelude.{codes};
ghost use Rattle.serde_json.specs.Find.{get};
ghost use Rattle.serde_json.specs.View.{view};
ghost use Rattle.kd_fields.specs.Gives.{Means};
ghost use Rattle.kd_fields.specs.declared.faults.SettingsFault.TheVariants.{Memory};
ghost use Rattle.kd_kea.specs.Reservation.{address_if_given, kea_reservation};

use kd_config::Reservation;
use kd_fields::faults::SettingsFault;
use kd_fields::lists::EntryReader;
use kd_fields::place::{Place, bad_value};
use kd_fields::values::address_in;
use kd_keys::boot::{boot_list, own_boot_of};
use kd_keys::checking::check_keys;
use kd_keys::class_names::classes_given_by;
use kd_keys::definition::DefinedOption;
use kd_keys::host_client::client_of;
use kd_keys::host_kinds::{HostKinds, check_kinds};
use kd_keys::host_name::host_options_of;
use kd_keys::tables::ObjectKind;
use kd_wire::Entries;
use serde_json::Value;
use std::alloc::Global;

/// Reads reservations.
#[derive(Clone, Copy)]
pub struct ReservationReader<'a> {
    /// The definitions of options.
    pub known: &'a [DefinedOption],
    /// By which kinds of identity reservations are looked for.
    pub kinds: HostKinds,
    /// Host names have no suffix.
    pub bare: bool,
}

impl<'a> EntryReader for ReservationReader<'a> {
    type Entry = Reservation;

    ghost means = { λ reader. kea_reservation reader.known.now reader.kinds reader.bare };

    #[tactic(auto, unfolding(crate::specs::Reservation::kea_reservation))]
    fn read(
        &self,
        alloc: Global,
        value: &Value,
        at: &Place<'_>,
    ) -> Result<Reservation, SettingsFault> {
        check_keys(alloc, value, at, ObjectKind::Reservation)?;
        check_kinds(alloc, value, at, self.kinds)?;
        let identity = client_of(alloc, value, at)?;
        let address = given_address(alloc, value, at)?;
        let options = host_options_of(alloc, value, at, self.known, self.bare)?;
        let boot = own_boot_of(alloc, value, at)?;
        let joins = classes_given_by(alloc, value, at)?;
        Ok(Reservation {
            identity,
            address,
            options,
            boots: boot_list(alloc, boot)?,
            classes: Entries::own(Vec::new(alloc)),
            joins,
        })
    }
}

// Reads the address of a reservation, if it is given.
fn given_address(alloc: Global, host: &Value, at: &Place<'_>) -> Result<Option<u32>, SettingsFault>
    ensures { Means Memory result (address_if_given (get (codes "ip-address") (view host.now))) }
{
    let Some(value) = host.get("ip-address") else {
        return Ok(None);
    };
    match address_in(value) {
        Some(address) => Ok(Some(address)),
        None => Err(bad_value(alloc, at, "ip-address")),
    }
}
