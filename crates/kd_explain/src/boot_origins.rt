ghost use Rattle.std.specs.Prelude.{◌≡◌};
ghost use Rattle.std.specs.Option.{option_copied};
ghost use Rattle.kd_lease.specs.Booting.{boots_reserved};
ghost use Rattle.kd_explain.specs.BootLines.{IsBootOrigin, gives_field, one_gives};

use crate::gift::{Gift, class_giving};
use crate::origins::Origin;
use kd_classes::Boot;
use kd_config::{Config, Reservation, Subnet};
use kd_lease::reservation_for;
use kd_machine::Held;
use kd_options::Message;

/// A field of a reply by which its client boots (RFC 2131 section 2, figure 1).
#[derive(Clone, Copy, PartialEq, Eq)]
pub enum BootField {
    /// The address of the next server.
    Siaddr,
    /// The name of that server.
    Sname,
    /// The name of the boot file.
    File,
}

/// Returns where the value of a boot field comes from at an address, in host order, of a subnet,
/// for the client of a message, which is a member of the classes with these names. This is the
/// first of reservation, classes in order and subnet that gives it a value; `None` if none does. In
/// a shared network the subnet is the one that has the address.
pub fn boot_origin_of(
    config: &Config,
    subnet: &Subnet,
    names: &Held,
    message: &Message<'_>,
    address: u32,
    field: BootField,
) -> Option<Origin>
    ensures { IsBootOrigin config.now subnet.now names.now message.now address field result }
{
    if host_gives(
        reservation_for(config, names, message, subnet, address),
        field,
    ) {
        return Some(Origin::Reservation);
    }
    if let Some(index) = class_giving(config.classes(), names, Gift::Field(field)) {
        return Some(Origin::Class(index));
    }
    let part = config.member_with(subnet, address);
    if gives(part.boot, field) {
        Some(Origin::Subnet)
    } else {
        None
    }
}

// Reports whether there is a reservation and it gives a value to a field.
fn host_gives(reservation: Option<&Reservation>, field: BootField) -> bool
    ensures { result ≡ one_gives field (boots_reserved (option_copied reservation.entry)) }
{
    match reservation {
        Some(reservation) => any_gives(reservation.boots.as_slice(), field),
        None => false,
    }
}

// Reports whether one of these gives a value to a field.
fn any_gives(boots: &[Boot], field: BootField) -> bool
    ensures { result ≡ one_gives field boots.now }
{
    boots.iter().any(|boot| gives(*boot, field))
}

// Reports whether a value is given to a field.
pub(crate) fn gives(boot: Boot, field: BootField) -> bool
    ensures { result ≡ gives_field field boot }
{
    match field {
        BootField::Siaddr => boot.next_server.is_some(),
        BootField::Sname => boot.server_name.is_some(),
        BootField::File => boot.file_name.is_some(),
    }
}
