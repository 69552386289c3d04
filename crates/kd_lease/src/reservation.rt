ghost use Rattle.std.specs.Prelude.{◌≡◌, ◌&&◌, None, Some, if◌then◌else◌};
ghost use Rattle.std.specs.List.{find, list_any};
ghost use Rattle.std.specs.Option.{option_copied};
ghost use Rattle.kd_lease.specs.Choice.{reserved_anywhere, reserved_in, client_reservation, address_reserved, is_from, ranked_reservation, reservation_by, same_value};
ghost use Rattle.kd_lease.specs.Given.{reserved_options};
ghost use Rattle.kd_lease.specs.Kept.{if_unseen, is_behind_circuit, is_own, is_own_in_classes, may_be_unseen, renews_alone, reservation_at, unseen_reservation};
ghost use Rattle.kd_lease.specs.Seeking.{reserves};

use crate::client::identity_bytes;
use crate::keeping::is_renewed_alone;
use kd_classes::OptionData;
use kd_config::{Config, Identity, IdentityKind, Reservation, Subnet};
use kd_machine::Held;
use kd_options::Message;
use kd_options::codes::OPTION_CLIENT_IDENTIFIER;
use kd_wire::Bytes;

// Returns the address that is reserved in a subnet for the client of a message, which is in the
// classes with these names.
pub(crate) fn reserved_address(
    config: &Config,
    names: &Held,
    message: &Message<'_>,
    subnet: &Subnet,
) -> Option<u32>
    ensures { result ≡ address_reserved config.now names.now message.now subnet.now }
{
    match reservation_of(config, names, message, subnet) {
        Some(reservation) => reservation.address,
        None => None,
    }
}

/// Returns the reservation of a subnet for the client of a message, which is in the classes with
/// these names: where kinds of identities have an order, that by the first kind of those whose
/// classes are held; otherwise the first by its hardware address or its option 61.
pub fn reservation_of<'a>(
    config: &Config,
    names: &Held,
    message: &Message<'_>,
    subnet: &'a Subnet,
) -> Option<&'a Reservation>
    ensures { option_copied result
        ≡ client_reservation config.now names.now message.now subnet.now }
{
    match config.extensions().identity_order.as_slice() {
        [] => first_listed(message, subnet),
        kinds => ranked(kinds, names, message, subnet),
    }
}

// Returns the first reservation for the client of a message, by its hardware address or its option 61.
#[tactic(auto, using(crate::proofs::Reserved::reservation_listed))]
fn first_listed<'a>(message: &Message<'_>, subnet: &'a Subnet) -> Option<&'a Reservation>
    ensures { option_copied result
        ≡ find (λ reservation. is_from message.now reservation.identity) subnet.now.reservations }
{
    subnet
        .reservations
        .of_client(message.mac(), message.option(OPTION_CLIENT_IDENTIFIER))
}

// Returns the reservation for the client of a message by the first of these kinds of identity that has
// one whose classes are held.
fn ranked<'a>(
    kinds: &[IdentityKind],
    names: &Held,
    message: &Message<'_>,
    subnet: &'a Subnet,
) -> Option<&'a Reservation>
    ensures { option_copied result ≡ ranked_reservation kinds.now names.now message.now subnet.now }
{
    for kind in kinds {
        if let Some(found) = by_kind(names, message, subnet, *kind) {
            return Some(found);
        }
    }
    None
}

// Returns the first reservation for the client of a message by a kind of identity whose classes are
// held.
fn by_kind<'a>(
    names: &Held,
    message: &Message<'_>,
    subnet: &'a Subnet,
    kind: IdentityKind,
) -> Option<&'a Reservation>
    ensures { option_copied result ≡ reservation_by names.now message.now subnet.now kind }
{
    subnet
        .reservations
        .admitting(kind, identity_bytes(message, kind), names)
}

/// Returns the reservation that counts for the reply to a message with an address, in host order: that
/// of its client, or else, where leases are kept and the message renews the address without a relay,
/// that of the address, if it may be the client's.
pub fn reservation_for<'a>(
    config: &Config,
    names: &Held,
    message: &Message<'_>,
    subnet: &'a Subnet,
    address: u32,
) -> Option<&'a Reservation>
    ensures { option_copied result
        ≡ reservation_at config.now names.now message.now subnet.now address }
{
    match reservation_of(config, names, message, subnet) {
        Some(reservation) => Some(reservation),
        None => unseen(config, message, subnet, address),
    }
}

// Returns the reservation of an address, if it may be that of the message's client, the message renews
// the address without a relay and clients keep their leases.
fn unseen<'a>(
    config: &Config,
    message: &Message<'_>,
    subnet: &'a Subnet,
    address: u32,
) -> Option<&'a Reservation>
    ensures { option_copied result
        ≡ (if config.now.extensions.keeps_leases && renews_alone message.now address
        then unseen_reservation message.now subnet.now address else None) }
{
    if config.extensions().keeps_leases && is_renewed_alone(message, address) {
        unseen_of(message, subnet, address)
    } else {
        None
    }
}

// Returns the reservation of an address if it may be for the client of a message although no relay
// says what shows it.
pub(crate) fn unseen_of<'a>(
    message: &Message<'_>,
    subnet: &'a Subnet,
    address: u32,
) -> Option<&'a Reservation>
    ensures { option_copied result ≡ unseen_reservation message.now subnet.now address }
{
    match subnet.reservations.of_address(address) {
        Some(reservation) => if_its(message, reservation),
        None => None,
    }
}

// Returns a reservation if it may be for the client of a message although no relay says what shows it.
fn if_its<'a>(message: &Message<'_>, reservation: &'a Reservation) -> Option<&'a Reservation>
    ensures { option_copied result ≡ if_unseen message.now (Some reservation.now) }
{
    if may_be_its(message, reservation) {
        Some(reservation)
    } else {
        None
    }
}

// Reports whether a reservation is for a circuit, or for the client of a message in some classes.
fn may_be_its(message: &Message<'_>, reservation: &Reservation) -> bool
    ensures { result ≡ may_be_unseen message.now reservation.now }
{
    is_for_circuit(&reservation.identity) || is_own_in_some(message, reservation)
}

/// Reports whether a reservation is for the client of a message by what the client itself says, in
/// some classes.
pub fn is_own_in_some(message: &Message<'_>, reservation: &Reservation) -> bool
    ensures { result ≡ is_own_in_classes message.now reservation.now }
{
    is_for(message, &reservation.identity) && reservation.classes.as_slice().len() != 0
}

// Reports whether a client is known by its circuit.
fn is_for_circuit(identity: &Identity) -> bool
    ensures { result ≡ is_behind_circuit identity.now }
{
    match identity {
        Identity::Circuit(_) => true,
        _ => false,
    }
}

// Reports whether a reservation is for the client of a message by what the client itself says.
fn is_for(message: &Message<'_>, identity: &Identity) -> bool
    ensures { result ≡ is_own message.now identity.now }
{
    match identity {
        Identity::Hardware(bytes) => message.mac() == bytes.as_slice(),
        Identity::Duid(bytes) => is_value(bytes, identity_bytes(message, IdentityKind::Duid)),
        Identity::Circuit(_) => false,
        Identity::ClientId(bytes) => is_value(bytes, message.option(OPTION_CLIENT_IDENTIFIER)),
    }
}

// Reports whether there is a value and it is these bytes.
fn is_value(bytes: &Bytes, value: Option<&[u8]>) -> bool
    ensures { result ≡ same_value bytes.now (option_copied value.entry) }
{
    match value {
        Some(value) => value == bytes.as_slice(),
        None => false,
    }
}

/// Returns the options of the reservation that counts for the reply to a message with an address, in
/// host order; none if there is no such reservation. None is searched in a subnet whose reservations have
/// no options.
#[tactic(auto, using(crate::proofs::Ungiven::no_reserved_options))]
pub fn reservation_options<'a>(
    config: &Config,
    names: &Held,
    message: &Message<'_>,
    subnet: &'a Subnet,
    address: u32,
) -> &'a [OptionData]
    ensures { result.now ≡ reserved_options config.now names.now message.now subnet.now address }
{
    if !subnet.reservations.gives_options() {
        return &[];
    }
    match reservation_for(config, names, message, subnet, address) {
        Some(reservation) => reservation.options.as_slice(),
        None => &[],
    }
}

/// Reports whether an address, in host order, is reserved in a subnet of the configuration.
pub fn is_reserved(config: &Config, address: u32) -> bool
    ensures { result ≡ reserved_anywhere config.now address }
{
    if config.reserves_any() {
        are_keeping(address, config.subnets())
    } else {
        false
    }
}

// Reports whether one of these subnets has an address in its prefix and a reservation of it.
fn are_keeping(address: u32, subnets: &[Subnet]) -> bool
    ensures { result ≡ list_any (reserves address) subnets.now }
{
    subnets.iter().any(|subnet| keeps(address, subnet))
}

// Reports whether a subnet has an address in its prefix and a reservation of it.
fn keeps(address: u32, subnet: &Subnet) -> bool
    ensures { result ≡ reserves address subnet.now }
{
    subnet.prefix.contains(address) && is_reserved_in(address, subnet)
}

// Reports whether a subnet has a reservation of this address.
pub(crate) fn is_reserved_in(address: u32, subnet: &Subnet) -> bool
    ensures { result ≡ reserved_in address subnet.now }
{
    subnet.reservations.has(address)
}
