ghost use Rattle.std.specs.Prelude.{◌≡◌, ◌≢◌, ◌++◌, ◌∷◌, ◌&&◌, [], IfErr, IfOk, codes, if◌then◌else◌, map};
ghost use Rattle.indexmap.specs.IndexSet.{keys};
ghost use Rattle.kd_config.specs.Reservation.{listed};
ghost use Rattle.kd_json.specs.Faults.{config_fault_number, fault_path};
ghost use Rattle.kd_json.specs.FirstFault.{ReservationFails, client_key, lies_in, wrong_key};
ghost use Rattle.kd_fields.specs.Place.{path_below};
ghost use Rattle.kd_fields.specs.Gives.{Means};
ghost use Rattle.kd_json.specs.Parts.{client_by};
ghost use Rattle.kd_fields.specs.Place.{path_at};
ghost use Rattle.kd_config.specs.Rules.{is_new, may_all_reserve, may_have, may_reserve, reserved};
ghost use Rattle.kd_fields.specs.Steps.{must};
ghost use Rattle.kd_json.specs.declared.fault.ConfigFault.TheVariants.{Memory};

use crate::fault::ConfigFault;
use crate::rules::fault_at::{outside, repeated_key};
use indexmap::IndexSet;
use kd_config::{Identity, Prefix, Reservation};
use kd_fields::place::Place;
use std::alloc::Global;

// A client by borrowed bytes.
#[derive(Clone, Copy, PartialEq, Eq, Hash)]
pub(crate) enum ClientKey<'a> {
    // The client with this hardware address.
    Hardware(&'a [u8]),
    // The client with this DUID.
    Duid(&'a [u8]),
    // The client behind this circuit.
    Circuit(&'a [u8]),
    // The client with this identifier.
    ClientId(&'a [u8]),
}

// Checks that reservations have addresses in their subnet's prefix and that no address, and no
// client of the subnet, is reserved twice; adds the addresses to the earlier ones.
pub(crate) fn check_reservations(
    alloc: Global,
    prefix: Prefix,
    reservations: &[Reservation],
    at: &Place<'_>,
    earlier: &mut IndexSet<u32>,
) -> Result<(), ConfigFault>
    ensures joined { IfOk result
        (λ _. keys earlier.new ≡ keys earlier.old ++ reserved reservations.now) }
    ensures checked { Means Memory result
        (must (may_all_reserve prefix (keys earlier.old) [] reservations.now)) }
    ensures first { IfErr result (λ fault. fault ≢ Memory
        → ReservationFails (may_all_reserve prefix (keys earlier.old) []) (path_at at.now)
        (keys earlier.old) prefix reservations.now fault) }
{
    let mut clients = IndexSet::new(alloc);
    for i in 0..reservations.len() {
        let place = Place::Item(&*at, i);
        check_reservation(
            alloc,
            prefix,
            &reservations[i],
            &place,
            earlier,
            &mut clients,
        )?;
    }
    Ok(())
}

// Checks that no earlier reservation has the address or the client of this one, and adds them to
// the earlier ones.
#[tactic(auto, using(crate::proofs::FirstFaults::is_inside))]
fn check_reservation<'a>(
    alloc: Global,
    prefix: Prefix,
    reservation: &'a Reservation,
    at: &Place<'_>,
    earlier: &mut IndexSet<u32>,
    clients: &mut IndexSet<ClientKey<'a>>,
) -> Result<(), ConfigFault>
    ensures reserved { IfOk result
        (λ _. keys earlier.new ≡ keys earlier.old ++ listed reservation.now.address) }
    ensures known { IfOk result
        (λ _. map client_by (keys clients.new) ≡ map client_by (keys clients.old)
        ++ reservation.now.identity ∷ []) }
    ensures checked { Means Memory result
        (must (may_reserve prefix (keys earlier.old) reservation.now
        && is_new (map client_by (keys clients.old)) reservation.now.identity)) }
    ensures kind { IfErr result (λ fault. fault ≢ Memory → config_fault_number fault
        ≡ (if lies_in prefix reservation.now.address then 76 else 74)) }
    ensures path { IfErr result (λ fault. fault ≢ Memory → fault_path fault
        ≡ path_below (path_at at.now) (wrong_key prefix (keys earlier.old) reservation.now)) }
{
    check_address(alloc, prefix, reservation.address, at, earlier)?;
    check_client(alloc, &reservation.identity, at, clients)
}

// Checks that an address, if there is one, is of the prefix and that no earlier reservation has it,
// and adds it to the earlier ones.
fn check_address(
    alloc: Global,
    prefix: Prefix,
    address: Option<u32>,
    at: &Place<'_>,
    earlier: &mut IndexSet<u32>,
) -> Result<(), ConfigFault>
    ensures joined { IfOk result
        (λ _. keys earlier.new ≡ keys earlier.old ++ listed address) }
    ensures checked { Means Memory result (must (may_have prefix (keys earlier.old) address)) }
    ensures kind { IfErr result (λ fault. fault ≢ Memory → config_fault_number fault
        ≡ (if lies_in prefix address then 76 else 74)) }
    ensures path { IfErr result (λ fault. fault ≢ Memory
        → fault_path fault ≡ path_below (path_at at.now) (codes "ip-address")) }
{
    let Some(address) = address else {
        return Ok(());
    };
    if !prefix.contains(address) {
        return Err(outside(alloc, at, "ip-address"));
    }
    if earlier.insert(address)? {
        Ok(())
    } else {
        Err(repeated_key(alloc, at, "ip-address"))
    }
}

// Checks that no earlier reservation is for the client, and adds the client to the earlier ones.
fn check_client<'a>(
    alloc: Global,
    identity: &'a Identity,
    at: &Place<'_>,
    earlier: &mut IndexSet<ClientKey<'a>>,
) -> Result<(), ConfigFault>
    ensures joined { IfOk result
        (λ _. map client_by (keys earlier.new) ≡ map client_by (keys earlier.old) ++ identity.now
        ∷ []) }
    ensures checked { Means Memory result
        (must (is_new (map client_by (keys earlier.old)) identity.now)) }
    ensures kind { IfErr result (λ fault. fault ≢ Memory → config_fault_number fault ≡ 76) }
    ensures path { IfErr result (λ fault. fault ≢ Memory
        → fault_path fault ≡ path_below (path_at at.now) (client_key identity.now)) }
{
    if earlier.insert(key_of(identity))? {
        return Ok(());
    }
    match identity {
        Identity::Hardware(_) => Err(repeated_key(alloc, at, "hw-address")),
        Identity::Duid(_) => Err(repeated_key(alloc, at, "duid")),
        Identity::Circuit(_) => Err(repeated_key(alloc, at, "circuit-id")),
        Identity::ClientId(_) => Err(repeated_key(alloc, at, "client-id")),
    }
}

// Returns the client by its borrowed bytes.
fn key_of(identity: &Identity) -> ClientKey<'_>
    ensures { client_by result ≡ identity.now }
{
    match identity {
        Identity::Hardware(bytes) => ClientKey::Hardware(bytes.as_slice()),
        Identity::Duid(bytes) => ClientKey::Duid(bytes.as_slice()),
        Identity::Circuit(bytes) => ClientKey::Circuit(bytes.as_slice()),
        Identity::ClientId(bytes) => ClientKey::ClientId(bytes.as_slice()),
    }
}
