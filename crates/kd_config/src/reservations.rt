ghost use Rattle.std.specs.Prelude.{◌≡◌, ◌==◌, ◌&&◌, ◌++◌, IfOk, None, OnOk, Some, [], if◌then◌else◌, nat_eq, slice_get, ℕ};
ghost use Rattle.std.specs.List.{find, list_any};
ghost use Rattle.std.specs.Option.{option_copied, option_or};
ghost use Rattle.indexmap.specs.IndexMap.{get_by};
ghost use Rattle.kd_config.specs.Classed.{classes_admit};
ghost use Rattle.kd_config.specs.Reservation.{AreAddresses, earlier, has_boots, has_options, has_reserved, identified_by, is_client_if, listed, same_address};
ghost use Rattle.kd_config.specs.Rules.{reserved};

use crate::classed::admits;
use crate::clients::{Clients, put_all};
use crate::reservation::{IdentityKind, Reservation};
use indexmap::IndexMap;
use kd_machine::Held;
use std::alloc::{AllocError, Global};
use std::marker::Model;

/// The reservations of a subnet, in the order in which they are written. Finding that of an address,
/// or the first for a client, takes a time that does not grow with their number.
#[derive(Drop)]
pub struct Reservations {
    list: Vec<Reservation>,
    // The index of the first reservation of each address.
    addresses: IndexMap<u32, usize>,
    // The index of the first reservation for each client.
    clients: Clients,
    // For each reservation the index of the next one for its client, if there is one.
    next: Vec<Option<usize>>,
    // Whether a reservation has options.
    options: bool,
    // Whether a reservation has a value for boot fields.
    boots: bool,
}

impl Model for Reservations {
    ghost use Rattle.std.specs.Prelude.{◌≡◌, List, nat_eq};
    ghost use Rattle.std.specs.List.{list_any};
    ghost use Rattle.indexmap.specs.IndexMap.{get_by};
    ghost use Rattle.kd_config.specs.Places.{AreFirst, AreNext};
    ghost use Rattle.kd_config.specs.Reservation.{AreAddresses, has_boots, has_options};
    ghost use Rattle.kd_config.specs.declared.reservation.Reservation.{Reservation};

    ghost Value = { List Reservation };

    ghost view = { λ r. r.list.items };

    ghost invariant = { λ r. AreAddresses (λ a. get_by (nat_eq a) r.addresses) r.list.items
        × AreFirst r.clients 0 r.list.items
        × AreNext 0 r.list.items r.next.items
        × (r.options ≡ list_any has_options r.list.items)
        × (r.boots ≡ list_any has_boots r.list.items) };
}

impl Reservations {
    /// Makes an empty list.
    pub fn none(alloc: Global) -> Reservations
        ensures { result ≡ [] }
    {
        Reservations {
            list: Vec::new(alloc),
            addresses: IndexMap::new(alloc),
            clients: Clients::none(alloc),
            next: Vec::new(alloc),
            options: false,
            boots: false,
        }
    }

    /// Takes ownership of a vector of reservations.
    ///
    /// # Errors
    ///
    /// Out of memory for their addresses and clients.
    pub fn own(alloc: Global, list: Vec<Reservation>) -> Result<Reservations, AllocError>
        ensures { IfOk result (λ reservations. reservations ≡ list.items) }
    {
        let addresses = addresses_of(alloc, &list)?;
        let mut clients = Clients::none(alloc);
        let next = put_all(alloc, &mut clients, &list)?;
        let options = is_any_with_options(&list);
        let boots = is_any_with_boots(&list);
        Ok(Reservations {
            list,
            addresses,
            clients,
            next,
            options,
            boots,
        })
    }

    /// Borrows the reservations as a slice.
    pub fn as_slice(&self) -> &[Reservation]
        ensures { result.now ≡ self.now }
    {
        self.list.as_slice()
    }

    /// Reports whether any reservation has options.
    pub fn gives_options(&self) -> bool
        ensures { result ≡ list_any has_options self.now }
    {
        self.options
    }

    /// Reports whether any reservation has a value for boot fields.
    pub fn gives_boots(&self) -> bool
        ensures { result ≡ list_any has_boots self.now }
    {
        self.boots
    }

    /// Appends the addresses of the reservations that have one, in host order.
    ///
    /// # Errors
    ///
    /// Out of memory.
    pub fn put_addresses(&self, out: &mut Vec<u32>) -> Result<(), AllocError>
        ensures { OnOk result (out.new.items ≡ out.old.items ++ reserved self.now) }
    {
        put_reserved(out, self.as_slice())
    }

    /// Reports whether an address, in host order, is reserved.
    pub fn has(&self, address: u32) -> bool
        ensures { result ≡ list_any (has_reserved address) self.now }
    {
        self.addresses.get(&address).is_some()
    }

    /// Returns the first reservation of an address, in host order, if there is one.
    pub fn of_address(&self, address: u32) -> Option<&Reservation>
        ensures { option_copied result ≡ find (has_reserved address) self.now }
    {
        match self.addresses.get(&address).copied() {
            Some(place) => self.at(place),
            None => None,
        }
    }

    /// Returns the first reservation for the client with a hardware address or an identifier, if
    /// there is one.
    pub fn of_client(&self, mac: &[u8], id: Option<&[u8]>) -> Option<&Reservation>
        ensures { option_copied result
            ≡ find (λ reservation. identified_by mac.now (option_copied id.entry)
            reservation.identity) self.now }
    {
        let hardware = self.clients.index_of(IdentityKind::Hardware, Some(mac));
        let identifier = self.clients.index_of(IdentityKind::ClientId, id);
        match earlier_of(hardware, identifier) {
            Some(place) => self.at(place),
            None => None,
        }
    }

    /// Returns the first reservation for the client that has these bytes by a kind of identity, and
    /// is in the classes with these names, each of which the reservation requires; none if there are
    /// no bytes. It takes a step for each reservation of the client.
    pub fn admitting(
        &self,
        kind: IdentityKind,
        bytes: Option<&[u8]>,
        names: &Held,
    ) -> Option<&Reservation>
        ensures { option_copied result
            ≡ find (λ reservation. is_client_if kind (option_copied bytes.entry)
            reservation.identity && classes_admit reservation.classes names.now) self.now }
    {
        let mut found = self.clients.index_of(kind, bytes);
        while let Some(place) = found {
            let reservation = &self.list[place];
            if admits(reservation.classes.as_slice(), names) {
                return Some(reservation);
            }
            found = self.next[place];
        }
        None
    }

    // Returns the reservation at an index, if there is one.
    fn at(&self, place: usize) -> Option<&Reservation>
        ensures { option_copied result ≡ slice_get self.now place }
    {
        self.list.get(place)
    }
}

// Reports whether one of these reservations has options.
fn is_any_with_options(reservations: &[Reservation]) -> bool
    ensures { result ≡ list_any has_options reservations.now }
{
    reservations
        .iter()
        .any(|reservation| reservation.options.as_slice().len() != 0)
}

// Reports whether one of these reservations has a value for boot fields.
fn is_any_with_boots(reservations: &[Reservation]) -> bool
    ensures { result ≡ list_any has_boots reservations.now }
{
    reservations
        .iter()
        .any(|reservation| reservation.boots.as_slice().len() != 0)
}

// Appends the addresses of reservations.
fn put_reserved(out: &mut Vec<u32>, reservations: &[Reservation]) -> Result<(), AllocError>
    ensures { OnOk result (out.new.items ≡ out.old.items ++ reserved reservations.now) }
{
    for reservation in reservations {
        put_listed(out, reservation.address)?;
    }
    Ok(())
}

// Appends an address, if there is one.
fn put_listed(out: &mut Vec<u32>, address: Option<u32>) -> Result<(), AllocError>
    ensures { OnOk result (out.new.items ≡ out.old.items ++ listed address) }
{
    match address {
        Some(address) => out.push(address)?,
        None => {}
    }
    Ok(())
}

// Collects the index of the first reservation of each address.
fn addresses_of(alloc: Global, list: &[Reservation]) -> Result<IndexMap<u32, usize>, AllocError>
    ensures { IfOk result
        (λ addresses. AreAddresses (λ a. get_by (nat_eq a) addresses) list.now) }
{
    let mut addresses = IndexMap::new(alloc);
    for i in 0..list.len() {
        put_address(&mut addresses, list[i].address, i)?;
    }
    Ok(addresses)
}

// Stores the index of an address that has none yet, if there is an address.
fn put_address(
    addresses: &mut IndexMap<u32, usize>,
    address: Option<u32>,
    place: usize,
) -> Result<(), AllocError>
    ensures { OnOk result ((a : ℕ)
        → get_by (nat_eq a) addresses.new
        ≡ option_or (get_by (nat_eq a) addresses.old)
        (if same_address address a then Some place else None)) }
{
    match address {
        Some(address) => put_new(addresses, address, place)?,
        None => {}
    }
    Ok(())
}

// Stores the index of an address that has none yet.
fn put_new(
    addresses: &mut IndexMap<u32, usize>,
    address: u32,
    place: usize,
) -> Result<(), AllocError>
    ensures { OnOk result ((a : ℕ)
        → get_by (nat_eq a) addresses.new
        ≡ option_or (get_by (nat_eq a) addresses.old)
        (if address == a then Some place else None)) }
{
    match addresses.get(&address) {
        Some(_) => {}
        None => {
            let _old = addresses.insert(address, place)?;
        }
    }
    Ok(())
}

// Returns the lesser of two indexes, if there are any.
fn earlier_of(a: Option<usize>, b: Option<usize>) -> Option<usize>
    ensures { result ≡ earlier a b }
{
    match (a, b) {
        (Some(a), Some(b)) => Some(a.min(b)),
        (Some(a), None) => Some(a),
        (None, b) => b,
    }
}
