ghost use Rattle.std.specs.Prelude.{◌≡◌, IfOk, List, OnOk, Some, [], if◌then◌else◌, ℕ};
ghost use Rattle.std.specs.Option.{option_copied};
ghost use Rattle.std.specs.Str.{bytes_eq};
ghost use Rattle.indexmap.specs.IndexMap.{get_by};
ghost use Rattle.kd_config.specs.Places.{AreFirst, AreNext, HasPlace, place_by};
ghost use Rattle.kd_config.specs.Reservation.{found_if, is_client};
ghost use Rattle.kd_config.specs.declared.reservation.IdentityKind.{IdentityKind};

use crate::reservation::{Identity, IdentityKind, Reservation};
use indexmap::IndexMap;
use std::alloc::{AllocError, Global};

// An index for each client, by its kind of identity and its bytes.
#[derive(Drop)]
pub(crate) struct Clients {
    hardware: IndexMap<Vec<u8>, usize>,
    duids: IndexMap<Vec<u8>, usize>,
    circuits: IndexMap<Vec<u8>, usize>,
    identifiers: IndexMap<Vec<u8>, usize>,
}

impl Clients {
    // Makes a table of no clients.
    pub(crate) fn none(alloc: Global) -> Clients
        ensures { AreFirst result 0 [] }
    {
        Clients {
            hardware: IndexMap::new(alloc),
            duids: IndexMap::new(alloc),
            circuits: IndexMap::new(alloc),
            identifiers: IndexMap::new(alloc),
        }
    }

    // Returns the index of the client that has these bytes by a kind of identity, if there are bytes.
    pub(crate) fn index_of(&self, kind: IdentityKind, bytes: Option<&[u8]>) -> Option<usize>
        ensures { result ≡ found_if (place_by self.now kind) (option_copied bytes.entry) }
    {
        match bytes {
            Some(bytes) => self.of_kind(kind).get(bytes).copied(),
            None => None,
        }
    }

    // Returns the indexes of the clients with a kind of identity, by their bytes.
    fn of_kind(&self, kind: IdentityKind) -> &IndexMap<Vec<u8>, usize>
        ensures { (bytes : List ℕ) → get_by (λ key. bytes_eq bytes key.items) result.now
            ≡ place_by self.now kind bytes }
    {
        match kind {
            IdentityKind::Hardware => &self.hardware,
            IdentityKind::Duid => &self.duids,
            IdentityKind::Circuit => &self.circuits,
            IdentityKind::ClientId => &self.identifiers,
        }
    }

    // Stores the index of a client, and returns that which it had, if it had one.
    fn put(
        &mut self,
        alloc: Global,
        identity: &Identity,
        place: usize,
    ) -> Result<Option<usize>, AllocError>
        ensures old { IfOk result (HasPlace self.old identity.now) }
        ensures new { OnOk result ((kind : IdentityKind) (bytes : List ℕ)
            → place_by self.new kind bytes
            ≡ (if is_client kind bytes identity.now then Some place
            else place_by self.old kind bytes)) }
    {
        match identity {
            Identity::Hardware(bytes) => put_in(alloc, &mut self.hardware, bytes.as_slice(), place),
            Identity::Duid(bytes) => put_in(alloc, &mut self.duids, bytes.as_slice(), place),
            Identity::Circuit(bytes) => put_in(alloc, &mut self.circuits, bytes.as_slice(), place),
            Identity::ClientId(bytes) => {
                put_in(alloc, &mut self.identifiers, bytes.as_slice(), place)
            }
        }
    }
}

// Stores the index of the first of these reservations for each client, and returns for each
// reservation the index of the next one for its client.
pub(crate) fn put_all(
    alloc: Global,
    clients: &mut Clients,
    list: &[Reservation],
) -> Result<Vec<Option<usize>>, AllocError>
    requires { AreFirst clients.old 0 [] }
    ensures first { OnOk result (AreFirst clients.new 0 list.now) }
    ensures next { IfOk result (λ places. AreNext 0 list.now places.items) }
{
    let mut places = Vec::new(alloc);
    let mut left = list;
    while let [rest @ .., last] = left {
        places.push(clients.put(alloc, &last.identity, rest.len())?)?;
        left = rest;
    }
    places.reverse();
    Ok(places)
}

// Stores the index of a client with these bytes, and returns that which it had, if it had one.
fn put_in(
    alloc: Global,
    places: &mut IndexMap<Vec<u8>, usize>,
    bytes: &[u8],
    place: usize,
) -> Result<Option<usize>, AllocError>
    ensures old { IfOk result (λ old. old
        ≡ get_by (λ key. bytes_eq bytes.now key.items) places.old) }
    ensures new { OnOk result ((other : List ℕ)
        → get_by (λ key. bytes_eq other key.items) places.new
        ≡ (if bytes_eq other bytes.now then Some place
        else get_by (λ key. bytes_eq other key.items) places.old)) }
{
    Ok(places.insert(Vec::from_slice(alloc, bytes)?, place)?)
}
