ghost use Rattle.std.specs.Prelude.{◌≡◌};
ghost use Rattle.serde_json.specs.Find.{get};
ghost use Rattle.serde_json.specs.View.{view};
ghost use Rattle.kd_fields.specs.Gives.{Means};
ghost use Rattle.kd_fields.specs.declared.faults.SettingsFault.TheVariants.{Memory};
ghost use Rattle.kd_keys.specs.HostClient.{host_bytes, client_if_given, kea_client, most_bytes, one_client};
ghost use Rattle.kd_keys.specs.HostKinds.{kind_key};

use crate::host_kinds::key_of_kind;
use crate::quoted::read_bytes;
use kd_config::{Identity, IdentityKind};
use kd_fields::faults::SettingsFault;
use kd_fields::place::{Place, bad_place, bad_value, missing};
use kd_wire::Bytes;
use serde_json::Value;
use std::alloc::Global;

/// Reads the client of a reservation: exactly one kind of identity is given.
///
/// # Errors
///
/// `BadValue` with the path of a key whose value is no identity, or of a second kind; `Missing` if there is
/// none.
#[tactic(auto, unfolding(crate::specs::HostClient::kea_client))]
pub fn client_of(alloc: Global, host: &Value, at: &Place<'_>) -> Result<Identity, SettingsFault>
    ensures { Means Memory result (kea_client (view host.now)) }
{
    let hardware = given_bytes(alloc, host, at, IdentityKind::Hardware)?;
    let duid = given_bytes(alloc, host, at, IdentityKind::Duid)?;
    let circuit = given_bytes(alloc, host, at, IdentityKind::Circuit)?;
    let client = given_bytes(alloc, host, at, IdentityKind::ClientId)?;
    match (hardware, duid, circuit, client) {
        (Some(bytes), None, None, None) => Ok(Identity::Hardware(bytes)),
        (None, Some(bytes), None, None) => Ok(Identity::Duid(bytes)),
        (None, None, Some(bytes), None) => Ok(Identity::Circuit(bytes)),
        (None, None, None, Some(bytes)) => Ok(Identity::ClientId(bytes)),
        (None, None, None, None) => Err(missing(alloc, at, "hw-address")),
        (_, _, _, Some(_)) => Err(bad_value(alloc, at, "client-id")),
        (_, _, Some(_), _) => Err(bad_value(alloc, at, "circuit-id")),
        _ => Err(bad_value(alloc, at, "duid")),
    }
}

// Reads the bytes of a client by a kind of identity, if they are given.
fn given_bytes(
    alloc: Global,
    host: &Value,
    at: &Place<'_>,
    kind: IdentityKind,
) -> Result<Option<Bytes>, SettingsFault>
    ensures { Means Memory result (client_if_given kind (get (kind_key kind) (view host.now))) }
{
    let key = key_of_kind(kind);
    match host.get(key) {
        Some(value) => Ok(Some(client_at(alloc, value, &Place::Key(&*at, key), kind)?)),
        None => Ok(None),
    }
}

// Reads the bytes of a client by a kind of identity, at least one.
#[tactic(auto, unfolding(crate::specs::HostClient::host_bytes))]
fn client_at(
    alloc: Global,
    value: &Value,
    at: &Place<'_>,
    kind: IdentityKind,
) -> Result<Bytes, SettingsFault>
    ensures { Means Memory result (host_bytes kind (view value.now)) }
{
    let bytes = read_bytes(alloc, value, at, longest_of(kind))?;
    if 1 <= bytes.as_slice().len() {
        Ok(bytes)
    } else {
        Err(bad_place(alloc, at))
    }
}

// Returns the most bytes of a client, by its kind of identity.
fn longest_of(kind: IdentityKind) -> usize
    ensures { result ≡ most_bytes kind }
{
    match kind {
        IdentityKind::Hardware => 16,
        IdentityKind::Duid => 128,
        IdentityKind::Circuit => 255,
        IdentityKind::ClientId => 255,
    }
}
