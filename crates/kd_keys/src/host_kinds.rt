ghost use Rattle.std.specs.Prelude.{◌≡◌, ◌&&◌, ◌++◌, IfOk, OnOk, codes, not};
ghost use Rattle.std.specs.List.{find};
ghost use Rattle.serde_json.specs.Find.{get};
ghost use Rattle.serde_json.specs.View.{items_view, view};
ghost use Rattle.kd_fields.specs.Gives.{Means};
ghost use Rattle.kd_fields.specs.Steps.{must};
ghost use Rattle.kd_fields.specs.declared.faults.SettingsFault.TheVariants.{Memory};
ghost use Rattle.kd_keys.specs.HostKinds.{are_all_found, every_kind, finds_reservations, is_found_if_given, is_kind_name, is_named_again, kind_key, kind_list, kind_named, kinds_among, kinds_given, kinds_in_order, looks_for, name_kinds, named_kinds, order_given};
ghost use Rattle.kd_keys.specs.Keys.{is_plain, word};
ghost use Rattle.kd_keys.specs.Values.{has_plain};

use crate::keys::{UsualValue, is_usual};
use kd_config::IdentityKind;
use kd_fields::faults::SettingsFault;
use kd_fields::place::{Place, unknown};
use kd_wire::Entries;
use serde_json::Value;
use std::alloc::{AllocError, Global};

// The key of the kinds by which reservations are looked for.
const IDENTIFIERS: &str = "host-reservation-identifiers";

/// By which kinds of identity reservations are looked for.
#[derive(Clone, Copy)]
pub struct HostKinds {
    /// By the hardware address.
    pub hardware: bool,
    /// By the DUID.
    pub duid: bool,
    /// By the circuit of the relay.
    pub circuit: bool,
    /// By the client identifier.
    pub client_id: bool,
}

impl HostKinds {
    // Reports whether reservations are looked for by a kind of identity.
    fn include(self, kind: IdentityKind) -> bool
        ensures { result ≡ looks_for self kind }
    {
        match kind {
            IdentityKind::Hardware => self.hardware,
            IdentityKind::Duid => self.duid,
            IdentityKind::Circuit => self.circuit,
            IdentityKind::ClientId => self.client_id,
        }
    }

    /// Reports whether a reservation has no identity of a kind, or is looked for by it.
    pub fn allow(self, host: &Value, kind: IdentityKind) -> bool
        ensures { result ≡ is_found_if_given self (view host.now) kind }
    {
        self.include(kind) || host.get(key_of_kind(kind)).is_none()
    }
}

/// Returns the kinds of identity, in the usual order.
pub fn all_kinds() -> &'static [IdentityKind]
    ensures { result.now ≡ kinds_in_order }
{
    &[
        IdentityKind::Hardware,
        IdentityKind::Duid,
        IdentityKind::Circuit,
        IdentityKind::ClientId,
    ]
}

/// Returns the key of a kind of identity, which is also its name.
pub fn key_of_kind(kind: IdentityKind) -> &'static str
    ensures { result.now ≡ kind_key kind }
{
    match kind {
        IdentityKind::Hardware => "hw-address",
        IdentityKind::Duid => "duid",
        IdentityKind::Circuit => "circuit-id",
        IdentityKind::ClientId => "client-id",
    }
}

/// Checks that reservations are looked for by each kind of identity that one has.
///
/// # Errors
///
/// `Unknown` with the path of a kind by which reservations are not looked for.
pub fn check_kinds(
    alloc: Global,
    host: &Value,
    at: &Place<'_>,
    kinds: HostKinds,
) -> Result<(), SettingsFault>
    ensures { Means Memory result (must (are_all_found kinds (view host.now))) }
{
    let order = all_kinds();
    for kind in order {
        if !kinds.allow(host, *kind) {
            return Err(unknown(alloc, at, key_of_kind(*kind)));
        }
    }
    Ok(())
}

/// Checks that reservations are looked for by kinds of identity, each named at most once.
///
/// # Errors
///
/// `Unknown` with the path of the list.
pub fn check_identifiers(alloc: Global, dhcp4: &Value, at: &Place<'_>) -> Result<(), SettingsFault>
    ensures { Means Memory result
        (must (finds_reservations
        (get (codes "host-reservation-identifiers") (view dhcp4.now)))) }
{
    if has_identifiers(dhcp4) {
        Ok(())
    } else {
        Err(unknown(alloc, at, IDENTIFIERS))
    }
}

/// Reports whether reservations are looked for by kinds of identity, each named at most once.
pub fn has_identifiers(dhcp4: &Value) -> bool
    ensures { result
        ≡ finds_reservations (get (codes "host-reservation-identifiers") (view dhcp4.now)) }
{
    let Some(value) = dhcp4.get(IDENTIFIERS) else {
        return true;
    };
    match value.as_array() {
        Some(names) => are_kinds(names),
        None => false,
    }
}

// Reports whether values name kinds of identity, each at most once.
fn are_kinds(names: &[Value]) -> bool
    ensures { result ≡ name_kinds (items_view names.now) }
{
    let mut left = names;
    while let [name, rest @ ..] = left {
        if !is_new_kind(name, rest) {
            return false;
        }
        left = rest;
    }
    true
}

// Reports whether a value names a kind of identity, and none of these names it again.
fn is_new_kind(name: &Value, others: &[Value]) -> bool
    ensures { result ≡ (is_kind_name (view name.now)
        && not (is_named_again (view name.now) (items_view others.now))) }
{
    names_kind(name) && !comes_again(name, others)
}

// Reports whether a value is the name of a kind of identity, or `flex-id`.
fn names_kind(name: &Value) -> bool
    ensures { result ≡ is_kind_name (view name.now) }
{
    is_usual(UsualValue::Text("flex-id"), name) || kind_of_name(name).is_some()
}

// Reports whether a value is the name of a kind of identity, and so is one of these.
fn comes_again(name: &Value, others: &[Value]) -> bool
    ensures { result ≡ is_named_again (view name.now) (items_view others.now) }
{
    all_kinds().iter().any(|kind| is_name(*kind, name) && has_text(others, key_of_kind(*kind)))
}

// Returns the kind of identity that has this name, if one has.
fn kind_of_name(name: &Value) -> Option<IdentityKind>
    ensures { result ≡ kind_named (view name.now) }
{
    kind_among(all_kinds(), name)
}

// Returns the first of these kinds that has a name, if one has.
fn kind_among(kinds: &[IdentityKind], name: &Value) -> Option<IdentityKind>
    ensures { result
        ≡ find (λ kind. is_plain (word (kind_key kind)) (view name.now)) kinds.now }
{
    for kind in kinds {
        if is_name(*kind, name) {
            return Some(*kind);
        }
    }
    None
}

// Reports whether a value is the name of a kind of identity.
fn is_name(kind: IdentityKind, name: &Value) -> bool
    ensures { result ≡ is_plain (word (kind_key kind)) (view name.now) }
{
    is_usual(UsualValue::Text(key_of_kind(kind)), name)
}

/// Returns the kinds in the order in which reservations are looked for: the usual one, unless a list names
/// them.
///
/// # Errors
///
/// Out of memory.
pub fn order_of(alloc: Global, dhcp4: &Value) -> Result<Entries<IdentityKind>, AllocError>
    ensures { IfOk result (λ order. order
        ≡ order_given (get (codes "host-reservation-identifiers") (view dhcp4.now))) }
{
    let Some(value) = dhcp4.get(IDENTIFIERS) else {
        return usual_order(alloc);
    };
    match value.as_array() {
        Some(names) => order_named(alloc, names),
        None => usual_order(alloc),
    }
}

// Returns the kinds in the usual order.
fn usual_order(alloc: Global) -> Result<Entries<IdentityKind>, AllocError>
    ensures { IfOk result (λ order. order ≡ kinds_in_order) }
{
    Ok(Entries::own(Vec::from_slice(alloc, all_kinds())?))
}

// Returns the kinds that these values name, in their order.
fn order_named(alloc: Global, names: &[Value]) -> Result<Entries<IdentityKind>, AllocError>
    ensures { IfOk result (λ order. order ≡ named_kinds (items_view names.now)) }
{
    let mut order = Vec::new(alloc);
    for name in names {
        push_kind(&mut order, name)?;
    }
    Ok(Entries::own(order))
}

// Appends the kind that has a name, if one has.
fn push_kind(order: &mut Vec<IdentityKind>, name: &Value) -> Result<(), AllocError>
    ensures { OnOk result (order.new.items
        ≡ order.old.items ++ kind_list (kind_named (view name.now))) }
{
    match kind_of_name(name) {
        Some(kind) => order.push(kind)?,
        None => {}
    }
    Ok(())
}

/// Returns the kinds by which reservations are looked for: all, unless a list names them.
pub fn kinds_of_server(dhcp4: &Value) -> HostKinds
    ensures { result
        ≡ kinds_given (get (codes "host-reservation-identifiers") (view dhcp4.now)) }
{
    let Some(value) = dhcp4.get(IDENTIFIERS) else {
        return all_found();
    };
    match value.as_array() {
        Some(names) => kinds_named(names),
        None => all_found(),
    }
}

// Returns all kinds.
fn all_found() -> HostKinds
    ensures { result ≡ every_kind }
{
    HostKinds {
        hardware: true,
        duid: true,
        circuit: true,
        client_id: true,
    }
}

// Returns the kinds that have their name among these values.
fn kinds_named(names: &[Value]) -> HostKinds
    ensures { result ≡ kinds_among (items_view names.now) }
{
    HostKinds {
        hardware: has_text(names, key_of_kind(IdentityKind::Hardware)),
        duid: has_text(names, key_of_kind(IdentityKind::Duid)),
        circuit: has_text(names, key_of_kind(IdentityKind::Circuit)),
        client_id: has_text(names, key_of_kind(IdentityKind::ClientId)),
    }
}

// Reports whether one of these values is this text.
fn has_text(values: &[Value], text: &'static str) -> bool
    ensures { result ≡ has_plain (word text.now) (items_view values.now) }
{
    for value in values {
        if is_usual(UsualValue::Text(text), value) {
            return true;
        }
    }
    false
}
