ghost use Rattle.std.specs.Prelude.{◌≡◌, ◌++◌, IfOk, OnOk};
ghost use Rattle.kd_config.specs.Classed.{class_list};
ghost use Rattle.kd_config.specs.Networks.{reservation_for};

use crate::reservation::{Identity, Reservation};
use kd_classes::{Boot, BootList, OptionData, OptionList};
use kd_wire::{Bytes, Entries};
use std::alloc::{AllocError, Global};

/// Returns the classes that a client must be in where a part requires this one, if it requires one.
///
/// # Errors
///
/// Out of memory.
pub fn classes_of(alloc: Global, class: Option<Bytes>) -> Result<Entries<Bytes>, AllocError>
    ensures { IfOk result (λ classes. classes ≡ class_list class) }
{
    let mut classes = Vec::new(alloc);
    if let Some(name) = class {
        classes.push(name)?;
    }
    Ok(Entries::own(classes))
}

/// Copies the names of classes.
///
/// # Errors
///
/// Out of memory.
pub fn classes_copied(alloc: Global, classes: &[Bytes]) -> Result<Entries<Bytes>, AllocError>
    ensures { IfOk result (λ copy. copy ≡ classes.now) }
{
    let mut copy = Vec::new(alloc);
    push_classes(alloc, &mut copy, classes)?;
    Ok(Entries::own(copy))
}

/// Copies the names of classes, and then of others.
///
/// # Errors
///
/// Out of memory.
pub fn classes_joined(
    alloc: Global,
    classes: &[Bytes],
    others: &[Bytes],
) -> Result<Entries<Bytes>, AllocError>
    ensures { IfOk result (λ copy. copy ≡ classes.now ++ others.now) }
{
    let mut copy = Vec::new(alloc);
    push_classes(alloc, &mut copy, classes)?;
    push_classes(alloc, &mut copy, others)?;
    Ok(Entries::own(copy))
}

// Appends the names of classes.
fn push_classes(alloc: Global, out: &mut Vec<Bytes>, classes: &[Bytes]) -> Result<(), AllocError>
    ensures { OnOk result (out.new.items ≡ out.old.items ++ classes.now) }
{
    for name in classes {
        out.push(bytes_copied(alloc, name)?)?;
    }
    Ok(())
}

/// Copies options.
///
/// # Errors
///
/// Out of memory.
pub fn options_copied(alloc: Global, options: &[OptionData]) -> Result<OptionList, AllocError>
    ensures { IfOk result (λ list. list ≡ options.now) }
{
    let mut list = Vec::new(alloc);
    for option in options {
        list.push(OptionData {
            code: option.code,
            value: bytes_copied(alloc, &option.value)?,
            always: option.always,
        })?;
    }
    Ok(OptionList::own(list))
}

// Copies a reservation, for its own classes and for these.
pub(crate) fn reservation_copied(
    alloc: Global,
    reservation: &Reservation,
    classes: &[Bytes],
) -> Result<Reservation, AllocError>
    ensures { IfOk result (λ copy. copy ≡ reservation_for classes.now reservation.now) }
{
    Ok(Reservation {
        identity: identity_copied(alloc, &reservation.identity)?,
        address: reservation.address,
        options: options_copied(alloc, reservation.options.as_slice())?,
        boots: boots_copied(alloc, reservation.boots.as_slice())?,
        classes: classes_joined(alloc, reservation.classes.as_slice(), classes)?,
        joins: classes_copied(alloc, reservation.joins.as_slice())?,
    })
}

// Copies what is given to boot fields.
fn boots_copied(alloc: Global, boots: &[Boot]) -> Result<BootList, AllocError>
    ensures { IfOk result (λ list. list ≡ boots.now) }
{
    let mut list = Vec::new(alloc);
    for boot in boots {
        list.push(*boot)?;
    }
    Ok(BootList::own(list))
}

// Copies the client of a reservation.
fn identity_copied(alloc: Global, identity: &Identity) -> Result<Identity, AllocError>
    ensures { IfOk result (λ copy. copy ≡ identity.now) }
{
    match identity {
        Identity::Hardware(bytes) => Ok(Identity::Hardware(bytes_copied(alloc, bytes)?)),
        Identity::Duid(bytes) => Ok(Identity::Duid(bytes_copied(alloc, bytes)?)),
        Identity::Circuit(bytes) => Ok(Identity::Circuit(bytes_copied(alloc, bytes)?)),
        Identity::ClientId(bytes) => Ok(Identity::ClientId(bytes_copied(alloc, bytes)?)),
    }
}

// Copies bytes.
fn bytes_copied(alloc: Global, bytes: &Bytes) -> Result<Bytes, AllocError>
    ensures { IfOk result (λ copy. copy ≡ bytes.now) }
{
    let copy = Vec::from_slice(alloc, bytes.as_slice())?;
    Ok(Bytes::own(copy))
}
