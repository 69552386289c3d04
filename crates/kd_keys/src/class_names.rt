ghost use Rattle.std.specs.Prelude.{◌≡◌};
ghost use Rattle.serde_json.specs.View.{view};
ghost use Rattle.kd_fields.specs.Values.{class_name_in};
ghost use Rattle.kd_fields.specs.Gives.{Means};
ghost use Rattle.kd_fields.specs.declared.faults.SettingsFault.TheVariants.{Memory};
ghost use Rattle.kd_keys.specs.ClassNames.{classes_given, is_of_clients};

use kd_fields::faults::SettingsFault;
use kd_fields::lists::{EntryReader, entries_of};
use kd_fields::place::{Place, bad_place};
use kd_fields::values::{name_in, own_bytes};
use kd_wire::{Bytes, Entries};
use serde_json::Value;
use std::alloc::Global;

/// The class of all clients with a reservation (Kea Administrator Reference Manual, Built-in Client
/// Classes).
pub const KNOWN: &[u8] = b"KNOWN";

/// The class of all clients without a reservation.
pub const UNKNOWN: &[u8] = b"UNKNOWN";

// The most classes that a reservation gives.
const MOST_CLASSES: usize = 64;

/// Reports whether a class is that of all clients with a reservation, or that of all others.
pub fn is_known_or_unknown(name: &[u8]) -> bool
    ensures { result ≡ is_of_clients name.now }
{
    name == KNOWN || name == UNKNOWN
}

/// Reads the names of the classes that a reservation gives to its client: at most 64, each of 1 to 255
/// bytes.
///
/// # Errors
///
/// `BadValue` with the path of the list, or of a name that is not one.
pub fn classes_given_by(
    alloc: Global,
    host: &Value,
    at: &Place<'_>,
) -> Result<Entries<Bytes>, SettingsFault>
    ensures { Means Memory result (classes_given (view host.now)) }
{
    entries_of(
        alloc,
        host,
        at,
        "client-classes",
        MOST_CLASSES,
        &ClassNameReader,
    )
}

/// Reads the classes that reservations give.
pub struct GivenClassesReader;

impl EntryReader for GivenClassesReader {
    type Entry = Entries<Bytes>;

    ghost means = { λ _. classes_given };

    fn read(
        &self,
        alloc: Global,
        value: &Value,
        at: &Place<'_>,
    ) -> Result<Entries<Bytes>, SettingsFault> {
        classes_given_by(alloc, value, at)
    }
}

// Reads names of classes.
struct ClassNameReader;

impl EntryReader for ClassNameReader {
    type Entry = Bytes;

    ghost means = { λ _. class_name_in };

    fn read(&self, alloc: Global, value: &Value, at: &Place<'_>) -> Result<Bytes, SettingsFault> {
        match name_in(value) {
            Some(name) => Ok(own_bytes(alloc, name)?),
            None => Err(bad_place(alloc, at)),
        }
    }
}
