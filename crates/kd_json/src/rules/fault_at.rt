ghost use Rattle.std.specs.Prelude.{◌≡◌, ◌≢◌};
ghost use Rattle.kd_fields.specs.Place.{path_at, path_below};
ghost use Rattle.kd_json.specs.Faults.{config_fault_number, fault_path};
ghost use Rattle.kd_json.specs.declared.fault.ConfigFault.TheVariants.{Memory};

use crate::fault::ConfigFault;
use kd_fields::place::{Place, path_of_key};
use std::alloc::Global;

// Returns the fault of an address outside its subnet's prefix.
pub(crate) fn outside(alloc: Global, at: &Place<'_>, key: &str) -> ConfigFault
    ensures kind { result ≢ Memory → config_fault_number result ≡ 74 }
    ensures path { result ≢ Memory
        → fault_path result ≡ path_below (path_at at.now) key.now }
{
    match path_of_key(alloc, at, key) {
        Ok(path) => ConfigFault::PoolOutside(path),
        Err(_) => ConfigFault::Memory,
    }
}

// Returns the fault of a pool that shares an address with an earlier one.
pub(crate) fn overlap(alloc: Global, at: &Place<'_>, key: &str) -> ConfigFault
    ensures kind { result ≢ Memory → config_fault_number result ≡ 75 }
    ensures path { result ≢ Memory
        → fault_path result ≡ path_below (path_at at.now) key.now }
{
    match path_of_key(alloc, at, key) {
        Ok(path) => ConfigFault::Overlap(path),
        Err(_) => ConfigFault::Memory,
    }
}

// Returns the fault of a reservation that repeats an earlier one.
pub(crate) fn repeated_key(alloc: Global, at: &Place<'_>, key: &str) -> ConfigFault
    ensures kind { result ≢ Memory → config_fault_number result ≡ 76 }
    ensures path { result ≢ Memory
        → fault_path result ≡ path_below (path_at at.now) key.now }
{
    match path_of_key(alloc, at, key) {
        Ok(path) => ConfigFault::DuplicateReservation(path),
        Err(_) => ConfigFault::Memory,
    }
}
