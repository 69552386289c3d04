ghost use Rattle.std.specs.Prelude.{◌≡◌, IfOk};
ghost use Rattle.serde_json.specs.View.{view};

use kd_fields::faults::SettingsFault;
use kd_fields::lists::EntryReader;
use kd_fields::place::Place;
use serde_json::Value;
use std::alloc::{AllocError, Global};

/// Reads what a value describes by itself, if it describes anything. Its fault is not told.
///
/// # Errors
///
/// Out of memory.
pub fn read_alone<R: EntryReader>(
    alloc: Global,
    reader: &R,
    value: &Value,
) -> Result<Option<R::Entry>, AllocError>
    ensures { IfOk result (λ found. found ≡ R.means reader.now (view value.now)) }
{
    match reader.read(alloc, value, &Place::Root) {
        Ok(found) => Ok(Some(found)),
        Err(SettingsFault::Memory) => Err(AllocError),
        Err(_) => Ok(None),
    }
}
