ghost use Rattle.serde_json.specs.View.{view};
ghost use Rattle.kd_fields.specs.Gives.{GivesAs};
ghost use Rattle.kd_fields.specs.Text.{value_spelled};
ghost use Rattle.kd_fields.specs.declared.faults.SettingsFault.TheVariants.{Memory};

use crate::faults::SettingsFault;
use serde_json::Value;
use std::alloc::Global;

/// Parses the JSON value of a text in UTF-8.
///
/// # Errors
///
/// `Json` if it is no JSON; `Memory`.
#[tactic(auto, using(crate::proofs::Documents::spelled, crate::proofs::Documents::not_spelled))]
pub fn value_of(alloc: Global, text: &[u8]) -> Result<Value, SettingsFault>
    ensures { GivesAs Memory view result (value_spelled text.now) }
{
    match Value::from_slice(alloc, text) {
        Ok(value) => Ok(value),
        Err(error) if error.is_memory() => Err(SettingsFault::Memory),
        Err(_) => Err(SettingsFault::Json),
    }
}
