ghost use Rattle.serde_json.specs.View.{view};
ghost use Rattle.kd_fields.specs.Gives.{Means};
ghost use Rattle.kd_fields.specs.Steps.{must};
ghost use Rattle.kd_fields.specs.declared.faults.SettingsFault.TheVariants.{Memory};
ghost use Rattle.kd_keys.specs.Values.{has_whole_bytes, is_between_bytes, is_whole_text};
ghost use Rattle.std.specs.Prelude.{◌≡◌};

use kd_fields::faults::SettingsFault;
use kd_fields::place::{Place, bad_place};
use serde_json::Value;
use std::alloc::Global;

// Checks that hexadecimal text has both digits of each byte side by side.
pub(crate) fn check_whole(alloc: Global, value: &Value, at: &Place<'_>) -> Result<(), SettingsFault>
    ensures { Means Memory result (must (is_whole_text (view value.now))) }
{
    match value.as_str() {
        Some(text) if !is_whole(text.as_bytes()) => Err(bad_place(alloc, at)),
        _ => Ok(()),
    }
}

// Reports whether hexadecimal text has both digits of each byte side by side.
#[tactic(auto, unfolding(crate::specs::Values::has_whole_bytes))]
pub(crate) fn is_whole(text: &[u8]) -> bool
    ensures { result ≡ has_whole_bytes text.now }
{
    let mut rest = text;
    while let [first, behind @ ..] = rest {
        rest = match behind {
            _ if is_separator(*first) => behind,
            [second, further @ ..] if !is_separator(*second) => further,
            _ => return false,
        };
    }
    true
}

// Reports whether a sign may stand between bytes in hexadecimal.
fn is_separator(b: u8) -> bool
    ensures { result ≡ is_between_bytes b }
{
    b == b':' || b == b' '
}
