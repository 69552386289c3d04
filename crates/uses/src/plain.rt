ghost use Rattle.std.specs.Prelude.{◌≡◌, IfSome, Some};
ghost use Rattle.kd_plain.specs.Plain.{plain};

use kd_plain::plain_text;
use std::alloc::Global;

/// Returns the JSON text that a text of Kea's stands for, if it stands for one.
pub fn json_for(alloc: Global, text: &[u8]) -> Option<Vec<u8>>
    ensures { IfSome result (λ json. plain text.now ≡ Some json.items) }
{
    plain_text(alloc, text).ok()?
}
