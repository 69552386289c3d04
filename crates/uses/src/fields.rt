ghost use Rattle.std.specs.Prelude.{◌≡◌, IfSome, Some, codes};
ghost use Rattle.serde_json.specs.Find.{get};
ghost use Rattle.serde_json.specs.View.{view};
ghost use Rattle.kd_fields.specs.Values.{number_if_given};

use kd_fields::place::Place;
use kd_fields::values::number_or;
use serde_json::Value;
use std::alloc::Global;

/// Returns the port that an object names, or 67 if it names none.
pub fn port_in(alloc: Global, object: &Value) -> Option<u32>
    ensures { IfSome result (λ port. number_if_given 1 65535 67
        (get (codes "port") (view object.now)) ≡ Some port) }
{
    number_or(alloc, object, &Place::Root, "port", 1, 65_535, 67).ok()
}
