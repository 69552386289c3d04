ghost use Rattle.std.specs.Prelude.{◌≡◌, IfOk, option_map, codes};
ghost use Rattle.kd_fields.specs.Text.{value_spelled};
ghost use Rattle.kd_check.specs.Lookup.{class_text, class_value, value_under};
ghost use Rattle.serde_json.specs.View.{view};

use serde_json::Value;
use std::alloc::{AllocError, Global};

// Parses the value of a text, if it is JSON in UTF-8.
#[tactic(auto, using(kd_fields::proofs::Documents::spelled, kd_fields::proofs::Documents::not_spelled))]
pub(crate) fn spelled_value(alloc: Global, text: &[u8]) -> Result<Option<Value>, AllocError>
    ensures { IfOk result (λ value. option_map view value ≡ value_spelled text.now) }
{
    match Value::from_slice(alloc, text) {
        Ok(value) => Ok(Some(value)),
        Err(error) if error.is_memory() => Err(AllocError),
        Err(_) => Ok(None),
    }
}

// Returns the value at a path, if there is one.
pub(crate) fn value_at_path<'a>(whole: Option<&'a Value>, path: &str) -> Option<&'a Value>
    ensures { option_map (λ v. view v.now) result
        ≡ value_under (option_map (λ v. view v.now) whole.entry) path.now }
{
    if path == "-" {
        return whole;
    }
    whole?.pointer(path)
}

// Returns the value at a key of the class with this number, if there is one.
pub(crate) fn class_member<'a>(
    whole: Option<&'a Value>,
    number: usize,
    key: &str,
) -> Option<&'a Value>
    ensures { option_map (λ v. view v.now) result
        ≡ class_value (option_map (λ v. view v.now) whole.entry) number key.now }
{
    let dhcp4 = whole?.get("Dhcp4")?;
    let classes = dhcp4.get("client-classes")?;
    classes.get(number)?.get(key)
}

// Returns the text of the test of the class with this number, if there is one.
pub(crate) fn test_text(whole: Option<&Value>, number: usize) -> Option<&[u8]>
    ensures { option_map (λ s. s.now) result
        ≡ class_text (option_map (λ v. view v.now) whole.entry) number (codes "test") }
{
    let test = class_member(whole, number, "test")?.as_str()?;
    Some(test.as_bytes())
}
