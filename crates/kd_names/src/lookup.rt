ghost use Rattle.std.specs.Prelude.{◌≡◌, ◌≢◌, Some, MatchOption};
ghost use Rattle.kd_names.specs.Table.{definition_of, kind_by_code, option_by_name};
ghost use Rattle.kd_names.specs.declared.kind.Kind.{Kind};

use crate::kind::Kind;
use crate::table::definition;

/// Returns the type of the value of the option with this code, if the option has a name.
pub fn kind_of(code: u8) -> Option<Kind>
    ensures { result ≡ kind_by_code code }
{
    match definition(code) {
        Some((_, kind)) => Some(kind),
        None => None,
    }
}

/// Returns the code of the option that has this name in Kea's standard option definitions, and the
/// type of its value.
pub fn option_named(name: &[u8]) -> Option<(u8, Kind)>
    ensures { result ≡ option_by_name name.now }
{
    // The codes 0 and 255 are the pad and the end (RFC 2132 section 3).
    for code in 1..u8::MAX {
        if let Some(kind) = kind_if_named(code, name) {
            return Some((code, kind));
        }
    }
    None
}

// Returns the type of the value of the option with this code, if it has this name.
fn kind_if_named(code: u8, name: &[u8]) -> Option<Kind>
    ensures { MatchOption result ((kind : Kind) → definition_of code ≢ Some (name.now, kind))
        (λ kind. definition_of code ≡ Some (name.now, kind)) }
{
    match definition(code) {
        Some((other, kind)) => {
            if other.as_bytes() == name {
                Some(kind)
            } else {
                None
            }
        }
        None => None,
    }
}
