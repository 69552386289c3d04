ghost use Rattle.std.specs.Prelude.{◌≡◌, IfOk, codes};
ghost use Rattle.kd_names.specs.declared.kind.Kind.TheVariants.{Addresses};
ghost use Rattle.kd_values.specs.Spelled.{data_spelled};

use kd_names::Kind;
use kd_values::value_of;
use kd_wire::Bytes;
use std::alloc::{AllocError, Global};

/// Returns the value of an option that names two routers (RFC 2132 section 3.5).
pub fn two_routers(alloc: Global) -> Result<Option<Bytes>, AllocError>
    ensures { IfOk result (λ value. value ≡ data_spelled Addresses (codes "192.0.2.1, 192.0.2.2")) }
{
    value_of(alloc, Kind::Addresses, b"192.0.2.1, 192.0.2.2")
}
