ghost use Rattle.std.specs.Prelude.{◌≡◌, IfOk, codes, string_bytes};

use kd_names::put_named;
use std::alloc::{AllocError, Global};

/// Returns the line that says that 192.0.2.1 is the client's router (RFC 2132 section 3.5).
pub fn routers_line(alloc: Global) -> Result<String, AllocError>
    ensures { IfOk result (λ line. string_bytes line ≡ codes "  routers 192.0.2.1\n") }
{
    let mut line = String::new(alloc);
    put_named(alloc, &mut line, 3, &[192, 0, 2, 1])?;
    Ok(line)
}
