ghost use Rattle.std.specs.Prelude.{◌≡◌, IfSome};
ghost use Rattle.kd_token.specs.Accepts.{Accepts};
ghost use Rattle.kd_token.specs.File.{Code, IsFileOf};

use kd_token::{Program, verify};
use std::alloc::Global;

/// Returns a copy of a token file if the verifier accepts its program.
pub fn accepted_copy(alloc: Global, file: &[u8]) -> Option<Vec<u8>>
    ensures copy { IfSome result (λ copy. copy.items ≡ file.now) }
    ensures accepted { IfSome result (λ copy. (p : Code) × IsFileOf copy.items p × Accepts p) }
{
    let program = Program::read(alloc, file).ok()?;
    let verified = verify(alloc, program).ok()?;
    let copy = verified.program().write(alloc).ok()?;
    Some(copy)
}
