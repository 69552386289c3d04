ghost use Rattle.std.specs.Prelude.{◌≡◌, IfOk, string_bytes};
ghost use Rattle.hex.specs.Hex.{decode_of};
ghost use Rattle.kd_answers.specs.Printed.{VerifiesDecoded, VerifiesFile, VerifiesProgram, accepted_line};

use crate::printed::{Printed, success};
use crate::refusal::{mistake, refused_file, refused_program};
use hex::FromHexError;
use kd_token::Program;
use std::alloc::{AllocError, Global};

// Returns what the program of the token file in an argument declares, if it is accepted.
pub(crate) fn answer_verify(alloc: Global, word: &str) -> Result<Printed, AllocError>
    ensures { IfOk result (VerifiesDecoded (decode_of word.now)) }
{
    match hex::decode(alloc, word) {
        Ok(bytes) => verify_file(alloc, bytes.as_slice()),
        Err(FromHexError::OutOfMemory) => Err(AllocError),
        Err(_) => mistake(alloc),
    }
}

// Returns what the program of a token file declares, if it is accepted, or the first fault.
fn verify_file(alloc: Global, bytes: &[u8]) -> Result<Printed, AllocError>
    ensures { IfOk result (VerifiesFile bytes.now) }
{
    match Program::read(alloc, bytes) {
        Ok(program) => verify_program(alloc, program),
        Err(fault) => refused_file(alloc, fault),
    }
}

// Returns what a program declares, if it is accepted, or the first fault of its tokens.
fn verify_program(alloc: Global, program: Program) -> Result<Printed, AllocError>
    ensures { IfOk result (VerifiesProgram program) }
{
    match kd_token::verify(alloc, program) {
        Ok(verified) => Ok(success(alloc, accepted_text(alloc, verified.program())?)),
        Err((fault, _)) => refused_program(alloc, fault),
    }
}

// Returns the line of an accepted program.
fn accepted_text(alloc: Global, program: &Program) -> Result<String, AllocError>
    ensures { IfOk result (λ line. string_bytes line ≡ accepted_line program.now) }
{
    let steps = program.steps();
    let depth = program.depth();
    let length = program.length();
    let tokens = program.tokens().len();
    format!(in alloc; "accepted steps {steps} depth {depth} length {length} tokens {tokens}\n")
}
