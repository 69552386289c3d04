ghost use Rattle.std.specs.Prelude.{◌≡◌, IfOk, Ok, string_bytes};
ghost use Rattle.hex.specs.Hex.{decode_of};
ghost use Rattle.kd_expr.specs.View.{tree_of};
ghost use Rattle.kd_answers.specs.Printed.{OfCompiled, OfText, TestsDatagram, TestsDecoded, TestsTree, OfDatagram, OfFile, RunsDecoded, RunsOver, RunsProgram, run_line};

use crate::printed::{Printed, success};
use crate::refusal::{
    mistake, refused_datagram, refused_file, refused_program, refused_test, refused_text,
    refused_type,
};
use hex::FromHexError;
use kd_expr::{Expr, Typed};
use kd_machine::{Held, Outcome};
use kd_options::Message;
use kd_token::{Program, Verified};
use std::alloc::{AllocError, Global};

// Runs the program of the token file in one argument over the datagram in the other.
pub(crate) fn answer_eval(
    alloc: Global,
    program: &str,
    datagram: &str,
) -> Result<Printed, AllocError>
    ensures { IfOk result (RunsDecoded (decode_of program.now) (decode_of datagram.now)) }
{
    match hex::decode(alloc, program) {
        Ok(file) => eval_decoded(alloc, file.as_slice(), datagram),
        Err(FromHexError::OutOfMemory) => Err(AllocError),
        Err(_) => mistake(alloc),
    }
}

// Runs the program of a token file over the datagram in an argument.
fn eval_decoded(alloc: Global, file: &[u8], datagram: &str) -> Result<Printed, AllocError>
    ensures { IfOk result (RunsDecoded (Ok file.now) (decode_of datagram.now)) }
{
    match hex::decode(alloc, datagram) {
        Ok(bytes) => eval_file(alloc, file, bytes.as_slice()),
        Err(FromHexError::OutOfMemory) => Err(AllocError),
        Err(_) => mistake(alloc),
    }
}

// Runs the program of a token file over a datagram, or returns the first fault.
fn eval_file(alloc: Global, file: &[u8], datagram: &[u8]) -> Result<Printed, AllocError>
    ensures { IfOk result (OfFile (RunsProgram datagram.now) file.now) }
{
    match Program::read(alloc, file) {
        Ok(program) => eval_program(alloc, program, datagram),
        Err(fault) => refused_file(alloc, fault),
    }
}

// Runs a program over a datagram, or returns the first fault of its tokens or of the datagram.
fn eval_program(alloc: Global, program: Program, datagram: &[u8]) -> Result<Printed, AllocError>
    ensures { IfOk result (RunsProgram datagram.now program) }
{
    match kd_token::verify(alloc, program) {
        Ok(verified) => {
            // This also gives the fact that the program is accepted.
            let _program = verified.program();
            eval_datagram(alloc, &verified, datagram)
        }
        Err((fault, _)) => refused_program(alloc, fault),
    }
}

// Runs an accepted program over a datagram, or returns the datagram's first fault.
fn eval_datagram(alloc: Global, verified: &Verified, bytes: &[u8]) -> Result<Printed, AllocError>
    ensures { IfOk result (OfDatagram (RunsOver verified.now) bytes.now) }
{
    match Message::read(alloc, bytes) {
        Ok(message) => eval_message(alloc, verified, &message),
        Err(fault) => refused_datagram(alloc, fault),
    }
}

// Runs an accepted program over a message.
fn eval_message(
    alloc: Global,
    verified: &Verified,
    message: &Message<'_>,
) -> Result<Printed, AllocError>
    ensures { IfOk result (RunsOver verified.now message.now) }
{
    let held = Held::base(alloc, message)?;
    let outcome = kd_machine::eval(alloc, verified, message, &held)?;
    Ok(success(alloc, run_text(alloc, &outcome)?))
}

// Runs the program of the class test in one argument over the datagram in the other.
pub(crate) fn answer_eval_text(
    alloc: Global,
    text: &str,
    datagram: &str,
) -> Result<Printed, AllocError>
    ensures { IfOk result (TestsDecoded text.now (decode_of datagram.now)) }
{
    match hex::decode(alloc, datagram) {
        Ok(bytes) => eval_text(alloc, text, bytes.as_slice()),
        Err(FromHexError::OutOfMemory) => Err(AllocError),
        Err(_) => mistake(alloc),
    }
}

// Runs the program of the class test in an argument over a datagram, or returns the fault of
// reading the test.
fn eval_text(alloc: Global, word: &str, datagram: &[u8]) -> Result<Printed, AllocError>
    ensures { IfOk result (OfText (TestsTree datagram.now) word.now) }
{
    match kd_expr::read(alloc, word.as_bytes()) {
        Ok(expr) => eval_expr(alloc, expr, datagram),
        Err(fault) => refused_text(alloc, fault),
    }
}

// Runs the program of an expression over a datagram, or returns the first fault of its type.
fn eval_expr(alloc: Global, expr: Expr, datagram: &[u8]) -> Result<Printed, AllocError>
    ensures { IfOk result (TestsTree datagram.now (tree_of expr)) }
{
    match kd_expr::type_of(expr) {
        Ok(test) => eval_test(alloc, &test, datagram),
        Err((fault, _)) => refused_type(alloc, fault),
    }
}

// Runs the program of a class test over a datagram, or returns the first limit that the test
// exceeds.
fn eval_test(alloc: Global, test: &Typed, datagram: &[u8]) -> Result<Printed, AllocError>
    ensures { IfOk result (OfCompiled (TestsDatagram datagram.now) (tree_of test.now)) }
{
    match kd_compile::compile(alloc, test) {
        Ok(verified) => {
            // This gives the fact that a program has only one run over a message.
            kd_machine::laws::one_end();
            eval_datagram(alloc, &verified, datagram)
        }
        Err(fault) => refused_test(alloc, fault),
    }
}

// Returns the line of a run.
fn run_text(alloc: Global, outcome: &Outcome) -> Result<String, AllocError>
    ensures { IfOk result (λ line. string_bytes line ≡ run_line outcome.now) }
{
    let value = outcome.value;
    let steps = outcome.steps;
    let depth = outcome.peak_depth;
    let length = outcome.peak_length;
    format!(in alloc; "{value} steps {steps} depth {depth} length {length}\n")
}
