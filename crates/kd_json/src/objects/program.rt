ghost use Rattle.std.specs.Prelude.{◌≡◌, ◌≢◌, IfErr, IfOk, Ok, Option};
ghost use Rattle.kd_classes.specs.HeldSet.{IsAcceptedTest};
ghost use Rattle.kd_classes.specs.Order.{names_of};
ghost use Rattle.kd_compile.specs.declared.fault.CompileFault.TheVariants as compiling;
ghost use Rattle.kd_json.specs.Configured.{IsFileTest, IsProgramOf, IsTest, IsTextTest};
ghost use Rattle.kd_json.specs.declared.objects.faults.ClassesFault.TheVariants.{Memory};
ghost use Rattle.kd_expr.specs.Typing.{test_type};
ghost use Rattle.kd_expr.specs.View.{tree_of};
ghost use Rattle.kd_expr.specs.declared.fault.ExprFault.TheVariants as reading;
ghost use Rattle.kd_token.specs.Accepts.{Accepts};
ghost use Rattle.kd_token.specs.File.{Code, HasFile, IsFileOf};
ghost use Rattle.kd_token.specs.declared.fault.FileFault.TheVariants as file_faults;
ghost use Rattle.kd_token.specs.declared.fault.VerifyFault.TheVariants as verifying;

use crate::fault::{FileTestFault, TestFault};
use crate::objects::class::TestSource;
use crate::objects::faults::ClassesFault;
use crate::token_file::{TokenFile, file_named};
use kd_compile::{CompileFault, compile};
use kd_expr::{Expr, ExprFault, Typed};
use kd_token::{FileFault, Program, Verified, VerifyFault, verify};
use std::alloc::Global;

// Returns the program of the test of the class with this number, if the class has a test.
pub(crate) fn test_of(
    alloc: Global,
    number: usize,
    source: &TestSource,
    files: &[TokenFile],
) -> Result<Option<Verified>, ClassesFault>
    ensures found { IfOk result (λ test. IsTest files.now source.now test) }
    ensures same { IfOk result
        (λ test. (other : Option Code) → IsTest files.now source.now other
        → names_of other ≡ names_of test) }
    ensures accepted { IfOk result (λ test. IsAcceptedTest test) }
    ensures refused { IfErr result
        (λ fault. fault ≢ Memory → (test : Option Code) → IsTest files.now source.now test → ⊥) }
{
    match source {
        TestSource::Nothing => Ok(None),
        TestSource::Expression(text) => Ok(Some(program_of(alloc, number, text.as_slice())?)),
        TestSource::TokenFile(name) => {
            Ok(Some(program_named(alloc, number, name.as_slice(), files)?))
        }
    }
}

// Returns a program of the text of a class test.
fn program_of(alloc: Global, number: usize, text: &[u8]) -> Result<Verified, ClassesFault>
    ensures found { IfOk result (λ program. IsTextTest text.now program) }
    ensures limits { IfOk result (λ program. HasFile program) }
    ensures same { IfOk result
        (λ program. (other : Code) → IsTextTest text.now other → other.names ≡ program.names) }
    ensures refused { IfErr result
        (λ fault. fault ≢ Memory → (program : Code) → IsTextTest text.now program → ⊥) }
{
    match kd_expr::read(alloc, text) {
        Ok(expr) => program_of_expr(alloc, number, expr),
        Err(fault) => Err(unread(number, fault)),
    }
}

// Returns the fault of a text that cannot be read.
fn unread(number: usize, fault: ExprFault) -> ClassesFault
    ensures { result ≢ Memory → fault ≢ reading.Memory }
{
    match fault {
        ExprFault::Memory => ClassesFault::Memory,
        _ => ClassesFault::Expression(number, TestFault::Reading(fault)),
    }
}

// Returns a program of an expression.
fn program_of_expr(alloc: Global, number: usize, expr: Expr) -> Result<Verified, ClassesFault>
    ensures found { IfOk result (λ program. IsProgramOf (tree_of expr) program) }
    ensures limits { IfOk result (λ program. HasFile program) }
    ensures refused { IfErr result
        (λ fault. fault ≢ Memory → (program : Code) → IsProgramOf (tree_of expr) program → ⊥) }
{
    match kd_expr::type_of(expr) {
        Ok(test) => program_of_test(alloc, number, &test),
        Err((fault, _)) => Err(ClassesFault::Expression(number, TestFault::Typing(fault))),
    }
}

// Returns a program of a class test.
fn program_of_test(alloc: Global, number: usize, test: &Typed) -> Result<Verified, ClassesFault>
    requires { test_type (tree_of test.now) ≡ Ok tt }
    ensures found { IfOk result (λ program. IsProgramOf (tree_of test.now) program) }
    ensures limits { IfOk result (λ program. HasFile program) }
    ensures refused { IfErr result
        (λ fault. fault ≢ Memory → (program : Code) → IsProgramOf (tree_of test.now) program → ⊥) }
{
    match compile(alloc, test) {
        Ok(program) => {
            // The contract of `tokens` states that the program is within the limits of a file.
            let _tokens = program.program().tokens();
            Ok(program)
        }
        Err(fault) => Err(compile_refusal(number, fault)),
    }
}

// Returns the fault of a class test that cannot be compiled.
fn compile_refusal(number: usize, fault: CompileFault) -> ClassesFault
    ensures { result ≢ Memory → fault ≢ compiling.Memory }
{
    match fault {
        CompileFault::Memory => ClassesFault::Memory,
        _ => ClassesFault::Expression(number, TestFault::Compiling(fault)),
    }
}

// Returns the program of the first token file with a name.
fn program_named(
    alloc: Global,
    number: usize,
    name: &[u8],
    files: &[TokenFile],
) -> Result<Verified, ClassesFault>
    ensures found { IfOk result (λ program. IsFileTest files.now name.now program) }
    ensures same { IfOk result
        (λ program. (other : Code) → IsFileTest files.now name.now other → other ≡ program) }
    ensures refused { IfErr result
        (λ fault. fault ≢ Memory → (program : Code) → IsFileTest files.now name.now program → ⊥) }
{
    match file_named(name, files) {
        Some(bytes) => program_in(alloc, number, bytes),
        None => Err(ClassesFault::Tokens(number, FileTestFault::Absent)),
    }
}

// Returns the program of a token file's bytes, if it is accepted.
fn program_in(alloc: Global, number: usize, bytes: &[u8]) -> Result<Verified, ClassesFault>
    ensures found { IfOk result (λ program. IsFileOf bytes.now program × Accepts program) }
    ensures same { IfOk result
        (λ program. (other : Code) → IsFileOf bytes.now other → other ≡ program) }
    ensures refused { IfErr result
        (λ fault. fault ≢ Memory → (program : Code) → IsFileOf bytes.now program → Accepts program
        → ⊥) }
{
    match Program::read(alloc, bytes) {
        Ok(program) => verify_program(alloc, number, program),
        Err(fault) => Err(no_file(number, fault)),
    }
}

// Returns the fault of bytes that are not a token file.
fn no_file(number: usize, fault: FileFault) -> ClassesFault
    ensures { result ≢ Memory → fault ≢ file_faults.Memory }
{
    match fault {
        FileFault::Memory => ClassesFault::Memory,
        _ => ClassesFault::Tokens(number, FileTestFault::File(fault)),
    }
}

// Verifies a program; the result is the same program.
fn verify_program(alloc: Global, number: usize, program: Program) -> Result<Verified, ClassesFault>
    ensures found { IfOk result (λ verified. verified ≡ program) }
    ensures accepted { IfOk result (λ _. Accepts program) }
    ensures refused { IfErr result (λ fault. fault ≢ Memory → Accepts program → ⊥) }
{
    match verify(alloc, program) {
        Ok(verified) => {
            // The contract of `program` states that the program is accepted.
            let _program = verified.program();
            Ok(verified)
        }
        Err((fault, _)) => Err(verify_refusal(number, fault)),
    }
}

// Returns the fault of a program that is not accepted.
fn verify_refusal(number: usize, fault: VerifyFault) -> ClassesFault
    ensures { result ≢ Memory → fault ≢ verifying.Memory }
{
    match fault {
        VerifyFault::Memory => ClassesFault::Memory,
        _ => ClassesFault::Tokens(number, FileTestFault::Verify(fault)),
    }
}
