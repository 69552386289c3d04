ghost use Rattle.std.specs.Prelude.{◌≡◌, ◌++◌, ℕ, IfOk, List, string_bytes};
ghost use Rattle.hex.specs.Hex.{encode_lower};
ghost use Rattle.kd_expr.specs.View.{tree_of};
ghost use Rattle.kd_token.specs.File.{IsFileOf};
ghost use Rattle.kd_answers.specs.Printed.{CompilesText, CompilesTree, OfCompiled, PrintsFile, TypesText, TypesTree};
ghost use Rattle.kd_answers.specs.Show.{line_feed};

use crate::printed::{Printed, success};
use crate::refusal::{refused_test, refused_text, refused_type};
use kd_expr::{Expr, Typed};
use kd_token::Program;
use std::alloc::{AllocError, Global};

// Returns the number of nodes of the class test in an argument.
pub(crate) fn answer_expr(alloc: Global, word: &str) -> Result<Printed, AllocError>
    ensures { IfOk result (TypesText word.now) }
{
    match kd_expr::read(alloc, word.as_bytes()) {
        Ok(expr) => type_expr(alloc, expr),
        Err(fault) => refused_text(alloc, fault),
    }
}

// Returns the number of nodes of an expression that is a class test, or the first fault of its
// type.
fn type_expr(alloc: Global, expr: Expr) -> Result<Printed, AllocError>
    ensures { IfOk result (TypesTree (tree_of expr)) }
{
    match kd_expr::type_of(expr) {
        Ok(test) => {
            let nodes = test.nodes();
            Ok(success(alloc, format!(in alloc; "bool {nodes}\n")?))
        }
        Err((fault, _)) => refused_type(alloc, fault),
    }
}

// Returns the token file of the program of the class test in an argument.
pub(crate) fn answer_compile(alloc: Global, word: &str) -> Result<Printed, AllocError>
    ensures { IfOk result (CompilesText word.now) }
{
    match kd_expr::read(alloc, word.as_bytes()) {
        Ok(expr) => compile_expr(alloc, expr),
        Err(fault) => refused_text(alloc, fault),
    }
}

// Returns the token file of the program of an expression that is a class test, or the first fault
// of its type.
fn compile_expr(alloc: Global, expr: Expr) -> Result<Printed, AllocError>
    ensures { IfOk result (CompilesTree (tree_of expr)) }
{
    match kd_expr::type_of(expr) {
        Ok(test) => compile_test(alloc, &test),
        Err((fault, _)) => refused_type(alloc, fault),
    }
}

// Returns the token file of the program of a class test, or the first limit that the test exceeds.
fn compile_test(alloc: Global, test: &Typed) -> Result<Printed, AllocError>
    ensures { IfOk result (OfCompiled PrintsFile (tree_of test.now)) }
{
    match kd_compile::compile(alloc, test) {
        Ok(verified) => Ok(success(alloc, file_text(alloc, verified.program())?)),
        Err(fault) => refused_test(alloc, fault),
    }
}

// Returns the line of a program's token file.
fn file_text(alloc: Global, program: &Program) -> Result<String, AllocError>
    ensures { IfOk result (λ line. (file : List ℕ) × IsFileOf file program.now
        × (string_bytes line ≡ encode_lower file ++ line_feed)) }
{
    let file = program.write(alloc)?;
    let mut text = hex::encode(alloc, file.as_slice())?;
    text.push_str("\n")?;
    Ok(text)
}
