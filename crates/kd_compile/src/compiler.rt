ghost use Rattle.std.specs.Prelude.{◌≡◌, ◌⊎◌, IfOk, MatchResult, None, Ok, Some};
ghost use Rattle.kd_compile.specs.Compiled.{HasMeasures, KeepsMeaning, first_over, version_for};
ghost use Rattle.kd_compile.specs.Measures.{greatest, names};
ghost use Rattle.kd_compile.specs.Tokens.{program_for};
ghost use Rattle.kd_compile.specs.declared.fault.CompileFault.TheVariants.{Memory};
ghost use Rattle.kd_expr.specs.Grammar.{HasText};
ghost use Rattle.kd_expr.specs.Typing.{type_of};
ghost use Rattle.kd_expr.specs.View.{tree_of};
ghost use Rattle.kd_expr.specs.declared.typing.ValueType.TheVariants.{Bool};
ghost use Rattle.kd_token.specs.Accepts.{Accepts};

use crate::emit::{member_names, put_code};
use crate::fault::CompileFault;
use crate::lengths::lengths;
use crate::measure::{depth, has_branches, steps, tokens};
use kd_expr::{Node, Typed};
use kd_token::{Program, Verified, VerifyFault, Version, verify};
use kd_wire::Bytes;
use std::alloc::{AllocError, Global};

/// Compiles a class test into a verified program. Its run over every message and every list of held
/// names ends with the expression's value.
///
/// # Errors
///
/// The first limit that the program would be over: `TooManyTokens` (1,024), `TooDeep` (64),
/// `TooLong` (65,535 bytes), `TooManyNames` (64). `Memory`, in place of any other result, if there
/// is none for the program.
pub fn compile(alloc: Global, typed: &Typed) -> Result<Verified, CompileFault>
    ensures measured { IfOk result (λ v. HasMeasures (tree_of typed.now) v) }
    ensures accepted { IfOk result (λ v. Accepts v) }
    ensures keeps { IfOk result (λ v. KeepsMeaning (tree_of typed.now) v) }
    ensures exact { IfOk result (λ v. v ≡ program_for (tree_of typed.now)) }
    ensures refused { MatchResult result (λ _. first_over (tree_of typed.now) ≡ None)
        (λ fault. (fault ≡ Memory) ⊎ (first_over (tree_of typed.now) ≡ Some fault)) }
{
    let tree = typed.tree();
    if tokens(tree) > 1024 {
        return Err(CompileFault::TooManyTokens);
    }
    if depth(tree) > 64 {
        return Err(CompileFault::TooDeep);
    }
    let bound = lengths(tree).greatest;
    if bound > 65_535 {
        return Err(CompileFault::TooLong);
    }
    let names = member_names(alloc, tree)?;
    if names.len() > 64 {
        return Err(CompileFault::TooManyNames);
    }
    let program = program_of(alloc, tree, bound as u16, names)?;
    // These laws say that an accepted program has a run over every message, and only one.
    kd_machine::laws::accepted_ends();
    kd_machine::laws::one_end();
    match verify(alloc, program) {
        Ok(verified) => Ok(verified),
        Err((fault, _)) => match fault {
            VerifyFault::Memory => Err(CompileFault::Memory),
            _ => unreachable!(),
        },
    }
}

// Makes the program of an expression that is over no limit.
fn program_of(
    alloc: Global,
    tree: &Node,
    bound: u16,
    held: Vec<Bytes>,
) -> Result<Program, AllocError>
    requires within { first_over (tree_of tree.now) ≡ None }
    requires bound { bound ≡ greatest (tree_of tree.now) }
    requires names { held.items ≡ names (tree_of tree.now) }
    requires typed { type_of (tree_of tree.now) ≡ Ok Bool }
    requires text { HasText (tree_of tree.now) }
    ensures program { IfOk result (λ p. p ≡ program_for (tree_of tree.now)) }
    ensures within { IfOk result (λ _. first_over (tree_of tree.now) ≡ None) }
{
    let mut out = Vec::with_capacity(alloc, tokens(tree) as usize)?;
    put_code(alloc, tree, &held, &mut out)?;
    Ok(Program::new(
        version_of(tree),
        steps(tree) as u16,
        depth(tree) as u8,
        bound,
        held,
        out,
    ))
}

// Returns the version of an expression's program: version 2 if it has branches.
fn version_of(tree: &Node) -> Version
    ensures { result ≡ version_for (tree_of tree.now) }
{
    if has_branches(tree) {
        Version::Two
    } else {
        Version::One
    }
}
