ghost use Rattle.std.specs.Prelude.{◌≡◌, ℕ, ◌+◌, ◌<◌, ◌≤◌, [], ◌∷◌, length, slice_get, None, Some, IfErr, IfOk, MatchOption, MatchResult, vec_capacity};
ghost use Rattle.std.specs.List.{AllByRecursion};
ghost use Rattle.kd_token.specs.File.{HasFile, IsShort};
ghost use Rattle.kd_token.specs.Shape.{AreShort, gives, bool_taken, taken_count};
ghost use Rattle.kd_token.specs.declared.fault.VerifyFault.TheVariants.{Finish, Memory, Steps};
ghost use Rattle.kd_token.specs.declared.shape.Kind.TheVariants.{Bool};
ghost use Rattle.kd_token.specs.declared.table.Entry.TheVariants.{Joined, Unreached};
ghost use Rattle.kd_token.specs.Accepts.{Accepts, IsFaultAt, IsInPlaceOf, IsNoFinish, IsPlaceOf, IsTooManySteps, IsRightFault, IsVerifyFault, IsWithin, fault_by, flows, misfit_of, way_of, place_of, token_fault};
ghost use Rattle.kd_token.specs.Table.{IsAt, IsRoomFor, entry_at, point, skip_of, spread};

use crate::fault::VerifyFault;
use crate::program::Program;
use crate::shape::{Kind, Shape, is_short};
use crate::table::{Entry, arrive};
use crate::token::Token;
use crate::way::Way;
use std::alloc::{AllocError, Global};
use std::marker::Model;
use std::mem;

/// A program that the verifier has accepted. On every path through it each token finds the values
/// it needs, no stack is deeper and no value longer than the program declares, and it ends within
/// the declared steps with one truth value.
#[derive(Drop)]
pub struct Verified {
    program: Program,
}

impl Model for Verified {
    ghost use Rattle.kd_token.specs.File.{Code};
    ghost use Rattle.kd_token.specs.Accepts.{Accepts};

    ghost Value = { Code };

    ghost view = { λ v. v.program };

    ghost invariant = { λ v. Accepts v.program };
}

impl Verified {
    /// Returns the program that was verified.
    pub fn program(&self) -> &Program
        ensures program { result.now ≡ self.now }
        ensures accepted { Accepts self.now }
    {
        &self.program
    }
}

/// Verifies a program in one pass over its tokens. Takes memory for a table with one entry per
/// token and one for the end, under 600 bytes each.
///
/// # Errors
///
/// The first fault in the order of the tokens, with the program: at the place where two paths bring
/// different shapes, or at the token that cannot take what it needs or leaves more than is
/// declared; then `Steps`, then `Finish`. `Memory` if there is none for the table.
pub fn verify(alloc: Global, program: Program) -> Result<Verified, (VerifyFault, Program)>
    ensures accepted { IfOk result (λ v. v ≡ program) }
    ensures refused { IfErr result (λ e. (e.1 ≡ program) × IsVerifyFault program e.0) }
    ensures right { IfErr result (λ e. IsRightFault program e.0) }
    ensures only { Accepts program → IfErr result (λ e. e.0 ≡ Memory) }
    ensures place { (at : ℕ) → IsFaultAt program at
        → MatchResult result (λ _. ⊥) (λ e. IsPlaceOf at e.0) }
    ensures steps { IsTooManySteps program
        → MatchResult result (λ _. ⊥) (λ e. IsInPlaceOf Steps e.0) }
    ensures finish { IsNoFinish program
        → MatchResult result (λ _. ⊥) (λ e. IsInPlaceOf Finish e.0) }
{
    match check(alloc, &program) {
        Ok(()) => Ok(Verified { program }),
        Err(fault) => Err((fault, program)),
    }
}

// Checks whether the program is accepted.
fn check(alloc: Global, program: &Program) -> Result<(), VerifyFault>
    ensures judged { MatchResult result (λ _. Accepts program.now)
        (λ fault. IsVerifyFault program.now fault) }
    ensures right { IfErr result (IsRightFault program.now) }
{
    let mut table = begin(alloc, program.tokens().len())?;
    pass(&mut table, program)?;
    finish(&table, program)
}

// Takes room for exactly the entries of the tokens and of the end.
fn room_for(alloc: Global, tokens: usize) -> Result<Vec<Entry>, AllocError>
    requires few { tokens ≤ 1024 }
    ensures empty { IfOk result (λ t. t.items ≡ []) }
    ensures exact { IfOk result (λ t. vec_capacity t ≡ tokens + 1) }
{
    Vec::with_capacity(alloc, tokens + 1)
}

// Makes the table before the first token: the empty stack is at the first place, and nothing has
// arrived beyond it.
fn begin(alloc: Global, tokens: usize) -> Result<Vec<Entry>, AllocError>
    requires few { tokens ≤ 1024 }
    ensures length { IfOk result (λ t. length t.items ≡ tokens + 1) }
    ensures origin { IfOk result (λ t. entry_at t.items 0 ≡ Joined [] 0) }
    ensures beyond { IfOk result (λ t. (j : ℕ) → 0 < j → entry_at t.items j ≡ Unreached) }
{
    let mut table = room_for(alloc, tokens)?;
    table.push(Entry::Joined(Shape::new(), 0))?;
    'places: for _ in 0..tokens {
        table.push(Entry::Unreached)?;
    }
    Ok(table)
}

// Passes over all tokens.
fn pass(table: &mut [Entry], program: &Program) -> Result<(), VerifyFault>
    requires { IsAt program.now 0 table.old }
    ensures passed { MatchResult result
        (λ _. IsAt program.now (length program.now.tokens) table.new)
        (λ fault. IsVerifyFault program.now fault) }
    ensures right { IfErr result (IsRightFault program.now) }
{
    'tokens: for (at, token) in program.tokens().iter().enumerate() {
        visit(table, at, token, program)?;
    }
    Ok(())
}

// Passes over the token at a place.
fn visit(
    table: &mut [Entry],
    at: usize,
    token: &Token,
    program: &Program,
) -> Result<(), VerifyFault>
    requires limits { HasFile program.now }
    requires there { slice_get program.now.tokens at ≡ Some token.now }
    requires before { IsAt program.now at table.old }
    ensures passed { MatchResult result (λ _. IsAt program.now (at + 1) table.new)
        (λ fault. IsVerifyFault program.now fault) }
    ensures right { IfErr result (IsRightFault program.now) }
{
    match mem::replace(&mut table[at], Entry::Unreached) {
        Entry::Unreached => Ok(()),
        Entry::Clash => Err(VerifyFault::Kind(at)),
        Entry::Joined(shape, count) => settle(table, at, shape, count, token, program),
    }
}

// Checks that what has arrived at the end is one truth value, within the declared steps.
fn finish(table: &[Entry], program: &Program) -> Result<(), VerifyFault>
    requires limits { HasFile program.now }
    requires passed { IsAt program.now (length program.now.tokens) table.now }
    ensures judged { MatchResult result (λ _. Accepts program.now)
        (λ fault. IsVerifyFault program.now fault) }
    ensures right { IfErr result (IsRightFault program.now) }
{
    let end = program.tokens().len();
    match &table[end] {
        Entry::Joined(shape, count) => {
            if *count > u32::from(program.steps()) {
                Err(VerifyFault::Steps)
            } else if shape.is_bool() {
                Ok(())
            } else {
                Err(VerifyFault::Finish)
            }
        }
        Entry::Clash => Err(VerifyFault::Kind(end)),
        Entry::Unreached => unreachable!(),
    }
}

// Returns the number of values that a token takes.
fn takes(token: &Token) -> usize
    ensures { result ≡ taken_count token.now }
{
    match token {
        Token::IfElse => 3,
        Token::Equal | Token::And | Token::Or | Token::Concat | Token::HexString => 2,
        Token::Not
        | Token::Substring(..)
        | Token::Lower
        | Token::Upper
        | Token::IntToText
        | Token::IntBytes
        | Token::PopBranchFalse(_)
        | Token::BranchFalseElsePop(_)
        | Token::BranchTrueElsePop(_) => 1,
        Token::PushBytes(_)
        | Token::PushInt(_)
        | Token::PushOption(_)
        | Token::PushRelay(_)
        | Token::PushField(_)
        | Token::OptionExists(_)
        | Token::RelayExists(_)
        | Token::Member(_)
        | Token::Branch(_) => 0,
    }
}

// Returns why a token cannot take what it needs from a stack of `values` values.
fn misfit(token: &Token, values: usize, at: usize) -> VerifyFault
    ensures place { place_of result ≡ Some at }
    ensures exact { result ≡ misfit_of token.now values at }
{
    match token {
        Token::Member(_) => VerifyFault::Name(at),
        _ if values < takes(token) => VerifyFault::Short(at),
        _ => VerifyFault::Kind(at),
    }
}

// Changes the shape as a token that goes on does, and checks it against what the program declares.
fn advance(
    shape: &mut Shape,
    token: &Token,
    program: &Program,
    at: usize,
) -> Result<(), VerifyFault>
    requires few { length shape.old ≤ program.now.depth }
    requires limits { HasFile program.now }
    requires short { AreShort program.now.bound shape.old }
    requires literal { IsShort token.now }
    ensures given { MatchResult result
        (λ _. MatchOption (gives (length program.now.names) token.now shape.old) ⊥
        (λ s. (s ≡ shape.new) × IsRoomFor program.now s))
        (λ e. (place_of e ≡ Some at)
        × MatchOption (gives (length program.now.names) token.now shape.old) (Unit {0})
        (λ s. IsRoomFor program.now s → ⊥)) }
    ensures fault { IfErr result (λ e. Some e ≡ fault_by program.now at token.now (length shape.old)
        (gives (length program.now.names) token.now shape.old)) }
{
    let values = shape.len();
    let Some(()) = shape.pass(token, program.names()) else {
        return Err(misfit(token, values, at));
    };
    if shape.len() > usize::from(program.depth()) {
        return Err(VerifyFault::Deep(at));
    }
    let most = u32::from(program.length());
    match shape.top() {
        Some(kind) if !is_short(kind, most) => Err(VerifyFault::Long(at)),
        _ => Ok(()),
    }
}

// Passes over a token: what it leaves arrives where the token leads.
fn settle(
    table: &mut [Entry],
    at: usize,
    mut shape: Shape,
    count: u32,
    token: &Token,
    program: &Program,
) -> Result<(), VerifyFault>
    requires few { length shape ≤ program.now.depth }
    requires limits { HasFile program.now }
    requires short { AreShort program.now.bound shape }
    requires literal { IsShort token.now }
    requires count { count ≤ 1024 }
    requires within { at + 1 + skip_of (way_of token.now) < length table.old }
    ensures length { length table.new ≡ length table.old }
    ensures settled { MatchResult result
        (λ _. MatchOption (flows (length program.now.names) token.now at (point shape count)) ⊥
        (λ fs. AllByRecursion (IsWithin program.now) fs
        × ((j : ℕ) → entry_at table.new j ≡ spread fs (entry_at table.old) j)))
        (λ e. (place_of e ≡ Some at)
        × MatchOption (flows (length program.now.names) token.now at (point shape count)) (Unit {0})
        (λ fs. AllByRecursion (IsWithin program.now) fs → ⊥)) }
    ensures fault { IfErr result (λ e. token_fault program.now at token.now shape ≡ Some e) }
{
    let next = at + 1;
    let steps = count + 1;
    match token.way() {
        Way::On => {
            advance(&mut shape, token, program, at)?;
            arrive(table, next, shape, steps);
        }
        Way::Skip(skip) => arrive(table, next + usize::from(skip), shape, steps),
        Way::Fork(skip) => {
            below(&mut shape, token, at)?;
            arrive(table, next + usize::from(skip), shape.copy(), steps);
            arrive(table, next, shape, steps);
        }
        Way::Keep(_stays, skip) => {
            let kept = shape.copy();
            below(&mut shape, token, at)?;
            arrive(table, next + usize::from(skip), kept, steps);
            arrive(table, next, shape, steps);
        }
    }
    Ok(())
}

// Takes the truth value on top.
fn below(shape: &mut Shape, token: &Token, at: usize) -> Result<(), VerifyFault>
    ensures taken { MatchResult result (λ _. shape.old ≡ Bool ∷ shape.new)
        (λ e. (place_of e ≡ Some at) × (bool_taken shape.old ≡ None)) }
    ensures fault { IfErr result (λ e. e ≡ misfit_of token.now (length shape.old) at) }
{
    let values = shape.len();
    match shape.take_bool() {
        Some(()) => Ok(()),
        None => Err(misfit(token, values, at)),
    }
}
