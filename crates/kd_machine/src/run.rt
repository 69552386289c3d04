ghost use Rattle.std.specs.Prelude.{◌≡◌, ◌<◌, ◌≤◌, [], IfOk, IsOk, MatchOption, Some, length};
ghost use Rattle.std.specs.List.{AllByRecursion};
ghost use Rattle.kd_machine.specs.Run.{EndsAs, IsFree, Run, moves};
ghost use Rattle.kd_machine.specs.World.{world};

use crate::fault::EvalFault;
use crate::held::Held;
use crate::stack::Stack;
use crate::step::step;
use crate::value::Value;
use kd_options::Message;
use kd_token::{Program, Token, Verified, Way};
use std::alloc::{AllocError, Global};

/// The outcome of a run.
#[derive(Clone, Copy, PartialEq, Eq)]
pub struct Outcome {
    /// The program's truth value.
    pub value: bool,
    /// How many tokens were run.
    pub steps: u32,
    /// The greatest number of values on the stack.
    pub peak_depth: u32,
    /// The length of the longest byte string on the stack.
    pub peak_length: u32,
}

/// Runs a verified program over a message with the class names that are held. Allocates memory only
/// for the values of `Concat`, `HexString`, `Lower`, `Upper` and `IntToText`.
///
/// # Errors
///
/// `Memory`: there is not enough memory for such a value.
pub fn eval<'a>(
    alloc: Global,
    verified: &'a Verified,
    message: &'a Message<'_>,
    held: &Held,
) -> Result<Outcome, EvalFault>
    ensures run { IfOk result (λ o. Run verified.now message.now held.now o) }
    ensures steps { IfOk result (λ o. o.steps ≤ verified.now.steps) }
    ensures depth { IfOk result (λ o. o.peak_depth ≤ verified.now.depth) }
    ensures length { IfOk result (λ o. o.peak_length ≤ verified.now.bound) }
    ensures free { AllByRecursion IsFree verified.now.tokens → IsOk result }
{
    let program = verified.program();
    // The contract of `tokens` states the bounds of a program.
    let _tokens = program.tokens();
    match program.depth() {
        0..=4 => within(alloc, &mut Stack::<4>::new(), verified, message, held),
        5..=16 => within(alloc, &mut Stack::<16>::new(), verified, message, held),
        _ => within(alloc, &mut Stack::<64>::new(), verified, message, held),
    }
}

// Runs a program on an empty stack with room for its declared depth.
fn within<'a, const ROOM: usize>(
    alloc: Global,
    stack: &mut Stack<'a, ROOM>,
    verified: &'a Verified,
    message: &'a Message<'_>,
    held: &Held,
) -> Result<Outcome, EvalFault>
    requires empty { stack.old ≡ [] }
    requires room { verified.now.depth ≤ ROOM }
    ensures run { IfOk result (λ o. EndsAs verified.now message.now held.now o) }
    ensures free { AllByRecursion IsFree verified.now.tokens → IsOk result }
{
    let program = verified.program();
    let tokens = program.tokens();
    // The contract of `len` states that some datagram reads as the message.
    let _size = message.len();
    // Where tokens lead, and how long the values of a message are.
    kd_token::laws::tokens_stand();
    kd_options::laws::messages_have_sizes();
    let mut at = 0;
    let mut steps = 0;
    let mut peak_depth = 0usize;
    let mut peak_length = 0usize;
    'tokens: while at < tokens.len() {
        at = advance(alloc, stack, at, &tokens[at], program, message, held)?;
        steps += 1;
        peak_depth = peak_depth.max(stack.len());
        peak_length = peak_length.max(stack.top_size());
    }
    Ok(Outcome {
        value: stack.pop_truth(),
        steps,
        peak_depth: peak_depth as u32,
        peak_length: peak_length as u32,
    })
}

// Runs the token at place `at` and returns the place it leads to.
fn advance<'a, const ROOM: usize>(
    alloc: Global,
    stack: &mut Stack<'a, ROOM>,
    at: usize,
    token: &'a Token,
    program: &'a Program,
    message: &'a Message<'_>,
    held: &Held,
) -> Result<usize, AllocError>
    requires near { at < 1024 }
    requires room { MatchOption
        (moves (world program.now message.now held.now) token.now at stack.old) ⊥
        (λ r. length r.1 ≤ ROOM) }
    ensures moved { IfOk result
        (λ j. moves (world program.now message.now held.now) token.now at stack.old
        ≡ Some (j, stack.new)) }
    ensures free { IsFree token.now → IsOk result }
{
    let next = at + 1;
    match token.way() {
        Way::On => {
            step(alloc, stack, token, program, message, held)?;
            Ok(next)
        }
        Way::Skip(skip) => Ok(next + usize::from(skip)),
        Way::Fork(skip) => {
            if stack.pop_truth() {
                Ok(next)
            } else {
                Ok(next + usize::from(skip))
            }
        }
        Way::Keep(stays, skip) => {
            let truth = stack.pop_truth();
            if stays == truth {
                stack.push(Value::Bool(truth));
                Ok(next + usize::from(skip))
            } else {
                Ok(next)
            }
        }
    }
}
