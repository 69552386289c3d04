ghost use Rattle.std.specs.Prelude.{◌≡◌, ◌<◌, ◌≤◌, ◌∷◌, ◌&&◌, ◌||◌, IsOk, IsSomeAnd, MatchOption, OnOk, Some, length, nat_eq};
ghost use Rattle.std.specs.Map.{lookup};
ghost use Rattle.byteorder.specs.Endian.{big_bytes};
ghost use Rattle.kd_machine.specs.Run.{IsFree, rule};
ghost use Rattle.kd_machine.specs.Val.{Text, Truth};
ghost use Rattle.kd_machine.specs.Values.{stands_for, take_number, take_truth};
ghost use Rattle.kd_machine.specs.World.{world};
ghost use Rattle.kd_machine.specs.Parts.{or_empty, value_of_field};
ghost use Rattle.kd_options.specs.Joined.{value_of};
ghost use Rattle.kd_options.specs.RelayWalk.{relay_list};

use crate::held::Held;
use crate::stack::Stack;
use crate::texts::{choose, concat, digits, equal, hex_string, lower, narrow, upper};
use crate::value::{Small, Value};
use kd_options::Message;
use kd_token::{Program, Token};
use kd_wire::Field;
use std::alloc::{AllocError, Global};

// The value of a field of the message.
fn field_value<'a>(message: &'a Message<'_>, field: Field) -> Value<'a>
    ensures { stands_for result ≡ value_of_field message.now field }
{
    let header = message.header();
    match field {
        Field::Mac => Value::Slice(message.mac()),
        Field::Hlen => Value::Int(u32::from(header.hlen)),
        Field::Htype => Value::Int(u32::from(header.htype)),
        Field::Ciaddr => Value::Small(Small::new(header.ciaddr.to_be_bytes())),
        Field::Giaddr => Value::Small(Small::new(header.giaddr.to_be_bytes())),
        Field::Yiaddr => Value::Small(Small::new(header.yiaddr.to_be_bytes())),
        Field::Siaddr => Value::Small(Small::new(header.siaddr.to_be_bytes())),
        Field::MessageType => Value::Int(u32::from(message.kind().number())),
        Field::Transaction => Value::Int(header.xid),
        Field::Length => Value::Int(message.len() as u32),
    }
}

// Pushes the value of a field.
fn push_field<'a, const ROOM: usize>(
    stack: &mut Stack<'a, ROOM>,
    message: &'a Message<'_>,
    field: Field,
)
    requires { length stack.old < ROOM }
    ensures { stack.new ≡ value_of_field message.now field ∷ stack.old }
{
    stack.push(field_value(message, field));
}

// Pushes the value of an option, or the empty string if it is absent.
fn push_option<'a, const ROOM: usize>(
    stack: &mut Stack<'a, ROOM>,
    message: &'a Message<'_>,
    code: u8,
)
    requires { length stack.old < ROOM }
    ensures { stack.new ≡ Text (or_empty (value_of code message.now.options)) ∷ stack.old }
{
    stack.push(Value::Slice(message.option(code).unwrap_or(&[])));
}

// Pushes the value of a sub-option, or the empty string if it is absent.
fn push_relay<'a, const ROOM: usize>(
    stack: &mut Stack<'a, ROOM>,
    message: &'a Message<'_>,
    code: u8,
)
    requires { length stack.old < ROOM }
    ensures { stack.new ≡ Text (or_empty (lookup (nat_eq code) (relay_list message.now.options)))
        ∷ stack.old }
{
    stack.push(Value::Slice(message.relay(code).unwrap_or(&[])));
}

// Replaces the two truth values on top with whether both are true.
fn both<const ROOM: usize>(stack: &mut Stack<'_, ROOM>)
    requires { IsSomeAnd (take_truth stack.old)
        (λ b. IsSomeAnd (take_truth b.1) (λ a. length a.1 < ROOM)) }
    ensures { MatchOption (take_truth stack.old) ⊥
        (λ b. MatchOption (take_truth b.1) ⊥ (λ a. stack.new ≡ Truth (a.0 && b.0) ∷ a.1)) }
{
    let second = stack.pop_truth();
    let first = stack.pop_truth();
    stack.push(Value::Bool(first && second));
}

// Replaces the two truth values on top with whether one of them is true.
fn either<const ROOM: usize>(stack: &mut Stack<'_, ROOM>)
    requires { IsSomeAnd (take_truth stack.old)
        (λ b. IsSomeAnd (take_truth b.1) (λ a. length a.1 < ROOM)) }
    ensures { MatchOption (take_truth stack.old) ⊥
        (λ b. MatchOption (take_truth b.1) ⊥ (λ a. stack.new ≡ Truth (a.0 || b.0) ∷ a.1)) }
{
    let second = stack.pop_truth();
    let first = stack.pop_truth();
    stack.push(Value::Bool(first || second));
}

// Replaces the number on top with its four bytes.
fn push_number_bytes<const ROOM: usize>(stack: &mut Stack<'_, ROOM>)
    requires { IsSomeAnd (take_number stack.old) (λ a. length a.1 < ROOM) }
    ensures { MatchOption (take_number stack.old) ⊥
        (λ a. stack.new ≡ Text (big_bytes 4 a.0) ∷ a.1) }
{
    let number = stack.pop_number();
    stack.push(Value::Small(Small::new(number.to_be_bytes())));
}

// Runs one token that is not a branch.
#[tactic(auto, unfolding(crate::specs::Run::rule))]
pub(crate) fn step<'a, const ROOM: usize>(
    alloc: Global,
    stack: &mut Stack<'a, ROOM>,
    token: &'a Token,
    program: &'a Program,
    message: &'a Message<'_>,
    held: &Held,
) -> Result<(), AllocError>
    requires room { MatchOption
        (rule (world program.now message.now held.now) token.now stack.old) ⊥
        (λ t. length t ≤ ROOM) }
    ensures ruled { OnOk result
        (rule (world program.now message.now held.now) token.now stack.old ≡ Some stack.new) }
    ensures free { IsFree token.now → IsOk result }
{
    match token {
        Token::PushBytes(bytes) => stack.push(Value::Slice(bytes.as_slice())),
        Token::PushInt(number) => stack.push(Value::Int(*number)),
        Token::PushOption(code) => push_option(stack, message, *code),
        Token::PushRelay(code) => push_relay(stack, message, *code),
        Token::PushField(field) => push_field(stack, message, *field),
        Token::OptionExists(code) => stack.push(Value::Bool(message.option(*code).is_some())),
        Token::RelayExists(code) => stack.push(Value::Bool(message.relay(*code).is_some())),
        Token::Member(index) => match program.name_at(usize::from(*index)) {
            Some(name) => stack.push(Value::Bool(held.contains(name))),
            None => unreachable!(),
        },
        Token::Equal => equal(stack),
        Token::Not => {
            let truth = stack.pop_truth();
            stack.push(Value::Bool(!truth));
        }
        Token::And => both(stack),
        Token::Or => either(stack),
        Token::IfElse => choose(stack),
        Token::Substring(start, count) => narrow(stack, *start, *count),
        Token::Concat => concat(alloc, stack)?,
        Token::HexString => hex_string(alloc, stack)?,
        Token::Lower => lower(alloc, stack)?,
        Token::Upper => upper(alloc, stack)?,
        Token::IntToText => digits(alloc, stack)?,
        Token::IntBytes => push_number_bytes(stack),
        Token::Branch(_)
        | Token::PopBranchFalse(_)
        | Token::BranchFalseElsePop(_)
        | Token::BranchTrueElsePop(_) => unreachable!(),
    }
    Ok(())
}
