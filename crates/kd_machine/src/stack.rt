ghost use Rattle.std.specs.Prelude.{◌≡◌, ◌<◌, ◌∷◌, [], IsSome, IsSomeAnd, MatchOption, Some, length, map, reverse};
ghost use Rattle.kd_machine.specs.Val.{Text};
ghost use Rattle.kd_machine.specs.Values.{take_number, take_text, take_truth, size_of_top, stands_for};

use crate::value::Value;
use arrayvec::ArrayVec;
use std::marker::Model;

// The stack of a run; the top is last.
#[derive(Drop)]
pub(crate) struct Stack<'a, const ROOM: usize> {
    values: ArrayVec<Value<'a>, ROOM>,
}

impl<'a, const ROOM: usize> Model for Stack<'a, ROOM> {
    ghost use Rattle.std.specs.Prelude.{List, map, reverse};
    ghost use Rattle.kd_machine.specs.Val.{Val};
    ghost use Rattle.kd_machine.specs.Values.{stands_for};

    ghost Value = { List Val };

    ghost view = { λ s. map stands_for (reverse s.values.items) };
}

impl<'a, const ROOM: usize> Stack<'a, ROOM> {
    #[inline]
    pub(crate) fn new() -> Stack<'a, ROOM>
        ensures { result ≡ [] }
    {
        Stack {
            values: ArrayVec::new(),
        }
    }

    #[inline]
    pub(crate) fn len(&self) -> usize
        ensures { result ≡ length self.now }
    {
        self.values.len()
    }

    // The length of the value on top, 0 if the stack is empty.
    #[inline]
    pub(crate) fn top_size(&self) -> usize
        ensures { result ≡ size_of_top self.now }
    {
        match self.values.as_slice().last() {
            Some(value) => value.len(),
            None => 0,
        }
    }

    #[inline]
    pub(crate) fn push(&mut self, value: Value<'a>)
        requires { length self.old < ROOM }
        ensures { self.new ≡ stands_for value.entry ∷ self.old }
    {
        self.values.push(value);
    }

    // The byte string on top.
    #[inline]
    pub(crate) fn text(&self) -> &[u8]
        requires { IsSome (take_text self.now) }
        ensures { MatchOption (take_text self.now) ⊥ (λ r. r.0 ≡ result.now) }
    {
        match self.values.as_slice().last() {
            Some(value) => value.as_slice(),
            None => unreachable!(),
        }
    }

    // The two byte strings on top, the lower one first.
    #[inline]
    pub(crate) fn two_texts(&self) -> (&[u8], &[u8])
        requires { IsSomeAnd (take_text self.now) (λ b. IsSome (take_text b.1)) }
        ensures { MatchOption (take_text self.now) ⊥
            (λ b. (b.0 ≡ result.1.now) × MatchOption (take_text b.1) ⊥ (λ a. a.0 ≡ result.0.now)) }
    {
        match self.values.as_slice() {
            [.., first, second] => (first.as_slice(), second.as_slice()),
            _ => unreachable!(),
        }
    }

    // Drops the byte string on top.
    #[inline]
    pub(crate) fn drop_text(&mut self)
        requires { IsSome (take_text self.old) }
        ensures { MatchOption (take_text self.old) ⊥ (λ r. self.new ≡ r.1) }
    {
        self.values.pop();
    }

    // Pops the byte string on top.
    #[inline]
    pub(crate) fn pop_text(&mut self) -> Value<'a>
        requires { IsSome (take_text self.old) }
        ensures { MatchOption (take_text self.old) ⊥
            (λ r. (stands_for result ≡ Text r.0) × (self.new ≡ r.1)) }
    {
        match self.values.pop() {
            Some(value) => value,
            None => unreachable!(),
        }
    }

    // Pops the truth value on top.
    #[inline]
    pub(crate) fn pop_truth(&mut self) -> bool
        requires { IsSome (take_truth self.old) }
        ensures { take_truth self.old ≡ Some (result, self.new) }
    {
        match self.values.pop() {
            Some(Value::Bool(truth)) => truth,
            _ => unreachable!(),
        }
    }

    // Pops the number on top.
    #[inline]
    pub(crate) fn pop_number(&mut self) -> u32
        requires { IsSome (take_number self.old) }
        ensures { take_number self.old ≡ Some (result, self.new) }
    {
        match self.values.pop() {
            Some(Value::Int(number)) => number,
            _ => unreachable!(),
        }
    }
}
