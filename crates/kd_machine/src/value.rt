ghost use Rattle.std.specs.Prelude.{◌≡◌, ℕ, ◌≤◌, IfOk, List, length, slice_range};
ghost use Rattle.kd_machine.specs.Val.{IsText, Text, size};
ghost use Rattle.kd_machine.specs.Values.{stands_for};

use std::alloc::{AllocError, Global};
use std::marker::Model;

// A value on the stack, three machine words long. A byte string is a slice of the message or of the
// program, four bytes stored in place, or an owned buffer behind a pointer.
#[derive(Drop)]
pub(crate) enum Value<'a> {
    Bool(bool),
    Int(u32),
    Slice(&'a [u8]),
    Small(Small),
    Owned(Box<Owned>),
}

// The value in the unused slots of a stack.
impl<'a> Default for Value<'a> {
    fn default() -> Value<'a> {
        Value::Bool(false)
    }
}

impl<'a> Value<'a> {
    // Makes a byte string that owns these bytes.
    pub(crate) fn of_bytes(alloc: Global, bytes: Vec<u8>) -> Result<Value<'a>, AllocError>
        ensures { IfOk result (λ v. stands_for v ≡ Text bytes.items) }
    {
        Ok(Value::Owned(Box::new(alloc, Owned::new(bytes))?))
    }

    // Returns the bytes of a byte string.
    pub(crate) fn as_slice(&self) -> &[u8]
        requires { IsText (stands_for self.now) }
        ensures { stands_for self.now ≡ Text result.now }
    {
        match self {
            Value::Slice(bytes) => bytes,
            Value::Small(small) => small.as_slice(),
            Value::Owned(owned) => owned.as_slice(),
            _ => unreachable!(),
        }
    }

    // Returns the length of a byte string, and 0 for any other value.
    pub(crate) fn len(&self) -> usize
        ensures { result ≡ size (stands_for self.now) }
    {
        match self {
            Value::Slice(bytes) => bytes.len(),
            Value::Small(small) => small.as_slice().len(),
            Value::Owned(owned) => owned.as_slice().len(),
            _ => 0,
        }
    }

    // Narrows the byte string to a part of itself.
    pub(crate) fn narrow(&mut self, from: usize, to: usize)
        requires text { IsText (stands_for self.old) }
        requires order { from ≤ to }
        requires within { to ≤ size (stands_for self.old) }
        ensures { (bytes : List ℕ) → stands_for self.old ≡ Text bytes
            → stands_for self.new ≡ Text (slice_range bytes from to) }
    {
        match self {
            Value::Slice(bytes) => *bytes = &bytes[from..to],
            Value::Small(small) => small.narrow(from, to),
            Value::Owned(owned) => owned.narrow(from, to),
            _ => unreachable!(),
        }
    }
}

// Four bytes stored in place, and the part of them that is the value.
#[derive(Drop)]
pub(crate) struct Small {
    bytes: [u8; 4],
    start: u8,
    end: u8,
}

impl Model for Small {
    ghost use Rattle.std.specs.Prelude.{ℕ, ◌≤◌, List, slice_range};

    ghost Value = { List ℕ };

    ghost view = { λ s. slice_range s.bytes s.start s.end };

    ghost invariant = { λ s. (s.start ≤ s.end) × (s.end ≤ 4) };
}

impl Small {
    // Makes the value of all four bytes.
    pub(crate) fn new(bytes: [u8; 4]) -> Small
        ensures { result ≡ bytes }
    {
        Small {
            bytes,
            start: 0,
            end: 4,
        }
    }

    fn as_slice(&self) -> &[u8]
        ensures { result.now ≡ self.now }
    {
        &self.bytes[usize::from(self.start)..usize::from(self.end)]
    }

    fn narrow(&mut self, from: usize, to: usize)
        requires order { from ≤ to }
        requires within { to ≤ length self.old }
        ensures { self.new ≡ slice_range self.old from to }
    {
        self.end = self.start + to as u8;
        self.start += from as u8;
    }
}

// An owned buffer, and the part of it that is the value.
#[derive(Drop)]
pub(crate) struct Owned {
    bytes: Vec<u8>,
    start: usize,
    end: usize,
}

impl Model for Owned {
    ghost use Rattle.std.specs.Prelude.{ℕ, ◌≤◌, List, length, slice_range};

    ghost Value = { List ℕ };

    ghost view = { λ s. slice_range s.bytes.items s.start s.end };

    ghost invariant = { λ s. (s.start ≤ s.end) × (s.end ≤ length s.bytes.items) };
}

impl Owned {
    // Makes the value of the whole buffer.
    fn new(bytes: Vec<u8>) -> Owned
        ensures { result ≡ bytes.items }
    {
        let end = bytes.len();
        Owned {
            bytes,
            start: 0,
            end,
        }
    }

    fn as_slice(&self) -> &[u8]
        ensures { result.now ≡ self.now }
    {
        &self.bytes[self.start..self.end]
    }

    fn narrow(&mut self, from: usize, to: usize)
        requires order { from ≤ to }
        requires within { to ≤ length self.old }
        ensures { self.new ≡ slice_range self.old from to }
    {
        self.end = self.start + to;
        self.start = self.start + from;
    }
}
