ghost use Rattle.std.specs.Prelude.{◌≡◌, ◌≤◌, ◌<◌, ◌∷◌, [], drop, length, reverse, None, Some, IsTrue, ◌↔◌, MatchOption};
ghost use Rattle.kd_token.specs.Shape.{AreShort, IsShortKind, field_kind, gives, bound_of_hex, bound_of_substring, bool_taken, bytes_taken, int_taken};
ghost use Rattle.kd_token.specs.File.{IsShort};
ghost use Rattle.kd_token.specs.Meet.{met, met_of_kinds};
ghost use Rattle.kd_token.specs.declared.shape.Kind.TheVariants.{Bool, Int};
ghost use Rattle.kd_token.specs.declared.token.Token.TheVariants.{And, Concat, Equal, HexString, IfElse};

use crate::token::Token;
use arrayvec::ArrayVec;
use kd_wire::Field;
use std::marker::Model;

/// The kind of a value on the stack.
#[derive(Clone, Copy, Default)]
pub enum Kind {
    /// A truth value.
    #[default]
    Bool,
    /// A 4-byte number.
    Int,
    /// A byte string of at most this many bytes.
    Bytes(u32),
}

// The shape of a stack. It has room for one kind more than the greatest depth, so that a value can
// be pushed before the depth is checked.
#[derive(Drop)]
pub(crate) struct Shape {
    kinds: ArrayVec<Kind, 65>,
}

impl Model for Shape {
    ghost use Rattle.std.specs.Prelude.{List, reverse};
    ghost use Rattle.kd_token.specs.declared.shape.Kind.{Kind};

    ghost Value = { List Kind };

    ghost view = { λ s. reverse s.kinds.items };
}

impl Shape {
    pub(crate) fn new() -> Shape
        ensures { result ≡ [] }
    {
        Shape {
            kinds: ArrayVec::new(),
        }
    }

    pub(crate) fn len(&self) -> usize
        ensures { result ≡ length self.now }
    {
        self.kinds.len()
    }

    pub(crate) fn push(&mut self, kind: Kind)
        requires { length self.old < 65 }
        ensures { self.new ≡ kind ∷ self.old }
    {
        self.kinds.push(kind);
    }

    pub(crate) fn pop(&mut self) -> Option<Kind>
        ensures { MatchOption result ((self.old ≡ []) × (self.new ≡ []))
            (λ k. self.old ≡ k ∷ self.new) }
    {
        self.kinds.pop()
    }

    // Whether the stack is one truth value.
    pub(crate) fn is_bool(&self) -> bool
        ensures { IsTrue result ↔ (self.now ≡ Bool ∷ []) }
    {
        matches!(self.kinds.as_slice(), [Kind::Bool])
    }

    // Returns the kind on top, if there is one.
    pub(crate) fn top(&self) -> Option<Kind>
        ensures { MatchOption result (self.now ≡ []) (λ k. self.now ≡ k ∷ drop 1 self.now) }
    {
        self.kinds.as_slice().last().copied()
    }

    // Returns a copy of the shape.
    pub(crate) fn copy(&self) -> Shape
        ensures { result ≡ self.now }
    {
        let mut kinds = ArrayVec::new();
        match kinds.try_extend_from_slice(self.kinds.as_slice()) {
            Ok(()) => Shape { kinds },
            Err(_) => unreachable!(),
        }
    }

    // Meets another shape: becomes the least shape that covers both, if there is one.
    pub(crate) fn meet(&mut self, other: &Shape) -> Option<()>
        ensures met { MatchOption result (met self.old other.now ≡ None)
            (λ _. met self.old other.now ≡ Some self.new) }
        ensures few { MatchOption result (Unit {0}) (λ _. length self.new ≤ length other.now) }
    {
        if self.len() != other.len() {
            return None;
        }
        meet_kinds(self.kinds.as_mut_slice(), other.kinds.as_slice())
    }

    // Takes the byte string on top and returns its bound.
    fn take_bytes(&mut self) -> Option<u32>
        ensures { MatchOption result (bytes_taken self.old ≡ None)
            (λ n. bytes_taken self.old ≡ Some (n, self.new)) }
    {
        match self.pop() {
            Some(Kind::Bytes(n)) => Some(n),
            _ => None,
        }
    }

    // Takes the truth value on top.
    pub(crate) fn take_bool(&mut self) -> Option<()>
        ensures taken { MatchOption result (bool_taken self.old ≡ None)
            (λ _. bool_taken self.old ≡ Some self.new) }
        ensures top { MatchOption result (Unit {0}) (λ _. self.old ≡ Bool ∷ self.new) }
    {
        match self.pop() {
            Some(Kind::Bool) => Some(()),
            _ => None,
        }
    }

    // Takes the number on top.
    fn take_int(&mut self) -> Option<()>
        ensures { MatchOption result (int_taken self.old ≡ None)
            (λ _. int_taken self.old ≡ Some self.new) }
    {
        match self.pop() {
            Some(Kind::Int) => Some(()),
            _ => None,
        }
    }

    // Takes two byte strings, as `Equal` does, and returns the kind that it gives.
    #[tactic(auto, unfolding(crate::specs::Shape::gives))]
    fn equal(&mut self) -> Option<Kind>
        ensures { MatchOption result (gives 0 Equal self.old ≡ None)
            (λ k. gives 0 Equal self.old ≡ Some (k ∷ self.new)) }
    {
        self.take_bytes()?;
        self.take_bytes()?;
        Some(Kind::Bool)
    }

    // Takes two truth values, as `And` and `Or` do, and returns the kind that they give.
    #[tactic(auto, unfolding(crate::specs::Shape::gives))]
    fn both(&mut self) -> Option<Kind>
        ensures { MatchOption result (gives 0 And self.old ≡ None)
            (λ k. gives 0 And self.old ≡ Some (k ∷ self.new)) }
    {
        self.take_bool()?;
        self.take_bool()?;
        Some(Kind::Bool)
    }

    // Takes two byte strings and a truth value, as `IfElse` does, and returns the kind that it
    // gives.
    #[tactic(auto, unfolding(crate::specs::Shape::gives))]
    fn choose(&mut self) -> Option<Kind>
        ensures { MatchOption result (gives 0 IfElse self.old ≡ None)
            (λ k. gives 0 IfElse self.old ≡ Some (k ∷ self.new)) }
    {
        let second = self.take_bytes()?;
        let first = self.take_bytes()?;
        self.take_bool()?;
        Some(Kind::Bytes(first.max(second)))
    }

    // Takes two byte strings, as `Concat` does, and returns the kind that it gives.
    #[tactic(auto, unfolding(crate::specs::Shape::gives))]
    fn concat(&mut self) -> Option<Kind>
        requires short { AreShort 65535 self.old }
        ensures { MatchOption result (gives 0 Concat self.old ≡ None)
            (λ k. gives 0 Concat self.old ≡ Some (k ∷ self.new)) }
    {
        let second = self.take_bytes()?;
        let first = self.take_bytes()?;
        Some(Kind::Bytes(first + second))
    }

    // Takes two byte strings, as `HexString` does, and returns the kind that it gives.
    #[tactic(auto, unfolding(crate::specs::Shape::gives))]
    fn hex_string(&mut self) -> Option<Kind>
        requires short { AreShort 65535 self.old }
        ensures { MatchOption result (gives 0 HexString self.old ≡ None)
            (λ k. gives 0 HexString self.old ≡ Some (k ∷ self.new)) }
    {
        let separator = self.take_bytes()?;
        let bytes = self.take_bytes()?;
        Some(Kind::Bytes(hex_bound(bytes, separator)))
    }

    // Changes the shape as a token that goes on does, or returns `None` if the token cannot take
    // what it needs.
    #[tactic(auto, unfolding(crate::specs::Shape::gives))]
    pub(crate) fn pass(&mut self, token: &Token, names: usize) -> Option<()>
        requires few { length self.old ≤ 64 }
        requires short { AreShort 65535 self.old }
        requires literal { IsShort token.now }
        ensures { MatchOption result (gives names token.now self.old ≡ None)
            (λ _. gives names token.now self.old ≡ Some self.new) }
    {
        let kind = match token {
            Token::PushBytes(bytes) => Kind::Bytes(bytes.as_slice().len() as u32),
            Token::PushInt(_) => Kind::Int,
            Token::PushOption(_) => Kind::Bytes(4096),
            Token::PushRelay(_) => Kind::Bytes(255),
            Token::PushField(field) => kind_of(*field),
            Token::OptionExists(_) | Token::RelayExists(_) => Kind::Bool,
            Token::Member(index) if usize::from(*index) >= names => return None,
            Token::Member(_) => Kind::Bool,
            Token::Equal => self.equal()?,
            Token::Not => {
                self.take_bool()?;
                Kind::Bool
            }
            Token::And | Token::Or => self.both()?,
            Token::IfElse => self.choose()?,
            Token::Substring(_, count) => Kind::Bytes(bound_of(self.take_bytes()?, *count)),
            Token::Concat => self.concat()?,
            Token::HexString => self.hex_string()?,
            Token::Lower | Token::Upper => Kind::Bytes(self.take_bytes()?),
            Token::IntToText => {
                self.take_int()?;
                Kind::Bytes(10)
            }
            Token::IntBytes => {
                self.take_int()?;
                Kind::Bytes(4)
            }
            Token::Branch(_)
            | Token::PopBranchFalse(_)
            | Token::BranchFalseElsePop(_)
            | Token::BranchTrueElsePop(_) => return None,
        };
        self.push(kind);
        Some(())
    }
}

// Whether a kind is not a byte string that may be longer than `most`.
pub(crate) fn is_short(kind: Kind, most: u32) -> bool
    ensures { IsTrue result ↔ IsShortKind most kind }
{
    match kind {
        Kind::Bytes(n) => n <= most,
        _ => true,
    }
}

// Meets each kind with the other at its index.
fn meet_kinds(known: &mut [Kind], others: &[Kind]) -> Option<()>
    requires same { length known.old ≡ length others.now }
    ensures length { length known.new ≡ length known.old }
    ensures met { MatchOption result (met (reverse known.old) (reverse others.now) ≡ None)
        (λ _. met (reverse known.old) (reverse others.now) ≡ Some (reverse known.new)) }
{
    'kinds: for (i, kind) in others.iter().enumerate() {
        known[i] = met_kind(known[i], *kind)?;
    }
    Some(())
}

// Returns the least kind that covers both, if there is one.
fn met_kind(first: Kind, second: Kind) -> Option<Kind>
    ensures { result ≡ met_of_kinds first second }
{
    match (first, second) {
        (Kind::Bool, Kind::Bool) => Some(Kind::Bool),
        (Kind::Int, Kind::Int) => Some(Kind::Int),
        (Kind::Bytes(n), Kind::Bytes(m)) => Some(Kind::Bytes(n.max(m))),
        _ => None,
    }
}

// Returns the kind of a field.
fn kind_of(field: Field) -> Kind
    ensures { result ≡ field_kind field }
{
    match field {
        Field::Mac => Kind::Bytes(16),
        Field::Ciaddr | Field::Giaddr | Field::Yiaddr | Field::Siaddr => Kind::Bytes(4),
        Field::Hlen | Field::Htype | Field::MessageType | Field::Transaction | Field::Length => {
            Kind::Int
        }
    }
}

// Returns the greatest length of a substring of at most n bytes.
fn bound_of(n: u32, count: Option<i32>) -> u32
    ensures { result ≡ bound_of_substring n count }
{
    match count {
        None => n,
        Some(count) => n.min(count.unsigned_abs()),
    }
}

// Returns the greatest length of the hexadecimal text of at most n bytes, with separators of at
// most m bytes.
fn hex_bound(n: u32, m: u32) -> u32
    requires bytes { n ≤ 65535 }
    requires separator { m ≤ 65535 }
    ensures { result ≡ bound_of_hex n m }
{
    if n == 0 { 0 } else { 2 * n + (n - 1) * m }
}
