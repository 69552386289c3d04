ghost use Rattle.std.specs.Prelude.{◌≡◌, ◌<◌, ◌∷◌, ◌++◌, if◌then◌else◌, IsSome, IsSomeAnd, MatchOption, OnOk, length, map};
ghost use Rattle.std.specs.Char.{to_ascii_lowercase, to_ascii_uppercase};
ghost use Rattle.std.specs.Fmt.{decimal};
ghost use Rattle.kd_machine.specs.Strings.{hex_of, substring};
ghost use Rattle.kd_machine.specs.Val.{Text, Truth};
ghost use Rattle.kd_machine.specs.Values.{take_number, take_text, take_truth};
ghost use Rattle.kd_machine.specs.Parts.{same};

use crate::bounds::bounds;
use crate::stack::Stack;
use crate::text::{decimal_text, hex_text, join_bytes};
use crate::value::Value;
use std::alloc::{AllocError, Global};

// Pops two byte strings and the truth value below them; pushes the lower string if the truth value
// is true, else the upper one.
pub(crate) fn choose<const ROOM: usize>(stack: &mut Stack<'_, ROOM>)
    requires { IsSomeAnd (take_text stack.old)
        (λ b. IsSomeAnd (take_text b.1)
        (λ a. IsSomeAnd (take_truth a.1) (λ c. length c.1 < ROOM))) }
    ensures { MatchOption (take_text stack.old) ⊥
        (λ b. MatchOption (take_text b.1) ⊥
        (λ a. MatchOption (take_truth a.1) ⊥
        (λ c. stack.new ≡ Text (if c.0 then a.0 else b.0) ∷ c.1))) }
{
    let second = stack.pop_text();
    let first = stack.pop_text();
    if stack.pop_truth() {
        stack.push(first);
    } else {
        stack.push(second);
    }
}

// Replaces the byte string on top with a substring of it.
pub(crate) fn narrow<const ROOM: usize>(stack: &mut Stack<'_, ROOM>, start: i32, count: Option<i32>)
    requires { IsSomeAnd (take_text stack.old) (λ a. length a.1 < ROOM) }
    ensures { MatchOption (take_text stack.old) ⊥
        (λ a. stack.new ≡ Text (substring start count a.0) ∷ a.1) }
{
    let mut value = stack.pop_text();
    let (from, to) = bounds(start, count, value.as_slice().len());
    value.narrow(from, to);
    stack.push(value);
}

// Replaces the two byte strings on top with their concatenation, the lower one first.
pub(crate) fn concat<const ROOM: usize>(
    alloc: Global,
    stack: &mut Stack<'_, ROOM>,
) -> Result<(), AllocError>
    requires { IsSomeAnd (take_text stack.old)
        (λ b. IsSomeAnd (take_text b.1) (λ a. length a.1 < ROOM)) }
    ensures { OnOk result
        (MatchOption (take_text stack.old) ⊥
        (λ b. MatchOption (take_text b.1) ⊥ (λ a. stack.new ≡ Text (a.0 ++ b.0) ∷ a.1))) }
{
    let (first, second) = stack.two_texts();
    let bytes = join_bytes(alloc, first, second)?;
    stack.drop_text();
    stack.drop_text();
    stack.push(Value::of_bytes(alloc, bytes)?);
    Ok(())
}

// Replaces a byte string, and the separator above it, with the string's hexadecimal text.
pub(crate) fn hex_string<const ROOM: usize>(
    alloc: Global,
    stack: &mut Stack<'_, ROOM>,
) -> Result<(), AllocError>
    requires { IsSomeAnd (take_text stack.old)
        (λ b. IsSomeAnd (take_text b.1) (λ a. length a.1 < ROOM)) }
    ensures { OnOk result
        (MatchOption (take_text stack.old) ⊥
        (λ b. MatchOption (take_text b.1) ⊥ (λ a. stack.new ≡ Text (hex_of b.0 a.0) ∷ a.1))) }
{
    let (value, separator) = stack.two_texts();
    let bytes = hex_text(alloc, value, separator)?;
    stack.drop_text();
    stack.drop_text();
    stack.push(Value::of_bytes(alloc, bytes)?);
    Ok(())
}

// Changes the letters of the byte string on top to lower case.
pub(crate) fn lower<const ROOM: usize>(
    alloc: Global,
    stack: &mut Stack<'_, ROOM>,
) -> Result<(), AllocError>
    requires { IsSomeAnd (take_text stack.old) (λ a. length a.1 < ROOM) }
    ensures { OnOk result
        (MatchOption (take_text stack.old) ⊥
        (λ a. stack.new ≡ Text (map to_ascii_lowercase a.0) ∷ a.1)) }
{
    let bytes = stack.text().to_ascii_lowercase(alloc)?;
    stack.drop_text();
    stack.push(Value::of_bytes(alloc, bytes)?);
    Ok(())
}

// Changes the letters of the byte string on top to upper case.
pub(crate) fn upper<const ROOM: usize>(
    alloc: Global,
    stack: &mut Stack<'_, ROOM>,
) -> Result<(), AllocError>
    requires { IsSomeAnd (take_text stack.old) (λ a. length a.1 < ROOM) }
    ensures { OnOk result
        (MatchOption (take_text stack.old) ⊥
        (λ a. stack.new ≡ Text (map to_ascii_uppercase a.0) ∷ a.1)) }
{
    let bytes = stack.text().to_ascii_uppercase(alloc)?;
    stack.drop_text();
    stack.push(Value::of_bytes(alloc, bytes)?);
    Ok(())
}

// Replaces the number on top with its decimal digits.
pub(crate) fn digits<const ROOM: usize>(
    alloc: Global,
    stack: &mut Stack<'_, ROOM>,
) -> Result<(), AllocError>
    requires { IsSomeAnd (take_number stack.old) (λ a. length a.1 < ROOM) }
    ensures { OnOk result
        (MatchOption (take_number stack.old) ⊥ (λ a. stack.new ≡ Text (decimal a.0) ∷ a.1)) }
{
    let bytes = decimal_text(alloc, stack.pop_number())?;
    stack.push(Value::of_bytes(alloc, bytes)?);
    Ok(())
}

// Replaces the two byte strings on top with whether they are equal.
pub(crate) fn equal<const ROOM: usize>(stack: &mut Stack<'_, ROOM>)
    requires { IsSomeAnd (take_text stack.old)
        (λ b. IsSomeAnd (take_text b.1) (λ a. length a.1 < ROOM)) }
    ensures { MatchOption (take_text stack.old) ⊥
        (λ b. MatchOption (take_text b.1) ⊥ (λ a. stack.new ≡ Truth (same a.0 b.0) ∷ a.1)) }
{
    let (first, second) = stack.two_texts();
    let equal = first == second;
    stack.drop_text();
    stack.drop_text();
    stack.push(Value::Bool(equal));
}
