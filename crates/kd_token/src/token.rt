ghost use Rattle.std.specs.Prelude.{◌≡◌, MatchOption};
ghost use Rattle.kd_token.specs.File.{version_number};

use kd_wire::{Bytes, Field};

/// The version of a token file.
#[derive(Clone, Copy, PartialEq, Eq)]
pub enum Version {
    /// Version 1: every token runs.
    One,
    /// Version 2: with the four branch tokens.
    Two,
}

impl Version {
    /// Returns the version byte of the file, 1 or 2.
    pub fn number(self) -> u8
        ensures { result ≡ version_number self }
    {
        match self {
            Version::One => 1,
            Version::Two => 2,
        }
    }
}

/// A token of a program: what it takes from the top of the stack, and what it pushes.
#[derive(Drop)]
pub enum Token {
    /// Pushes these bytes, at most 65,535.
    PushBytes(Bytes),
    /// Pushes this number.
    PushInt(u32),
    /// Pushes the joined value of the option with this code, or the empty string if it is absent.
    PushOption(u8),
    /// Pushes the relay's sub-option with this code, or the empty string if it is absent.
    PushRelay(u8),
    /// Pushes a field of the message.
    PushField(Field),
    /// Pushes whether the option with this code is present.
    OptionExists(u8),
    /// Pushes whether the relay's sub-option with this code is present.
    RelayExists(u8),
    /// Pushes whether the program's name at this index is held.
    Member(u8),
    /// Takes two byte strings; pushes whether they are equal.
    Equal,
    /// Takes a truth value; pushes the other one.
    Not,
    /// Takes two truth values; pushes whether both are true.
    And,
    /// Takes two truth values; pushes whether at least one of them is true.
    Or,
    /// Takes a truth value and two byte strings above it; pushes the lower one if it is true,
    /// otherwise the upper one.
    IfElse,
    /// Takes a byte string; pushes its bytes from this start on: this number of them, or all if the
    /// number is `None`. A negative start counts from the end, and a negative number counts towards
    /// the beginning.
    Substring(i32, Option<i32>),
    /// Takes two byte strings; pushes the lower one followed by the upper one.
    Concat,
    /// Takes a byte string and a separator above it; pushes two hexadecimal digits per byte, with
    /// the separator between bytes.
    HexString,
    /// Takes a byte string; pushes it with its ASCII letters in lower case.
    Lower,
    /// Takes a byte string; pushes it with its ASCII letters in upper case.
    Upper,
    /// Takes a number; pushes its decimal digits.
    IntToText,
    /// Takes a number; pushes its 4 bytes in network byte order.
    IntBytes,
    /// Skips this many tokens.
    Branch(u16),
    /// Takes a truth value; skips this many tokens if it is false.
    PopBranchFalse(u16),
    /// Skips this many tokens if a false is on top, which stays; otherwise takes the true.
    BranchFalseElsePop(u16),
    /// Skips this many tokens if a true is on top, which stays; otherwise takes the false.
    BranchTrueElsePop(u16),
}
