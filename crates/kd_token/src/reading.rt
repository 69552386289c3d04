ghost use Rattle.std.specs.Prelude.{◌≡◌, ℕ, ◌+◌, ◌^◌, ◌<◌, ◌≤◌, ◌∷◌, [], ◌++◌, length, IfOk, IfSome};
ghost use Rattle.std.specs.Int.RustNames.{FitsSigned};
ghost use Rattle.std.specs.Int.{w32};
ghost use Rattle.std.specs.List.{AllByRecursion, flat_map};
ghost use Rattle.byteorder.specs.Endian.{big_bytes};
ghost use Rattle.kd_token.specs.File.{AreTokens, IsBranch, IsCount, IsName, IsToken, count_bytes, long_bytes, name_bytes, signed_bytes, token_bytes, version_number};
ghost use Rattle.kd_wire.specs.Field.{field_number};
ghost use Rattle.kd_token.specs.Reading.{ReaderGives, all_names_at, all_tokens_at, count_at, field_at, field_numbered, long_at, magic_at, name_at, names_at, operands_at, plain_token, skip_at, substring_at, token_at, tokens_at, version_at};
ghost use Rattle.kd_token.specs.declared.token.Version.{Version};

use crate::fault::FileFault;
use crate::reader::Reader;
use crate::token::{Token, Version};
use kd_wire::{Bytes, Field};
use std::alloc::Global;

const MAGIC: u32 = 0x4b34_544b;

const MOST_NAMES: u8 = 64;

const MOST_TOKENS: u16 = 1024;

// Reads the magic number.
#[tactic(auto, unfolding(crate::specs::Reading::magic_at))]
pub(crate) fn magic(reader: &mut Reader<'_>) -> Result<(), FileFault>
    ensures read { ReaderGives (λ _. (tt, reader.new)) result (magic_at reader.old) }
    ensures found { IfOk result (λ _. reader.old.left ≡ big_bytes 4 0x4b34544b ++ reader.new.left) }
{
    if reader.len() < 4 || reader.u32()? != MAGIC {
        return Err(FileFault::Magic);
    }
    Ok(())
}

// Reads the version byte.
#[tactic(auto, unfolding(crate::specs::Reading::version_at))]
pub(crate) fn version(reader: &mut Reader<'_>) -> Result<Version, FileFault>
    ensures read { ReaderGives (λ v. (v, reader.new)) result (version_at reader.old) }
    ensures found { IfOk result (λ v. reader.old.left ≡ version_number v ∷ reader.new.left) }
{
    match reader.u8()? {
        1 => Ok(Version::One),
        2 => Ok(Version::Two),
        _ => Err(FileFault::Version),
    }
}

// Reads a name's length and the name.
#[tactic(auto, unfolding(crate::specs::Reading::name_at))]
fn name(alloc: Global, reader: &mut Reader<'_>) -> Result<Bytes, FileFault>
    ensures read { ReaderGives (λ b. (b, reader.new)) result (name_at reader.old) }
    ensures found { IfOk result
        (λ b. (reader.old.left ≡ name_bytes b ++ reader.new.left) × IsName b) }
{
    let at = reader.at();
    let size = reader.u8()?;
    if size == 0 {
        return Err(FileFault::Operand(at));
    }
    let name = reader.take(usize::from(size))?;
    Ok(Bytes::own(Vec::from_slice(alloc, name)?))
}

// Reads `count` names.
fn names_of(alloc: Global, reader: &mut Reader<'_>, count: u8) -> Result<Vec<Bytes>, FileFault>
    ensures read { ReaderGives (λ v. (v.items, reader.new)) result
        (names_at count reader.old) }
    ensures found { IfOk result
        (λ v. (reader.old.left ≡ flat_map name_bytes v.items ++ reader.new.left)
        × AllByRecursion IsName v.items × (length v.items ≡ count)) }
{
    let mut names = Vec::new(alloc);
    'names: for _ in 0..count {
        let item = name(alloc, reader)?;
        names.push(item)?;
    }
    Ok(names)
}

// Reads the number of names, and then the names.
#[tactic(auto, unfolding(crate::specs::Reading::all_names_at))]
pub(crate) fn names(alloc: Global, reader: &mut Reader<'_>) -> Result<Vec<Bytes>, FileFault>
    ensures read { ReaderGives (λ v. (v.items, reader.new)) result
        (all_names_at reader.old) }
    ensures found { IfOk result
        (λ v. (reader.old.left ≡ length v.items ∷ (flat_map name_bytes v.items ++ reader.new.left))
        × AllByRecursion IsName v.items × (length v.items ≤ 64)) }
{
    let count = reader.u8_to(MOST_NAMES)?;
    names_of(alloc, reader, count)
}

// Reads the 2-byte length of a byte string and the byte string.
#[tactic(auto, unfolding(crate::specs::Reading::long_at))]
fn long(alloc: Global, reader: &mut Reader<'_>) -> Result<Bytes, FileFault>
    ensures read { ReaderGives (λ b. (b, reader.new)) result (long_at reader.old) }
    ensures found { IfOk result
        (λ b. (reader.old.left ≡ long_bytes b ++ reader.new.left) × (length b < 2 ^ 16)) }
{
    let size = reader.u16()?;
    let bytes = reader.take(usize::from(size))?;
    Ok(Bytes::own(Vec::from_slice(alloc, bytes)?))
}

// Returns the field with this number.
#[tactic(auto, unfolding(crate::specs::Reading::field_numbered))]
fn field_of(number: u8) -> Option<Field>
    ensures read { result ≡ field_numbered number }
    ensures found { IfSome result (λ f. field_number f ≡ number) }
{
    match number {
        0 => Some(Field::Mac),
        1 => Some(Field::Hlen),
        2 => Some(Field::Htype),
        3 => Some(Field::Ciaddr),
        4 => Some(Field::Giaddr),
        5 => Some(Field::Yiaddr),
        6 => Some(Field::Siaddr),
        7 => Some(Field::MessageType),
        8 => Some(Field::Transaction),
        9 => Some(Field::Length),
        _ => None,
    }
}

// Reads a field's number.
#[tactic(auto, unfolding(crate::specs::Reading::field_at))]
fn field(reader: &mut Reader<'_>) -> Result<Field, FileFault>
    ensures read { ReaderGives (λ f. (f, reader.new)) result (field_at reader.old) }
    ensures found { IfOk result (λ f. reader.old.left ≡ field_number f ∷ reader.new.left) }
{
    let at = reader.at();
    let number = reader.u8()?;
    match field_of(number) {
        Some(field) => Ok(field),
        None => Err(FileFault::Operand(at)),
    }
}

// Reads how many bytes a substring has.
#[tactic(auto, unfolding(crate::specs::Reading::count_at, crate::specs::Reading::count_after))]
fn count(reader: &mut Reader<'_>) -> Result<Option<i32>, FileFault>
    ensures read { ReaderGives (λ n. (n, reader.new)) result (count_at reader.old) }
    ensures found { IfOk result
        (λ n. (reader.old.left ≡ count_bytes n ++ reader.new.left) × IsCount n) }
{
    let at = reader.at();
    match reader.u8()? {
        1 => Ok(None),
        0 => Ok(Some(reader.i32()?)),
        _ => Err(FileFault::Operand(at)),
    }
}

// Reads a substring's start and number of bytes.
#[tactic(auto, unfolding(crate::specs::Reading::substring_at))]
fn substring(reader: &mut Reader<'_>) -> Result<Token, FileFault>
    ensures read { ReaderGives (λ t. (t, reader.new)) result (substring_at reader.old) }
    ensures found { IfOk result (λ t. (0x0e ∷ reader.old.left ≡ token_bytes t ++ reader.new.left)
        × ((v : Version) (n : ℕ) → IsToken v n t)) }
{
    let start = reader.i32()?;
    let count = count(reader)?;
    Ok(Token::Substring(start, count))
}

// Reads how many tokens a branch skips; `opcode_at` is the place of its opcode.
#[tactic(auto, unfolding(crate::specs::Reading::branch_at))]
fn skip(
    reader: &mut Reader<'_>,
    version: Version,
    behind: u16,
    opcode_at: usize,
) -> Result<u16, FileFault>
    ensures read { ReaderGives (λ d. (d, reader.new)) result
        (skip_at version behind opcode_at reader.old) }
    ensures found { IfOk result
        (λ d. (reader.old.left ≡ big_bytes 2 d ++ reader.new.left) × IsBranch version behind d) }
{
    match version {
        Version::One => Err(FileFault::Opcode(opcode_at)),
        Version::Two => {
            let at = reader.at();
            let skip = reader.u16()?;
            if skip > behind {
                return Err(FileFault::Operand(at));
            }
            Ok(skip)
        }
    }
}

// Returns the token with this opcode, if it is one without operands.
#[tactic(auto, unfolding(crate::specs::Reading::plain_token))]
fn plain_of(opcode: u8) -> Option<Token>
    ensures read { result ≡ plain_token opcode }
    ensures found { IfSome result
        (λ t. (token_bytes t ≡ opcode ∷ []) × ((v : Version) (n : ℕ) → IsToken v n t)) }
{
    match opcode {
        0x09 => Some(Token::Equal),
        0x0a => Some(Token::Not),
        0x0b => Some(Token::And),
        0x0c => Some(Token::Or),
        0x0d => Some(Token::IfElse),
        0x0f => Some(Token::Concat),
        0x10 => Some(Token::HexString),
        0x11 => Some(Token::Lower),
        0x12 => Some(Token::Upper),
        0x13 => Some(Token::IntToText),
        0x14 => Some(Token::IntBytes),
        _ => None,
    }
}

// Reads the operands of an opcode at the offset `at`, and returns its token. `behind` tokens come
// after it.
#[tactic(auto, unfolding(crate::specs::Reading::operands_at))]
fn operands(
    alloc: Global,
    reader: &mut Reader<'_>,
    version: Version,
    behind: u16,
    opcode: u8,
    at: usize,
) -> Result<Token, FileFault>
    ensures read { ReaderGives (λ t. (t, reader.new)) result
        (operands_at version behind opcode at reader.old) }
    ensures found { IfOk result
        (λ t. (opcode ∷ reader.old.left ≡ token_bytes t ++ reader.new.left)
        × IsToken version behind t) }
{
    match opcode {
        0x01 => Ok(Token::PushBytes(long(alloc, reader)?)),
        0x02 => Ok(Token::PushInt(reader.u32()?)),
        0x03 => Ok(Token::PushOption(reader.u8()?)),
        0x04 => Ok(Token::PushRelay(reader.u8()?)),
        0x05 => Ok(Token::PushField(field(reader)?)),
        0x06 => Ok(Token::OptionExists(reader.u8()?)),
        0x07 => Ok(Token::RelayExists(reader.u8()?)),
        0x08 => Ok(Token::Member(reader.u8()?)),
        0x0e => substring(reader),
        0x20 => Ok(Token::Branch(skip(reader, version, behind, at)?)),
        0x21 => Ok(Token::PopBranchFalse(skip(reader, version, behind, at)?)),
        0x22 => Ok(Token::BranchFalseElsePop(skip(reader, version, behind, at)?)),
        0x23 => Ok(Token::BranchTrueElsePop(skip(reader, version, behind, at)?)),
        opcode => match plain_of(opcode) {
            Some(token) => Ok(token),
            None => Err(FileFault::Opcode(at)),
        },
    }
}

// Reads a token that has `behind` tokens after it.
#[tactic(auto, unfolding(crate::specs::Reading::token_at))]
fn token(
    alloc: Global,
    reader: &mut Reader<'_>,
    version: Version,
    behind: u16,
) -> Result<Token, FileFault>
    ensures read { ReaderGives (λ t. (t, reader.new)) result
        (token_at version behind reader.old) }
    ensures found { IfOk result
        (λ t. (reader.old.left ≡ token_bytes t ++ reader.new.left) × IsToken version behind t) }
{
    let at = reader.at();
    let opcode = reader.u8()?;
    operands(alloc, reader, version, behind, opcode, at)
}

// Reads `count` tokens.
fn tokens_of(
    alloc: Global,
    reader: &mut Reader<'_>,
    version: Version,
    count: u16,
) -> Result<Vec<Token>, FileFault>
    ensures read { ReaderGives (λ v. (v.items, reader.new)) result
        (tokens_at version count reader.old) }
    ensures found { IfOk result
        (λ v. (reader.old.left ≡ flat_map token_bytes v.items ++ reader.new.left)
        × AreTokens version v.items × (length v.items ≡ count)) }
{
    let mut tokens = Vec::new(alloc);
    'tokens: for i in 0..count {
        let item = token(alloc, reader, version, count - (i + 1))?;
        tokens.push(item)?;
    }
    Ok(tokens)
}

// Reads the number of tokens, and then the tokens.
#[tactic(auto, unfolding(crate::specs::Reading::all_tokens_at))]
pub(crate) fn tokens(
    alloc: Global,
    reader: &mut Reader<'_>,
    version: Version,
) -> Result<Vec<Token>, FileFault>
    ensures read { ReaderGives (λ v. (v.items, reader.new)) result
        (all_tokens_at version reader.old) }
    ensures found { IfOk result
        (λ v. (reader.old.left ≡ big_bytes 2 (length v.items) ++ (flat_map token_bytes v.items
        ++ reader.new.left))
        × AreTokens version v.items × (length v.items ≤ 1024)) }
{
    let count = reader.u16_to(MOST_TOKENS)?;
    tokens_of(alloc, reader, version, count)
}
