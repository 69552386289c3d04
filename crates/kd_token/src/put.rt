ghost use Rattle.std.specs.Prelude.{◌≡◌, ◌^◌, ◌<◌, ◌∷◌, [], ◌++◌, length, OnOk};
ghost use Rattle.byteorder.specs.Endian.{big_bytes};
ghost use Rattle.kd_token.specs.File.{IsShort, count_bytes, long_bytes, name_bytes, signed_bytes, token_bytes};

use crate::token::Token;
use byteorder::{BigEndian, ByteOrder};
use kd_wire::Bytes;
use std::alloc::AllocError;

// Appends a byte.
fn put(out: &mut Vec<u8>, byte: u8) -> Result<(), AllocError>
    ensures { OnOk result (out.new.items ≡ out.old.items ++ (byte ∷ [])) }
{
    Ok(out.push(byte)?)
}

// Appends a 2-byte number.
pub(crate) fn put_u16(out: &mut Vec<u8>, number: u16) -> Result<(), AllocError>
    ensures { OnOk result (out.new.items ≡ out.old.items ++ big_bytes 2 number) }
{
    let mut bytes = [0; 2];
    BigEndian::write_u16(&mut bytes, number);
    out.extend_from_slice(&bytes)
}

// Appends a 4-byte number.
pub(crate) fn put_u32(out: &mut Vec<u8>, number: u32) -> Result<(), AllocError>
    ensures { OnOk result (out.new.items ≡ out.old.items ++ big_bytes 4 number) }
{
    let mut bytes = [0; 4];
    BigEndian::write_u32(&mut bytes, number);
    out.extend_from_slice(&bytes)
}

// Appends a signed 4-byte number.
fn put_i32(out: &mut Vec<u8>, number: i32) -> Result<(), AllocError>
    ensures { OnOk result (out.new.items ≡ out.old.items ++ signed_bytes number) }
{
    put_u32(out, number.cast_unsigned())
}

// Appends a name's length and the name.
pub(crate) fn put_name(out: &mut Vec<u8>, name: &Bytes) -> Result<(), AllocError>
    requires { length name.now < 256 }
    ensures { OnOk result (out.new.items ≡ out.old.items ++ name_bytes name.now) }
{
    let name = name.as_slice();
    out.push(name.len() as u8)?;
    out.extend_from_slice(name)
}

// Appends the length of a byte string and the byte string.
fn put_long(out: &mut Vec<u8>, bytes: &Bytes) -> Result<(), AllocError>
    requires { length bytes.now < 2 ^ 16 }
    ensures { OnOk result (out.new.items ≡ out.old.items ++ long_bytes bytes.now) }
{
    let bytes = bytes.as_slice();
    put_u16(out, bytes.len() as u16)?;
    out.extend_from_slice(bytes)
}

// Appends how many bytes a substring has.
fn put_count(out: &mut Vec<u8>, count: Option<i32>) -> Result<(), AllocError>
    ensures { OnOk result (out.new.items ≡ out.old.items ++ count_bytes count) }
{
    match count {
        Some(count) => {
            out.push(0)?;
            put_i32(out, count)
        }
        None => put(out, 1),
    }
}

// Appends an opcode and a 2-byte number.
fn put_skip(out: &mut Vec<u8>, opcode: u8, skip: u16) -> Result<(), AllocError>
    ensures { OnOk result (out.new.items ≡ out.old.items ++ (opcode ∷ big_bytes 2 skip)) }
{
    out.push(opcode)?;
    put_u16(out, skip)
}

// Appends an opcode and a 1-byte operand.
fn put_pair(out: &mut Vec<u8>, opcode: u8, operand: u8) -> Result<(), AllocError>
    ensures { OnOk result (out.new.items ≡ out.old.items ++ (opcode ∷ operand ∷ [])) }
{
    out.extend_from_slice(&[opcode, operand])
}

// Appends a token: its opcode and its operands.
pub(crate) fn put_token(out: &mut Vec<u8>, token: &Token) -> Result<(), AllocError>
    requires { IsShort token.now }
    ensures { OnOk result (out.new.items ≡ out.old.items ++ token_bytes token.now) }
{
    match token {
        Token::PushBytes(bytes) => {
            out.push(0x01)?;
            put_long(out, bytes)
        }
        Token::PushInt(number) => {
            out.push(0x02)?;
            put_u32(out, *number)
        }
        Token::PushOption(code) => put_pair(out, 0x03, *code),
        Token::PushRelay(code) => put_pair(out, 0x04, *code),
        Token::PushField(field) => put_pair(out, 0x05, field.number()),
        Token::OptionExists(code) => put_pair(out, 0x06, *code),
        Token::RelayExists(code) => put_pair(out, 0x07, *code),
        Token::Member(index) => put_pair(out, 0x08, *index),
        Token::Substring(start, count) => {
            out.push(0x0e)?;
            put_i32(out, *start)?;
            put_count(out, *count)
        }
        Token::Branch(skip) => put_skip(out, 0x20, *skip),
        Token::PopBranchFalse(skip) => put_skip(out, 0x21, *skip),
        Token::BranchFalseElsePop(skip) => put_skip(out, 0x22, *skip),
        Token::BranchTrueElsePop(skip) => put_skip(out, 0x23, *skip),
        Token::Equal => put(out, 0x09),
        Token::Not => put(out, 0x0a),
        Token::And => put(out, 0x0b),
        Token::Or => put(out, 0x0c),
        Token::IfElse => put(out, 0x0d),
        Token::Concat => put(out, 0x0f),
        Token::HexString => put(out, 0x10),
        Token::Lower => put(out, 0x11),
        Token::Upper => put(out, 0x12),
        Token::IntToText => put(out, 0x13),
        Token::IntBytes => put(out, 0x14),
    }
}
