use crate::support::expect;
use kd_token::{Program, Token, Version, Way};
use kd_wire::Field;
use std::alloc::{AllocError, Global};
use std::test::Fail;

// Each opcode of version 2 once, and a name.
const EACH: &[u8] = b"K4TK\x02\x04\x00\x40\xff\xff\x01\x02kd\x00\x1a\
    \x01\x00\x00\x02\xff\xff\xff\xff\x03\x3c\x04\x01\x05\x09\x06\x3c\x07\x02\x08\x00\
    \x09\x0a\x0b\x0c\x0d\x0e\xff\xff\xff\xfb\x00\x00\x00\x00\x04\x0e\x80\x00\x00\x00\x01\
    \x0f\x10\x11\x12\x13\x14\x20\x00\x04\x21\x00\x00\x22\x00\x01\x23\x00\x00\x0a";

// Reports whether a program declares the most that it may, and has only the name `kd`.
fn declares_all(program: &Program) -> bool {
    program.version() == Version::Two
        && (program.steps(), program.depth(), program.length()) == (1024, 64, 65535)
        && matches!(program.name_at(0), Some(b"kd"))
        && program.name_at(1).is_none()
}

// Reports whether tokens have these at their positions.
fn are_each(tokens: &[Token]) -> bool {
    tokens.len() == 26
        && matches!(tokens[1], Token::PushInt(0xffff_ffff))
        && matches!(tokens[4], Token::PushField(Field::Length))
        && matches!(tokens[13], Token::Substring(-5, Some(4)))
        && matches!(tokens[14], Token::Substring(i32::MIN, None))
        && matches!(tokens[21], Token::Branch(4))
}

// Reports whether a program is written as this file.
fn has_file(alloc: Global, program: &Program, file: &[u8]) -> Result<bool, AllocError> {
    Ok(program.write(alloc)?.as_slice() == file)
}

#[test]
fn a_program_tells_its_parts_and_is_written_again(rt: HostRuntime) -> Result<(), Fail> {
    let program = Program::read(rt.alloc(), EACH)?;
    expect_parts(rt.alloc(), &program)
}

// Checks the parts of the program with each opcode, and that it is written as its file.
fn expect_parts(alloc: Global, program: &Program) -> Result<(), Fail> {
    expect(declares_all(program), "what the program declares")?;
    expect(are_each(program.tokens()), "its tokens")?;
    expect(has_file(alloc, program, EACH)?, "the file written again")
}

#[test]
fn a_token_tells_its_way(rt: HostRuntime) {
    let table = [
        (Token::Not, Way::On),
        (Token::Branch(4), Way::Skip(4)),
        (Token::PopBranchFalse(0), Way::Fork(0)),
        (Token::BranchFalseElsePop(1), Way::Keep(false, 1)),
        (Token::BranchTrueElsePop(2), Way::Keep(true, 2)),
    ];
    for (token, want) in table {
        assert!(rt; token.way() == want);
    }
}
