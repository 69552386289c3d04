ghost use Rattle.std.specs.Prelude.{◌≡◌, ◌++◌, OnOk, string_bytes};
ghost use Rattle.kd_check.specs.Words.{compiling_words, file_words, reading_place, reading_words, test_place, test_words, tokens_words, typing_place, typing_words, verifying_words};

use kd_compile::CompileFault;
use kd_expr::{ExprFault, TypeFault};
use kd_json::{FileTestFault, TestFault};
use kd_token::{FileFault, VerifyFault};
use std::alloc::AllocError;
use std::fmt::Write;

// Says why the text of a test has no program.
pub(crate) fn words_of_test(fault: TestFault) -> &'static str
    ensures { result.now ≡ test_words fault }
{
    match fault {
        TestFault::Reading(why) => words_of_reading(why),
        TestFault::Typing(why) => words_of_typing(why),
        TestFault::Compiling(why) => words_of_compiling(why),
    }
}

// Returns the place in the text of a test that a fault names, if it names one.
pub(crate) fn place_in_test(fault: TestFault) -> Option<usize>
    ensures { result ≡ test_place fault }
{
    match fault {
        TestFault::Reading(why) => place_of_reading(why),
        TestFault::Typing(why) => Some(place_of_typing(why)),
        TestFault::Compiling(_) => None,
    }
}

// Says why a text is not an expression.
fn words_of_reading(fault: ExprFault) -> &'static str
    ensures { result.now ≡ reading_words fault }
{
    match fault {
        ExprFault::BadToken(_) => "this is no word, number, string or sign of a test",
        ExprFault::Expected(_) => "something else is expected here",
        ExprFault::NumberTooLarge(_) => "this number is out of range",
        ExprFault::TooNested(_) => "this nests deeper than 64 levels",
        ExprFault::TooLong => "the test has more than 4096 bytes",
        ExprFault::UnknownName(_) => "no option has this name",
        ExprFault::Memory => "out of memory",
    }
}

// Returns the place of a fault in a text that is not an expression, if the fault names one.
fn place_of_reading(fault: ExprFault) -> Option<usize>
    ensures { result ≡ reading_place fault }
{
    match fault {
        ExprFault::BadToken(place) => Some(place),
        ExprFault::Expected(place) => Some(place),
        ExprFault::NumberTooLarge(place) => Some(place),
        ExprFault::TooNested(place) => Some(place),
        ExprFault::TooLong => None,
        ExprFault::UnknownName(place) => Some(place),
        ExprFault::Memory => None,
    }
}

// Says why an expression is not a class test.
fn words_of_typing(fault: TypeFault) -> &'static str
    ensures { result.now ≡ typing_words fault }
{
    match fault {
        TypeFault::WantsBool(_) => "a condition, true or false, is expected here",
        TypeFault::WantsBytes(_) => "a string is expected here",
        TypeFault::WantsInt(_) => "a number is expected here",
    }
}

// Returns the place of an operand of the wrong type.
fn place_of_typing(fault: TypeFault) -> usize
    ensures { result ≡ typing_place fault }
{
    match fault {
        TypeFault::WantsBool(place) => place,
        TypeFault::WantsBytes(place) => place,
        TypeFault::WantsInt(place) => place,
    }
}

// Says why a class test cannot be compiled.
fn words_of_compiling(fault: CompileFault) -> &'static str
    ensures { result.now ≡ compiling_words fault }
{
    match fault {
        CompileFault::TooManyTokens => "the test compiles to more than 1024 tokens",
        CompileFault::TooDeep => "the test needs more than 64 values at once",
        CompileFault::TooLong => "a string of the test could have more than 65535 bytes",
        CompileFault::TooManyNames => "the test names more than 64 classes",
        CompileFault::Memory => "out of memory",
    }
}

// Says why a token file has no program.
pub(crate) fn put_tokens_words(out: &mut String, fault: FileTestFault) -> Result<(), AllocError>
    ensures { OnOk result (string_bytes out.new ≡ string_bytes out.old ++ tokens_words fault) }
{
    match fault {
        FileTestFault::Absent => out.push_str("there is no such file"),
        FileTestFault::File(why) => put_file_words(out, why),
        FileTestFault::Verify(why) => put_verify_words(out, why),
    }
}

// Says why bytes are not a token file.
fn put_file_words(out: &mut String, fault: FileFault) -> Result<(), AllocError>
    ensures { OnOk result (string_bytes out.new ≡ string_bytes out.old ++ file_words fault) }
{
    match fault {
        FileFault::Magic => out.push_str("it does not begin with K4TK"),
        FileFault::Version => out.push_str("its version is neither 1 nor 2"),
        FileFault::Cut(at) => write!(out, "it ends within the field at byte {at}"),
        FileFault::Opcode(at) => write!(out, "no token has the opcode at byte {at}"),
        FileFault::Operand(at) => write!(out, "the operand at byte {at} is out of range"),
        FileFault::Rest(at) => write!(
            out,
            "there are more bytes after the last token, from byte {at}"
        ),
        FileFault::Limit => out.push_str("its steps, depth, names or tokens are over the limit"),
        FileFault::Memory => out.push_str("out of memory"),
    }
}

// Says why a program is not accepted.
fn put_verify_words(out: &mut String, fault: VerifyFault) -> Result<(), AllocError>
    ensures { OnOk result (string_bytes out.new ≡ string_bytes out.old ++ verifying_words fault) }
{
    match fault {
        VerifyFault::Short(n) => write!(out, "token {n} needs more values than there are"),
        VerifyFault::Kind(n) => write!(out, "token {n} needs a value of another kind"),
        VerifyFault::Deep(n) => write!(out, "after token {n} there are more values than declared"),
        VerifyFault::Long(n) => write!(out, "after token {n} a string may be longer than declared"),
        VerifyFault::Steps => out.push_str("it may take more steps than declared"),
        VerifyFault::Finish => out.push_str("it does not end with one condition, true or false"),
        VerifyFault::Name(n) => write!(out, "token {n} uses a name that is not listed"),
        VerifyFault::Memory => out.push_str("out of memory"),
    }
}
