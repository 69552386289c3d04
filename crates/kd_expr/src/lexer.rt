ghost use Rattle.std.specs.Prelude.{◌≡◌, ◌<◌, ◌≤◌, IfSome, OnOk, IfOk, Some, length, option_map, option_copied};
ghost use Rattle.kd_expr.specs.Lexing.{digits_after_0x, token_of_run, run_cut, string_cut, minus_token, minus_cut, name_cut, equal_cut, cut, tokens_from, front_of};
ghost use Rattle.kd_expr.specs.View.{lexemes, lexeme_of};

use crate::address::address_of;
use crate::class::{Class, all_of, is_blank, is_digit, is_letter, sign_of, split};
use crate::token::{Kind, Sign, Token};
use std::alloc::{AllocError, Global};

// Returns the tokens of a text. If no word begins at some place, the last token is a bad one there,
// and nothing after it is looked at.
pub(crate) fn tokens_of<'a>(alloc: Global, text: &'a [u8]) -> Result<Vec<Token<'a>>, AllocError>
    ensures { IfOk result
        (λ tokens. lexemes tokens.items ≡ tokens_from (length text.now) 0 text.now) }
{
    let mut tokens = Vec::new(alloc);
    let mut rest = text;
    let mut at = 0;
    while let Some((first, after_blank)) = rest.split_first() {
        if is_blank(*first) {
            at += 1;
            rest = after_blank;
        } else {
            match word_at(at, rest) {
                Some((token, after)) => {
                    tokens.push(token)?;
                    at += rest.len() - after.len();
                    rest = after;
                }
                None => {
                    tokens.push(Token {
                        at,
                        kind: Kind::Bad,
                    })?;
                    return Ok(tokens);
                }
            }
        }
    }
    Ok(tokens)
}

// Reads the first word, and returns its token with what follows it.
#[tactic(auto, unfolding(crate::specs::Lexing::cut))]
fn word_at<'a>(at: usize, bytes: &'a [u8]) -> Option<(Token<'a>, &'a [u8])>
    ensures { option_map (λ x. (lexeme_of x.0, x.1.now)) result ≡ cut at bytes.now }
{
    let [first, rest @ ..] = bytes else {
        return None;
    };
    let b = *first;
    if b == b'\'' {
        string_at(at, rest)
    } else if is_digit(b) {
        run_at(at, bytes)
    } else if b == b'-' {
        minus_at(at, rest)
    } else if is_letter(b) {
        name_at(at, bytes)
    } else if b == b'=' {
        equal_at(at, rest)
    } else {
        let sign = sign_of(b)?;
        Some((
            Token {
                at,
                kind: Kind::Sign(sign),
            },
            rest,
        ))
    }
}

// Reads a string after its apostrophe.
#[tactic(auto, unfolding(crate::specs::Lexing::string_cut))]
fn string_at<'a>(at: usize, bytes: &'a [u8]) -> Option<(Token<'a>, &'a [u8])>
    ensures { option_map (λ x. (lexeme_of x.0, x.1.now)) result ≡ string_cut at bytes.now }
{
    let (text, behind) = split(Class::InString, bytes);
    match behind {
        [b, rest @ ..] if *b == b'\'' => Some((
            Token {
                at,
                kind: Kind::Text(text),
            },
            rest,
        )),
        _ => None,
    }
}

// Reads a run of digits, letters and dots.
#[tactic(auto, unfolding(crate::specs::Lexing::run_cut))]
fn run_at<'a>(at: usize, bytes: &'a [u8]) -> Option<(Token<'a>, &'a [u8])>
    ensures { option_map (λ x. (lexeme_of x.0, x.1.now)) result ≡ run_cut at bytes.now }
{
    let (run, rest) = split(Class::InRun, bytes);
    let token = run_token(at, run)?;
    Some((token, rest))
}

// Returns the token of a run: a number, hexadecimal digits or an address.
#[tactic(auto, unfolding(crate::specs::Lexing::token_of_run))]
fn run_token<'a>(at: usize, run: &'a [u8]) -> Option<Token<'a>>
    ensures { option_map (λ x. lexeme_of x) result ≡ token_of_run at run.now }
{
    if all_of(Class::Digit, run) {
        return Some(Token {
            at,
            kind: Kind::Number(run),
        });
    }
    if let Some(digits) = hex_digits(run) {
        return Some(Token {
            at,
            kind: Kind::Hex(digits),
        });
    }
    let [a, b, c, d] = address_of(run)?;
    Some(Token {
        at,
        kind: Kind::Address(a, b, c, d),
    })
}

// Returns the digits after a hexadecimal prefix.
#[tactic(auto, unfolding(crate::specs::Lexing::digits_after_0x))]
fn hex_digits(run: &[u8]) -> Option<&[u8]>
    ensures { option_copied result ≡ digits_after_0x run.now }
{
    let [zero, x, digits @ ..] = run else {
        return None;
    };
    if *zero == b'0'
        && (*x == b'x' || *x == b'X')
        && digits.len() >= 1
        && all_of(Class::HexDigit, digits)
    {
        Some(digits)
    } else {
        None
    }
}

// Reads a number after its minus sign.
#[tactic(auto, unfolding(crate::specs::Lexing::minus_cut))]
fn minus_at<'a>(at: usize, bytes: &'a [u8]) -> Option<(Token<'a>, &'a [u8])>
    ensures { option_map (λ x. (lexeme_of x.0, x.1.now)) result ≡ minus_cut at bytes.now }
{
    let (digits, rest) = split(Class::InRun, bytes);
    if digits.len() >= 1 && all_of(Class::Digit, digits) {
        Some((
            Token {
                at,
                kind: Kind::Minus(digits),
            },
            rest,
        ))
    } else {
        None
    }
}

// Reads a name whose first byte is known to be a letter.
#[tactic(auto, unfolding(crate::specs::Lexing::name_cut))]
fn name_at<'a>(at: usize, bytes: &'a [u8]) -> Option<(Token<'a>, &'a [u8])>
    ensures { option_map (λ x. (lexeme_of x.0, x.1.now)) result ≡ name_cut at bytes.now }
{
    let (name, rest) = split(Class::InName, bytes);
    Some((
        Token {
            at,
            kind: Kind::Name(name),
        },
        rest,
    ))
}

// Reads an equality sign after its first byte.
#[tactic(auto, unfolding(crate::specs::Lexing::equal_cut))]
fn equal_at<'a>(at: usize, bytes: &'a [u8]) -> Option<(Token<'a>, &'a [u8])>
    ensures { option_map (λ x. (lexeme_of x.0, x.1.now)) result ≡ equal_cut at bytes.now }
{
    match bytes {
        [b, rest @ ..] if *b == b'=' => Some((
            Token {
                at,
                kind: Kind::Sign(Sign::Equals),
            },
            rest,
        )),
        _ => None,
    }
}
