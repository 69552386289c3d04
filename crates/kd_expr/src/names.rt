ghost use Rattle.std.specs.Prelude.{◌≡◌, ℕ, Bool, ◌≤◌, ◌<◌, ◌^◌, pos, IfOk, Some, None, length, codes, bytes_eq, nat_lt, nat_le, if◌then◌else◌};
ghost use Rattle.kd_expr.specs.Address.{decimal};
ghost use Rattle.kd_expr.specs.Gives.{ReadsAs};
ghost use Rattle.kd_expr.specs.Grammar.{minus};
ghost use Rattle.kd_expr.specs.Names.{code_by_name, field_by_name};
ghost use Rattle.kd_expr.specs.Reading.{below, wanted, bracketed, seq, done, sign_here, code_of_option, code_of_relay, suffix_of, field_of, signed, length_of_part, class_name, option_at, relay_at, field_after, packet_at, member_at};
ghost use Rattle.kd_expr.specs.Refusals.{code_refusal, option_refusal, refusal_of, signed_refusal};
ghost use Rattle.kd_expr.specs.View.{lexemes, tree_of};

use crate::fault::SyntaxFault;
use crate::literal::bytes_of;
use crate::node::Node;
use crate::number::number;
use crate::parser::Source;
use crate::take::{expect_sign, expect_word, unexpected_token};
use crate::token::{Kind, Sign, Token};
use kd_wire::Field;

// Reads what follows `option`.
#[tactic(auto, unfolding(crate::specs::Reading::option_at))]
pub(crate) fn option_of<'t, 'a>(
    source: Source,
    at: usize,
    tokens: &'t [Token<'a>],
) -> Result<(Node, &'t [Token<'a>]), SyntaxFault>
    ensures reads { ReadsAs (λ x. (tree_of x.0, lexemes x.1.now)) result
        (option_at at source.end (lexemes tokens.now)) }
    ensures shorter { IfOk result (λ x. length x.1.now ≤ length tokens.now) }
{
    let (_, rest) = expect_sign(tokens, Sign::Left, source.end)?;
    let (code, rest) = option_code(rest, source.end)?;
    let (code, exists, rest) = with_suffix(code, rest, source.end)?;
    if exists {
        Ok((Node::OptionExists { at, code }, rest))
    } else {
        Ok((Node::Option { at, code }, rest))
    }
}

// Reads what follows `relay4`.
#[tactic(auto, unfolding(crate::specs::Reading::relay_at))]
pub(crate) fn relay_of<'t, 'a>(
    source: Source,
    at: usize,
    tokens: &'t [Token<'a>],
) -> Result<(Node, &'t [Token<'a>]), SyntaxFault>
    ensures reads { ReadsAs (λ x. (tree_of x.0, lexemes x.1.now)) result
        (relay_at at source.end (lexemes tokens.now)) }
    ensures shorter { IfOk result (λ x. length x.1.now ≤ length tokens.now) }
{
    let (_, rest) = expect_sign(tokens, Sign::Left, source.end)?;
    let (code, rest) = relay_code(rest, source.end)?;
    let (code, exists, rest) = with_suffix(code, rest, source.end)?;
    if exists {
        Ok((Node::RelayExists { at, code }, rest))
    } else {
        Ok((Node::Relay { at, code }, rest))
    }
}

// Reads what follows `pkt4`.
#[tactic(auto, unfolding(crate::specs::Reading::field_after))]
pub(crate) fn field_of<'t, 'a>(
    source: Source,
    at: usize,
    tokens: &'t [Token<'a>],
) -> Result<(Node, &'t [Token<'a>]), SyntaxFault>
    ensures reads { ReadsAs (λ x. (tree_of x.0, lexemes x.1.now)) result
        (field_after at source.end (lexemes tokens.now)) }
    ensures shorter { IfOk result (λ x. length x.1.now ≤ length tokens.now) }
{
    let (_, rest) = expect_sign(tokens, Sign::Dot, source.end)?;
    let (field, rest) = field(rest, source.end)?;
    Ok((Node::Field { at, field }, rest))
}

// Reads what follows `pkt`.
#[tactic(auto, unfolding(crate::specs::Reading::packet_at))]
pub(crate) fn packet_of<'t, 'a>(
    source: Source,
    at: usize,
    tokens: &'t [Token<'a>],
) -> Result<(Node, &'t [Token<'a>]), SyntaxFault>
    ensures reads { ReadsAs (λ x. (tree_of x.0, lexemes x.1.now)) result
        (packet_at at source.end (lexemes tokens.now)) }
    ensures shorter { IfOk result (λ x. length x.1.now ≤ length tokens.now) }
{
    let (_, rest) = expect_sign(tokens, Sign::Dot, source.end)?;
    let (_, rest) = expect_word(rest, b"len", source.end)?;
    Ok((
        Node::Field {
            at,
            field: Field::Length,
        },
        rest,
    ))
}

// Reads what follows `member`.
#[tactic(auto, unfolding(crate::specs::Reading::member_at))]
pub(crate) fn member_of<'t, 'a>(
    source: Source,
    at: usize,
    tokens: &'t [Token<'a>],
    depth: u8,
) -> Result<(Node, &'t [Token<'a>]), SyntaxFault>
    ensures reads { ReadsAs (λ x. (tree_of x.0, lexemes x.1.now)) result
        (member_at (below depth) at source.end (lexemes tokens.now)) }
    ensures shorter { IfOk result (λ x. length x.1.now ≤ length tokens.now) }
{
    let (open, rest) = expect_sign(tokens, Sign::Open, source.end)?;
    let (name, rest) = name_deeper(rest, depth, open, source.end)?;
    let (_, rest) = expect_sign(rest, Sign::Close, source.end)?;
    let name = bytes_of(source.alloc, name)?;
    Ok((Node::Member { at, name }, rest))
}

// Reads a class's name of 1 to 255 bytes, after the bracket at this place.
#[tactic(auto, unfolding(crate::specs::Reading::below))]
fn name_deeper<'t, 'a>(
    tokens: &'t [Token<'a>],
    depth: u8,
    at: usize,
    end: usize,
) -> Result<(&'a [u8], &'t [Token<'a>]), SyntaxFault>
    ensures reads { ReadsAs (λ x. (x.0.now, lexemes x.1.now)) result
        ((below depth).name at end (lexemes tokens.now)) }
    ensures shorter { IfOk result (λ x. length x.1.now ≤ length tokens.now) }
{
    if depth == 0 {
        return Err(SyntaxFault::TooNested(at));
    }
    let [first, rest @ ..] = tokens else {
        return Err(SyntaxFault::Expected(end));
    };
    let token = *first;
    match token.kind {
        Kind::Text(name) if name.len() >= 1 && name.len() <= 255 => Ok((name, rest)),
        _ => Err(unexpected_token(tokens, end)),
    }
}

// Reads the code of an option, given by number or by name.
fn option_code<'t, 'a>(
    tokens: &'t [Token<'a>],
    end: usize,
) -> Result<(u8, &'t [Token<'a>]), SyntaxFault>
    ensures reads { ReadsAs (λ x. (x.0, lexemes x.1.now)) result
        (wanted code_of_option option_refusal end (lexemes tokens.now)) }
    ensures shorter { IfOk result (λ x. length x.1.now < length tokens.now) }
{
    let [first, rest @ ..] = tokens else {
        return Err(SyntaxFault::Expected(end));
    };
    let token = *first;
    match token.kind {
        Kind::Number(digits) => match number(digits) {
            Some(code) if code < 256 => Ok((code as u8, rest)),
            _ => Err(SyntaxFault::NumberTooLarge(token.at)),
        },
        Kind::Name(name) => match code_named(name) {
            Some(code) => Ok((code, rest)),
            None => Err(SyntaxFault::UnknownName(token.at)),
        },
        _ => Err(unexpected_token(tokens, end)),
    }
}

// Reads the code of a sub-option.
fn relay_code<'t, 'a>(
    tokens: &'t [Token<'a>],
    end: usize,
) -> Result<(u8, &'t [Token<'a>]), SyntaxFault>
    ensures reads { ReadsAs (λ x. (x.0, lexemes x.1.now)) result
        (wanted code_of_relay code_refusal end (lexemes tokens.now)) }
    ensures shorter { IfOk result (λ x. length x.1.now < length tokens.now) }
{
    let [first, rest @ ..] = tokens else {
        return Err(SyntaxFault::Expected(end));
    };
    let token = *first;
    match token.kind {
        Kind::Number(digits) => match number(digits) {
            Some(code) if code < 256 => Ok((code as u8, rest)),
            _ => Err(SyntaxFault::NumberTooLarge(token.at)),
        },
        _ => Err(unexpected_token(tokens, end)),
    }
}

// Reads what follows a code, and returns the code with whether `exists` or `hex` follows it.
fn with_suffix<'t, 'a>(
    code: u8,
    tokens: &'t [Token<'a>],
    end: usize,
) -> Result<(u8, bool, &'t [Token<'a>]), SyntaxFault>
    ensures reads { ReadsAs (λ x. ((x.0, x.1), lexemes x.2.now)) result
        (seq {B = ℕ × Bool} (sign_here 93) (λ _. seq (sign_here 46)
        (λ _. seq (wanted suffix_of refusal_of) (λ exists. done (code, exists)))) end
        (lexemes tokens.now)) }
    ensures shorter { IfOk result (λ x. length x.2.now < length tokens.now) }
{
    let (_, rest) = expect_sign(tokens, Sign::Right, end)?;
    let (_, rest) = expect_sign(rest, Sign::Dot, end)?;
    let (exists, rest) = suffix(rest, end)?;
    Ok((code, exists, rest))
}

// Reads `exists` (true) or `hex` (false).
fn suffix<'t, 'a>(
    tokens: &'t [Token<'a>],
    end: usize,
) -> Result<(bool, &'t [Token<'a>]), SyntaxFault>
    ensures reads { ReadsAs (λ x. (x.0, lexemes x.1.now)) result
        (wanted suffix_of refusal_of end (lexemes tokens.now)) }
    ensures shorter { IfOk result (λ x. length x.1.now < length tokens.now) }
{
    let [first, rest @ ..] = tokens else {
        return Err(SyntaxFault::Expected(end));
    };
    let token = *first;
    match token.kind {
        Kind::Name(name) if name == b"hex".as_slice() => Ok((false, rest)),
        Kind::Name(name) if name == b"exists".as_slice() => Ok((true, rest)),
        _ => Err(unexpected_token(tokens, end)),
    }
}

// Reads the name of a message field.
fn field<'t, 'a>(
    tokens: &'t [Token<'a>],
    end: usize,
) -> Result<(Field, &'t [Token<'a>]), SyntaxFault>
    ensures reads { ReadsAs (λ x. (x.0, lexemes x.1.now)) result
        (wanted field_of refusal_of end (lexemes tokens.now)) }
    ensures shorter { IfOk result (λ x. length x.1.now < length tokens.now) }
{
    let [first, rest @ ..] = tokens else {
        return Err(SyntaxFault::Expected(end));
    };
    let token = *first;
    match token.kind {
        Kind::Name(name) => match field_named(name) {
            Some(field) => Ok((field, rest)),
            None => Err(SyntaxFault::Expected(token.at)),
        },
        _ => Err(unexpected_token(tokens, end)),
    }
}

// Reads a 32-bit number, which may have a minus sign before it.
pub(crate) fn signed_of<'t, 'a>(
    tokens: &'t [Token<'a>],
    end: usize,
) -> Result<(i32, &'t [Token<'a>]), SyntaxFault>
    ensures reads { ReadsAs (λ x. (x.0, lexemes x.1.now)) result
        (wanted signed signed_refusal end (lexemes tokens.now)) }
    ensures shorter { IfOk result (λ x. length x.1.now < length tokens.now) }
{
    let [first, rest @ ..] = tokens else {
        return Err(SyntaxFault::Expected(end));
    };
    let token = *first;
    match token.kind {
        Kind::Number(digits) => match not_below_zero(digits) {
            Some(n) => Ok((n, rest)),
            None => Err(SyntaxFault::NumberTooLarge(token.at)),
        },
        Kind::Minus(digits) => match below_zero(digits) {
            Some(n) => Ok((n, rest)),
            None => Err(SyntaxFault::NumberTooLarge(token.at)),
        },
        _ => Err(unexpected_token(tokens, end)),
    }
}

// Returns the number that decimal digits give, if it is less than 2^31.
fn not_below_zero(digits: &[u8]) -> Option<i32>
    ensures { result ≡ (if nat_lt (decimal digits.now) (2 ^ 31) then Some
        (pos (decimal digits.now)) else None) }
{
    match number(digits) {
        Some(n) if n < 1 << 31 => Some(n as i32),
        _ => None,
    }
}

// Returns the number that decimal digits give after a minus sign, if it is at least -2^31.
fn below_zero(digits: &[u8]) -> Option<i32>
    ensures { result ≡ (if nat_le (decimal digits.now) (2 ^ 31) then Some
        (minus (decimal digits.now)) else None) }
{
    match number(digits) {
        Some(0) => Some(0),
        Some(n) if n <= 1 << 31 => Some(-((n - 1) as i32) - 1),
        _ => None,
    }
}

// Reads the length of a substring: a number as above, or `all`.
pub(crate) fn length_of<'t, 'a>(
    tokens: &'t [Token<'a>],
    end: usize,
) -> Result<(Option<i32>, &'t [Token<'a>]), SyntaxFault>
    ensures reads { ReadsAs (λ x. (x.0, lexemes x.1.now)) result
        (wanted length_of_part signed_refusal end (lexemes tokens.now)) }
    ensures shorter { IfOk result (λ x. length x.1.now < length tokens.now) }
{
    let [first, rest @ ..] = tokens else {
        return Err(SyntaxFault::Expected(end));
    };
    let token = *first;
    match token.kind {
        Kind::Name(name) if name == b"all".as_slice() => Ok((None, rest)),
        Kind::Number(_) | Kind::Minus(_) => {
            let (n, rest) = signed_of(tokens, end)?;
            Ok((Some(n), rest))
        }
        _ => Err(unexpected_token(tokens, end)),
    }
}

// Returns the code of the option with this name.
#[tactic(auto, unfolding(crate::specs::Names::code_by_name))]
fn code_named(name: &[u8]) -> Option<u8>
    ensures { result ≡ code_by_name name.now }
{
    if name == b"subnet-mask".as_slice() {
        Some(1)
    } else if name == b"routers".as_slice() {
        Some(3)
    } else if name == b"domain-name-servers".as_slice() {
        Some(6)
    } else if name == b"host-name".as_slice() {
        Some(12)
    } else if name == b"domain-name".as_slice() {
        Some(15)
    } else if name == b"vendor-encapsulated-options".as_slice() {
        Some(43)
    } else if name == b"dhcp-requested-address".as_slice() {
        Some(50)
    } else if name == b"dhcp-lease-time".as_slice() {
        Some(51)
    } else if name == b"dhcp-message-type".as_slice() {
        Some(53)
    } else if name == b"dhcp-server-identifier".as_slice() {
        Some(54)
    } else if name == b"dhcp-parameter-request-list".as_slice() {
        Some(55)
    } else if name == b"dhcp-max-message-size".as_slice() {
        Some(57)
    } else if name == b"vendor-class-identifier".as_slice() {
        Some(60)
    } else if name == b"dhcp-client-identifier".as_slice() {
        Some(61)
    } else if name == b"dhcp-agent-options".as_slice() {
        Some(82)
    } else {
        None
    }
}

// Returns the message field with this name after `pkt4.`.
#[tactic(auto, unfolding(crate::specs::Names::field_by_name))]
fn field_named(name: &[u8]) -> Option<Field>
    ensures { result ≡ field_by_name name.now }
{
    if name == b"mac".as_slice() {
        Some(Field::Mac)
    } else if name == b"hlen".as_slice() {
        Some(Field::Hlen)
    } else if name == b"htype".as_slice() {
        Some(Field::Htype)
    } else if name == b"ciaddr".as_slice() {
        Some(Field::Ciaddr)
    } else if name == b"giaddr".as_slice() {
        Some(Field::Giaddr)
    } else if name == b"yiaddr".as_slice() {
        Some(Field::Yiaddr)
    } else if name == b"siaddr".as_slice() {
        Some(Field::Siaddr)
    } else if name == b"msgtype".as_slice() {
        Some(Field::MessageType)
    } else if name == b"transid".as_slice() {
        Some(Field::Transaction)
    } else {
        None
    }
}
