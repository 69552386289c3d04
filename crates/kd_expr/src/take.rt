ghost use Rattle.std.specs.Prelude.{◌≡◌, ◌≢◌, ◌≤◌, ◌^◌, ◌<◌, IfErr, IfOk, IfSome, length, option_map, option_copied, bytes_eq, codes};
ghost use Rattle.kd_expr.specs.Gives.{ReadsAs};
ghost use Rattle.kd_expr.specs.Names.{code_by_name, field_by_name};
ghost use Rattle.kd_expr.specs.Reading.{one, sign_at, word_at, sign_here, word_here};
ghost use Rattle.kd_expr.specs.Refusals.{unexpected_at};
ghost use Rattle.kd_expr.specs.View.{lexemes, lexeme_at, sign_byte};
ghost use Rattle.kd_expr.specs.declared.fault.SyntaxFault.TheVariants as faults;

use crate::fault::SyntaxFault;
use crate::number::number;
use crate::token::{Kind, Sign, Token};
use kd_wire::Field;

// Returns the fault of the first token, which must not come there, or of the end of the text if
// there are no tokens.
pub(crate) fn unexpected_token(tokens: &[Token<'_>], end: usize) -> SyntaxFault
    ensures fault { result ≢ faults.Memory }
    ensures exact { result ≡ unexpected_at (lexemes tokens.now) end }
{
    let [first, ..] = tokens else {
        return SyntaxFault::Expected(end);
    };
    let token = *first;
    match token.kind {
        Kind::Bad => SyntaxFault::BadToken(token.at),
        _ => SyntaxFault::Expected(token.at),
    }
}

// Takes this sign if it comes next, and returns its place and the remaining tokens.
pub(crate) fn sign<'t, 'a>(
    tokens: &'t [Token<'a>],
    wanted: Sign,
) -> Option<(usize, &'t [Token<'a>])>
    ensures reads { option_map (λ x. (x.0, lexemes x.1.now)) result
        ≡ one (sign_at (sign_byte wanted)) (lexemes tokens.now) }
    ensures shorter { IfSome result (λ x. length x.1.now < length tokens.now) }
{
    let [first, rest @ ..] = tokens else {
        return None;
    };
    let token = *first;
    match token.kind {
        Kind::Sign(found) if found.byte() == wanted.byte() => Some((token.at, rest)),
        _ => None,
    }
}

// Takes this keyword if it comes next, and returns its place and the remaining tokens.
pub(crate) fn word<'t, 'a>(
    tokens: &'t [Token<'a>],
    wanted: &[u8],
) -> Option<(usize, &'t [Token<'a>])>
    ensures reads { option_map (λ x. (x.0, lexemes x.1.now)) result
        ≡ one (word_at wanted.now) (lexemes tokens.now) }
    ensures shorter { IfSome result (λ x. length x.1.now < length tokens.now) }
{
    let [first, rest @ ..] = tokens else {
        return None;
    };
    let token = *first;
    match token.kind {
        Kind::Name(name) if name == wanted => Some((token.at, rest)),
        _ => None,
    }
}

// Takes this sign, which must come next.
pub(crate) fn expect_sign<'t, 'a>(
    tokens: &'t [Token<'a>],
    wanted: Sign,
    end: usize,
) -> Result<(usize, &'t [Token<'a>]), SyntaxFault>
    ensures reads { ReadsAs (λ x. (x.0, lexemes x.1.now)) result
        (sign_here (sign_byte wanted) end (lexemes tokens.now)) }
    ensures shorter { IfOk result (λ x. length x.1.now < length tokens.now) }
{
    match sign(tokens, wanted) {
        Some(found) => Ok(found),
        None => Err(unexpected_token(tokens, end)),
    }
}

// Takes this keyword, which must come next.
pub(crate) fn expect_word<'t, 'a>(
    tokens: &'t [Token<'a>],
    wanted: &[u8],
    end: usize,
) -> Result<(usize, &'t [Token<'a>]), SyntaxFault>
    ensures reads { ReadsAs (λ x. (x.0, lexemes x.1.now)) result
        (word_here wanted.now end (lexemes tokens.now)) }
    ensures shorter { IfOk result (λ x. length x.1.now < length tokens.now) }
{
    match word(tokens, wanted) {
        Some(found) => Ok(found),
        None => Err(unexpected_token(tokens, end)),
    }
}
