ghost use Rattle.std.specs.Prelude.{◌≡◌};
ghost use Rattle.kd_token.specs.Accepts.{way_of};

use crate::token::Token;

/// How a run goes on from a token. A number says how many tokens are skipped.
#[derive(Clone, Copy, PartialEq, Eq)]
pub enum Way {
    /// To the next token.
    On,
    /// Over this many tokens.
    Skip(u16),
    /// A truth value is taken: if it is false, the run skips this many tokens; if it is true, it
    /// goes to the next.
    Fork(u16),
    /// If this truth value is on top, it stays and the run skips this many tokens; the other one is
    /// taken and the run goes to the next token.
    Keep(bool, u16),
}

impl Token {
    /// Returns how a run goes on from this token.
    pub fn way(&self) -> Way
        ensures { result ≡ way_of self.now }
    {
        match self {
            Token::Branch(skip) => Way::Skip(*skip),
            Token::PopBranchFalse(skip) => Way::Fork(*skip),
            Token::BranchFalseElsePop(skip) => Way::Keep(false, *skip),
            Token::BranchTrueElsePop(skip) => Way::Keep(true, *skip),
            _ => Way::On,
        }
    }
}
