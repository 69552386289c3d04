ghost use Rattle.std.specs.Prelude.{◌≡◌};
ghost use Rattle.kd_expr.specs.View.{sign_byte};

// A sign of the language.
#[derive(Clone, Copy)]
pub(crate) enum Sign {
    // `(`
    Open,
    // `)`
    Close,
    // `[`
    Left,
    // `]`
    Right,
    // `,`
    Comma,
    // `.`
    Dot,
    // `+`
    Plus,
    // `==`
    Equals,
}

impl Sign {
    // Returns the sign's byte; of `==`, one of its two equal bytes.
    pub(crate) fn byte(self) -> u8
        ensures { result ≡ sign_byte self }
    {
        match self {
            Sign::Open => b'(',
            Sign::Close => b')',
            Sign::Left => b'[',
            Sign::Right => b']',
            Sign::Comma => b',',
            Sign::Dot => b'.',
            Sign::Plus => b'+',
            Sign::Equals => b'=',
        }
    }
}

// A word of a text, with the offset of its first byte.
#[derive(Clone, Copy)]
pub(crate) struct Token<'a> {
    pub(crate) at: usize,
    pub(crate) kind: Kind<'a>,
}

// What kind of word it is, with what it holds.
#[derive(Clone, Copy)]
pub(crate) enum Kind<'a> {
    // The bytes between two apostrophes.
    Text(&'a [u8]),
    // The digits after `0x`.
    Hex(&'a [u8]),
    // The four bytes of an IPv4 address.
    Address(u8, u8, u8, u8),
    // Decimal digits.
    Number(&'a [u8]),
    // Decimal digits after a minus sign.
    Minus(&'a [u8]),
    Name(&'a [u8]),
    Sign(Sign),
    // No word begins here.
    Bad,
}
