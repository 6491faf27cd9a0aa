use c_core::Spot;
use wv_base::{OutOfMemory, Text};

/// A token with the place of its first byte.
#[derive(Debug, Drop)]
pub struct Token {
    pub kind: TokenKind,
    pub spot: Spot,
}

/// What a token is (ISO C11 6.4).
#[derive(Debug, Drop)]
pub enum TokenKind {
    /// An identifier or a keyword.
    Word(Text),
    /// An integer constant (C11 6.4.4.1); `longs` counts the letters `l` of its suffix.
    Number {
        value: u64,
        decimal: bool,
        unsigned: bool,
        longs: u8,
    },
    /// The value of a character constant (C11 6.4.4.4), from -128 to 127.
    Char(i32),
    /// A string literal, whose text nothing reads.
    Str,
    Punct(Punct),
}

/// A sign (C11 6.4.6).
#[derive(Clone, Copy, Debug, PartialEq, Eq)]
pub enum Punct {
    ParenOpen,
    ParenClose,
    BraceOpen,
    BraceClose,
    BracketOpen,
    BracketClose,
    Semicolon,
    Comma,
    Colon,
    Question,
    Ellipsis,
    Dot,
    Arrow,
    Assign,
    PlusAssign,
    MinusAssign,
    StarAssign,
    SlashAssign,
    PercentAssign,
    ShiftLeftAssign,
    ShiftRightAssign,
    AmpersandAssign,
    CaretAssign,
    PipeAssign,
    AmpersandAmpersand,
    PipePipe,
    Pipe,
    Caret,
    Ampersand,
    Equal,
    NotEqual,
    Less,
    Greater,
    LessEqual,
    GreaterEqual,
    ShiftLeft,
    ShiftRight,
    Plus,
    Minus,
    Star,
    Slash,
    Percent,
    Exclamation,
    Tilde,
    PlusPlus,
    MinusMinus,
}

/// Why a text is no list of tokens.
#[derive(Clone, Copy, Debug, PartialEq, Eq)]
pub enum TokenFault {
    /// No token stands at this place.
    Token { line: u32, column: u32 },
    /// A directive that is not passed over.
    Directive { line: u32 },
    OutOfMemory,
}

impl From<OutOfMemory> for TokenFault {
    ghost use Rattle.std.specs.Prelude.{◌≡◌};
    ghost use Rattle.c_tokens.specs.declared.token.TokenFault.TheVariants.{OutOfMemory as NoMemory};

    ghost from_gives = { λ _ fault. fault ≡ NoMemory };

    fn from(_: OutOfMemory) -> Self {
        TokenFault::OutOfMemory
    }
}
