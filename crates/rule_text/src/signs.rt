//! The words and signs of rules.
ghost use Rattle.std.specs.Prelude.{◌≡◌};
ghost use Rattle.rule_text.specs.Signs.{sign_text, sign_of, is_same};

/// A reserved word or a sign.
#[derive(Clone, Copy)]
pub enum Sign {
    State,
    Let,
    If,
    Elif,
    Else,
    For,
    Count,
    Send,
    To,
    And,
    Or,
    Not,
    Mail,
    Nodes,
    Faults,
    Modulus,
    Me,
    Coin,
    NoMessage,
    Clock,
    Table,
    Sorted,
    Plus,
    Minus,
    Times,
    Over,
    Modulo,
    Equal,
    NotEqual,
    Less,
    AtMost,
    Greater,
    AtLeast,
    Becomes,
    Comma,
    Colon,
    Open,
    Close,
    OpenSquare,
    CloseSquare,
}

/// Every word and sign, once.
pub const SIGNS: [Sign; 40] = [
    Sign::State,
    Sign::Let,
    Sign::If,
    Sign::Elif,
    Sign::Else,
    Sign::For,
    Sign::Count,
    Sign::Send,
    Sign::To,
    Sign::And,
    Sign::Or,
    Sign::Not,
    Sign::Mail,
    Sign::Nodes,
    Sign::Faults,
    Sign::Modulus,
    Sign::Me,
    Sign::Coin,
    Sign::NoMessage,
    Sign::Clock,
    Sign::Table,
    Sign::Sorted,
    Sign::Plus,
    Sign::Minus,
    Sign::Times,
    Sign::Over,
    Sign::Modulo,
    Sign::Equal,
    Sign::NotEqual,
    Sign::Less,
    Sign::AtMost,
    Sign::Greater,
    Sign::AtLeast,
    Sign::Becomes,
    Sign::Comma,
    Sign::Colon,
    Sign::Open,
    Sign::Close,
    Sign::OpenSquare,
    Sign::CloseSquare,
];

/// Returns how a word or sign is written.
pub fn spelling(sign: Sign) -> &'static str
    ensures { result.now ≡ sign_text sign }
{
    match sign {
        Sign::State => "state",
        Sign::Let => "let",
        Sign::If => "if",
        Sign::Elif => "elif",
        Sign::Else => "else",
        Sign::For => "for",
        Sign::Count => "count",
        Sign::Send => "send",
        Sign::To => "to",
        Sign::And => "and",
        Sign::Or => "or",
        Sign::Not => "not",
        Sign::Mail => "mail",
        Sign::Nodes => "n",
        Sign::Faults => "f",
        Sign::Modulus => "M",
        Sign::Me => "me",
        Sign::Coin => "coin",
        Sign::NoMessage => "none",
        Sign::Clock => "clock",
        Sign::Table => "table",
        Sign::Sorted => "sorted",
        Sign::Plus => "+",
        Sign::Minus => "-",
        Sign::Times => "*",
        Sign::Over => "/",
        Sign::Modulo => "%",
        Sign::Equal => "==",
        Sign::NotEqual => "!=",
        Sign::Less => "<",
        Sign::AtMost => "<=",
        Sign::Greater => ">",
        Sign::AtLeast => ">=",
        Sign::Becomes => "=",
        Sign::Comma => ",",
        Sign::Colon => ":",
        Sign::Open => "(",
        Sign::Close => ")",
        Sign::OpenSquare => "[",
        Sign::CloseSquare => "]",
    }
}

/// Returns the word or sign that is written so.
pub fn sign_of(text: &[u8]) -> Option<Sign>
    ensures { result ≡ sign_of text.now }
{
    SIGNS
        .iter()
        .copied()
        .find(|sign| spelling(*sign).as_bytes() == text)
}

/// Returns true if two words or signs are the same.
pub fn is_same(a: Sign, b: Sign) -> bool
    ensures { result ≡ is_same a b }
{
    spelling(a).as_bytes() == spelling(b).as_bytes()
}
