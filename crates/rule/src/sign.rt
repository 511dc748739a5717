// The signs that rule text is written in.
ghost use Rattle.std.specs.Prelude.{◌≡◌};
ghost use Rattle.rule.specs.Signs.{sign_of};

use ctl::{Binary, Connective, Quantifier, Unary};

// What a byte is in a rule text: one of the signs, or none of them.
#[derive(Clone, Copy, PartialEq, Eq, Debug)]
pub enum Sign {
    Letter(u8),
    Constant(bool),
    Not,
    Connective(Connective),
    Open,
    Close,
    Quantifier(Quantifier),
    Unary(Unary),
    Binary(Binary),
    Space,
    // A case and no None: what a reader peeks at is an Option already, for the text's end.
    Other,
}

impl From<u8> for Sign {
    ghost from_gives = { λ byte sign. sign ≡ sign_of byte };

    fn from(byte: u8) -> Self {
        match byte as char {
            'a'..='z' => Sign::Letter(byte),
            '0' => Sign::Constant(false),
            '1' => Sign::Constant(true),
            '!' => Sign::Not,
            '&' => Sign::Connective(Connective::And),
            '|' => Sign::Connective(Connective::Or),
            '(' => Sign::Open,
            ')' => Sign::Close,
            'A' => Sign::Quantifier(Quantifier::All),
            'E' => Sign::Quantifier(Quantifier::Exists),
            'X' => Sign::Unary(Unary::Next),
            'F' => Sign::Unary(Unary::Eventually),
            'G' => Sign::Unary(Unary::Always),
            'U' => Sign::Binary(Binary::Until),
            'R' => Sign::Binary(Binary::Release),
            ' ' => Sign::Space,
            _ => Sign::Other,
        }
    }
}
