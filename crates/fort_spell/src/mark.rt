//! Operators and the marks between operands.
ghost use Rattle.std.specs.Prelude.{◌≡◌, ◌≤◌, length};
ghost use Rattle.fort_spell.specs.Expressions.{loose as is_loose_op, op_mark, truth_mark, unary_loose, unary_mark};
ghost use Rattle.fort_spell.specs.Text.{mark_text, suffix_text};

use fort_arith::{Kind, Op};
use fort_tree::Unary;

/// A token of fixed text that is no word (ISO/IEC 1539-1:2018 6.2.4, 6.2.6).
#[derive(Clone, Copy)]
pub enum Mark {
    Open,
    Close,
    Comma,
    Colon,
    Colons,
    Assign,
    Plus,
    Minus,
    Star,
    Power,
    Slash,
    Equal,
    NotEqual,
    Less,
    LessEqual,
    Greater,
    GreaterEqual,
    And,
    Or,
    Eqv,
    Neqv,
    Not,
    True,
    False,
}

impl Mark {
    /// The text that stands for it.
    pub fn text(self) -> &'static [u8]
        ensures { result.now ≡ mark_text self }
    {
        match self {
            Mark::Open => b"(",
            Mark::Close => b")",
            Mark::Comma => b",",
            Mark::Colon => b":",
            Mark::Colons => b"::",
            Mark::Assign => b"=",
            Mark::Plus => b"+",
            Mark::Minus => b"-",
            Mark::Star => b"*",
            Mark::Power => b"**",
            Mark::Slash => b"/",
            Mark::Equal => b"==",
            Mark::NotEqual => b"/=",
            Mark::Less => b"<",
            Mark::LessEqual => b"<=",
            Mark::Greater => b">",
            Mark::GreaterEqual => b">=",
            Mark::And => b".and.",
            Mark::Or => b".or.",
            Mark::Eqv => b".eqv.",
            Mark::Neqv => b".neqv.",
            Mark::Not => b".not.",
            Mark::True => b".true.",
            Mark::False => b".false.",
        }
    }
}

/// The mark of a binary operator.
pub fn op_token(op: Op) -> Mark
    ensures { result ≡ op_mark op }
{
    match op {
        Op::Pow => Mark::Power,
        Op::Mul => Mark::Star,
        Op::Div => Mark::Slash,
        Op::Add => Mark::Plus,
        Op::Sub => Mark::Minus,
        Op::Eq => Mark::Equal,
        Op::Ne => Mark::NotEqual,
        Op::Lt => Mark::Less,
        Op::Le => Mark::LessEqual,
        Op::Gt => Mark::Greater,
        Op::Ge => Mark::GreaterEqual,
        Op::And => Mark::And,
        Op::Or => Mark::Or,
        Op::Eqv => Mark::Eqv,
        Op::Neqv => Mark::Neqv,
    }
}

/// Whether a blank stands on each side of a binary operator.
pub fn is_loose(op: Op) -> bool
    ensures { result ≡ is_loose_op op }
{
    !matches!(op, Op::Pow | Op::Mul | Op::Div | Op::Add | Op::Sub)
}

/// The mark of a unary operator.
pub fn unary_token(op: Unary) -> Mark
    ensures { result ≡ unary_mark op }
{
    match op {
        Unary::Plus => Mark::Plus,
        Unary::Minus => Mark::Minus,
        Unary::Not => Mark::Not,
    }
}

/// Whether a blank stands behind a unary operator.
pub fn is_word_like(op: Unary) -> bool
    ensures { result ≡ unary_loose op }
{
    matches!(op, Unary::Not)
}

/// The mark of a logical constant.
pub fn truth_token(value: bool) -> Mark
    ensures { result ≡ truth_mark value }
{
    if value { Mark::True } else { Mark::False }
}

/// The suffix of a number.
pub fn suffix(kind: Option<Kind>) -> &'static [u8]
    ensures value { result.now ≡ suffix_text kind }
    ensures short { length result.now ≤ 2 }
{
    match kind {
        None | Some(Kind::Logical) => b"",
        Some(Kind::I1) => b"_1",
        Some(Kind::I2) => b"_2",
        Some(Kind::I4) => b"_4",
        Some(Kind::I8) => b"_8",
    }
}
