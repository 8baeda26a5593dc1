//! What the texts of tokens mean in an expression.
ghost use Rattle.std.specs.Prelude.{◌≡◌, map, min, codes};
ghost use Rattle.std.specs.Char.{is_ascii_digit};
ghost use Rattle.std.specs.List.{prefix_len};
ghost use Rattle.fort_expr.specs.Words.{spelling, spellings, operator_in, operator_of as operator_by_text, value_of, number_of as number_by_text, kind_of as kind_by_text, suffix_kind as kind_by_suffix};

use fort_tree::{Kind, Op};

/// A text, and the operator that it spells.
#[derive(Clone, Copy, Debug)]
pub struct OperatorWord {
    pub text: &'static [u8],
    pub operator: Op,
}

/// The spellings of the operators between two operands (ISO/IEC 1539-1:2018 10.1.5).
fn operator_words() -> &'static [OperatorWord]
    ensures { map spelling result.now ≡ spellings }
{
    &[
        OperatorWord {
            text: b"**",
            operator: Op::Pow,
        },
        OperatorWord {
            text: b"*",
            operator: Op::Mul,
        },
        OperatorWord {
            text: b"/",
            operator: Op::Div,
        },
        OperatorWord {
            text: b"+",
            operator: Op::Add,
        },
        OperatorWord {
            text: b"-",
            operator: Op::Sub,
        },
        OperatorWord {
            text: b"==",
            operator: Op::Eq,
        },
        OperatorWord {
            text: b".eq.",
            operator: Op::Eq,
        },
        OperatorWord {
            text: b"/=",
            operator: Op::Ne,
        },
        OperatorWord {
            text: b".ne.",
            operator: Op::Ne,
        },
        OperatorWord {
            text: b"<",
            operator: Op::Lt,
        },
        OperatorWord {
            text: b".lt.",
            operator: Op::Lt,
        },
        OperatorWord {
            text: b"<=",
            operator: Op::Le,
        },
        OperatorWord {
            text: b".le.",
            operator: Op::Le,
        },
        OperatorWord {
            text: b">",
            operator: Op::Gt,
        },
        OperatorWord {
            text: b".gt.",
            operator: Op::Gt,
        },
        OperatorWord {
            text: b">=",
            operator: Op::Ge,
        },
        OperatorWord {
            text: b".ge.",
            operator: Op::Ge,
        },
        OperatorWord {
            text: b".and.",
            operator: Op::And,
        },
        OperatorWord {
            text: b".or.",
            operator: Op::Or,
        },
        OperatorWord {
            text: b".eqv.",
            operator: Op::Eqv,
        },
        OperatorWord {
            text: b".neqv.",
            operator: Op::Neqv,
        },
    ]
}

fn operator_listed(text: &[u8]) -> Op
    ensures { result ≡ operator_in spellings text.now }
{
    let all = operator_words();
    for word in all {
        if word.text == text {
            return word.operator;
        }
    }
    Op::Add
}

/// The operator that the text spells; of other texts plus.
#[tactic(auto, unfolding(crate::specs::Words::operator_of))]
pub fn operator_of(text: &[u8]) -> Op
    ensures { result ≡ operator_by_text text.now }
{
    operator_listed(text)
}

fn digit_count(text: &[u8]) -> usize
    ensures { result ≡ prefix_len is_ascii_digit text.now }
{
    text.iter().take_while(|byte| byte.is_ascii_digit()).count()
}

/// The number that the digits write, at most 2 ^ 63.
fn value(digits: &[u8]) -> u64
    ensures { result ≡ min (value_of digits.now) 9223372036854775808 }
{
    let mut value: u64 = 0;
    for digit in digits {
        value = value
            .saturating_mul(10)
            .saturating_add(u64::from(digit.saturating_sub(b'0')))
            .min(9223372036854775808);
    }
    value
}

/// The number that a number's text writes.
pub fn number_of(text: &[u8]) -> u64
    ensures { result ≡ number_by_text text.now }
{
    value(&text[..digit_count(text)])
}

fn suffix_kind(suffix: &[u8]) -> Option<Kind>
    ensures { result ≡ kind_by_suffix suffix.now }
{
    if suffix == b"_1".as_slice() {
        Some(Kind::I1)
    } else if suffix == b"_2".as_slice() {
        Some(Kind::I2)
    } else if suffix == b"_4".as_slice() {
        Some(Kind::I4)
    } else if suffix == b"_8".as_slice() {
        Some(Kind::I8)
    } else {
        None
    }
}

/// The kind that the suffix of a number's text gives, if there is one.
pub fn kind_of(text: &[u8]) -> Option<Kind>
    ensures { result ≡ kind_by_text text.now }
{
    suffix_kind(&text[digit_count(text)..])
}
