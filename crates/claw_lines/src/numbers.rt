//! Numbers of a line.
ghost use Rattle.std.specs.Prelude.{◌≡◌, ◌-◌, ◌^◌, min, take};
ghost use Rattle.std.specs.List.{prefix_len};
ghost use Rattle.std.specs.Char.{is_ascii_digit};
ghost use Rattle.claw_lines.specs.Words.{value_of, kind_of, number_of as number_text};
ghost use Rattle.claw_lines.specs.Items.{count_item, literal_item};

use fort_tree::{Expr, Kind, Token};

/// What a number may be at most.
const LARGEST: u64 = 9223372036854775807;

fn digit_count(text: &[u8]) -> usize
    ensures { result ≡ prefix_len is_ascii_digit text.now }
{
    text.iter().take_while(|byte| byte.is_ascii_digit()).count()
}

/// The number that the digits write, or the greatest `u64` where it is above that.
fn value(digits: &[u8]) -> u64
    ensures { result ≡ min (value_of digits.now) (2 ^ 64 - 1) }
{
    let mut value: u64 = 0;
    for digit in digits {
        value = value
            .saturating_mul(10)
            .saturating_add(u64::from(digit.saturating_sub(b'0')));
    }
    value
}

/// The kind that stands behind the digits of a number, if there is one, or `None` where something else stands there.
fn suffix(text: &[u8]) -> Option<Option<Kind>>
    ensures { result ≡ kind_of text.now }
{
    if text.is_empty() {
        Some(None)
    } else if text == b"_1".as_slice() {
        Some(Some(Kind::I1))
    } else if text == b"_2".as_slice() {
        Some(Some(Kind::I2))
    } else if text == b"_4".as_slice() {
        Some(Some(Kind::I4))
    } else if text == b"_8".as_slice() {
        Some(Some(Kind::I8))
    } else {
        None
    }
}

/// The value and the kind of a number.
fn number(text: &[u8]) -> Option<(u64, Option<Kind>)>
    ensures { result ≡ number_text text.now }
{
    let count = digit_count(text);
    let value = value(&text[..count]);
    if count == 0 || value > LARGEST {
        return None;
    }
    let kind = suffix(&text[count..])?;
    Some((value, kind))
}

/// The number that the token is.
pub fn literal(token: &Token) -> Option<Expr>
    ensures { result ≡ literal_item token.now }
{
    let (value, kind) = number(token.text())?;
    Some(Expr::Number(value, kind, token.at))
}

/// The number of at most 4294967295, without a kind, that the token is.
pub fn count(token: &Token) -> Option<u32>
    ensures { result ≡ count_item token.now }
{
    let (value, kind) = number(token.text())?;
    if kind.is_some() || value > 4294967295 {
        return None;
    }
    Some(value as u32)
}
