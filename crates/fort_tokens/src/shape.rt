//! What the characters that are no token yet look like.
ghost use Rattle.std.specs.Prelude.{◌≡◌};
ghost use Rattle.fort_tokens.specs.Machine.{first_shape as first_shape_as, goes_on as goes_on_as, is_empty as is_no_text};

use crate::words::{is_begun, is_kind, is_name_byte};

/// The form of a token's front.
#[derive(Clone, Copy, Debug)]
pub enum Shape {
    /// There is no text.
    Empty,
    Name,
    Digits,
    /// Digits and an underscore.
    Under,
    /// Digits, an underscore and a kind.
    Suffixed,
    /// A number and a point behind it.
    Point,
    /// The front of an operator, a delimiter or a word between points.
    Fixed,
}

/// The shape of a text of this shape once the byte, no upper-case letter, stands behind it, or `None` where no token's front goes on so.
pub fn goes_on(shape: Shape, text: &[u8], byte: u8) -> Option<Shape>
    ensures { result ≡ goes_on_as shape text.now byte }
{
    match shape {
        Shape::Empty => first_shape(byte),
        Shape::Name => (is_name_byte(byte)).then_some(Shape::Name),
        Shape::Digits => {
            if byte.is_ascii_digit() {
                Some(Shape::Digits)
            } else if byte == b'_' {
                Some(Shape::Under)
            } else if byte == b'.' {
                Some(Shape::Point)
            } else {
                None
            }
        }
        Shape::Under => is_kind(byte).then_some(Shape::Suffixed),
        Shape::Suffixed => (byte == b'.').then_some(Shape::Point),
        Shape::Point => None,
        Shape::Fixed => is_begun(text, byte).then_some(Shape::Fixed),
    }
}

/// The shape of a text of one byte.
fn first_shape(byte: u8) -> Option<Shape>
    ensures { result ≡ first_shape_as byte }
{
    if byte.is_ascii_lowercase() {
        Some(Shape::Name)
    } else if byte.is_ascii_digit() {
        Some(Shape::Digits)
    } else if is_begun(&[], byte) {
        Some(Shape::Fixed)
    } else {
        None
    }
}

/// Whether there is no text.
pub fn is_empty(shape: Shape) -> bool
    ensures { result ≡ is_no_text shape }
{
    matches!(shape, Shape::Empty)
}
