//! The class of a token.
ghost use Rattle.std.specs.Prelude.{◌≡◌};
ghost use Rattle.fort_grammar.specs.Class.{words};
ghost use Rattle.fort_grammar.specs.Token.{text_class, listed_class, open_class as class_by_form, begins_with_digit as digit_test};

use crate::class::{Class, words as all_words};
use fort_tree::{Name, Token};

/// The class of the token: by its text where that is listed, else that of all names or of all numbers. A sentinel is in `Other`.
pub fn class_of(token: &Token) -> Class
    ensures { result ≡ text_class token.now.text }
{
    let text = token.text();
    match listed(text) {
        Some(class) => class,
        None => open_class(text),
    }
}

fn listed(text: &[u8]) -> Option<Class>
    ensures { result ≡ listed_class words text.now }
{
    let all = all_words();
    for word in all {
        if word.text == text {
            return Some(word.class);
        }
    }
    None
}

fn open_class(text: &[u8]) -> Class
    ensures { result ≡ class_by_form text.now }
{
    if Name::read(text).is_some() {
        Class::Name
    } else if begins_with_digit(text) {
        Class::Number
    } else {
        Class::Other
    }
}

fn begins_with_digit(text: &[u8]) -> bool
    ensures { result ≡ digit_test text.now }
{
    match text.first() {
        None => false,
        Some(byte) => byte.is_ascii_digit(),
    }
}
