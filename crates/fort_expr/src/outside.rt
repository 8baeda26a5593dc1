//! Fortran that this project does not take, in an expression.
ghost use Rattle.std.specs.Prelude.{◌≡◌, ◌+◌, ◌<◌, length, option_map};
ghost use Rattle.std.specs.List.{slice_get};
ghost use Rattle.fort_grammar.specs.Choose.{member};
ghost use Rattle.fort_grammar.specs.First.{firsts};
ghost use Rattle.fort_grammar.specs.Token.{text_class, token_class};
ghost use Rattle.fort_expr.specs.Outside.{is_made_name as made_name_test, when as item_when, follows as follows_test, item_by, item_of};

use fort_grammar::{Class, Stack, Symbol, can_take, class_of};
use fort_tree::{Mode, Token};

/// Whether the text is a name that only translations make, in a source.
fn is_made_name(mode: Mode, text: &[u8]) -> bool
    ensures { result ≡ made_name_test mode text.now }
{
    match mode {
        Mode::Source => text.starts_with(b"claw_"),
        Mode::Target => false,
    }
}

fn when(holds: bool, item: u8) -> Option<u8>
    ensures { result ≡ item_when holds item }
{
    if holds { Some(item) } else { None }
}

fn follows(class: Class, behind: Option<Class>) -> bool
    ensures { result ≡ follows_test class behind }
{
    match behind {
        None => false,
        Some(other) => other.is(class),
    }
}

/// The class of the token behind the one with this number, if there is one.
pub fn class_behind(tokens: &[Token], i: usize) -> Option<Class>
    requires { i < length tokens.now }
    ensures { result ≡ option_map token_class (slice_get tokens.now (i + 1)) }
{
    let next = i + 1;
    if next < tokens.len() {
        Some(class_of(&tokens[next]))
    } else {
        None
    }
}

fn item_of_class(stack: &Stack<Symbol>, behind: Option<Class>, class: Class) -> Option<u8>
    ensures { result ≡ item_by (λ c. member c (firsts stack.now)) behind class }
{
    if class.is(Class::Colon) {
        when(
            can_take(stack, Class::Comma) && !can_take(stack, Class::Colon),
            12,
        )
    } else if class.is(Class::DoubleColon) {
        when(
            can_take(stack, Class::Colon) || can_take(stack, Class::Comma),
            12,
        )
    } else if class.is(Class::Name) {
        let argument = can_take(stack, Class::Name) && can_take(stack, Class::Colon);
        when(follows(Class::Equals, behind) && argument, 12)
    } else if class.is(Class::Open) {
        when(
            follows(Class::Slash, behind) && can_take(stack, Class::Open),
            12,
        )
    } else {
        when(class.is_reserved() && can_take(stack, Class::Name), 10)
    }
}

/// The least item of what this project does not take that the token is, with the class of the one behind it, where the symbols of the stack are wanted.
pub fn item(mode: Mode, stack: &Stack<Symbol>, token: &Token, behind: Option<Class>) -> Option<u8>
    ensures { result ≡ item_of mode (λ c. member c (firsts stack.now)) token.now behind }
{
    if is_made_name(mode, token.text()) {
        Some(10)
    } else {
        item_of_class(stack, behind, class_of(token))
    }
}
