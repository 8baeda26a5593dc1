//! Fortran that this project does not take, in a statement.
ghost use Rattle.std.specs.Prelude.{◌≡◌, map};
ghost use Rattle.fort_grammar.specs.Choose.{member};
ghost use Rattle.fort_grammar.specs.First.{firsts};
ghost use Rattle.fort_grammar.specs.Token.{text_class, token_class};
ghost use Rattle.fort_expr.specs.Outside.{is_made_name as made_name_test};
ghost use Rattle.fort_stmt.specs.Outside as outside;

use fort_grammar::{Class, Stack, Symbol, can_take, class_of};
use fort_tree::{Mode, Name, Token};

/// A word with which this project's profile is left, with the item.
#[derive(Clone, Copy, Debug)]
struct Word {
    text: &'static [u8],
    item: u8,
}

/// The words that begin statements which this project doesn't take.
fn openings() -> &'static [Word]
    ensures { map outside.entry result.now ≡ outside.openers }
{
    &[
        Word {
            text: b"real",
            item: 1,
        },
        Word {
            text: b"complex",
            item: 1,
        },
        Word {
            text: b"double",
            item: 1,
        },
        Word {
            text: b"character",
            item: 1,
        },
        Word {
            text: b"type",
            item: 1,
        },
        Word {
            text: b"class",
            item: 1,
        },
        Word {
            text: b"enum",
            item: 1,
        },
        Word {
            text: b"program",
            item: 2,
        },
        Word {
            text: b"block",
            item: 2,
        },
        Word {
            text: b"submodule",
            item: 2,
        },
        Word {
            text: b"interface",
            item: 2,
        },
        Word {
            text: b"procedure",
            item: 2,
        },
        Word {
            text: b"recursive",
            item: 2,
        },
        Word {
            text: b"pure",
            item: 2,
        },
        Word {
            text: b"elemental",
            item: 2,
        },
        Word {
            text: b"entry",
            item: 2,
        },
        Word {
            text: b"import",
            item: 2,
        },
        Word {
            text: b"goto",
            item: 3,
        },
        Word {
            text: b"go",
            item: 3,
        },
        Word {
            text: b"continue",
            item: 3,
        },
        Word {
            text: b"stop",
            item: 3,
        },
        Word {
            text: b"error",
            item: 3,
        },
        Word {
            text: b"pause",
            item: 3,
        },
        Word {
            text: b"where",
            item: 4,
        },
        Word {
            text: b"forall",
            item: 4,
        },
        Word {
            text: b"associate",
            item: 4,
        },
        Word {
            text: b"while",
            item: 4,
        },
        Word {
            text: b"concurrent",
            item: 4,
        },
        Word {
            text: b"open",
            item: 5,
        },
        Word {
            text: b"close",
            item: 5,
        },
        Word {
            text: b"read",
            item: 5,
        },
        Word {
            text: b"write",
            item: 5,
        },
        Word {
            text: b"print",
            item: 5,
        },
        Word {
            text: b"rewind",
            item: 5,
        },
        Word {
            text: b"inquire",
            item: 5,
        },
        Word {
            text: b"backspace",
            item: 5,
        },
        Word {
            text: b"endfile",
            item: 5,
        },
        Word {
            text: b"format",
            item: 5,
        },
        Word {
            text: b"flush",
            item: 5,
        },
        Word {
            text: b"namelist",
            item: 5,
        },
        Word {
            text: b"include",
            item: 6,
        },
        Word {
            text: b"save",
            item: 6,
        },
        Word {
            text: b"common",
            item: 6,
        },
        Word {
            text: b"data",
            item: 6,
        },
        Word {
            text: b"equivalence",
            item: 6,
        },
        Word {
            text: b"external",
            item: 6,
        },
        Word {
            text: b"intrinsic",
            item: 6,
        },
        Word {
            text: b"private",
            item: 6,
        },
        Word {
            text: b"public",
            item: 6,
        },
        Word {
            text: b"protected",
            item: 6,
        },
        Word {
            text: b"dimension",
            item: 6,
        },
        Word {
            text: b"parameter",
            item: 6,
        },
        Word {
            text: b"intent",
            item: 6,
        },
        Word {
            text: b"allocate",
            item: 7,
        },
        Word {
            text: b"deallocate",
            item: 7,
        },
        Word {
            text: b"nullify",
            item: 7,
        },
    ]
}

/// The attributes that declarations here don't have.
fn attributes() -> &'static [Word]
    ensures { map outside.entry result.now ≡ outside.with_item 8 outside.attributes }
{
    &[
        Word {
            text: b"allocatable",
            item: 8,
        },
        Word {
            text: b"pointer",
            item: 8,
        },
        Word {
            text: b"target",
            item: 8,
        },
        Word {
            text: b"optional",
            item: 8,
        },
        Word {
            text: b"value",
            item: 8,
        },
        Word {
            text: b"volatile",
            item: 8,
        },
        Word {
            text: b"contiguous",
            item: 8,
        },
        Word {
            text: b"bind",
            item: 8,
        },
    ]
}

/// The item of the text among some words.
fn item_in(words: &[Word], text: &[u8]) -> Option<u8>
    ensures { result ≡ outside.item_in (map outside.entry words.now) text.now }
{
    for word in words {
        if word.text == text {
            return Some(word.item);
        }
    }
    None
}

/// Whether the text is a name that only translations make, in a source.
fn is_made_name(mode: Mode, text: &[u8]) -> bool
    ensures { result ≡ made_name_test mode text.now }
{
    match mode {
        Mode::Source => text.starts_with(b"claw_"),
        Mode::Target => false,
    }
}

fn when(holds: bool, item: u8) -> Option<u8>
    ensures { result ≡ outside.when holds item }
{
    if holds { Some(item) } else { None }
}

fn lesser(a: Option<u8>, b: Option<u8>) -> Option<u8>
    ensures { result ≡ outside.lesser a b }
{
    match (a, b) {
        (None, b) => b,
        (Some(a), None) => Some(a),
        (Some(a), Some(b)) => Some(a.min(b)),
    }
}

/// Whether the first of some tokens is of the class.
fn follows(class: Class, tokens: &[Token]) -> bool
    ensures { result ≡ outside.follows class tokens.now }
{
    match tokens.first() {
        None => false,
        Some(token) => class_of(token).is(class),
    }
}

fn is_number(class: Class) -> bool
    ensures { result ≡ outside.is_number class }
{
    class.is(Class::Number) || class.is(Class::KindNumber)
}

/// Whether no variable stands behind a DO: WHILE, CONCURRENT or nothing.
fn no_variable(behind: &[Token]) -> bool
    ensures { result ≡ outside.no_variable behind.now }
{
    match behind.first() {
        None => true,
        Some(token) => token.text() == b"while".as_slice()
            || token.text() == b"concurrent".as_slice(),
    }
}

fn begins_greater(behind: &[Token]) -> bool
    ensures { result ≡ outside.begins_greater behind.now }
{
    match behind.first() {
        None => false,
        Some(token) => token.text() == b">".as_slice(),
    }
}

fn has_parameter(front: &[Token]) -> bool
    ensures { result ≡ outside.has_parameter front.now }
{
    front
        .iter()
        .any(|token| class_of(token).is(Class::Parameter))
}

/// The item of a word that begins a statement, or an action behind an IF.
fn opening_item(front: &[Token], stack: &Stack<Symbol>, token: &Token) -> Option<u8>
    ensures { result ≡ outside.opening_item front.now (λ c. member c (firsts stack.now)) token.now }
{
    if front.is_empty() || (can_take(stack, Class::Then) && can_take(stack, Class::Exit)) {
        item_in(openings(), token.text())
    } else {
        None
    }
}

fn is_label(front: &[Token], token: &Token, behind: &[Token]) -> bool
    ensures { result ≡ outside.is_label front.now token.now behind.now }
{
    front.is_empty()
        && (is_number(class_of(token))
            || (Name::read(token.text()).is_some() && follows(Class::Colon, behind)))
}

fn is_do_alone(front: &[Token], token: &Token, behind: &[Token]) -> bool
    ensures { result ≡ outside.is_do_alone front.now token.now behind.now }
{
    front.is_empty() && class_of(token).is(Class::Do) && no_variable(behind)
}

/// The item of an attribute, where one is due.
fn attribute_item(stack: &Stack<Symbol>, token: &Token) -> Option<u8>
    ensures { result ≡ outside.attribute_by (λ c. member c (firsts stack.now)) token.now }
{
    if can_take(stack, Class::Parameter)
        || can_take(stack, Class::Intent)
        || can_take(stack, Class::Dimension)
    {
        item_in(attributes(), token.text())
    } else {
        None
    }
}

fn declares_variables(front: &[Token]) -> bool
    ensures { result ≡ outside.declares_variables front.now }
{
    (follows(Class::Integer, front) || follows(Class::Logical, front)) && !has_parameter(front)
}

/// Whether the token is the `=` before a variable's first value.
fn is_value(front: &[Token], stack: &Stack<Symbol>, token: &Token) -> bool
    ensures { result ≡ outside.is_value front.now (λ c. member c (firsts stack.now)) token.now }
{
    class_of(token).is(Class::Equals)
        && declares_variables(front)
        && can_take(stack, Class::Comma)
        && !can_take(stack, Class::Close)
        && !can_take(stack, Class::DoubleColon)
}

fn is_renamed(front: &[Token], token: &Token, behind: &[Token]) -> bool
    ensures { result ≡ outside.is_renamed front.now token.now behind.now }
{
    class_of(token).is(Class::Equals) && follows(Class::Use, front) && begins_greater(behind)
}

fn is_reserved_word(stack: &Stack<Symbol>, class: Class) -> bool
    ensures { result ≡ outside.is_reserved_word (λ c. member c (firsts stack.now)) class }
{
    (class.is_reserved() || class.is(Class::Intrinsic))
        && can_take(stack, Class::Name)
        && !can_take(stack, class)
}

fn in_expression(stack: &Stack<Symbol>) -> bool
    ensures { result ≡ outside.in_expression (λ c. member c (firsts stack.now)) }
{
    can_take(stack, Class::Not) || can_take(stack, Class::Equivalence)
}

fn argument_ends(stack: &Stack<Symbol>) -> bool
    ensures { result ≡ outside.argument_ends (λ c. member c (firsts stack.now)) }
{
    in_expression(stack) && can_take(stack, Class::Comma) && can_take(stack, Class::Close)
}

fn is_second_colon(stack: &Stack<Symbol>, class: Class) -> bool
    ensures { result ≡ outside.is_second_colon (λ c. member c (firsts stack.now)) class }
{
    class.is(Class::Colon) && argument_ends(stack) && !can_take(stack, Class::Colon)
}

fn is_double_colon(stack: &Stack<Symbol>, class: Class) -> bool
    ensures { result ≡ outside.is_double_colon (λ c. member c (firsts stack.now)) class }
{
    class.is(Class::DoubleColon)
        && ((in_expression(stack) && can_take(stack, Class::Colon)) || argument_ends(stack))
}

fn is_keyword(stack: &Stack<Symbol>, class: Class, behind: &[Token]) -> bool
    ensures { result ≡ outside.is_keyword (λ c. member c (firsts stack.now)) class behind.now }
{
    class.is(Class::Name)
        && follows(Class::Equals, behind)
        && can_take(stack, Class::Name)
        && can_take(stack, Class::Colon)
        && can_take(stack, Class::Not)
}

/// Whether the token is part of a section with a step, an argument's keyword, or the begin of an array's values.
fn is_section(stack: &Stack<Symbol>, class: Class, behind: &[Token]) -> bool
    ensures { result ≡ outside.is_section (λ c. member c (firsts stack.now)) class behind.now }
{
    is_second_colon(stack, class)
        || is_double_colon(stack, class)
        || is_keyword(stack, class, behind)
        || (class.is(Class::Open) && follows(Class::Slash, behind))
}

/// The least item of what this project doesn't take that the token is, behind the tokens `front` and before the tokens `behind`, where the symbols of the stack are
/// wanted.
pub fn item(
    mode: Mode,
    front: &[Token],
    stack: &Stack<Symbol>,
    token: &Token,
    behind: &[Token],
) -> Option<u8>
    ensures { result ≡ outside.item_of mode front.now (λ c. member c (firsts stack.now)) token.now behind.now }
{
    let class = class_of(token);
    let opening = opening_item(front, stack, token);
    let label = when(is_label(front, token, behind), 3);
    let alone = when(is_do_alone(front, token, behind), 4);
    let attribute = attribute_item(stack, token);
    let value = when(is_value(front, stack, token), 8);
    let renamed = when(is_renamed(front, token, behind), 9);
    let name = is_made_name(mode, token.text()) || is_reserved_word(stack, class);
    let section = when(is_section(stack, class, behind), 12);
    let names = lesser(renamed, lesser(when(name, 10), section));
    let declared = lesser(attribute, lesser(value, names));
    lesser(opening, lesser(label, lesser(alone, declared)))
}
