//! Words and names taken from the front of tokens.
ghost use Rattle.std.specs.Prelude.{◌≡◌, map, option_map};
ghost use Rattle.fort_tables.specs.Order.{texts};
ghost use Rattle.fort_tree.specs.Token.{is_one_of};
ghost use Rattle.claw_lines.specs.Words.{phrase as phrase_of, opening as opening_of, forms as all_forms, parts as parts_of, is_reserved as reserved_test, is_own as own_test, is_taken as taken_test};
ghost use Rattle.claw_lines.specs.Items.{is_text as text_test, name_item, free_item};
ghost use Rattle.claw_lines.specs.Steps.{after as behind, found};

use crate::part::{Part, forms, is_mark, opening, parts, phrase};
use fort_tables::{Table, intrinsics, keywords, refused};
use fort_tree::{DirectiveWord, Name, Token};

/// Whether the token is this word.
pub fn is_text(token: &Token, text: &[u8]) -> bool
    ensures { result ≡ text_test token.now text.now }
{
    token.text() == text
}

/// The tokens behind these words, or `None` where the tokens begin otherwise.
pub fn after<'a>(tokens: &'a [Token], texts: &[&[u8]]) -> Option<&'a [Token]>
    ensures { option_map (λ rest. rest.now) result ≡ behind (map (λ text. text.now) texts.now) tokens.now }
{
    match texts.split_first() {
        None => Some(tokens),
        Some((text, others)) => {
            let (first, rest) = tokens.split_first()?;
            if is_text(first, text) {
                after(rest, others)
            } else {
                None
            }
        }
    }
}

/// The form with whose words the tokens begin, and what stands behind them.
pub fn begun(tokens: &[Token]) -> Option<(DirectiveWord, &[Token])>
    ensures { option_map (λ front. (front.0, front.1.now)) result ≡ found phrase_of all_forms tokens.now }
{
    for word in forms() {
        if let Some(rest) = after(tokens, phrase(word)) {
            return Some((word, rest));
        }
    }
    None
}

/// The part of the form with whose words the tokens begin, and what stands behind them.
pub fn opened(word: DirectiveWord, tokens: &[Token]) -> Option<(Part, &[Token])>
    ensures { option_map (λ front. (front.0, front.1.now)) result ≡ found opening_of (parts_of word) tokens.now }
{
    for part in parts(word) {
        if let Some(rest) = after(tokens, opening(*part)) {
            return Some((*part, rest));
        }
    }
    None
}

fn holds<const N: usize>(table: &Table<N>, text: &[u8]) -> bool
    ensures { result ≡ is_one_of (texts table.now.words.now) text.now }
{
    table.find(text).is_some()
}

/// Whether the text is a word of a statement form, of a statement that is left out, or an intrinsic's name.
fn is_reserved(text: &[u8]) -> bool
    ensures { result ≡ reserved_test text.now }
{
    holds(&keywords(), text) || holds(&refused(), text) || holds(&intrinsics(), text)
}

/// Whether the text begins as the names do that the compiler makes.
fn is_own(text: &[u8]) -> bool
    ensures { result ≡ own_test text.now }
{
    text.starts_with(b"claw_")
}

/// Whether the form may not have the text as a name.
fn is_taken(word: DirectiveWord, text: &[u8]) -> bool
    ensures { result ≡ taken_test word text.now }
{
    is_reserved(text) || (!is_mark(word) && is_own(text))
}

/// The name that the token is.
fn name(token: &Token) -> Option<Name>
    ensures { result ≡ name_item token.now }
{
    Name::read(token.text())
}

/// The name that the token is, where the form may have it as a name.
pub fn free_name(word: DirectiveWord, token: &Token) -> Option<Name>
    ensures { result ≡ free_item word token.now }
{
    let name = name(token)?;
    if is_taken(word, name.text()) {
        return None;
    }
    Some(name)
}
