//! Lists in parentheses.
ghost use Rattle.std.specs.Prelude.{◌≡◌, ◌<◌, ◌∷◌, [], Some, None, IfOk, IfSome, IsErrOf, option_map, length};
ghost use Rattle.claw_lines.specs.Items.{free_item, position_item};
ghost use Rattle.claw_lines.specs.Steps.{marked as marked_front, listed_from};

use crate::taking::{free_name, is_text};
use crate::unread::Unread;
use fort_tree::{DirectiveWord, Name, Seq, Token};
use std::alloc::Global;

/// The token in front, whether a `)` or a comma stands behind it, and what stands behind that.
fn marked(tokens: &[Token]) -> Option<(&Token, bool, &[Token])>
    ensures value { option_map (λ front. (front.0.now, front.1, front.2.now)) result ≡ marked_front tokens.now }
    ensures shorter { IfSome result (λ front. length front.2.now < length tokens.now) }
{
    let (token, others) = tokens.split_first()?;
    let (mark, rest) = others.split_first()?;
    if is_text(mark, b")") {
        Some((token, true, rest))
    } else if is_text(mark, b",") {
        Some((token, false, rest))
    } else {
        None
    }
}

/// The names up to a `)`, one or more with commas between, and the tokens behind it.
#[tactic(auto, using(crate::proofs::Listing::listed_last, crate::proofs::Listing::listed_more, crate::proofs::Listing::listed_unmarked, crate::proofs::Listing::listed_no_item))]
pub fn names<'a>(
    alloc: Global,
    word: DirectiveWord,
    tokens: &'a [Token],
) -> Result<(Seq<Name>, &'a [Token]), Unread>
    ensures some { IfOk result (λ read. listed_from (free_item word) [] tokens.now ≡ Some (read.0, read.1.now)) }
    ensures none { IsErrOf result Unread.NoForm → listed_from (free_item word) [] tokens.now ≡ None }
{
    let mut names = Seq::new(alloc);
    let mut left = tokens;
    loop {
        let Some((token, last, rest)) = marked(left) else {
            return Err(Unread::NoForm);
        };
        let Some(name) = free_name(word, token) else {
            return Err(Unread::NoForm);
        };
        names.push(name)?;
        if last {
            return Ok((names, rest));
        }
        left = rest;
    }
}

/// A name, or a colon as `None`.
fn position(word: DirectiveWord, token: &Token) -> Option<Option<Name>>
    ensures { result ≡ position_item word token.now }
{
    if is_text(token, b":") {
        return Some(None);
    }
    let name = free_name(word, token)?;
    Some(Some(name))
}

/// The names and colons up to a `)`, one or more with commas between, and the tokens behind it.
#[tactic(auto, using(crate::proofs::Listing::listed_last, crate::proofs::Listing::listed_more, crate::proofs::Listing::listed_unmarked, crate::proofs::Listing::listed_no_item))]
pub fn positions<'a>(
    alloc: Global,
    word: DirectiveWord,
    tokens: &'a [Token],
) -> Result<(Seq<Option<Name>>, &'a [Token]), Unread>
    ensures some { IfOk result (λ read. listed_from (position_item word) [] tokens.now ≡ Some (read.0, read.1.now)) }
    ensures none { IsErrOf result Unread.NoForm → listed_from (position_item word) [] tokens.now ≡ None }
{
    let mut positions = Seq::new(alloc);
    let mut left = tokens;
    loop {
        let Some((token, last, rest)) = marked(left) else {
            return Err(Unread::NoForm);
        };
        let Some(position) = position(word, token) else {
            return Err(Unread::NoForm);
        };
        positions.push(position)?;
        if last {
            return Ok((positions, rest));
        }
        left = rest;
    }
}
