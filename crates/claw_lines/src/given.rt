//! What stands behind the words of a form.
ghost use Rattle.std.specs.Prelude.{◌≡◌, IfOk, IsErrOf, option_map};
ghost use Rattle.claw_lines.specs.Items.{free_item, count_item};
ghost use Rattle.claw_lines.specs.Forms.{Parts, nothing as nothing_given};
ghost use Rattle.claw_lines.specs.Steps.{single};

use crate::lists::{names, positions};
use crate::numbers::count;
use crate::part::Part;
use crate::taking::{free_name, is_text, opened};
use crate::unread::Unread;
use fort_tree::{DirectiveWord, Name, Seq, Token};
use std::alloc::Global;

/// What the parts of a form give. What isn't given is `None` or false.
#[derive(Debug, Drop)]
pub struct Given {
    pub names: Option<Seq<Name>>,
    /// The positions of `over`, where `None` is a colon.
    pub over: Option<Seq<Option<Name>>>,
    pub number: Option<u32>,
    pub group: Option<Name>,
    pub offset: bool,
    pub init: bool,
}

/// The name in front with a `)` behind it, and the tokens behind that.
fn single_name(word: DirectiveWord, tokens: &[Token]) -> Option<(Name, &[Token])>
    ensures { option_map (λ front. (front.0, front.1.now)) result ≡ single (free_item word) tokens.now }
{
    let (token, others) = tokens.split_first()?;
    let (close, rest) = others.split_first()?;
    if !is_text(close, b")") {
        return None;
    }
    let name = free_name(word, token)?;
    Some((name, rest))
}

/// The number in front with a `)` behind it, and the tokens behind that.
fn single_count(tokens: &[Token]) -> Option<(u32, &[Token])>
    ensures { option_map (λ front. (front.0, front.1.now)) result ≡ single count_item tokens.now }
{
    let (token, others) = tokens.split_first()?;
    let (close, rest) = others.split_first()?;
    if !is_text(close, b")") {
        return None;
    }
    let number = count(token)?;
    Some((number, rest))
}

impl Given {
    ghost use Rattle.std.specs.Prelude.{◌≡◌, Some, None, IfOk, IsErrOf, is_some};
    ghost use Rattle.claw_lines.specs.Items.{free_item, position_item, count_item};
    ghost use Rattle.claw_lines.specs.Forms.{nothing as nothing_given};
    ghost use Rattle.claw_lines.specs.Steps.{once, single, listed_from, with_over, with_group, with_number, take_names, take_part, next_part};

    /// Nothing.
    pub fn nothing() -> Given
        ensures { result ≡ nothing_given }
    {
        Given {
            names: None,
            over: None,
            number: None,
            group: None,
            offset: false,
            init: false,
        }
    }

    fn take_names<'a>(
        &mut self,
        alloc: Global,
        word: DirectiveWord,
        tokens: &'a [Token],
    ) -> Result<&'a [Token], Unread>
        ensures some { IfOk result (λ rest. take_names word self.old tokens.now ≡ Some (self.new, rest.now)) }
        ensures none { IsErrOf result Unread.NoForm → take_names word self.old tokens.now ≡ None }
    {
        if self.names.is_some() {
            return Err(Unread::NoForm);
        }
        let (names, rest) = names(alloc, word, tokens)?;
        self.names = Some(names);
        Ok(rest)
    }

    fn take_over<'a>(
        &mut self,
        alloc: Global,
        word: DirectiveWord,
        tokens: &'a [Token],
    ) -> Result<&'a [Token], Unread>
        ensures some { IfOk result (λ rest. take_part word self.old Part.Over tokens.now ≡ Some (self.new, rest.now)) }
        ensures none { IsErrOf result Unread.NoForm → take_part word self.old Part.Over tokens.now ≡ None }
    {
        if self.over.is_some() {
            return Err(Unread::NoForm);
        }
        let (positions, rest) = positions(alloc, word, tokens)?;
        self.over = Some(positions);
        Ok(rest)
    }

    fn take_group<'a>(
        &mut self,
        word: DirectiveWord,
        tokens: &'a [Token],
    ) -> Result<&'a [Token], Unread>
        ensures some { IfOk result (λ rest. take_part word self.old Part.Group tokens.now ≡ Some (self.new, rest.now)) }
        ensures none { IsErrOf result Unread.NoForm → take_part word self.old Part.Group tokens.now ≡ None }
    {
        if self.group.is_some() {
            return Err(Unread::NoForm);
        }
        let Some((name, rest)) = single_name(word, tokens) else {
            return Err(Unread::NoForm);
        };
        self.group = Some(name);
        Ok(rest)
    }

    fn take_collapse<'a>(
        &mut self,
        word: DirectiveWord,
        tokens: &'a [Token],
    ) -> Result<&'a [Token], Unread>
        ensures some { IfOk result (λ rest. take_part word self.old Part.Collapse tokens.now ≡ Some (self.new, rest.now)) }
        ensures none { IsErrOf result Unread.NoForm → take_part word self.old Part.Collapse tokens.now ≡ None }
    {
        if self.number.is_some() {
            return Err(Unread::NoForm);
        }
        let (number, rest) = single_count(tokens).ok_or(Unread::NoForm)?;
        self.number = Some(number);
        Ok(rest)
    }

    /// Takes the part, whose opening words stand before the tokens.
    fn take<'a>(
        &mut self,
        alloc: Global,
        word: DirectiveWord,
        part: Part,
        tokens: &'a [Token],
    ) -> Result<&'a [Token], Unread>
        ensures some { IfOk result (λ rest. take_part word self.old part tokens.now ≡ Some (self.new, rest.now)) }
        ensures none { IsErrOf result Unread.NoForm → take_part word self.old part tokens.now ≡ None }
    {
        match part {
            Part::List | Part::Data | Part::Private => self.take_names(alloc, word, tokens),
            Part::Over => self.take_over(alloc, word, tokens),
            Part::Group => self.take_group(word, tokens),
            Part::Collapse => self.take_collapse(word, tokens),
            Part::Offset => {
                if self.offset {
                    return Err(Unread::NoForm);
                }
                self.offset = true;
                Ok(tokens)
            }
            Part::Init => {
                if self.init {
                    return Err(Unread::NoForm);
                }
                self.init = true;
                Ok(tokens)
            }
        }
    }

    /// Takes the part with which the tokens begin.
    fn take_next<'a>(
        &mut self,
        alloc: Global,
        word: DirectiveWord,
        tokens: &'a [Token],
    ) -> Result<&'a [Token], Unread>
        ensures some { IfOk result (λ rest. next_part word self.old tokens.now ≡ Some (self.new, rest.now)) }
        ensures none { IsErrOf result Unread.NoForm → next_part word self.old tokens.now ≡ None }
    {
        let (part, rest) = opened(word, tokens).ok_or(Unread::NoForm)?;
        self.take(alloc, word, part, rest)
    }
}

/// What the tokens, all of them parts of the form, give.
pub fn all_parts(alloc: Global, word: DirectiveWord, tokens: &[Token]) -> Result<Given, Unread>
    ensures some { IfOk result (λ given. Parts word nothing_given tokens.now given) }
    ensures none { IsErrOf result Unread.NoForm → (given : Given) → Parts word nothing_given tokens.now given → ⊥ }
{
    let mut given = Given::nothing();
    let mut left = tokens;
    while !left.is_empty() {
        left = given.take_next(alloc, word, left)?;
    }
    Ok(given)
}
