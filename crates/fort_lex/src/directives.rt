//! Directive and mark lines.
ghost use Rattle.std.specs.Prelude.{◌≡◌, ◌∷◌, OnOk, IfOk, map, [], IsTrue};
ghost use Rattle.fort_tree.specs.Token.{is_token};
ghost use Rattle.fort_tokens.specs.Reads.{word_of};
ghost use Rattle.fort_lex.specs.Rows.{word_of_sentinel};
ghost use Rattle.fort_lex.specs.Lines.{written};
ghost use Rattle.fort_lex.specs.Machine.{closed_directive, fed_directive, released, new_directives};
ghost use Rattle.fort_lex.specs.Shown.{shown_directives, shown_part};

use crate::faults::{earlier, token_fault};
use crate::part::Part;
use crate::sentinel::Sentinel;
use fort_tokens::{Char, Reader};
use fort_tree::{Fault, Line, Mode, NoMemory, Place, Seq, Token};
use std::alloc::Global;
use std::collections::VecDeque;

/// A directive or mark line that goes on.
#[derive(Clone, Copy, Debug)]
pub struct Unended {
    pub sentinel: Sentinel,
    /// The place of the sentinel.
    pub at: Place,
    /// The place of the last `&`.
    pub mark: Place,
}

/// The directive and mark lines so far, their first bad token, and what was read of the next one.
#[derive(Drop)]
pub struct Directives {
    pub reader: Reader,
    /// The last ones, while it isn't known whether they stand within a statement.
    pub waiting: Seq<Line>,
    pub lines: VecDeque<Line>,
    pub fault: Option<Fault>,
}

fn sentinel_token(alloc: Global, sentinel: Sentinel, at: Place) -> Result<Token, NoMemory>
    ensures { IfOk result (λ token. word_of token ≡ record { text = word_of_sentinel sentinel; at = at }) }
{
    let text = Vec::from_slice(alloc, sentinel.text())?;
    Ok(Token::new(Seq::from_vec(text), at))
}

fn with_sentinel(
    alloc: Global,
    sentinel: Sentinel,
    at: Place,
    tokens: Seq<Token>,
) -> Result<Seq<Token>, NoMemory>
    ensures { IfOk result (λ all. map word_of all ≡ record { text = word_of_sentinel sentinel; at = at } ∷ map word_of tokens) }
{
    let mut all = Vec::new(alloc);
    all.push(sentinel_token(alloc, sentinel, at)?)?;
    let mut tokens = tokens.into_vec();
    all.append(&mut tokens)?;
    Ok(Seq::from_vec(all))
}

impl Directives {
    /// Before a text. It takes no memory.
    pub fn new(alloc: Global) -> Directives
        ensures { shown_directives result ≡ new_directives }
    {
        Directives {
            reader: Reader::new(alloc),
            waiting: Seq::new(alloc),
            lines: VecDeque::new(alloc),
            fault: None,
        }
    }

    /// Ends a directive or mark line.
    ///
    /// # Errors
    /// `NoMemory` only where memory was refused. Nothing is said of the lines then.
    pub fn close(
        &mut self,
        alloc: Global,
        mode: Mode,
        sentinel: Sentinel,
        at: Place,
        mark: Option<Place>,
    ) -> Result<(), NoMemory>
        ensures { OnOk result (shown_directives self.new ≡ closed_directive mode (shown_directives self.old) sentinel at mark) }
    {
        self.reader.finish(alloc)?;
        let reader = std::mem::replace(&mut self.reader, Reader::new(alloc));
        self.fault = earlier(self.fault, token_fault(reader.bad()));
        let tokens = with_sentinel(alloc, sentinel, at, reader.into_tokens())?;
        self.waiting.push(Line {
            at,
            mode,
            directive: true,
            unfinished: mark,
            within: false,
            tokens,
        })
    }

    /// Takes a line's text.
    ///
    /// # Errors
    /// `NoMemory` only where memory was refused. Nothing is said of the lines then.
    pub fn feed(&mut self, alloc: Global, part: Part<'_>) -> Result<(), NoMemory>
        ensures { OnOk result (shown_directives self.new ≡ fed_directive (shown_directives self.old) (shown_part part.entry).text) }
    {
        if let Some(at) = part.gap {
            self.reader.feed(alloc, Char { byte: b' ', at })?;
        }
        self.feed_all(alloc, part.text)
    }

    fn feed_all(&mut self, alloc: Global, text: &[Char]) -> Result<(), NoMemory>
        ensures { OnOk result (shown_directives self.new ≡ fed_directive (shown_directives self.old) text.now) }
    {
        for c in text {
            self.reader.feed(alloc, *c)?;
        }
        Ok(())
    }

    /// It is known whether the waiting lines stand within a statement.
    ///
    /// # Errors
    /// `NoMemory` only where memory was refused. Nothing is said of the lines then.
    pub fn release(&mut self, alloc: Global, within: bool) -> Result<(), NoMemory>
        ensures { OnOk result (shown_directives self.new ≡ released within (shown_directives self.old)) }
    {
        let waiting = std::mem::replace(&mut self.waiting, Seq::new(alloc));
        for line in waiting.into_vec() {
            self.lines.push_back(Line { within, ..line })?;
        }
        Ok(())
    }
}
