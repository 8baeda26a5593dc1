//! Statements.
ghost use Rattle.std.specs.Prelude.{◌≡◌, OnOk, map, option_to_list, []};
ghost use Rattle.fort_tokens.specs.Reads.{word_of};
ghost use Rattle.fort_lex.specs.Lines.{written, statement_line as line_of_statement};
ghost use Rattle.fort_lex.specs.Machine.{closed_statement, put as put_to, put_all as put_all_to, ended, new_statements};
ghost use Rattle.fort_lex.specs.Shown.{shown_statements, shown_part};

use crate::faults::{earlier, token_fault};
use crate::part::Part;
use fort_tokens::{Char, Reader};
use fort_tree::{Fault, Line, Mode, NoMemory, Place, Seq, Token};
use std::alloc::Global;

/// The statements so far, their first bad token, and what was read of the next statement.
#[derive(Drop)]
pub struct Statements {
    pub reader: Reader,
    pub lines: Seq<Line>,
    pub fault: Option<Fault>,
}

fn statement_line(mode: Mode, tokens: Seq<Token>, mark: Option<Place>) -> Option<Line>
    ensures { map written (option_to_list result) ≡ line_of_statement mode (map word_of tokens) mark }
{
    let at = tokens.items().first()?.at;
    Some(Line {
        at,
        mode,
        directive: false,
        unfinished: mark,
        within: false,
        tokens,
    })
}

impl Statements {
    /// Before a text. It takes no memory.
    pub fn new(alloc: Global) -> Statements
        ensures { shown_statements result ≡ new_statements }
    {
        Statements {
            reader: Reader::new(alloc),
            lines: Seq::new(alloc),
            fault: None,
        }
    }

    /// Ends a statement. It is dropped if it has no tokens.
    ///
    /// # Errors
    /// `NoMemory` only where memory was refused. Nothing is said of the statements then.
    pub fn close(&mut self, alloc: Global, mode: Mode, mark: Option<Place>) -> Result<(), NoMemory>
        ensures { OnOk result (shown_statements self.new ≡ closed_statement mode (shown_statements self.old) mark) }
    {
        self.reader.finish(alloc)?;
        let reader = std::mem::replace(&mut self.reader, Reader::new(alloc));
        self.fault = earlier(self.fault, token_fault(reader.bad()));
        if let Some(line) = statement_line(mode, reader.into_tokens(), mark) {
            self.lines.push(line)?;
        }
        Ok(())
    }

    fn put(&mut self, alloc: Global, mode: Mode, c: Char) -> Result<(), NoMemory>
        ensures { OnOk result (shown_statements self.new ≡ put_to mode (shown_statements self.old) c) }
    {
        if c.byte == b';' {
            self.close(alloc, mode, None)
        } else {
            self.reader.feed(alloc, c)
        }
    }

    fn put_all(&mut self, alloc: Global, mode: Mode, text: &[Char]) -> Result<(), NoMemory>
        ensures { OnOk result (shown_statements self.new ≡ put_all_to mode (shown_statements self.old) text.now) }
    {
        for c in text {
            self.put(alloc, mode, *c)?;
        }
        Ok(())
    }

    /// Takes what a line gives to a statement, which ends with the line unless it goes on after a mark.
    ///
    /// # Errors
    /// `NoMemory` only where memory was refused. Nothing is said of the statements then.
    pub fn take(&mut self, alloc: Global, mode: Mode, part: Part<'_>) -> Result<(), NoMemory>
        ensures { OnOk result (shown_statements self.new ≡ ended mode (shown_part part.entry).mark (put_all_to mode (shown_statements self.old) (shown_part part.entry).text)) }
    {
        if let Some(at) = part.gap {
            self.put(alloc, mode, Char { byte: b' ', at })?;
        }
        self.put_all(alloc, mode, part.text)?;
        if part.mark.is_none() {
            self.close(alloc, mode, None)?;
        }
        Ok(())
    }
}
