//! The way over the lines of a text.
ghost use Rattle.std.specs.Prelude.{◌≡◌, ◌≤◌, ◌+◌, ◌<◌, ◌^◌, OnOk, IfOk, None, length};
ghost use Rattle.fort_lex.specs.Rows.{statement, directive, row_as};
ghost use Rattle.fort_lex.specs.Machine.{new_pass, row_taken, line_taken, text_ended, gone_over, first_fault as first_fault_of, left, begun};
ghost use Rattle.fort_lex.specs.Shown.{shown_pass, shown_statements, shown_directives, shown_part};

use crate::bytes::{code, note_bad_bytes, note_length, placed, without_return};
use crate::directives::{Directives, Unended};
use crate::faults::earlier;
use crate::part::{Part, all_blank, continued, mark_off, next_part};
use crate::sentinel::{Sentinel, indent, sentinel_of, text_start};
use crate::statements::Statements;
use fort_tokens::Char;
use fort_tree::{Fault, Mode, NoMemory, Place};
use std::alloc::Global;

/// What was read of a text.
#[derive(Drop)]
pub struct Pass {
    /// The `&` after which a statement goes on.
    pub after: Option<Place>,
    /// The directive or mark line that goes on.
    pub unended: Option<Unended>,
    pub statements: Statements,
    pub directives: Directives,
    /// The first fault of bytes.
    pub fault: Option<Fault>,
}

impl Pass {
    fn new(alloc: Global) -> Pass
        ensures { shown_pass result ≡ new_pass }
    {
        Pass {
            after: None,
            unended: None,
            statements: Statements::new(alloc),
            directives: Directives::new(alloc),
            fault: None,
        }
    }

    /// The directive or mark line that goes on isn't continued.
    fn leave(&mut self, alloc: Global, mode: Mode) -> Result<(), NoMemory>
        ensures { OnOk result (shown_pass self.new ≡ record { after = self.old.after; unended = None; statements = shown_statements self.old.statements; directives = left mode self.old.unended (shown_directives self.old.directives); fault = self.old.fault }) }
    {
        if let Some(unended) = self.unended {
            self.unended = None;
            self.directives.close(
                alloc,
                mode,
                unended.sentinel,
                unended.at,
                Some(unended.mark),
            )?;
        }
        Ok(())
    }

    fn take_statement(&mut self, alloc: Global, mode: Mode, line: &[Char]) -> Result<(), NoMemory>
        ensures { OnOk result (shown_pass self.new ≡ row_taken mode (shown_pass self.old) (statement line.now)) }
    {
        self.leave(alloc, mode)?;
        if !all_blank(line) {
            self.directives.release(alloc, self.after.is_some())?;
        }
        let part = next_part(self.after, line);
        self.after = part.mark;
        self.statements.take(alloc, mode, part)
    }

    /// Takes what a line gives to the directive or mark line that began at a place.
    fn go_on(
        &mut self,
        alloc: Global,
        mode: Mode,
        sentinel: Sentinel,
        at: Place,
        part: Part<'_>,
    ) -> Result<(), NoMemory>
        ensures { OnOk result (shown_pass self.new ≡ record { after = self.old.after; unended = (begun mode sentinel at (shown_part part.entry) (shown_directives self.old.directives)).unended; statements = shown_statements self.old.statements; directives = (begun mode sentinel at (shown_part part.entry) (shown_directives self.old.directives)).directives; fault = self.old.fault }) }
    {
        self.directives.feed(alloc, part)?;
        match part.mark {
            None => {
                self.unended = None;
                self.directives.close(alloc, mode, sentinel, at, None)?;
            }
            Some(mark) => self.unended = Some(Unended { sentinel, at, mark }),
        }
        Ok(())
    }

    fn take_directive(
        &mut self,
        alloc: Global,
        mode: Mode,
        sentinel: Sentinel,
        at: Place,
        line: &[Char],
    ) -> Result<(), NoMemory>
        ensures { OnOk result (shown_pass self.new ≡ row_taken mode (shown_pass self.old) (directive sentinel at line.now)) }
    {
        if let Some(unended) = self.unended {
            if unended.sentinel.is(sentinel) {
                return self.go_on(alloc, mode, unended.sentinel, unended.at, continued(line));
            }
        }
        self.leave(alloc, mode)?;
        self.go_on(alloc, mode, sentinel, at, mark_off(line))
    }

    /// Takes a line's characters without its comment, which stand behind a sentinel at a place if it has one.
    fn take_row(
        &mut self,
        alloc: Global,
        mode: Mode,
        sentinel: Option<Sentinel>,
        at: Place,
        text: &[Char],
    ) -> Result<(), NoMemory>
        ensures { OnOk result (shown_pass self.new ≡ row_taken mode (shown_pass self.old) (row_as sentinel at text.now)) }
    {
        match sentinel {
            None => self.take_statement(alloc, mode, text),
            Some(sentinel) => self.take_directive(alloc, mode, sentinel, at, text),
        }
    }

    fn take_line(
        &mut self,
        alloc: Global,
        file: u32,
        mode: Mode,
        number: u32,
        line: &[u8],
    ) -> Result<(), NoMemory>
        requires { length line.now ≤ 16777216 }
        ensures { OnOk result (shown_pass self.new ≡ line_taken file mode number (shown_pass self.old) line.now) }
    {
        let code = code(line);
        let start = text_start(line);
        let fault = note_bad_bytes(self.fault, file, number, code);
        self.fault = note_length(fault, file, number, code);
        let text = placed(alloc, file, number, start as u32, &code[start..])?;
        let at = Place {
            file,
            line: number,
            column: indent(line) as u32 + 1,
        };
        self.take_row(alloc, mode, sentinel_of(line), at, text.items())
    }

    fn end(&mut self, alloc: Global, mode: Mode) -> Result<(), NoMemory>
        ensures { OnOk result (shown_pass self.new ≡ text_ended mode (shown_pass self.old)) }
    {
        self.leave(alloc, mode)?;
        self.directives.release(alloc, false)?;
        if self.after.is_some() {
            self.statements.close(alloc, mode, self.after)?;
            self.after = None;
        }
        Ok(())
    }

    /// The first fault of the text.
    pub fn first_fault(&self) -> Option<Fault>
        ensures { result ≡ first_fault_of (shown_pass self.now) }
    {
        earlier(
            earlier(self.fault, self.statements.fault),
            self.directives.fault,
        )
    }
}

/// Goes over a text.
///
/// # Errors
/// `NoMemory` only where memory was refused.
pub fn go_over(alloc: Global, file: u32, mode: Mode, text: &[u8]) -> Result<Pass, NoMemory>
    requires { length text.now ≤ 16777216 }
    ensures { IfOk result (λ pass. shown_pass pass ≡ gone_over file mode text.now) }
{
    let mut pass = Pass::new(alloc);
    let mut start = 0;
    let mut number = 1;
    for (i, byte) in text.iter().enumerate() {
        if *byte == b'\n' {
            pass.take_line(alloc, file, mode, number, without_return(&text[start..i]))?;
            start = i + 1;
            number += 1;
        }
    }
    pass.take_line(alloc, file, mode, number, &text[start..])?;
    pass.end(alloc, mode)?;
    Ok(pass)
}
