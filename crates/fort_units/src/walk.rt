//! The lines of all files, one after the other.
ghost use Rattle.std.specs.Prelude.{◌≡◌, ◌++◌, ◌∷◌, [], if◌then◌else◌, OnOk, IfOk};
ghost use Rattle.fort_units.specs.Faults as faults;
ghost use Rattle.fort_units.specs.Passing as passing;

use crate::around::Around;
use crate::item::Item;
use crate::least::Least;
use crate::standing::is_mark;
use fort_stmt::Sort;
use fort_tree::{Code, Fault, Mode, NoMemory, Place};
use std::alloc::Global;

/// Whether directive lines, or mark lines, may stand in such a text.
fn is_of_mode(mode: Mode, mark: bool) -> bool
    ensures { result ≡ faults.is_of_mode mode mark }
{
    match mode {
        Mode::Source => !mark,
        Mode::Target => mark,
    }
}

impl Least {
    /// Notes a line of another mode, or one that stands in a continued statement.
    fn note_line(&mut self, mode: Mode, at: Place, mark: bool, within: bool)
        ensures { self.new.first ≡ passing.noted self.old.first (faults.line_faults mode at mark within) }
    {
        if !is_of_mode(mode, mark) {
            self.note(Fault::outside_profile(at, 11));
            return;
        }
        if within {
            self.note_misplaced(at);
        }
    }
}

impl Around {
    #[tactic(auto, using(crate::proofs::Noting::noted_append))]
    fn state(
        &mut self,
        alloc: Global,
        mode: Mode,
        at: Place,
        sort: &Sort,
        least: &mut Least,
    ) -> Result<(), NoMemory>
        ensures around { OnOk result (self.new ≡ passing.behind_statement self.old at sort.now) }
        ensures noted { OnOk result (least.new.first ≡ passing.noted least.old.first (faults.at_statement mode self.old at sort.now)) }
    {
        if !self.may_stand(sort) {
            least.note(Fault::new(Code::E11, at));
            self.line = at.line;
            return Ok(());
        }
        least.note_unmet(self.waiting, sort);
        self.stand(alloc, mode, at, sort, least)?;
        self.waiting = None;
        self.line = at.line;
        Ok(())
    }

    /// Goes on behind a line of the file, and notes the faults that come with it.
    ///
    /// # Errors
    /// `NoMemory` only where memory was refused.
    fn pass(
        &mut self,
        alloc: Global,
        mode: Mode,
        item: &Item,
        least: &mut Least,
    ) -> Result<(), NoMemory>
        ensures around { OnOk result (self.new ≡ passing.behind mode self.old item.now) }
        ensures noted { OnOk result (least.new.first ≡ passing.noted least.old.first (faults.at_item mode self.old item.now)) }
    {
        match item {
            Item::Statement(at, sort) => self.state(alloc, mode, *at, sort, least),
            Item::Absent(at) => {
                self.line = at.line;
                Ok(())
            }
            Item::Directive { at, within, word } => {
                if is_of_mode(mode, is_mark(*word)) && !*within {
                    self.direct(alloc, mode, *at, *word, least)
                } else {
                    least.note_line(mode, *at, is_mark(*word), *within);
                    Ok(())
                }
            }
            Item::Unread { at, within, mark } => {
                least.note_line(mode, *at, *mark, *within);
                Ok(())
            }
        }
    }

    /// Notes the blocks that are open in any list.
    #[tactic(auto, using(crate::proofs::Noting::noted_append))]
    fn note_blocks(&mut self, least: &mut Least)
        ensures around { self.new.define ≡ self.old.define }
        ensures beside { self.new.parallelize ≡ self.old.parallelize }
        ensures noted { least.new.first ≡ passing.noted least.old.first (faults.unclosed self.old.list.blocks ++ faults.all_unclosed self.old.outside) }
    {
        self.list.drop_blocks(least);
        while let Some(list) = self.outside.pop() {
            self.list = list;
            self.list.drop_blocks(least);
        }
    }

    /// Notes what the end of the file leaves at fault.
    #[tactic(auto, using(crate::proofs::Noting::noted_append))]
    fn end_file(&mut self, least: &mut Least)
        ensures { least.new.first ≡ passing.noted least.old.first (faults.at_file_end self.old) }
    {
        least.note_cut(self.waiting);
        self.note_unended(least);
        self.note_blocks(least);
        least.note_alone(self.define, self.parallelize);
    }

    /// Notes a file that ends inside a unit or a module.
    fn note_unended(&self, least: &mut Least)
        ensures { least.new.first ≡ passing.noted least.old.first (faults.unended self.now) }
    {
        if self.unit.is_some() || self.host.is_some() {
            let last_line = Place {
                file: self.file,
                line: self.line,
                column: 1,
            };
            least.note(Fault::new(Code::E11, last_line));
        }
    }

    /// Goes on in this file. Where that is another one, the one before is over.
    fn enter_file(&mut self, alloc: Global, file: u32, least: &mut Least)
        ensures around { self.new ≡ passing.entered file self.old }
        ensures noted { least.new.first ≡ passing.noted least.old.first (passing.left_behind file self.old) }
    {
        if file == self.file {
            return;
        }
        self.end_file(least);
        *self = Around::top(alloc, file);
    }
}

/// Goes on behind a line, which may be the first of another file.
#[tactic(auto, using(crate::proofs::Noting::noted_append))]
fn pass_on(
    around: &mut Around,
    alloc: Global,
    mode: Mode,
    item: &Item,
    least: &mut Least,
) -> Result<(), NoMemory>
    ensures around { OnOk result (around.new ≡ passing.behind mode (passing.entered (passing.file_of item.now) around.old) item.now) }
    ensures noted { OnOk result (least.new.first ≡ passing.noted least.old.first (passing.left_behind (passing.file_of item.now) around.old ++ faults.at_item mode (passing.entered (passing.file_of item.now) around.old) item.now)) }
{
    around.enter_file(alloc, item.file(), least);
    around.pass(alloc, mode, item, least)
}

/// The first fault of nesting and of the places of directives in the lines of all files, or `None` exactly where there is none: E11, E41, E70 for the nesting
/// limits, and E20 with item 11 for a line of another mode. A fault is first by file, line and column, and at one place by its code. The places of directives and
/// the limits are this project's own; how statements nest is that of ISO/IEC 1539-1:2018 clauses 5, 11 and 14 and 15, cut down to this project's profile.
///
/// # Errors
/// `NoMemory` only where memory was refused.
pub fn nesting_fault(alloc: Global, mode: Mode, items: &[Item]) -> Result<Option<Fault>, NoMemory>
    ensures { IfOk result (λ first. passing.FirstOf first (passing.faults mode items.now)) }
{
    let mut around = Around::top(alloc, 0);
    let mut least = Least { first: None };
    for item in items {
        pass_on(&mut around, alloc, mode, item, &mut least)?;
    }
    around.end_file(&mut least);
    Ok(least.first)
}
