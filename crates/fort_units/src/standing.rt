//! Statements that may stand: their faults, and what they leave open.
ghost use Rattle.std.specs.Prelude.{◌≡◌, ◌++◌, [], OnOk};
ghost use Rattle.fort_units.specs.Opens as opens;
ghost use Rattle.fort_units.specs.Faults as faults;
ghost use Rattle.fort_units.specs.Passing as passing;

use crate::around::{Around, Construct, Listing, Part, Waiting};
use crate::least::Least;
use crate::opening::had_default;
use fort_stmt::{ActionSort, Sort};
use fort_tree::{DirectiveWord, EndWord, Mode, NoMemory, Place};
use std::alloc::Global;

impl Listing {
    /// Passes over the blocks that aren't closed in the list.
    pub fn drop_blocks(&mut self, least: &mut Least)
        ensures list { self.new ≡ record self.old { depth = opens.depth_around self.old.depth self.old.blocks; blocks = [] } }
        ensures noted { least.new.first ≡ passing.noted least.old.first (faults.unclosed self.old.blocks) }
    {
        while let Some(block) = self.blocks.pop() {
            least.note_misplaced(block.at);
            self.depth = block.depth;
        }
    }
}

/// Whether it is a mark, which stands in a made text alone.
pub fn is_mark(word: DirectiveWord) -> bool
    ensures { result ≡ faults.is_mark word }
{
    matches!(
        word,
        DirectiveWord::OpenMpLoop | DirectiveWord::OpenAccLoop | DirectiveWord::Routine
    )
}

/// The mark that waits for a DO.
fn mark_of(waiting: Option<Waiting>) -> Option<Place>
    ensures { result ≡ passing.mark_of waiting }
{
    match waiting {
        None => None,
        Some(waiting) => {
            if is_mark(waiting.word) {
                Some(waiting.at)
            } else {
                None
            }
        }
    }
}

impl Around {
    #[tactic(auto, using(crate::proofs::Noting::noted_append, crate::proofs::Endings::ended_anyway))]
    fn end(&mut self, alloc: Global, least: &mut Least)
        ensures around { self.new ≡ opens.ended self.old.unit self.old }
        ensures noted { least.new.first ≡ passing.noted least.old.first (faults.unclosed self.old.list.blocks ++ faults.alone self.old) }
    {
        self.list.drop_blocks(least);
        least.note_alone(self.define, self.parallelize);
        self.leave(alloc);
    }

    fn head_line(&mut self, alloc: Global, part: Part, least: &mut Least)
        ensures around { self.new ≡ opens.in_part part self.old }
        ensures noted { least.new.first ≡ passing.noted least.old.first (faults.misplaced_if self.old.head_end) }
    {
        least.note_misplaced_if(self.head_end);
        self.go_on_in(alloc, part);
    }

    #[tactic(auto, using(crate::proofs::Noting::noted_append))]
    fn act(&mut self, action: ActionSort, least: &mut Least)
        ensures around { self.new ≡ opens.in_statements self.old }
        ensures noted { least.new.first ≡ passing.noted least.old.first (faults.action_faults action self.old.list ++ faults.alone self.old) }
    {
        least.note_action(action, &self.list);
        least.note_alone(self.define, self.parallelize);
        self.end_head();
    }

    #[tactic(auto, using(crate::proofs::Noting::noted_append))]
    fn act_if(&mut self, mode: Mode, at: Place, action: ActionSort, least: &mut Least)
        ensures around { self.new ≡ opens.in_statements self.old }
        ensures noted { least.new.first ≡ passing.noted least.old.first ((faults.action_faults action self.old.list ++ faults.deep_at mode at self.old) ++ faults.alone self.old) }
    {
        least.note_action(action, &self.list);
        least.note_deep(mode, at, self.list.depth);
        least.note_alone(self.define, self.parallelize);
        self.end_head();
    }

    /// Notes the faults of a statement that begins a construct.
    #[tactic(auto, using(crate::proofs::Noting::noted_append))]
    fn note_begin(&self, mode: Mode, at: Place, least: &mut Least)
        ensures { least.new.first ≡ passing.noted least.old.first (faults.deep_at mode at self.now ++ faults.alone self.now) }
    {
        least.note_deep(mode, at, self.list.depth);
        least.note_alone(self.define, self.parallelize);
    }

    /// Goes on with the construct of the innermost list.
    fn divide(&mut self, construct: Construct, least: &mut Least)
        ensures around { self.new ≡ opens.put_next construct self.old }
        ensures noted { least.new.first ≡ passing.noted least.old.first (faults.unclosed self.old.list.blocks) }
    {
        self.list.drop_blocks(least);
        self.list.construct = Some(construct);
    }

    fn close(&mut self, alloc: Global, least: &mut Least)
        ensures around { self.new ≡ opens.taken_out self.old }
        ensures noted { least.new.first ≡ passing.noted least.old.first (faults.unclosed self.old.list.blocks) }
    {
        self.list.drop_blocks(least);
        self.end_construct(alloc);
    }

    /// Goes on behind a statement that may stand here, and notes its faults, and those of what it ends or leaves alone.
    ///
    /// # Errors
    /// `NoMemory` only where memory was refused.
    pub fn stand(
        &mut self,
        alloc: Global,
        mode: Mode,
        at: Place,
        sort: &Sort,
        least: &mut Least,
    ) -> Result<(), NoMemory>
        ensures around { OnOk result (self.new ≡ passing.behind_sort self.old sort.now) }
        ensures noted { OnOk result (least.new.first ≡ passing.noted least.old.first (faults.statement_faults mode self.old at sort.now)) }
    {
        match sort {
            Sort::Module(name) => {
                self.host = Some(*name);
                self.part = Part::Uses;
                Ok(())
            }
            Sort::Contains => {
                self.part = Part::Body;
                Ok(())
            }
            Sort::End(_, _) => {
                self.end(alloc, least);
                Ok(())
            }
            Sort::Subroutine(name) => {
                self.enter_unit(alloc, EndWord::Subroutine, *name);
                Ok(())
            }
            Sort::Function(name) => {
                self.enter_unit(alloc, EndWord::Function, *name);
                Ok(())
            }
            Sort::Use => {
                self.head_line(alloc, Part::Uses, least);
                Ok(())
            }
            Sort::ImplicitNone => {
                self.head_line(alloc, Part::Declarations, least);
                Ok(())
            }
            Sort::Declare => {
                self.head_line(alloc, Part::Declarations, least);
                Ok(())
            }
            Sort::Act(action) => {
                self.act(*action, least);
                Ok(())
            }
            Sort::IfAct(action) => {
                self.act_if(mode, at, *action, least);
                Ok(())
            }
            Sort::IfThen => {
                self.note_begin(mode, at, least);
                self.begin(alloc, Construct::If)
            }
            Sort::Do => {
                self.note_begin(mode, at, least);
                self.begin_do(alloc, mark_of(self.waiting))
            }
            Sort::Select => {
                self.note_begin(mode, at, least);
                self.begin(alloc, Construct::Select)
            }
            Sort::ElseIf => {
                self.divide(Construct::If, least);
                Ok(())
            }
            Sort::Else => {
                self.divide(Construct::Else, least);
                Ok(())
            }
            Sort::Case => {
                let default = had_default(self.list.construct);
                self.divide(Construct::Case { default }, least);
                Ok(())
            }
            Sort::CaseDefault => {
                self.divide(Construct::Case { default: true }, least);
                Ok(())
            }
            Sort::EndIf => {
                self.close(alloc, least);
                Ok(())
            }
            Sort::EndDo => {
                self.close(alloc, least);
                Ok(())
            }
            Sort::EndSelect => {
                self.close(alloc, least);
                Ok(())
            }
        }
    }
}
