//! Directives and marks that count: their faults, and what they leave open.
ghost use Rattle.std.specs.Prelude.{◌≡◌, ◌++◌, ◌∷◌, [], if◌then◌else◌, OnOk, is_some, IfOk, None};
ghost use Rattle.sound_programs.specs.Forms as forms;
ghost use Rattle.fort_units.specs.Faults as faults;
ghost use Rattle.fort_units.specs.Passing as passing;
ghost use Rattle.fort_units.specs.Opens as opens;

use crate::around::{Around, Block, Waiting};
use crate::judging::in_head;
use crate::least::Least;
use crate::opening::{deeper, or_else};
use fort_tree::{DirectiveWord, Mode, NoMemory, Place};
use std::alloc::Global;

/// Whether the block that begins so ends so.
fn ends_block(first: DirectiveWord, last: DirectiveWord) -> bool
    ensures { result ≡ forms.ends_block first last }
{
    match first {
        DirectiveWord::Hoist => matches!(last, DirectiveWord::EndHoist),
        DirectiveWord::Transform => matches!(last, DirectiveWord::EndTransform),
        _ => false,
    }
}

impl Around {
    /// Lets a directive wait for its DO or CALL. Where another one waits it is at fault.
    fn wait(&mut self, at: Place, word: DirectiveWord, least: &mut Least)
        ensures around { self.new ≡ record self.old { waiting = passing.waiting_first self.old.waiting (record { at = at; word = word }) } }
        ensures noted { least.new.first ≡ passing.noted least.old.first (if is_some self.old.waiting then faults.misplaced at ∷ [] else []) }
    {
        if self.waiting.is_some() {
            least.note_misplaced(at);
            return;
        }
        self.waiting = Some(Waiting { at, word });
    }

    /// Cuts off what waits.
    fn cut(&mut self, least: &mut Least)
        ensures around { self.new ≡ record self.old { waiting = None } }
        ensures noted { least.new.first ≡ passing.noted least.old.first (faults.cut_off self.old.waiting) }
    {
        least.note_cut(self.waiting);
        self.waiting = None;
    }

    #[tactic(auto, using(crate::proofs::Noting::noted_append))]
    fn define(&mut self, alloc: Global, at: Place, least: &mut Least)
        ensures around { self.new ≡ passing.behind_directive self.old at DirectiveWord.Define }
        ensures noted { least.new.first ≡ passing.noted least.old.first (faults.cut_off self.old.waiting ++ faults.head_faults self.old self.old.define at) }
    {
        self.cut(least);
        if !self.in_subroutine_head() {
            least.note_misplaced(at);
            return;
        }
        least.note_misplaced_if(self.head_end);
        least.note_twice(self.define, at);
        self.go_on_in(alloc, self.part);
        self.define = or_else(self.define, Some(at));
    }

    #[tactic(auto, using(crate::proofs::Noting::noted_append))]
    fn parallelize(&mut self, alloc: Global, at: Place, least: &mut Least)
        ensures around { self.new ≡ passing.behind_directive self.old at DirectiveWord.Parallelize }
        ensures noted { least.new.first ≡ passing.noted least.old.first (faults.cut_off self.old.waiting ++ faults.head_faults self.old self.old.parallelize at) }
    {
        self.cut(least);
        if !self.in_subroutine_head() {
            least.note_misplaced(at);
            return;
        }
        least.note_misplaced_if(self.head_end);
        least.note_twice(self.parallelize, at);
        self.go_on_in(alloc, self.part);
        self.parallelize = or_else(self.parallelize, Some(at));
    }

    /// No more of the head may stand behind this line, where it stands in the head.
    fn settle_head(&mut self, at: Place)
        ensures { self.new ≡ passing.with_head_end at self.old }
    {
        if in_head(self.part) {
            self.head_end = or_else(self.head_end, Some(at));
        }
    }

    fn push_block(&mut self, at: Place, word: DirectiveWord) -> Result<(), NoMemory>
        ensures { OnOk result (self.new ≡ passing.with_block at word self.old) }
    {
        self.settle_head(at);
        let depth = self.list.depth;
        self.list.depth = deeper(depth);
        self.list.blocks.push(Block { at, word, depth })
    }

    #[tactic(auto, using(crate::proofs::Noting::noted_append))]
    fn begin_block(
        &mut self,
        mode: Mode,
        at: Place,
        word: DirectiveWord,
        least: &mut Least,
    ) -> Result<(), NoMemory>
        ensures around { OnOk result (self.new ≡ record (if opens.list_open self.old then passing.with_block at word self.old else self.old) { waiting = None }) }
        ensures noted { OnOk result (least.new.first ≡ passing.noted least.old.first (faults.cut_off self.old.waiting ++ faults.block_faults mode self.old at)) }
    {
        self.cut(least);
        if !self.list_open() {
            least.note_misplaced(at);
            return Ok(());
        }
        least.note_deep(mode, at, self.list.depth);
        self.push_block(at, word)
    }

    /// Ends the innermost block where the line does, and says whether it does.
    fn pop_block(&mut self, word: DirectiveWord) -> Result<bool, NoMemory>
        ensures around { OnOk result (self.new ≡ (if faults.ends_innermost word self.old.list.blocks then passing.without_block self.old else self.old)) }
        ensures ends { IfOk result (λ ends. ends ≡ faults.ends_innermost word self.old.list.blocks) }
    {
        let Some(block) = self.list.blocks.pop() else {
            return Ok(false);
        };
        if ends_block(block.word, word) {
            self.list.depth = block.depth;
            return Ok(true);
        }
        self.list.blocks.push(block)?;
        Ok(false)
    }

    #[tactic(auto, using(crate::proofs::Noting::noted_append))]
    fn end_block(
        &mut self,
        at: Place,
        word: DirectiveWord,
        least: &mut Least,
    ) -> Result<(), NoMemory>
        ensures around { OnOk result (self.new ≡ record (if faults.ends_innermost word self.old.list.blocks then passing.without_block self.old else self.old) { waiting = None }) }
        ensures noted { OnOk result (least.new.first ≡ passing.noted least.old.first (faults.cut_off self.old.waiting ++ faults.end_faults word self.old.list.blocks at)) }
    {
        self.cut(least);
        if self.pop_block(word)? {
            return Ok(());
        }
        least.note_misplaced(at);
        Ok(())
    }

    #[tactic(auto, using(crate::proofs::Noting::noted_append))]
    fn routine(&mut self, at: Place, least: &mut Least)
        ensures around { self.new ≡ passing.behind_directive self.old at DirectiveWord.Routine }
        ensures noted { least.new.first ≡ passing.noted least.old.first (faults.cut_off self.old.waiting ++ faults.routine_faults self.old at) }
    {
        self.cut(least);
        if !self.in_unit_head() {
            least.note_misplaced(at);
            return;
        }
        least.note_twice(self.head_end, at);
        self.settle_head(at);
    }

    #[tactic(auto, using(crate::proofs::Noting::noted_append))]
    fn no_line(&mut self, at: Place, least: &mut Least)
        ensures around { self.new ≡ record self.old { waiting = None } }
        ensures noted { least.new.first ≡ passing.noted least.old.first (faults.cut_off self.old.waiting ++ faults.misplaced at ∷ []) }
    {
        self.cut(least);
        least.note_misplaced(at);
    }

    /// Goes on behind a directive or mark that counts, and notes its faults, and those of what it cuts off.
    ///
    /// # Errors
    /// `NoMemory` only where memory was refused.
    pub fn direct(
        &mut self,
        alloc: Global,
        mode: Mode,
        at: Place,
        word: DirectiveWord,
        least: &mut Least,
    ) -> Result<(), NoMemory>
        ensures around { OnOk result (self.new ≡ passing.behind_directive self.old at word) }
        ensures noted { OnOk result (least.new.first ≡ passing.noted least.old.first (faults.directive_faults mode self.old at word)) }
    {
        match word {
            DirectiveWord::Define => {
                self.define(alloc, at, least);
                Ok(())
            }
            DirectiveWord::Parallelize => {
                self.parallelize(alloc, at, least);
                Ok(())
            }
            DirectiveWord::Hoist => self.begin_block(mode, at, word, least),
            DirectiveWord::Transform => self.begin_block(mode, at, word, least),
            DirectiveWord::EndHoist => self.end_block(at, word, least),
            DirectiveWord::EndTransform => self.end_block(at, word, least),
            DirectiveWord::Routine => {
                self.routine(at, least);
                Ok(())
            }
            DirectiveWord::Column => {
                self.no_line(at, least);
                Ok(())
            }
            DirectiveWord::Forward => {
                self.wait(at, word, least);
                Ok(())
            }
            DirectiveWord::Fusion => {
                self.wait(at, word, least);
                Ok(())
            }
            DirectiveWord::Interchange => {
                self.wait(at, word, least);
                Ok(())
            }
            DirectiveWord::Cache => {
                self.wait(at, word, least);
                Ok(())
            }
            DirectiveWord::OpenMpLoop => {
                self.wait(at, word, least);
                Ok(())
            }
            DirectiveWord::OpenAccLoop => {
                self.wait(at, word, least);
                Ok(())
            }
        }
    }
}
