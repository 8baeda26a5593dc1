//! Column units.

ghost use Rattle.std.specs.Prelude.{◌≡◌, ◌&&◌};
ghost use Rattle.std.specs.List.{list_any};
ghost use Rattle.claw_meaning.specs.Plain.{plain_unit};
ghost use Rattle.claw_meaning.specs.Units.{is_column_unit as column_test, is_word_define, is_word_parallelize};

use fort_tree::{Directive, DirectiveWord, Unit};

/// Whether the unit is written for one column: it has `define dimension` and `parallelize`.
pub fn is_column_unit(unit: &Unit) -> bool
    ensures { result ≡ column_test (plain_unit unit.now) }
{
    has_both(unit)
}

fn has_both(unit: &Unit) -> bool
    ensures { result ≡ (list_any (λ d. is_word_define d.word) unit.now.marks && list_any (λ d. is_word_parallelize d.word) unit.now.marks) }
{
    defines(unit.marks.items()) && parallelizes(unit.marks.items())
}

fn defines(marks: &[Directive]) -> bool
    ensures { result ≡ list_any (λ d. is_word_define d.word) marks.now }
{
    marks.iter().any(|mark| is_define(mark.word))
}

fn parallelizes(marks: &[Directive]) -> bool
    ensures { result ≡ list_any (λ d. is_word_parallelize d.word) marks.now }
{
    marks.iter().any(|mark| is_parallelize(mark.word))
}

fn is_define(word: DirectiveWord) -> bool
    ensures { result ≡ is_word_define word }
{
    matches!(word, DirectiveWord::Define)
}

fn is_parallelize(word: DirectiveWord) -> bool
    ensures { result ≡ is_word_parallelize word }
{
    matches!(word, DirectiveWord::Parallelize)
}
