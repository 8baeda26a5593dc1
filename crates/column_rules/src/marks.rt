//! The directives of a column unit.
ghost use Rattle.std.specs.Prelude.{◌≡◌, map};
ghost use Rattle.std.specs.Option.{option_copied, option_map};
ghost use Rattle.claw_meaning.specs.Plain.{plain_directive, plain_unit};
ghost use Rattle.claw_meaning.specs.Units as units;
ghost use Rattle.column_rules.specs.Rules as rules;

use fort_tree::{Directive, DirectiveWord, Name, Unit};

/// The first `define`.
pub fn define_of(marks: &[Directive]) -> Option<&Directive>
    ensures { option_map plain_directive (option_copied result) ≡ units.directive_of units.is_word_define (map plain_directive marks.now) }
{
    for mark in marks {
        if matches!(mark.word, DirectiveWord::Define) {
            return Some(mark);
        }
    }
    None
}

/// The first `parallelize`.
pub fn parallelize_of(marks: &[Directive]) -> Option<&Directive>
    ensures { option_map plain_directive (option_copied result) ≡ units.directive_of units.is_word_parallelize (map plain_directive marks.now) }
{
    for mark in marks {
        if matches!(mark.word, DirectiveWord::Parallelize) {
            return Some(mark);
        }
    }
    None
}

fn first_of(names: &[Name]) -> Option<Name>
    ensures { result ≡ rules.first_of names.now }
{
    match names {
        [] => None,
        [name, ..] => Some(*name),
    }
}

/// The name of the dimension.
pub fn dimension(unit: &Unit) -> Option<Name>
    ensures { result ≡ rules.dimension (plain_unit unit.now) }
{
    match define_of(unit.marks.items()) {
        None => None,
        Some(define) => first_of(define.names.items()),
    }
}
