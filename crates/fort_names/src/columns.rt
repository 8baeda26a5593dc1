//! Column dummies.
ghost use Rattle.std.specs.Prelude.{◌≡◌, map, is_some, IsSome, not};
ghost use Rattle.std.specs.Option.{option_copied, option_map};
ghost use Rattle.claw_meaning.specs.Plain.{plain_unit, plain_directive, plain_decl, plain_bound};
ghost use Rattle.claw_meaning.specs.Scope.{decl_named};
ghost use Rattle.claw_meaning.specs.Units as units;

use fort_tree::{Bound, Decl, Directive, DirectiveWord, Intent, Name, Named, Unit};

fn has_define(marks: &[Directive]) -> bool
    ensures { result ≡ is_some (units.directive_of units.is_word_define (map plain_directive marks.now)) }
{
    for mark in marks {
        if matches!(mark.word, DirectiveWord::Define) {
            return true;
        }
    }
    false
}

/// The names of the first `parallelize`, or `None` where there is none.
fn parallelized(marks: &[Directive]) -> Option<&[Name]>
    ensures { option_copied result ≡ option_map (λ d. d.names) (units.directive_of units.is_word_parallelize (map plain_directive marks.now)) }
{
    for mark in marks {
        if matches!(mark.word, DirectiveWord::Parallelize) {
            return Some(mark.names.items());
        }
    }
    None
}

/// Whether one of these has the name.
pub fn is_named(named: &[Named], name: &Name) -> bool
    ensures { result ≡ units.is_listed (map (λ d. d.name) named.now) name.now }
{
    named.iter().map(|one| one.name).any(|other| other == *name)
}

fn is_among(names: &[Name], name: &Name) -> bool
    ensures { result ≡ units.is_listed names.now name.now }
{
    names.iter().any(|other| *other == *name)
}

/// Whether the first declaration of the name is that of an INTENT(IN) scalar.
fn is_scalar_in(decls: &[Decl], name: &Name) -> bool
    ensures { result ≡ units.is_scalar_in (decl_named (map plain_decl decls.now) name.now) }
{
    for decl in decls {
        if decl.name == *name {
            return declares_scalar_in(decl);
        }
    }
    false
}

/// Whether it declares an INTENT(IN) scalar.
pub fn declares_scalar_in(decl: &Decl) -> bool
    ensures { result ≡ units.is_scalar_in (Some (plain_decl decl.now)) }
{
    is_in(&decl.intent) && !has_dimensions(decl.shape.items())
}

/// Whether a shape has a dimension.
pub fn has_dimensions(shape: &[Bound]) -> bool
    ensures { result ≡ units.has_dimensions (map plain_bound shape.now) }
{
    match shape {
        [] => false,
        _ => true,
    }
}

/// Whether it is INTENT(IN).
pub fn is_in(intent: &Option<Intent>) -> bool
    ensures { result ≡ units.is_intent_in intent.now }
{
    match intent {
        Some(Intent::In) => true,
        _ => false,
    }
}

/// Whether the name is a dummy of a column unit that has a value for each column: one that `data` lists, or without `data` one that is no INTENT(IN) scalar.
pub fn is_column_dummy(unit: &Unit, name: &Name) -> bool
    ensures { result ≡ units.is_column_dummy (plain_unit unit.now) name.now }
{
    if !has_define(unit.marks.items()) {
        return false;
    }
    match parallelized(unit.marks.items()) {
        None => false,
        Some(names) => { is_named(unit.dummies.items(), name) && is_column_of(names, unit, name) }
    }
}

fn is_column_of(names: &[Name], unit: &Unit, name: &Name) -> bool
    ensures { result ≡ units.is_column_of names.now (plain_unit unit.now) name.now }
{
    if names.is_empty() {
        !is_scalar_in(unit.decls.items(), name)
    } else {
        is_among(names, name)
    }
}
