//! Shared dummies.
ghost use Rattle.std.specs.Prelude.{◌≡◌};
ghost use Rattle.claw_meaning.specs.Plain.{plain_decl, plain_unit};
ghost use Rattle.claw_meaning.specs.Units as units;
ghost use Rattle.sound_programs.specs.Scopes as scopes;
ghost use Rattle.column_rules.specs.Rules as rules;

use fort_names::{is_column_dummy, is_named};
use fort_tree::{Decl, Intent, Name, Unit};

/// Whether the name stands in the unit's header.
pub fn is_dummy(unit: &Unit, name: &Name) -> bool
    ensures { result ≡ units.is_listed (plain_unit unit.now).dummies name.now }
{
    is_named(unit.dummies.items(), name)
}

/// Whether it is a dummy, and no column dummy.
pub fn is_shared(unit: &Unit, name: &Name) -> bool
    ensures { result ≡ rules.is_shared (plain_unit unit.now) name.now }
{
    is_dummy(unit, name) && !is_column_dummy(unit, name)
}

fn is_written(intent: Option<Intent>) -> bool
    ensures { result ≡ scopes.is_written_intent intent }
{
    match intent {
        Some(Intent::Out) | Some(Intent::InOut) => true,
        Some(Intent::In) | None => false,
    }
}

fn writes_shared(unit: &Unit, decl: &Decl) -> bool
    ensures { result ≡ rules.writes_shared (plain_unit unit.now) (plain_decl decl.now) }
{
    is_written(decl.intent) && is_shared(unit, &decl.name)
}

/// Whether no shared dummy is OUT or INOUT.
pub fn only_reads_shared(unit: &Unit) -> bool
    ensures { result ≡ rules.only_reads_shared (plain_unit unit.now) }
{
    for decl in unit.decls.items() {
        if writes_shared(unit, decl) {
            return false;
        }
    }
    true
}
