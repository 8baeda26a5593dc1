//! Dummies without INTENT, and INTENT on other names.
ghost use Rattle.std.specs.Prelude.{◌≡◌, [], MatchOption};
ghost use Rattle.fort_tree.specs.declared.fault.Code.TheVariants.{E3B};
ghost use Rattle.sound_programs.specs.Faults.{found, IsLeast};
ghost use Rattle.sound_programs.specs.DeclarationFaults.{intent_faults};
ghost use Rattle.sound_programs.specs.Placing.{placed};
ghost use Rattle.fort_names.specs.FoundAt.{found_of};
ghost use Rattle.fort_names.specs.Leasts.{noted, places_at, lacks_intent as lacks_test, has_intent as has_test, unit_intents, module_intents, of_units, of_modules};

use crate::columns::is_named;
use crate::least::{At, Least, is_earlier};
use fort_tree::{Code, Decl, File, Module, Named, Place, Unit};

fn lacks_intent(dummies: &[Named], header: Place, decl: &Decl) -> bool
    ensures { result ≡ lacks_test dummies.now header decl.now }
{
    is_named(dummies, &decl.name) && (decl.intent.is_none() && !is_earlier(decl.at, header))
}

fn has_intent(dummies: &[Named], decl: &Decl) -> bool
    ensures { result ≡ has_test dummies.now decl.now }
{
    decl.intent.is_some() && !is_named(dummies, &decl.name)
}

fn note_lacking(least: &mut Least, dummies: &[Named], header: Place, decls: &[Decl])
    ensures { least.new ≡ noted (found E3B (places_at (lacks_test dummies.now header) (λ d. d.at) decls.now)) least.old }
{
    for decl in decls {
        if lacks_intent(dummies, header, decl) {
            least.note(Code::E3B, decl.at);
        }
    }
}

fn note_other(least: &mut Least, dummies: &[Named], decls: &[Decl])
    ensures { least.new ≡ noted (found E3B (places_at (has_test dummies.now) (λ d. d.at) decls.now)) least.old }
{
    for decl in decls {
        if has_intent(dummies, decl) {
            least.note(Code::E3B, decl.at);
        }
    }
}

#[tactic(auto, using(crate::proofs::FirstOf::noted_places))]
fn note_unit(least: &mut Least, unit: &Unit)
    ensures { least.new ≡ noted (found E3B (unit_intents unit.now)) least.old }
{
    note_lacking(least, unit.dummies.items(), unit.at, unit.decls.items());
    note_other(least, unit.dummies.items(), unit.decls.items());
}

#[tactic(auto, using(crate::proofs::FirstOf::noted_places))]
fn note_units(least: &mut Least, units: &[Unit])
    ensures { least.new ≡ noted (found E3B (of_units unit_intents units.now)) least.old }
{
    for unit in units {
        note_unit(least, unit);
    }
}

#[tactic(auto, using(crate::proofs::FirstOf::noted_places))]
fn note_modules(least: &mut Least, modules: &[Module])
    ensures { least.new ≡ noted (found E3B (of_modules module_intents modules.now)) least.old }
{
    for one in modules {
        note_other(least, &[], one.decls.items());
    }
}

/// Notes each dummy without INTENT and each INTENT on another name.
#[tactic(auto, using(crate::proofs::FirstOf::noted_places, crate::proofs::IntentPlaces::intents_are))]
pub fn note_intents(least: &mut Least, file: &File)
    ensures { least.new ≡ noted (found E3B (intent_faults (placed file.now))) least.old }
{
    note_modules(least, file.modules.items());
    note_units(least, file.units.items());
}

/// The first dummy without INTENT or INTENT on another name, or `None` exactly where there is none.
#[tactic(auto, using(crate::proofs::FirstOf::first_at))]
pub fn first_intent_fault(file: &File) -> Option<At>
    ensures { MatchOption result (found E3B (intent_faults (placed file.now)) ≡ []) (λ at. IsLeast (found E3B (intent_faults (placed file.now))) (found_of at)) }
{
    let mut least = Least::new();
    note_intents(&mut least, file);
    least.first()
}
