//! USE lines that name what isn't there.
ghost use Rattle.std.specs.Prelude.{◌≡◌, not, flat_map};
ghost use Rattle.fort_tree.specs.declared.fault.Code.TheVariants.{E34};
ghost use Rattle.sound_programs.specs.Faults.{found};
ghost use Rattle.sound_programs.specs.Scopes.{scopes};
ghost use Rattle.sound_programs.specs.DeclarationFaults.{module_faults_in};
ghost use Rattle.sound_programs.specs.Placed.{bare_program};
ghost use Rattle.sound_programs.specs.Placing.{placed};
ghost use Rattle.fort_names.specs.Leasts.{noted, places_at, of_units, of_modules};
ghost use Rattle.fort_names.specs.Sharing.{gives, shared_of};
ghost use Rattle.fort_names.specs.UsePlaces.{line_places, use_places, unit_uses, module_uses};

use crate::least::Least;
use crate::shared::Shared;
use fort_tree::{Code, File, Module, Name, Named, Unit, Use};

fn is_missing(shared: &Shared, used: &Name, named: &Named) -> bool
    ensures { result ≡ not (gives shared.now used.now named.now.name) }
{
    !shared.gives(used, &named.name)
}

fn note_names(least: &mut Least, shared: &Shared, used: &Name, only: &[Named])
    ensures { least.new ≡ noted (found E34 (places_at (λ n. not (gives shared.now used.now n.name)) (λ n. n.at) only.now)) least.old }
{
    for named in only {
        least.note_if(is_missing(shared, used, named), Code::E34, named.at);
    }
}

fn note_line(least: &mut Least, shared: &Shared, line: &Use)
    ensures { least.new ≡ noted (found E34 (line_places shared.now line.now)) least.old }
{
    if shared.declared.names.place(&line.name).is_none() {
        least.note(Code::E34, line.at);
        return;
    }
    if let Some(only) = &line.only {
        note_names(least, shared, &line.name, only.items());
    }
}

#[tactic(auto, using(crate::proofs::FirstOf::noted_places))]
fn note_lines(least: &mut Least, shared: &Shared, lines: &[Use])
    ensures { least.new ≡ noted (found E34 (use_places shared.now lines.now)) least.old }
{
    for line in lines {
        note_line(least, shared, line);
    }
}

/// Notes the USE lines of units that name no module, or a name that the module doesn't give.
#[tactic(auto, using(crate::proofs::FirstOf::noted_places))]
fn note_unit_uses(least: &mut Least, shared: &Shared, units: &[Unit])
    ensures { least.new ≡ noted (found E34 (of_units (unit_uses shared.now) units.now)) least.old }
{
    for unit in units {
        note_lines(least, shared, unit.uses.items());
    }
}

/// Notes the USE lines of modules that name no module, or a name that the module doesn't give.
#[tactic(auto, using(crate::proofs::FirstOf::noted_places))]
fn note_module_uses(least: &mut Least, shared: &Shared, modules: &[Module])
    ensures { least.new ≡ noted (found E34 (of_modules (module_uses shared.now) modules.now)) least.old }
{
    for one in modules {
        note_lines(least, shared, one.uses.items());
    }
}

/// Notes the USE lines that name no module of the files, and the names behind ONLY that the module doesn't give.
pub fn note_uses(least: &mut Least, shared: &Shared, file: &File)
    requires { shared.now ≡ shared_of file.now }
    ensures { least.new ≡ noted (found E34 (flat_map (module_faults_in (placed file.now) (bare_program (placed file.now))) (scopes (placed file.now)))) least.old }
{
    note_module_uses(least, shared, file.modules.items());
    note_unit_uses(least, shared, file.units.items());
}
