//! Names that are used and not declared.
ghost use Rattle.std.specs.Prelude.{◌≡◌, ◌++◌, map, flat_map, not, IfOk, OnOk};
ghost use Rattle.std.specs.Option.{option_to_list};
ghost use Rattle.fort_tree.specs.declared.fault.Code.TheVariants.{E30};
ghost use Rattle.claw_meaning.specs.Syntax.{Text};
ghost use Rattle.claw_meaning.specs.Units.{is_listed};
ghost use Rattle.sound_programs.specs.Faults.{found};
ghost use Rattle.sound_programs.specs.NameFaults.{is_no_value, places_where, undeclared_dummies, undeclared_in_bounds, undeclared_in_step, undeclared_names, undeclared_private};
ghost use Rattle.sound_programs.specs.Placing.{placed, placed_decl, placed_module, placed_unit};
ghost use Rattle.sound_programs.specs.Scopes.{is_variable, Of_unit};
ghost use Rattle.sound_programs.specs.Walks as walks;
ghost use Rattle.unit_steps.specs.Behind.{placed_step, placed_steps};
ghost use Rattle.fort_names.specs.Leasts.{noted, of_units};
ghost use Rattle.fort_names.specs.Scoping.{AreSymbolsOf};
ghost use Rattle.fort_names.specs.NameLists.{has};
ghost use Rattle.fort_names.specs.Sights.{means};
ghost use Rattle.name_faults.specs.Undeclared.{numbered, undeclared_in_a_module, undeclared_in_a_unit, undeclared_in_unit, values_in};

use fort_names::{Least, NameSet, Sight, Symbols};
use fort_tree::{Code, Decl, File, Module, Named, NoMemory, Unit};
use std::alloc::Global;
use unit_steps::{
    Step, bounds, name_in, note_bare_names, note_names, note_parts, parts_read, steps_of,
};

/// Notes the names that aren't visible as a variable or constant.
fn note_no_values(least: &mut Least, sight: &Sight, names: &[Named])
    ensures { least.new ≡ noted (found E30 (places_where (is_no_value (means sight.now)) names.now)) least.old }
{
    for named in names {
        if !sight.is_variable_or_constant(&named.name) {
            least.note(Code::E30, named.at);
        }
    }
}

/// Notes the names that aren't visible as a variable.
fn note_no_variables(least: &mut Least, sight: &Sight, names: &[Named])
    ensures { least.new ≡ noted (found E30 (places_where (λ n. not (is_variable (means sight.now n.name))) names.now)) least.old }
{
    for named in names {
        if !sight.is_variable(&named.name) {
            least.note(Code::E30, named.at);
        }
    }
}

/// The names that the step uses as variables or constants.
fn values_used(alloc: Global, step: Step) -> Result<Vec<Named>, NoMemory>
    ensures { IfOk result (λ names. names.items ≡ values_in (placed_step step.entry)) }
{
    let read = parts_read(alloc, step)?;
    let mut names = Vec::new(alloc);
    note_bare_names(read.as_slice(), &mut names)?;
    note_left(step, &mut names)?;
    if let Some(variable) = step.loop_variable() {
        names.push(variable)?;
    }
    Ok(names)
}

fn note_left(step: Step, into: &mut Vec<Named>) -> Result<(), NoMemory>
    ensures { OnOk result (into.new.items ≡ into.old.items ++ flat_map walks.name_in (walks.left_of (placed_step step.entry))) }
{
    if let Some(left) = step.left() {
        if let Some(named) = name_in(left) {
            into.push(named)?;
        }
    }
    Ok(())
}

#[tactic(auto, using(crate::proofs::Parts::values_are))]
fn note_step(alloc: Global, least: &mut Least, sight: &Sight, step: Step) -> Result<(), NoMemory>
    ensures { OnOk result (least.new ≡ noted (found E30 (undeclared_in_step (means sight.now) (placed_step step.entry))) least.old) }
{
    let names = values_used(alloc, step)?;
    note_no_values(least, sight, names.as_slice());
    Ok(())
}

fn note_steps(
    alloc: Global,
    least: &mut Least,
    sight: &Sight,
    steps: &[Step],
) -> Result<(), NoMemory>
    ensures { OnOk result (least.new ≡ noted (found E30 (flat_map (undeclared_in_step (means sight.now)) (placed_steps steps.now))) least.old) }
{
    for step in steps {
        note_step(alloc, least, sight, *step)?;
    }
    Ok(())
}

fn note_private(alloc: Global, least: &mut Least, sight: &Sight, step: Step) -> Result<(), NoMemory>
    ensures { OnOk result (least.new ≡ noted (found E30 (undeclared_private (means sight.now) (placed_step step.entry))) least.old) }
{
    let mut names = Vec::new(alloc);
    step.note_private_names(&mut names)?;
    note_no_variables(least, sight, names.as_slice());
    Ok(())
}

fn note_privates(
    alloc: Global,
    least: &mut Least,
    sight: &Sight,
    steps: &[Step],
) -> Result<(), NoMemory>
    ensures { OnOk result (least.new ≡ noted (found E30 (flat_map (undeclared_private (means sight.now)) (placed_steps steps.now))) least.old) }
{
    for step in steps {
        note_private(alloc, least, sight, *step)?;
    }
    Ok(())
}

fn names_in_bounds(alloc: Global, decls: &[Decl]) -> Result<Vec<Named>, NoMemory>
    ensures { IfOk result (λ names. names.items ≡ flat_map walks.name_in (flat_map walks.parts (walks.bounds_in (map placed_decl decls.now)))) }
{
    let whole = bounds(alloc, decls)?;
    let mut list = Vec::new(alloc);
    for expr in whole {
        note_parts(expr, &mut list)?;
    }
    let mut names = Vec::new(alloc);
    note_names(list.as_slice(), &mut names)?;
    Ok(names)
}

fn note_bounds(
    alloc: Global,
    least: &mut Least,
    sight: &Sight,
    decls: &[Decl],
) -> Result<(), NoMemory>
    ensures { OnOk result (least.new ≡ noted (found E30 (undeclared_in_bounds (means sight.now) (map placed_decl decls.now))) least.old) }
{
    let names = names_in_bounds(alloc, decls)?;
    note_no_values(least, sight, names.as_slice());
    Ok(())
}

/// The names that the declarations declare.
fn declared_names(alloc: Global, decls: &[Decl]) -> Result<NameSet, NoMemory>
    ensures { IfOk result (λ names. (x : Text) → has names x ≡ is_listed (map (λ d. d.name) decls.now) x) }
{
    let mut names = NameSet::new(alloc);
    for decl in decls {
        names.insert(decl.name)?;
    }
    Ok(names)
}

/// Notes of these names those that aren't declared.
fn note_not_listed(least: &mut Least, declared: &NameSet, names: &[Named])
    ensures { least.new ≡ noted (found E30 (places_where (λ n. not (has declared.now n.name)) names.now)) least.old }
{
    for named in names {
        if !declared.has(&named.name) {
            least.note(Code::E30, named.at);
        }
    }
}

/// Notes the result's name where it isn't declared.
fn note_result(least: &mut Least, declared: &NameSet, result_name: &Option<Named>)
    ensures { least.new ≡ noted (found E30 (places_where (λ n. not (has declared.now n.name)) (option_to_list result_name.now))) least.old }
{
    if let Some(named) = result_name {
        if !declared.has(&named.name) {
            least.note(Code::E30, named.at);
        }
    }
}

fn note_dummies(alloc: Global, least: &mut Least, unit: &Unit) -> Result<(), NoMemory>
    ensures { OnOk result (least.new ≡ noted (found E30 (undeclared_dummies (placed_unit unit.now))) least.old) }
{
    let declared = declared_names(alloc, unit.decls.items())?;
    note_not_listed(least, &declared, unit.dummies.items());
    note_result(least, &declared, &unit.result);
    Ok(())
}

/// Notes the names in the unit that are used as variables or constants and aren't visible as such, its dummies and its result that aren't declared, and the names in
/// private lists that aren't visible as variables.
fn note_unit(alloc: Global, least: &mut Least, sight: &Sight, unit: &Unit) -> Result<(), NoMemory>
    ensures { OnOk result (least.new ≡ noted (found E30 (undeclared_in_unit (means sight.now) (placed_unit unit.now))) least.old) }
{
    let steps = steps_of(alloc, unit)?;
    note_steps(alloc, least, sight, steps.as_slice())?;
    note_bounds(alloc, least, sight, unit.decls.items())?;
    note_dummies(alloc, least, unit)?;
    note_privates(alloc, least, sight, steps.as_slice())?;
    Ok(())
}

/// Notes the names in bounds of the module's declarations that aren't visible as variables or constants.
fn note_module(
    alloc: Global,
    least: &mut Least,
    sight: &Sight,
    one: &Module,
) -> Result<(), NoMemory>
    ensures { OnOk result (least.new ≡ noted (found E30 (undeclared_in_bounds (means sight.now) (placed_module one.now).decls)) least.old) }
{
    note_bounds(alloc, least, sight, one.decls.items())
}

fn note_modules(
    alloc: Global,
    least: &mut Least,
    symbols: &Symbols,
    file: &File,
) -> Result<(), NoMemory>
    requires { AreSymbolsOf file.now symbols.now }
    ensures { OnOk result (least.new ≡ noted (found E30 (numbered (undeclared_in_a_module file.now) 0 file.now.modules)) least.old) }
{
    for (number, one) in file.modules.items().iter().enumerate() {
        let sight = symbols.sight_of_module(file, number);
        note_module(alloc, least, &sight, one)?;
    }
    Ok(())
}

fn note_units(
    alloc: Global,
    least: &mut Least,
    symbols: &Symbols,
    file: &File,
) -> Result<(), NoMemory>
    requires { AreSymbolsOf file.now symbols.now }
    ensures { OnOk result (least.new ≡ noted (found E30 (of_units (undeclared_in_a_unit file.now) file.now.units)) least.old) }
{
    for (number, unit) in file.units.items().iter().enumerate() {
        let sight = symbols.sight_of_unit(file, number);
        note_unit(alloc, least, &sight, unit)?;
    }
    Ok(())
}

/// Notes each name that is used as a variable or constant and isn't visible as one, each dummy and each result that isn't declared, and each name of a mark's private
/// list that isn't visible as a variable.
///
/// # Errors
/// `NoMemory` only where memory was refused.
#[tactic(auto, using(fort_names::proofs::FirstOf::noted_places, crate::proofs::InFiles::undeclared_are))]
pub fn note_undeclared(
    alloc: Global,
    least: &mut Least,
    symbols: &Symbols,
    file: &File,
) -> Result<(), NoMemory>
    requires { AreSymbolsOf file.now symbols.now }
    ensures { OnOk result (least.new ≡ noted (found E30 (undeclared_names (placed file.now))) least.old) }
{
    note_modules(alloc, least, symbols, file)?;
    note_units(alloc, least, symbols, file)?;
    Ok(())
}
