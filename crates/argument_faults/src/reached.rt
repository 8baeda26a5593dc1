//! What units, and those that they reach by references, name.
ghost use Rattle.std.specs.Prelude.{◌≡◌, ◌<◌, [], Some, length, replicate, slice_get, slice_index_or, IfOk};
ghost use Rattle.fort_names.specs.Scoping.{AreSymbolsOf};
ghost use Rattle.sound_programs.specs.ArgumentFaults.{module_variables_of};
ghost use Rattle.sound_programs.specs.Faults.{faults_of_names};
ghost use Rattle.sound_programs.specs.Placed.{bare_program};
ghost use Rattle.sound_programs.specs.Placing.{placed, placed_unit};
ghost use Rattle.call_graph.specs.CallGraphs.{IsCallGraph};
ghost use Rattle.argument_faults.specs.Marking.{AreLong, HasAllRows, IsMarkedFrom};
ghost use Rattle.argument_faults.specs.ModuleNames.{HasSame, pairs, rows_of};
ghost use Rattle.argument_faults.specs.Reaching.{AreNamed, AreNamedFrom, IsReached};

use crate::marks::{marks_of, merged};
use crate::module_names::{ModuleVariable, variables_named};
use crate::variable_set::{VariableSet, variables_in};
use call_graph::Graph;
use fort_names::Symbols;
use fort_tree::{File, NoMemory, Seq, Unit};
use std::alloc::Global;

/// The module variables that the units of a file name, and for each unit a mark of each of them that it, or a unit that it
/// reaches by references, names.
#[derive(Drop)]
pub struct Reached {
    pub variables: VariableSet,
    pub marks: Vec<Seq<bool>>,
}

#[tactic(auto, using(std::proofs::lemmas::Option::slice_get_within))]
fn variables_of(
    alloc: Global,
    file: &File,
    symbols: &Symbols,
    number: usize,
    unit: &Unit,
) -> Result<Seq<ModuleVariable>, NoMemory>
    requires symbols { AreSymbolsOf file.now symbols.now }
    requires there { slice_get file.now.units number ≡ Some unit.now }
    ensures { IfOk result (λ list. HasSame (pairs list) (module_variables_of (bare_program (placed file.now)) (placed_unit unit.now))) }
{
    let sight = symbols.sight_of_unit(file, number);
    let list = variables_named(alloc, &sight, unit)?;
    Ok(Seq::from_vec(list))
}

/// For each unit the module variables that it names.
fn all_variables(
    alloc: Global,
    file: &File,
    symbols: &Symbols,
) -> Result<Vec<Seq<ModuleVariable>>, NoMemory>
    requires { AreSymbolsOf file.now symbols.now }
    ensures { IfOk result (λ rows. AreNamed file.now (rows_of rows.items)) }
{
    let mut rows = Vec::new(alloc);
    for (number, unit) in file.units.items().iter().enumerate() {
        rows.push(variables_of(alloc, file, symbols, number, unit)?)?;
    }
    Ok(rows)
}

fn no_rows(alloc: Global, count: usize) -> Result<Vec<Seq<bool>>, NoMemory>
    ensures { IfOk result (λ rows. rows.items ≡ replicate count []) }
{
    let mut rows = Vec::new(alloc);
    for _unit in 0..count {
        rows.push(Seq::new(alloc))?;
    }
    Ok(rows)
}

/// The marks of a unit, from those of the units to which it refers.
fn marks_from(
    alloc: Global,
    variables: &VariableSet,
    named: &[Seq<ModuleVariable>],
    unit: usize,
    rows: &[Seq<bool>],
    callees: &[usize],
) -> Result<Seq<bool>, NoMemory>
    requires unit { unit < length named.now }
    requires named { HasAllRows variables.now (rows_of named.now) }
    requires rows { AreLong rows.now callees.now (length variables.now) }
    ensures { IfOk result (IsMarkedFrom variables.now (slice_index_or (rows_of named.now) unit []) rows.now callees.now) }
{
    let own = marks_of(alloc, variables, named[unit].items())?;
    let marks = merged(alloc, own.as_slice(), rows, callees)?;
    Ok(Seq::from_vec(marks))
}

/// For each unit a mark of each variable that it, or a unit that it reaches, names. Each unit is gone to behind those to which it
/// refers.
fn all_marks(
    alloc: Global,
    file: &File,
    graph: &Graph,
    variables: &VariableSet,
    named: &[Seq<ModuleVariable>],
) -> Result<Vec<Seq<bool>>, NoMemory>
    requires names { faults_of_names (placed file.now) ≡ [] }
    requires graph { IsCallGraph file.now graph.now }
    requires named { AreNamed file.now (rows_of named.now) }
    requires all { HasAllRows variables.now (rows_of named.now) }
    ensures { IfOk result (λ rows. AreNamedFrom file.now variables.now rows.items) }
{
    let mut rows = no_rows(alloc, file.units.len())?;
    for unit in graph.order() {
        let callees = graph.callees(*unit);
        let marks = marks_from(alloc, variables, named, *unit, rows.as_slice(), callees)?;
        rows[*unit] = marks;
    }
    Ok(rows)
}

/// What the units of the file, and those that they reach, name. The time is that of its references to units times its module
/// variables, at most.
///
/// # Errors
/// `NoMemory` only where memory was refused.
pub fn reached_by(
    alloc: Global,
    file: &File,
    symbols: &Symbols,
    graph: &Graph,
) -> Result<Reached, NoMemory>
    requires symbols { AreSymbolsOf file.now symbols.now }
    requires names { faults_of_names (placed file.now) ≡ [] }
    requires graph { IsCallGraph file.now graph.now }
    ensures { IfOk result (IsReached file.now) }
{
    let named = all_variables(alloc, file, symbols)?;
    let variables = variables_in(alloc, named.as_slice())?;
    let marks = all_marks(alloc, file, graph, &variables, named.as_slice())?;
    Ok(Reached { variables, marks })
}

impl Reached {
    ghost use Rattle.std.specs.Prelude.{◌≡◌};
    ghost use Rattle.argument_faults.specs.ModuleNames.{pair_of};
    ghost use Rattle.argument_faults.specs.Reaching.{HasUnit, is_marked_for};

    /// Whether the variable is marked for the unit.
    pub fn is_marked(&self, unit: usize, variable: &ModuleVariable) -> bool
        requires { HasUnit self.now unit }
        ensures { result ≡ is_marked_for self.now unit (pair_of variable.now) }
    {
        match self.variables.place(variable) {
            None => false,
            Some(place) => self.marks[unit].items()[place],
        }
    }
}
