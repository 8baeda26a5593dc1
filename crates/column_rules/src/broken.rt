//! The column units of a sound program that break a rule.
ghost use Rattle.std.specs.Prelude.{◌≡◌, [], IfOk};
ghost use Rattle.sound_programs.specs.Faults.{faults_of_names};
ghost use Rattle.sound_programs.specs.Placing.{placed};
ghost use Rattle.fort_names.specs.Scoping.{AreSymbolsOf};
ghost use Rattle.call_graph.specs.CallGraphs.{IsCallGraph};
ghost use Rattle.scalar_units.specs.Unbuilt.{noted};
ghost use Rattle.column_rules.specs.Rules.{broken};

use crate::rules::note_headers;
use argument_faults::writes_reached;
use call_graph::Graph;
use checked_programs::Checked;
use fort_names::Symbols;
use fort_tree::{File, NoMemory, Place};
use std::alloc::Global;

#[tactic(auto, using(crate::proofs::Writing::are_writing))]
fn note_in(
    alloc: Global,
    least: Option<Place>,
    file: &File,
    symbols: &Symbols,
    graph: &Graph,
) -> Result<Option<Place>, NoMemory>
    requires symbols { AreSymbolsOf file.now symbols.now }
    requires names { faults_of_names (placed file.now) ≡ [] }
    requires graph { IsCallGraph file.now graph.now }
    ensures { IfOk result (λ first. first ≡ noted (broken file.now) least) }
{
    let writes = writes_reached(alloc, file, symbols, graph)?;
    let first = note_headers(alloc, least, file, symbols, writes.as_slice())?;
    Ok(first)
}

/// The first of the place so far and of the names in the headers of the column units that break a rule. The rules are
/// - a dummy that is no column dummy isn't OUT or INOUT;
/// - neither the unit nor one that it reaches by references writes a module variable;
/// - `data` lists dummies alone, each once, and `over` has the dimension's name just once and no other name;
/// - the dimension's name isn't visible in the unit and isn't the upper bound; the lower bound is a literal; the upper bound is a literal, a PARAMETER or a
///   shared scalar INTENT(IN) dummy of kind 4, or a name that isn't visible; the literals have no suffix;
/// - no bound in a declaration names a column dummy;
/// - no RETURN stands in the unit.
///
/// # Errors
/// `NoMemory` only where memory was refused. The rules are this project's own, and so is what directives mean.
pub fn note_broken(
    alloc: Global,
    least: Option<Place>,
    checked: &Checked,
) -> Result<Option<Place>, NoMemory>
    ensures { IfOk result (λ first. first ≡ noted (broken checked.now.file) least) }
{
    checked.is_sound();
    note_in(
        alloc,
        least,
        checked.file(),
        checked.symbols(),
        checked.graph(),
    )
}
