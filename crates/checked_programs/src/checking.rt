//! Judges the kinds, ranks and arguments of a program.
ghost use Rattle.std.specs.Prelude.{◌≡◌, [], None, IfOk, IfErr, MatchOption};
ghost use Rattle.sound_programs.specs.Faults.{faults_of_calls, faults_of_kinds, faults_of_names, IsLeast};
ghost use Rattle.sound_programs.specs.Placing.{placed};
ghost use Rattle.sound_programs.specs.Reported.{IsStopBy};
ghost use Rattle.sound_programs.specs.Sound.{IsNested};
ghost use Rattle.fort_names.specs.FoundAt.{found_of};
ghost use Rattle.fort_names.specs.Leasts.{noted};
ghost use Rattle.fort_names.specs.Scoping.{AreSymbolsOf};
ghost use Rattle.call_graph.specs.CallGraphs.{IsCallGraph};

use crate::checked::{Checked, Refused};
use argument_faults::{note_aliases, note_writes};
use call_graph::Graph;
use fort_names::{At, Least, Symbols};
use fort_tree::{Fault, File, Mode, NoMemory, Stop};
use kind_faults::{note_counts, note_kinds, note_ranks};
use sound_programs::sound_or_a_first_fault;
use std::alloc::Global;

/// The least of all faults of kinds, ranks and arguments.
#[tactic(auto, using(crate::proofs::AllKinds::all_noted))]
fn least_fault(
    alloc: Global,
    file: &File,
    symbols: &Symbols,
    graph: &Graph,
    mode: Mode,
) -> Result<Least, NoMemory>
    requires symbols { AreSymbolsOf file.now symbols.now }
    requires graph { IsCallGraph file.now graph.now }
    requires names { faults_of_names (placed file.now) ≡ [] }
    ensures { IfOk result (λ least. least ≡ noted (faults_of_kinds mode (placed file.now)) None) }
{
    let mut least = Least::new();
    note_kinds(alloc, &mut least, file, symbols)?;
    note_ranks(alloc, &mut least, mode, file, symbols)?;
    note_counts(alloc, &mut least, file, symbols)?;
    note_aliases(alloc, &mut least, file, symbols, graph)?;
    note_writes(alloc, &mut least, file, symbols, graph)?;
    Ok(least)
}

/// The first fault of kinds, ranks and arguments, or `None` exactly where there is none.
#[tactic(auto, using(fort_names::proofs::FirstOf::first_at))]
fn first_fault(
    alloc: Global,
    file: &File,
    symbols: &Symbols,
    graph: &Graph,
    mode: Mode,
) -> Result<Option<At>, NoMemory>
    requires symbols { AreSymbolsOf file.now symbols.now }
    requires graph { IsCallGraph file.now graph.now }
    requires names { faults_of_names (placed file.now) ≡ [] }
    ensures { IfOk result (λ first. MatchOption first (faults_of_kinds mode (placed file.now) ≡ []) (λ at. IsLeast (faults_of_kinds mode (placed file.now)) (found_of at))) }
{
    let least = least_fault(alloc, file, symbols, graph, mode)?;
    Ok(least.first())
}

/// Judges the kinds, ranks and arguments of a program.
fn judge(
    alloc: Global,
    file: &File,
    symbols: &Symbols,
    graph: &Graph,
    mode: Mode,
) -> Result<(), Stop>
    requires symbols { AreSymbolsOf file.now symbols.now }
    requires graph { IsCallGraph file.now graph.now }
    requires names { faults_of_names (placed file.now) ≡ [] }
    ensures sound { IfOk result (λ done. faults_of_kinds mode (placed file.now) ≡ []) }
    ensures stop { IfErr result (IsStopBy (faults_of_kinds mode (placed file.now))) }
{
    match first_fault(alloc, file, symbols, graph, mode)? {
        None => Ok(()),
        Some(at) => Err(Stop::Fault(Fault::new(at.code, at.place))),
    }
}

/// A program without faults of names and calls, as a sound program, where it has no fault of kinds, ranks and arguments. The mode
/// gives the limit on ranks: 3 in a source, 5 in a target text.
///
/// # Errors
/// The file is handed back. `Stop::Fault` has the first of E32, E33, E37, E38 and E3A, the least by place, and at one place by code,
/// exactly where there is one; `Stop::NoMemory` comes only where memory was refused. The rules are this project's own profile of
/// ISO/IEC 1539-1:2018 10 and 15.5.
pub fn check(
    alloc: Global,
    file: File,
    symbols: Symbols,
    graph: Graph,
    mode: Mode,
) -> Result<Checked, Refused>
    requires nested { IsNested mode file }
    requires symbols { AreSymbolsOf file symbols }
    requires graph { IsCallGraph file graph }
    requires names { faults_of_names (placed file) ≡ [] }
    requires calls { faults_of_calls (placed file) ≡ [] }
    ensures checked { IfOk result (λ checked. checked ≡ record { mode = mode; file = file; symbols = symbols; graph = graph }) }
    ensures sound { IfOk result (λ checked. faults_of_kinds mode (placed file) ≡ []) }
    ensures file { IfErr result (λ refused. refused.file ≡ file) }
    ensures stop { IfErr result (λ refused. IsStopBy (faults_of_kinds mode (placed file)) refused.stop) }
{
    sound_or_a_first_fault();
    match judge(alloc, &file, &symbols, &graph, mode) {
        Ok(()) => Ok(Checked::of(mode, file, symbols, graph)),
        Err(stop) => Err(Refused { file, stop }),
    }
}
