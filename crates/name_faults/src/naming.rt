//! The names of a program, or the first fault of them.
ghost use Rattle.std.specs.Prelude.{◌≡◌, [], None, IfOk, IfErr, MatchOption};
ghost use Rattle.sound_programs.specs.Faults.{faults_of_names, IsLeast};
ghost use Rattle.sound_programs.specs.Placing.{placed};
ghost use Rattle.fort_names.specs.FoundAt.{found_of};
ghost use Rattle.fort_names.specs.Leasts.{noted};
ghost use Rattle.fort_names.specs.Scoping.{AreSymbolsOf};
ghost use Rattle.sound_programs.specs.Reported.{IsStopBy};

use crate::calls::note_unit_faults;
use crate::loops::note_loops;
use crate::values::note_undeclared;
use fort_names::{
    At, Least, Symbols, note_declared_twice, note_intents, note_module_faults, symbols_of,
};
use fort_tree::{Fault, File, NoMemory, Stop};
use std::alloc::Global;

/// The least of all faults of names.
#[tactic(auto, using(crate::proofs::AllNoted::all_noted))]
fn least_fault(alloc: Global, symbols: &Symbols, file: &File) -> Result<Least, NoMemory>
    requires { AreSymbolsOf file.now symbols.now }
    ensures { IfOk result (λ least. least ≡ noted (faults_of_names (placed file.now)) None) }
{
    let mut least = Least::new();
    note_undeclared(alloc, &mut least, symbols, file)?;
    note_declared_twice(alloc, &mut least, symbols.shared(), file)?;
    note_module_faults(alloc, &mut least, symbols.shared(), file)?;
    note_unit_faults(alloc, &mut least, symbols, file)?;
    note_loops(alloc, &mut least, symbols, file)?;
    note_intents(&mut least, file);
    Ok(least)
}

/// The first fault of names, or `None` exactly where there is none.
#[tactic(auto, using(fort_names::proofs::FirstOf::first_at))]
fn first_fault(alloc: Global, symbols: &Symbols, file: &File) -> Result<Option<At>, NoMemory>
    requires { AreSymbolsOf file.now symbols.now }
    ensures { IfOk result (λ first. MatchOption first (faults_of_names (placed file.now) ≡ []) (λ at. IsLeast (faults_of_names (placed file.now)) (found_of at))) }
{
    let least = least_fault(alloc, symbols, file)?;
    Ok(least.first())
}

/// Judges the names of a program.
fn judge(alloc: Global, symbols: &Symbols, file: &File) -> Result<(), Stop>
    requires { AreSymbolsOf file.now symbols.now }
    ensures sound { IfOk result (λ done. faults_of_names (placed file.now) ≡ []) }
    ensures stop { IfErr result (IsStopBy (faults_of_names (placed file.now))) }
{
    match first_fault(alloc, symbols, file)? {
        None => Ok(()),
        Some(at) => Err(Stop::Fault(Fault::new(at.code, at.place))),
    }
}

/// What each name of the program is in each scope, where the program has no fault of names.
///
/// # Errors
/// The first fault of names: E30, E31, E34, E35, E39 or E3B, the least by place, and at one place by code. `NoMemory` only where memory was refused.
/// The rules of names are this project's own profile of ISO/IEC 1539-1:2018 19.
pub fn names(alloc: Global, file: &File) -> Result<Symbols, Stop>
    ensures symbols { IfOk result (AreSymbolsOf file.now) }
    ensures sound { IfOk result (λ symbols. faults_of_names (placed file.now) ≡ []) }
    ensures stop { IfErr result (IsStopBy (faults_of_names (placed file.now))) }
{
    let symbols = symbols_of(alloc, file)?;
    judge(alloc, &symbols, file)?;
    Ok(symbols)
}
