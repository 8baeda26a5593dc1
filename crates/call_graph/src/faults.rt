//! The faults of calls.
ghost use Rattle.std.specs.Prelude.{◌≡◌, [], IfOk, MatchOption};
ghost use Rattle.fort_names.specs.FoundAt.{found_of};
ghost use Rattle.fort_names.specs.Leasts.{noted};
ghost use Rattle.fort_tree.specs.declared.fault.Code.{Code as FaultCode};
ghost use Rattle.sound_programs.specs.CallFaults.{one_unit_too_many};
ghost use Rattle.sound_programs.specs.Faults.{found, faults_of_calls, IsLeast};
ghost use Rattle.sound_programs.specs.Places.{option_places};
ghost use Rattle.sound_programs.specs.Placing.{placed};
ghost use Rattle.call_graph.specs.Calling.{AreCalls};

use crate::calls::Calls;
use crate::search::{first_recursion, first_too_deep};
use fort_names::{At, Least};
use fort_tree::{Code, File, NoMemory, Place};
use std::alloc::Global;

/// As many units a program may have.
const MOST_UNITS: usize = 2000;

/// The first unit beyond those that a program may have.
fn unit_too_many(file: &File) -> Option<Place>
    ensures { option_places result ≡ one_unit_too_many (placed file.now) }
{
    match file.units.items().get(MOST_UNITS) {
        None => None,
        Some(unit) => Some(unit.at),
    }
}

fn note_place(least: &mut Least, code: Code, place: Option<Place>)
    ensures { least.new ≡ noted (found code (option_places place)) least.old }
{
    match place {
        None => {}
        Some(place) => least.note(code, place),
    }
}

/// The least fault of calls, or `None` exactly where there is none.
pub fn first_fault(alloc: Global, calls: &Calls<'_>) -> Result<Option<At>, NoMemory>
    requires { AreCalls calls.now }
    ensures { IfOk result (λ first. MatchOption first (faults_of_calls (placed calls.now.file.now) ≡ []) (λ at. IsLeast (faults_of_calls (placed calls.now.file.now)) (found_of at))) }
{
    let mut least = Least::new();
    note_place(&mut least, Code::E36, first_recursion(alloc, calls)?);
    note_place(&mut least, Code::E71, unit_too_many(calls.file));
    note_place(&mut least, Code::E71, first_too_deep(calls));
    Ok(least.first())
}
