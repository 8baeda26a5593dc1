//! Small programs with each fault of names, calls and kinds, and their neighbours without it, computed from the definitions.

ghost use Rattle.sound_programs.specs.NameRows.{NameRows};
ghost use Rattle.sound_programs.specs.CallRows.{CallRows};
ghost use Rattle.sound_programs.specs.KindRows.{KindRows};
ghost use Rattle.sound_programs.specs.RankRows.{RankRows};
ghost use Rattle.sound_programs.specs.ArgumentRows.{ArgumentRows};
ghost use Rattle.sound_programs.specs.SoundRow.{SoundRow};
ghost use Rattle.sound_programs.specs.FileRows.{FaultyFiles, FirstFaults};
ghost use Rattle.sound_programs.specs.VisibleRow.{VisibleRow};

/// A module with a PARAMETER and a function, a unit that uses both and calls another: its forms nest, and it is sound.
pub fn a_sound_program()
    ensures { SoundRow }
{}

/// What names are in scopes: declared there, in a module that is used or around, external, hidden.
pub fn names_by_example()
    ensures { VisibleRow }
{}

/// Undeclared names, names declared twice, USE, calls of no unit, DO variables, INTENT.
pub fn faults_of_names_by_example()
    ensures { NameRows }
{}

/// Cycles of calls.
pub fn faults_of_calls_by_example()
    ensures { CallRows }
{}

/// Literals, INTEGER and LOGICAL, bounds of declarations, arguments of intrinsics, cases.
pub fn faults_of_kinds_by_example()
    ensures { KindRows }
{}

/// Subscripts, scalars and arrays, SUM and SIZE, actual arguments, shapes of declarations.
pub fn faults_of_ranks_by_example()
    ensures { RankRows }
{}

/// The number of arguments, aliases, writes.
pub fn faults_of_arguments_by_example()
    ensures { ArgumentRows }
{}

/// Each predicate of a fault at its place, on files.
pub fn faulty_files()
    ensures { FaultyFiles }
{}

/// The first fault where there are several: phase by phase.
pub fn first_faults()
    ensures { FirstFaults }
{}
