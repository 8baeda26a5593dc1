//! Laws of programs that are written unit by unit.

ghost use Rattle.std.specs.Prelude.{◌≡◌, ℕ, List, Some, length, slice_get};
ghost use Rattle.std.specs.List.{All, AllZip, Contains};
ghost use Rattle.fort_tree.specs.declared.statement.Line.{Line};
ghost use Rattle.fort_tree.specs.declared.unit.File.{File};
ghost use Rattle.fort_units.specs.Program.{IsProgram};
ghost use Rattle.claw_meaning.specs.Plain.{plain_file};
ghost use Rattle.claw_meaning.specs.Syntax.{Unit};
ghost use Rattle.column_scalars.specs.Scalars.{Scalars, IsScalars, source_unit, wide_unit};
ghost use Rattle.layout_reading.specs.Programs.{IsPrintableFile};
ghost use Rattle.plain_units.specs.Regrouped.{regrouped};
ghost use Rattle.plain_units.specs.Undirected.{IsUndirected};
ghost use Rattle.written_programs.specs.Writable.{CanBeWritten, CanReplace, IsWrittenAs, UnitByUnit, all_regrouped};

use layout_reading::wide_units_are_printable;

/// A unit of a program that has no directives can be written with its declarations one by one and in their groups.
pub fn plain_units_can_be_written()
    ensures { (lines : List Line) (source : File) (u : Unit) → IsProgram lines source → Contains (plain_file source).units u → IsUndirected u → CanBeWritten (regrouped u) }
{}

/// A unit of column scalars of a program can be written for all columns, wherever it stands in a file.
pub fn column_units_can_be_written()
    ensures { (lines : List Line) (source written : File) (u : Scalars) → IsScalars u → IsProgram lines source → Contains (plain_file source).units (source_unit u) → Contains (plain_file written).units (wide_unit u) → CanBeWritten (wide_unit u) }
{
    wide_units_are_printable();
}

/// What has a program's modules, in its order, and in the place of each unit one that can be written, can be written. So can what has each unit as it is written, and
/// the program itself, where no unit has directives, with the declarations of its units in their groups.
pub fn programs_can_be_written()
    ensures replaced { (lines : List Line) (source written : File) → IsProgram lines source → UnitByUnit CanReplace (plain_file source) (plain_file written) → IsPrintableFile written }
    ensures made { (lines : List Line) (source written : File) → IsProgram lines source → UnitByUnit IsWrittenAs (plain_file source) (plain_file written) → IsPrintableFile written }
    ensures undirected { (lines : List Line) (source written : File) → IsProgram lines source → All IsUndirected (plain_file source).units → plain_file written ≡ all_regrouped (plain_file source) → IsPrintableFile written }
{
    wide_units_are_printable();
}

/// Units are replaced, or written, one by one where they are as many and each is at its number.
pub fn written_by_number()
    ensures replaced { (us ts : List Unit) → length ts ≡ length us → ((i : ℕ) (u t : Unit) → slice_get us i ≡ Some u → slice_get ts i ≡ Some t → CanReplace u t) → AllZip CanReplace us ts }
    ensures made { (us ts : List Unit) → length ts ≡ length us → ((i : ℕ) (u t : Unit) → slice_get us i ≡ Some u → slice_get ts i ≡ Some t → IsWrittenAs u t) → AllZip IsWrittenAs us ts }
{}
