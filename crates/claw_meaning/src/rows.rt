//! Small programs whose runs are computed from the definitions.

ghost use Rattle.claw_meaning.specs.AddRuns.{AddRow, AddPremises};
ghost use Rattle.claw_meaning.specs.SmallRuns.{LostUpdate, SmallRuns};
ghost use Rattle.claw_meaning.specs.ColumnRuns.{ZeroRuns, PickRuns, DriveRuns, ColumnsErased};

/// A unit of two column scalars, `b = b + a*2`: its columns' runs and the runs of its program for all columns give the same
/// values, in one loop and in marked loops in both orders, and trap on the same input.
pub fn scalars_in_columns()
    ensures runs { AddRow }
    ensures premises { AddPremises }
{}

/// A marked loop whose iterations add to one scalar: every order of iterations adds twice, and a schedule of single accesses
/// loses an update.
pub fn lost_update()
    ensures { LostUpdate }
{}

/// EXIT from a DO and the turns counted, a call by copy, sections, SUM and SIZE, a function, SELECT, and traps.
pub fn small_runs()
    ensures { SmallRuns }
{}

/// Three column units and their programs for all columns, which give the same values and trap on the same inputs: a quotient
/// of no column before the columns' loop, with no column, one and two; an element that each column picks by a subscript of
/// its own; and a loop over columns that calls a column unit, which becomes one call. What was inserted erases.
pub fn columns_of_small_units()
    ensures quotient { ZeroRuns }
    ensures picked { PickRuns }
    ensures driven { DriveRuns }
    ensures erased { ColumnsErased }
{}
