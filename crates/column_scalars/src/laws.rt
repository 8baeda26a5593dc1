//! What the program for all columns of a unit of column scalars keeps.

ghost use Rattle.std.specs.Prelude.{◌≡◌};
ghost use Rattle.courses.specs.Plans.{Plan};
ghost use Rattle.claw_meaning.specs.Kept.{Kept};
ghost use Rattle.column_scalars.specs.Scalars.{Scalars, IsScalars, source_unit, wide_unit, program_of};
ghost use Rattle.column_scalars.specs.Model.{SourceDoes, WideDoesSo, AreColumnwise};
ghost use Rattle.column_scalars.specs.Widened.{widened};

/// The statements of such a unit, and of its program for all columns, do what a plain model says: assignments to a store, one
/// column after another.
pub fn does_as_modelled()
    ensures source { (u : Scalars) → IsScalars u → SourceDoes u }
    ensures wide { (u : Scalars) → IsScalars u → WideDoesSo u }
    ensures columns { (u : Scalars) → IsScalars u → AreColumnwise u }
{}

/// For every number of columns, every well-typed input and every plan, the program for all columns traps exactly where
/// some column's run of the source traps, and else leaves each column what that run leaves.
pub fn keeps_columns()
    ensures { (u : Scalars) → IsScalars u → (plan : Plan) → Kept (program_of (source_unit u)) (program_of (wide_unit u)) plan }
{}

/// What `widen` makes of such a unit is its program for all columns.
pub fn widened_is_wide_unit()
    ensures { (u : Scalars) → widened (source_unit u) ≡ wide_unit u }
{}
