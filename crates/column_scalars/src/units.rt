//! A unit of column scalars as one among others of a program.

ghost use Rattle.std.specs.Prelude.{◌≡◌, ◌∷◌, [], None, false, map, true};
ghost use Rattle.courses.specs.Plans.{Plan};
ghost use Rattle.fort_tree.specs.declared.choice.Target.TheVariants.{Cpu};
ghost use Rattle.fort_tree.specs.declared.choice.Directives.TheVariants.{Plain};
ghost use Rattle.claw_meaning.specs.Syntax.{Program};
ghost use Rattle.claw_meaning.specs.Scope.{unit_within};
ghost use Rattle.claw_meaning.specs.Units.{is_listed};
ghost use Rattle.claw_meaning.specs.Frames.{Frame};
ghost use Rattle.claw_meaning.specs.Runs.{exec, Apart};
ghost use Rattle.claw_meaning.specs.Kept.{KeepsColumnUnit};
ghost use Rattle.claw_meaning.specs.Interface.{AreWide, UnitInterface};
ghost use Rattle.claw_meaning.specs.Erasure.{erased_unit, bare_unit, behind_guard};
ghost use Rattle.claw_meaning.specs.Spread.{spreading, SpreadStmts, has_routine};
ghost use Rattle.column_scalars.specs.Scalars.{Scalars, IsScalars, Distinct, source_unit, wide_unit, program_of};
ghost use Rattle.column_scalars.specs.Standing.{StandsIn, DeclareOnce, widening_there};

/// Where such a unit may stand: where no external unit has the name of the upper bound, the names of the unit and of the
/// modules differ, and each module declares a name once; so also alone.
pub fn where_units_stand()
    ensures among { (p : Program) (u : Scalars) → IsScalars u → unit_within p None u.upper ≡ None → Distinct (u.name ∷ map (λ m. m.name) p.modules) → DeclareOnce p.modules → StandsIn p u }
    ensures alone { (u : Scalars) → IsScalars u → StandsIn (program_of (source_unit u)) u }
{}

/// In every program in which such a unit may stand, whatever its other units are and become: for every number of columns,
/// every well-typed input and every plan, the unit for all columns traps exactly where some column's run of the source
/// traps, and else leaves each column what that run leaves, and all variables of modules as they were.
pub fn keeps_columns_anywhere()
    ensures { (u : Scalars) → IsScalars u → (source target : Program) → StandsIn source u → target.modules ≡ source.modules → (plan : Plan) → KeepsColumnUnit source target (source_unit u) (wide_unit u) plan }
{}

/// The unit for all columns runs no marked loop, whatever program it stands in; so no two iterations touch one element.
pub fn runs_no_marked_loop()
    ensures loops { (u : Scalars) → IsScalars u → (target : Program) (frame : Frame) (plan : Plan) → (exec target (wide_unit u) frame plan).loops ≡ [] }
    ensures apart { (u : Scalars) → IsScalars u → (target : Program) (frame : Frame) (plan : Plan) → Apart (exec target (wide_unit u) frame plan) }
{}

/// In every program in which such a unit may stand, its wide variables are its dummies, and the unit for all columns has the
/// interface of a widened unit, erases to the source, and has its statements in one loop over the columns, without a
/// `routine` line.
pub fn unit_made_for_all_columns()
    ensures varying { (u : Scalars) → IsScalars u → (p : Program) → AreWide p (source_unit u) (λ x. is_listed u.dummies x) }
    ensures interface { (u : Scalars) → IsScalars u → (p : Program) → StandsIn p u → UnitInterface p (source_unit u) (wide_unit u) (widening_there p u) }
    ensures erased { (u : Scalars) → IsScalars u → (p : Program) → StandsIn p u → erased_unit p (source_unit u) (widening_there p u) (wide_unit u) ≡ bare_unit p (source_unit u) }
    ensures spread { (u : Scalars) → IsScalars u → (p : Program) → SpreadStmts (spreading p (source_unit u) (widening_there p u) Cpu Plain (λ x. false)) (behind_guard true (wide_unit u).body) }
    ensures routine { (u : Scalars) → has_routine (wide_unit u) ≡ false }
{}
