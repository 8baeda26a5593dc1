//! What every sound program keeps, for the passes that translate it.

ghost use Rattle.fort_tree.specs.declared.choice.Mode.{Mode};
ghost use Rattle.fort_tree.specs.declared.unit.File.{File};
ghost use Rattle.sound_programs.specs.Sound.{Sound};
ghost use Rattle.checked_programs.specs.Fitting.{KindsAreKnown, KindsFit, RanksFit};
ghost use Rattle.checked_programs.specs.Kept.{ArgumentsMatch, IntentsAreKept, LoopVariablesStayInside, WrittenActualsAreAlone};

/// Each expression in a step of a sound program has a kind, and so has each in a bound or a value of a declaration, with all their
/// parts: what leaves a kind open is a fault.
pub fn kinds_are_known()
    ensures { (mode : Mode) (file : File) → Sound mode file → KindsAreKnown file }
{}

/// In each step of a sound program operands, tests, subscripts and actual arguments have the kinds and ranks that are needed.
pub fn operands_fit()
    ensures kinds { (mode : Mode) (file : File) → Sound mode file → KindsFit file }
    ensures ranks { (mode : Mode) (file : File) → Sound mode file → RanksFit file }
{}

/// Each reference of a sound program has as many arguments as the unit has dummies, or as the intrinsic takes.
pub fn arguments_match()
    ensures { (mode : Mode) (file : File) → Sound mode file → ArgumentsMatch file }
{}

/// What a sound program passes to OUT or INOUT is reached in no second way: neither by another actual of the reference nor as a
/// module variable of what is called.
pub fn written_actuals_are_alone()
    ensures { (mode : Mode) (file : File) → Sound mode file → WrittenActualsAreAlone file }
{}

/// A sound program writes no INTENT(IN) dummy and no PARAMETER, and its functions write neither dummies nor module variables.
pub fn intents_are_kept()
    ensures { (mode : Mode) (file : File) → Sound mode file → IntentsAreKept file }
{}

/// The variable of each DO of a sound program is a local INTEGER scalar, which is named in the bodies of its loops alone and
/// isn't written there.
pub fn loop_variables_stay_inside()
    ensures { (mode : Mode) (file : File) → Sound mode file → LoopVariablesStayInside file }
{}
