//! Laws of runs: the laws of interaction trees, for the course of each unit of each program.

ghost use Rattle.claw_meaning.specs.Syntax.{Text};
ghost use Rattle.claw_meaning.specs.Frames.{Frame};
ghost use Rattle.claw_meaning.specs.Laws.{RunsAreLocal, RunsCanMove, RunsAreApart, OrderlyRunsAgree, FramesAreStores};
ghost use Rattle.courses.specs.Element.{Store};

/// A run depends on what it reads alone.
pub fn runs_are_local()
    ensures { RunsAreLocal }
{}

/// A run on renamed elements is the run itself, where the renaming keeps elements apart: so the run of one column is the
/// same wherever its column lies.
pub fn runs_can_move()
    ensures { RunsCanMove }
{}

/// Iterations that are apart, whatever they are told, are apart in every run.
pub fn runs_are_apart()
    ensures { RunsAreApart }
{}

/// Orderly marked loops give one result under every plan and every schedule of single accesses.
pub fn orderly_runs_agree()
    ensures { OrderlyRunsAgree }
{}

/// Frames at the contracts are stores in the proofs.
pub fn frames_are_stores()
    ensures { (unit : Text) (frame : Frame) (s : Store) → FramesAreStores unit frame s }
{}
