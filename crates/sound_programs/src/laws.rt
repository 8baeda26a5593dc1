//! Laws of the definitions, and what holds of every sound program.

ghost use Rattle.std.specs.Prelude.{◌≡◌, ◌↔◌, Bool, IsTrue, List, is_some};
ghost use Rattle.fort_tree.specs.declared.choice.Mode.{Mode};
ghost use Rattle.fort_tree.specs.declared.place.Place.{Place};
ghost use Rattle.fort_tree.specs.declared.unit.File.{File};
ghost use Rattle.claw_meaning.specs.Plain.{plain_file};
ghost use Rattle.claw_meaning.specs.Scope.{module_gives};
ghost use Rattle.claw_meaning.specs.Syntax.{Text, Program as Plain};
ghost use Rattle.sound_programs.specs.Faults.{Found, FirstFault, faults_of_calls, faults_of_kinds, faults_of_names};
ghost use Rattle.sound_programs.specs.Forms.{Form};
ghost use Rattle.sound_programs.specs.Nesting.{Nests};
ghost use Rattle.sound_programs.specs.Laws.{CallsAreKnown, DeclaresOnce, HasNoCycle, HasNoFirstFault, KindsAgree, NamesAreKnown, SoundOrFaulty};
ghost use Rattle.sound_programs.specs.Links.{Links, Reaches, leads};
ghost use Rattle.sound_programs.specs.Placed.{Program, bare_program};
ghost use Rattle.sound_programs.specs.Placing.{placed};
ghost use Rattle.sound_programs.specs.Scopes.{is_known, origin};
ghost use Rattle.sound_programs.specs.Sound.{IsNested, Sound};
ghost use Rattle.sound_programs.specs.Within.{AllPass, FaultsPass};
ghost use Rattle.sound_programs.specs.Writing.{file_of};

/// The placed tree of a file, its places forgotten, is the plain tree on which its meaning is defined.
pub fn placed_trees_are_plain_trees_with_places()
    ensures { (file : File) → bare_program (placed file) ≡ plain_file file }
{}

/// Each placed tree is the placed tree of a file.
pub fn placed_trees_are_of_files()
    ensures { (program : Program) → placed (file_of program) ≡ program }
{}

/// A module gives something under a name exactly where some module is the one that declares it.
pub fn what_modules_give_has_an_origin()
    ensures { (program : Plain) (m x : Text) → is_known (module_gives program m x) ≡ is_some (origin program m x) }
{}

/// Forms nest into one file at most, its places included.
pub fn forms_nest_into_one_file()
    ensures { (mode : Mode) (forms : List Form) (f g : File) → Nests mode forms f → Nests mode forms g → f ≡ g }
{}

/// What is reached in any number of links is reached in as many as there are: the computed test of a chain is exact.
pub fn chains_are_short()
    ensures { (links : Links) (x y : Text) → IsTrue (leads links x y) ↔ Reaches links x y }
{}

/// The calls of a sound program form no cycle.
pub fn sound_programs_have_no_cycle()
    ensures { (mode : Mode) (file : File) → Sound mode file → HasNoCycle file }
{}

/// In a sound program each scope declares a name once at most, each name that is read is visible as a variable or a constant,
/// and each CALL names a SUBROUTINE.
pub fn names_of_sound_programs()
    ensures once { (mode : Mode) (file : File) → Sound mode file → DeclaresOnce file }
    ensures read { (mode : Mode) (file : File) → Sound mode file → NamesAreKnown file }
    ensures called { (mode : Mode) (file : File) → Sound mode file → CallsAreKnown file }
{}

/// A program into which forms nest is sound or has a first fault, and never both.
pub fn sound_or_a_first_fault()
    ensures either { (mode : Mode) (file : File) → IsNested mode file → SoundOrFaulty mode file }
    ensures never_both { (mode : Mode) (file : File) → Sound mode file → HasNoFirstFault mode file }
{}

/// Where no fault leaves the kind of an expression open, it is the kind that the meaning gives it.
pub fn known_kinds_are_those_of_the_meaning()
    ensures { KindsAgree }
{}

/// Each fault of names, calls and kinds stands at a place of the program's tree: a test that all places of the tree pass, the
/// place of each fault passes, and so does that of the first.
pub fn faults_stand_in_the_tree()
    ensures names { (test : Place → Bool) (file : File) → AllPass test (placed file) → FaultsPass test (faults_of_names (placed file)) }
    ensures calls { (test : Place → Bool) (file : File) → AllPass test (placed file) → FaultsPass test (faults_of_calls (placed file)) }
    ensures kinds { (test : Place → Bool) (mode : Mode) (file : File) → AllPass test (placed file) → FaultsPass test (faults_of_kinds mode (placed file)) }
    ensures first { (test : Place → Bool) (mode : Mode) (file : File) → AllPass test (placed file) → (fault : Found) → FirstFault mode file fault → IsTrue (test fault.at) }
{}
