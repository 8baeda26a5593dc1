//! Laws of the definitions. The functions do nothing; what they ensure holds of all texts.
ghost use Rattle.std.specs.Prelude.{◌≡◌, ◌≤◌, ◌+◌, length, map, ◌++◌, ◌∷◌, [], ℕ, List, Some, None, true, false, codes, replicate};
ghost use Rattle.fort_tree.specs.declared.choice.Mode.{Mode};
ghost use Rattle.fort_tree.specs.declared.fault.Fault.{Fault};
ghost use Rattle.fort_tree.specs.declared.statement.Line.{Line};
ghost use Rattle.fort_lex.specs.Lines.{Written, written, HasLines, AreLines, IsFirstTextFault};
ghost use Rattle.std.specs.List.{All};
ghost use Rattle.fort_lex.specs.Going.{Going};
ghost use Rattle.fort_lex.specs.Places.{InFile, StandsIn};
ghost use Rattle.fort_lex.specs.Examples.{lines, first, plain};
ghost use Rattle.fort_tree.specs.declared.fault.Code.TheVariants.{E01, E02, E03};

use fort_tokens::reading_is_unique;

/// A text has one list of logical lines, and one list of faults.
pub fn lines_are_unique()
    ensures { (file : ℕ) (mode : Mode) (text : List ℕ) (these those : List Written) (here there : List Fault) → HasLines file mode text these here → HasLines file mode text those there → (these ≡ those) × (here ≡ there) }
{
    reading_is_unique();
}

/// A text that has a first fault has faults.
pub fn lines_or_a_fault()
    ensures { (file : ℕ) (mode : Mode) (text : List ℕ) (lines : List Written) (fault : Fault) → AreLines file mode text lines → IsFirstTextFault file mode text fault → ⊥ }
{
    lines_are_unique();
}

/// A text has at most one logical line more than bytes.
pub fn lines_are_few()
    ensures { (file : ℕ) (mode : Mode) (text : List ℕ) (lines : List Written) (faults : List Fault) → HasLines file mode text lines faults → length lines ≤ length text + 1 }
{}

/// The lines of text number `file` and its first fault have all their places in it.
pub fn lines_stand_in_their_file()
    ensures lines { (file : ℕ) (mode : Mode) (text : List ℕ) (lines : List Line) (faults : List Fault) → HasLines file mode text (map written lines) faults → All (StandsIn file) lines }
    ensures fault { (file : ℕ) (mode : Mode) (text : List ℕ) (fault : Fault) → IsFirstTextFault file mode text fault → InFile file fault.place }
{}

/// Each text has its lines and faults, and the way over the lines one after the other gives them.
pub fn each_text_is_gone_over()
    ensures { (file : ℕ) (mode : Mode) (text : List ℕ) → Going file mode text }
{}

/// Texts and their lines.
pub fn lines_by_example()
    ensures comment_between { lines (codes "a &\n! no\n\n b") ≡ plain 1 1 (codes "a" ∷ codes "b" ∷ []) ∷ [] }
    ensures split_token { lines (codes "ab&\n &cd&\n&ef") ≡ plain 1 1 (codes "abcdef" ∷ []) ∷ [] }
    ensures mark_alone { lines (codes "a&\n&\nb") ≡ plain 1 1 (codes "a" ∷ codes "b" ∷ []) ∷ [] }
    ensures mark_alone_joined { lines (codes "a&\n & \n&b") ≡ plain 1 1 (codes "ab" ∷ []) ∷ [] }
    ensures directive_within { lines (codes "a &\n !$claw b\nc") ≡ plain 1 1 (codes "a" ∷ codes "c" ∷ []) ∷ record { line = 2; column = 2; unfinished = None; within = true; texts = codes "!$claw" ∷ codes "b" ∷ [] } ∷ [] }
    ensures directive_before_text { lines (codes "&\n!$omp\tb\nc") ≡ record { line = 2; column = 1; unfinished = None; within = true; texts = codes "!$omp" ∷ codes "b" ∷ [] } ∷ plain 3 1 (codes "c" ∷ []) ∷ [] }
    ensures nothing_follows { lines (codes "a &\n!$acc b") ≡ record { line = 1; column = 1; unfinished = Some (1, 3); within = false; texts = codes "a" ∷ [] } ∷ plain 2 1 (codes "!$acc" ∷ codes "b" ∷ []) ∷ [] }
    ensures directive_continued { lines (codes "!$CLAW a&\n!$claw &b") ≡ plain 1 1 (codes "!$claw" ∷ codes "ab" ∷ []) ∷ [] }
    ensures directive_left { lines (codes "!$claw a &\n\n!$claw b") ≡ record { line = 1; column = 1; unfinished = Some (1, 10); within = false; texts = codes "!$claw" ∷ codes "a" ∷ [] } ∷ plain 3 1 (codes "!$claw" ∷ codes "b" ∷ []) ∷ [] }
    ensures other_sentinel { lines (codes "!$omp &\n!$acc b") ≡ record { line = 1; column = 1; unfinished = Some (1, 7); within = false; texts = codes "!$omp" ∷ [] } ∷ plain 2 1 (codes "!$acc" ∷ codes "b" ∷ []) ∷ [] }
    ensures sentinel_alone { lines (codes "!$claw\n!$claw \n!$clawed") ≡ plain 2 1 (codes "!$claw" ∷ []) ∷ [] }
    ensures semicolons { lines (codes "; a ;; b &\n; &") ≡ plain 1 3 (codes "a" ∷ []) ∷ plain 1 8 (codes "b" ∷ []) ∷ [] }
    ensures tab_is_one_column { lines (codes "\ta") ≡ plain 1 2 (codes "a" ∷ []) ∷ [] }
{}

/// Texts and their first faults.
pub fn faults_by_example()
    ensures return_dropped { first (codes "a\r\nb") ≡ None }
    ensures return_at_end { first (codes "a\nb\r") ≡ Some (E01, (2, 2)) }
    ensures column_132 { first (replicate 132 32) ≡ None }
    ensures column_133 { first (replicate 133 32) ≡ Some (E02, (1, 133)) }
    ensures long_comment { first (replicate 132 32 ++ codes "! no\r\n") ≡ None }
    ensures early_token { first (codes "a = .tru\r.") ≡ Some (E03, (1, 5)) }
    ensures semicolon_in_directive { first (codes "!$claw a; b") ≡ Some (E03, (1, 9)) }
    ensures smaller_code { first (codes "a = \r") ≡ Some (E01, (1, 5)) }
{}
