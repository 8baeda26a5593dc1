//! Laws of the definitions. The functions do nothing; what they ensure holds of all lines and texts, or of the examples that are named.
ghost use Rattle.std.specs.Prelude.{◌≡◌, ◌∷◌, [], List, Option, Some, None, ℕ, true, is_some, codes, replicate};
ghost use Rattle.fort_tree.specs.declared.place.Place.{Place};
ghost use Rattle.fort_tokens.specs.declared.character.Char.{Char};
ghost use Rattle.fort_tokens.specs.Automaton.{has_form, has_number_form};
ghost use Rattle.fort_tokens.specs.Forms.{is_form, is_number_form};
ghost use Rattle.fort_tokens.specs.Reads.{Reads, Word};
ghost use Rattle.fort_tokens.specs.Reading.{Reading};
ghost use Rattle.fort_tokens.specs.Machine.{fresh, fed, fed_all, finished};
ghost use Rattle.fort_tokens.specs.Examples.{texts, bad_column};

/// A line is read in one way: as one list of tokens, with one first bad place or none.
pub fn reading_is_unique()
    ensures { (line : List Char) (these those : List Word) (here there : Option Place) → Reads line these here → Reads line those there → (these ≡ those) × (here ≡ there) }
{}

/// Each line is read: fed whole to a new reader it gives its tokens and its first bad place.
pub fn each_line_is_read()
    ensures { (line : List Char) → Reads line (finished (fed_all fresh line)).words (finished (fed_all fresh line)).bad }
{}

/// The steps from byte to byte accept just the forms of tokens.
pub fn forms_are_the_automaton()
    ensures forms { (text : List ℕ) → has_form text ≡ is_form text }
    ensures numbers { (text : List ℕ) → has_number_form text ≡ is_number_form text }
{}

/// An ampersand that stands in a line is a bad token or stands behind one, and a reader with a bad token stays as it is.
pub fn ampersand_is_bad()
    ensures bad { (reading : Reading) (c : Char) → c.byte ≡ 38 → is_some (fed reading c).bad ≡ true }
    ensures stays { (reading : Reading) (c : Char) → is_some reading.bad ≡ true → fed reading c ≡ reading }
{}

/// Two blanks are as one.
pub fn second_blank_changes_nothing()
    ensures { (reading : Reading) (first second : Char) → first.byte ≡ 32 → second.byte ≡ 32 → fed (fed reading first) second ≡ fed reading first }
{}

/// Lines as they are read, the longest token taken first.
pub fn lines_by_example()
    ensures kind_and_digit { texts (codes "5_16") ≡ codes "5_1" ∷ codes "6" ∷ [] }
    ensures number_and_word { texts (codes "5.eq.6") ≡ codes "5" ∷ codes ".eq." ∷ codes "6" ∷ [] }
    ensures name_and_word { texts (codes "A.Eq.b") ≡ codes "a" ∷ codes ".eq." ∷ codes "b" ∷ [] }
    ensures power_and_times { texts (codes "x**2*y") ≡ codes "x" ∷ codes "**" ∷ codes "2" ∷ codes "*" ∷ codes "y" ∷ [] }
    ensures wrong_kind { bad_column (codes "a 5_3") ≡ Some 4 }
    ensures point_and_digit { bad_column (codes "a=5.5") ≡ Some 3 }
    ensures point_alone { bad_column (codes "a=5. 5") ≡ Some 4 }
    ensures letter_behind { bad_column (codes "a=5_1x") ≡ Some 3 }
    ensures no_word { bad_column (codes "a=.tru.") ≡ Some 3 }
    ensures mark_inside { bad_column (codes "a & b") ≡ Some 3 }
    ensures quote { bad_column (codes "a='b'") ≡ Some 3 }
{}

/// A number that is too large and a name that is too long are bad where they begin.
pub fn too_long_and_too_large()
    ensures large { texts (codes "9223372036854775807_8") ≡ codes "9223372036854775807_8" ∷ [] }
    ensures too_large { bad_column (codes "x=9223372036854775808") ≡ Some 3 }
    ensures long { texts (replicate 63 97) ≡ replicate 63 97 ∷ [] }
    ensures too_long { bad_column (32 ∷ replicate 64 97) ≡ Some 2 }
{}
