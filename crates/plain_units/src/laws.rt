//! What a unit without columns keeps.

ghost use Rattle.std.specs.List.{IsDistinct};
ghost use Rattle.std.specs.Prelude.{◌≡◌, ◌++◌, ℕ, List, [], ◌∷◌, Bool, true, Some, false, length, map, slice_get, ⊤};
ghost use Rattle.std.specs.Str.{bytes_eq};
ghost use Rattle.courses.specs.Plans.{Plan};
ghost use Rattle.claw_meaning.specs.Syntax.{Text, Unit, Program};
ghost use Rattle.claw_meaning.specs.Units.{is_column_unit};
ghost use Rattle.claw_meaning.specs.Frames.{Frame};
ghost use Rattle.claw_meaning.specs.Runs.{exec, Apart};
ghost use Rattle.claw_meaning.specs.Kept.{KeepsUnit};
ghost use Rattle.claw_meaning.specs.Interface.{widening_of, UnitInterface};
ghost use Rattle.claw_meaning.specs.Erasure.{bare_unit, erased_unit};
ghost use Rattle.claw_meaning.specs.Spread.{are_unmarked, has_routine};
ghost use Rattle.plain_units.specs.Calling.{runs_column, AllCall, CallsPlain};
ghost use Rattle.plain_units.specs.Translated.{Translates, TranslatesUnit, TranslatesUnits, ArePlain};

/// In a translated program, under every plan and from every frame, a plain unit traps where it did, else leaves what it left,
/// and runs no marked loop.
pub fn plain_units_kept()
    ensures kept { (s t : Program) → Translates s t → ArePlain s → (i : ℕ) (u v : Unit) → slice_get s.units i ≡ Some u → slice_get t.units i ≡ Some v → is_column_unit u ≡ false → (plan : Plan) (frame : Frame) → KeepsUnit s t u v plan frame }
    ensures apart { (s t : Program) → Translates s t → ArePlain s → (i : ℕ) (u v : Unit) → slice_get s.units i ≡ Some u → slice_get t.units i ≡ Some v → is_column_unit u ≡ false → (plan : Plan) (frame : Frame) → Apart (exec t v frame plan) }
{}

/// In a translated program a plain unit is declared in its groups and refers as the source's interface wants, it is the bare
/// source when erased, no loop in it is marked, and it isn't a `routine`.
pub fn plain_units_written()
    ensures interface { (s t : Program) → Translates s t → ArePlain s → (i : ℕ) (u v : Unit) → slice_get s.units i ≡ Some u → slice_get t.units i ≡ Some v → is_column_unit u ≡ false → (wide : Text → Bool) → UnitInterface s u v (widening_of s u wide) }
    ensures erased { (s t : Program) → Translates s t → ArePlain s → (i : ℕ) (u v : Unit) → slice_get s.units i ≡ Some u → slice_get t.units i ≡ Some v → is_column_unit u ≡ false → (wide : Text → Bool) → erased_unit s u (widening_of s u wide) v ≡ bare_unit s u }
    ensures unmarked { (s t : Program) → Translates s t → ArePlain s → (i : ℕ) (u v : Unit) → slice_get s.units i ≡ Some u → slice_get t.units i ≡ Some v → is_column_unit u ≡ false → are_unmarked v.body ≡ true }
    ensures routine { (s t : Program) → Translates s t → ArePlain s → (i : ℕ) (u v : Unit) → slice_get s.units i ≡ Some u → slice_get t.units i ≡ Some v → is_column_unit u ≡ false → has_routine v ≡ false }
{}

/// What is written with the source's interface in place of a column unit that declares each name once may stand there in a
/// translated program.
pub fn column_units_translated()
    ensures { (s : Program) (u t : Unit) (wide : Text → Bool) → is_column_unit u ≡ true → UnitInterface s u t (widening_of s u wide) → IsDistinct bytes_eq (map (λ d. d.name) u.decls) → TranslatesUnit u t }
{}

/// The units of a translated program come one after another, or each at the number of the unit that it is made of.
pub fn translated_unit_by_unit()
    ensures last { (us ts : List Unit) (u t : Unit) → TranslatesUnits us ts → TranslatesUnit u t → TranslatesUnits (us ++ u ∷ []) (ts ++ t ∷ []) }
    ensures each { (us ts : List Unit) → length ts ≡ length us → ((i : ℕ) (u t : Unit) → slice_get us i ≡ Some u → slice_get ts i ≡ Some t → TranslatesUnit u t) → TranslatesUnits us ts }
{}

/// A unit calls no column unit where none of its CALLs does and it refers to none.
pub fn calls_and_references()
    ensures { (s : Program) (u : Unit) → AllCall (λ x. runs_column s u x ≡ false) (λ x. ⊤) u.body → AllCall (λ x. ⊤) (λ x. runs_column s u x ≡ false) u.body → CallsPlain s u }
{}
