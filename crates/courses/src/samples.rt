//! Small courses under orders and schedules, by computation.

ghost use Rattle.std.specs.Prelude.{◌≡◌, ℕ, ℤ, pos, [], ◌∷◌, true};
ghost use Rattle.courses.specs.Element.{Undefined, Whole, Store};
ghost use Rattle.courses.specs.Ranges.{wholes_from};
ghost use Rattle.courses.specs.Interaction.{Reads, Writes, store_of};
ghost use Rattle.courses.specs.Course.{line, loop_runs};
ghost use Rattle.courses.specs.Weaving.{rising, woven_line, store_woven};
ghost use Rattle.courses.specs.Plans.{Plan, Each, orders_of, from_one};
ghost use Rattle.courses.specs.Columns.{is_column, Serves};
ghost use Rattle.courses.specs.Samples.{sum_element, dummy_element, carried, carried_inside, from_zero, column_number, second_of_a, column_adds, all_columns_add};

/// Two iterations that each add one to the scalar s, from 0: in order s is 2, and one update is lost where both read
/// before they write.
pub fn lost_update()
    ensures in_order { store_of (line (carried sum_element)) rising from_zero 0 sum_element ≡ Whole (pos 2) }
    ensures backwards { store_of (line (carried sum_element)) (orders_of (Each (2 ∷ 1 ∷ []))) from_zero 0 sum_element ≡ Whole (pos 2) }
    ensures woven { store_woven (carried sum_element) (from_one (1 ∷ 2 ∷ 1 ∷ 2 ∷ [])) from_zero sum_element ≡ Whole (pos 1) }
    ensures woven_line { store_of (woven_line (carried sum_element) (from_one (1 ∷ 2 ∷ 1 ∷ 2 ∷ []))) rising from_zero 0 sum_element ≡ Whole (pos 1) }
    ensures one_by_one { store_woven (carried sum_element) (from_one (1 ∷ 1 ∷ 8 ∷ 2 ∷ 1 ∷ [])) from_zero sum_element ≡ Whole (pos 2) }
    ensures touches { loop_runs (carried sum_element) rising from_zero 0 ≡ ((Reads sum_element ∷ Writes sum_element ∷ []) ∷ (Reads sum_element ∷ Writes sum_element ∷ []) ∷ []) ∷ [] }
{}

/// The same loop inside a callee: its iterations share the callee's dummy.
pub fn lost_update_inside()
    ensures in_order { store_of (line carried_inside) rising from_zero 0 sum_element ≡ Whole (pos 2) }
    ensures woven { store_woven carried_inside (from_one (1 ∷ 2 ∷ 1 ∷ 2 ∷ [])) from_zero sum_element ≡ Whole (pos 1) }
    ensures woven_line { store_of (woven_line carried_inside (from_one (1 ∷ 2 ∷ 1 ∷ 2 ∷ []))) rising from_zero 0 sum_element ≡ Whole (pos 1) }
    ensures touches { loop_runs carried_inside rising from_zero 0 ≡ ((Reads dummy_element ∷ Writes dummy_element ∷ []) ∷ (Reads dummy_element ∷ Writes dummy_element ∷ []) ∷ []) ∷ [] }
{}

/// A marked loop that adds one to a(5,k) in each column k serves all columns of a(5) = a(5) + 1, whatever their number
/// from one on, under every plan and schedule.
pub fn columns_of_an_array()
    ensures { (low : ℤ) (n : ℕ) (c : ℤ) → is_column c (wholes_from low n) ≡ true → (s : Store) → s column_number ≡ Undefined → (plan : Plan) → Serves second_of_a (wholes_from low n) column_adds (all_columns_add low n) s plan }
{}
