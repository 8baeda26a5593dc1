//! One column beside all columns.

ghost use Rattle.std.specs.Prelude.{◌≡◌, ◌&&◌, ℕ, ℤ, pos, List, [], ◌∷◌, Bool, true, false, Some};
ghost use Rattle.std.specs.Ordering.{int_eq};
ghost use Rattle.courses.specs.Element.{Value, Undefined, Element, same_element, Store};
ghost use Rattle.courses.specs.Ranges.{wholes_from};
ghost use Rattle.courses.specs.Interaction.{Interaction, Read, Write, Order, bind, Orders, answer_of, store_of};
ghost use Rattle.courses.specs.Renaming.{KeepsApart, view};
ghost use Rattle.courses.specs.Course.{Sort, Answer, Course, Way, line, in_order};
ghost use Rattle.courses.specs.Copying.{Callee, among, called};
ghost use Rattle.courses.specs.Marked.{marked};
ghost use Rattle.courses.specs.Weaving.{IsApart, IsFair, IsOrderly};
ghost use Rattle.courses.specs.Plans.{Plan};
ghost use Rattle.courses.specs.Columns.{Varying, varies, column, is_own, is_column, Knowledge, Knows, Lockstep, IsShared, AreColumns, CallsMatch, IsColumnBody, Serves, nothing_varies};

/// A column's elements are kept apart by their places in the wide variables, and each wide place is one column's.
pub fn column_elements()
    ensures apart { (vary : Varying) (c : ℤ) → KeepsApart (column vary c) }
    ensures own { (vary : Varying) (c d : ℤ) (e : Element) → is_own vary d (column vary c e) ≡ varies vary e && int_eq c d }
{}

/// Parts in lock step, one after the other, are in lock step.
pub fn columns_in_sequence()
    ensures { (k l : Sort) (vary : Varying) (cols : List ℤ) (pre mid post : Knowledge) (r q : Interaction (Answer k)) (f g : Answer k → Interaction (Answer l)) → Lockstep vary cols pre mid r q → ((a : Answer k) → Lockstep vary cols mid post (f a) (g a)) → Lockstep vary cols pre post (bind r f) (bind q g) }
{}

/// A part on shared elements alone, without marked loops, is in lock step with itself, for at least one column.
pub fn shared_parts()
    ensures { (k : Sort) (vary : Varying) (cols : List ℤ) (pre post : Knowledge) (w : Element → Bool) (c : ℤ) (r : Interaction (Answer k)) → is_column c cols ≡ true → IsShared vary w r → ((o : Orders) (s : Store) (j : ℕ) → Knows pre s → Knows post (store_of r o s j)) → Lockstep vary cols pre post r r }
{}

/// A read and a write of a shared element, and what follows them, are in lock step, for any number of columns: what is
/// known of the element before is what all read, and after the write it is the value.
pub fn shared_accesses()
    ensures read { (k : Sort) (vary : Varying) (cols : List ℤ) (pre post : Knowledge) (e : Element) (f g : Value → Interaction (Answer k)) → varies vary e ≡ false → ((v : Value) → ((w : Value) → pre e ≡ Some w → v ≡ w) → Lockstep vary cols pre post (f v) (g v)) → Lockstep vary cols pre post (Read e f) (Read e g) }
    ensures write { (k : Sort) (vary : Varying) (cols : List ℤ) (pre mid post : Knowledge) (e : Element) (v : Value) (r q : Interaction (Answer k)) → varies vary e ≡ false → ((w : Value) → mid e ≡ Some w → v ≡ w) → ((x : Element) (w : Value) → same_element e x ≡ false → mid x ≡ Some w → pre x ≡ Some w) → Lockstep vary cols mid post r q → Lockstep vary cols pre post (Write e v r) (Write e v q) }
{}

/// Where nothing varies, lock step of one column says that both end or trap alike, with equal answers and stores.
pub fn nothing_varying()
    ensures view { (c : ℤ) (s : Store) → view (column nothing_varies c) s ≡ s }
    ensures answers { (k : Sort) (pre post : Knowledge) (r q : Interaction (Answer k)) → Lockstep nothing_varies (pos 0 ∷ []) pre post r q → (o : Orders) (s : Store) (j : ℕ) (o' : Orders) (j' : ℕ) → IsFair o → Knows pre s → answer_of q o s j ≡ answer_of r o' s j' }
{}

/// A marked loop whose iterations are the columns, for at least one column: in every order it is in lock step with the
/// columns' own interactions, and its iterations are apart.
pub fn column_loops()
    ensures lockstep { (k : Sort) (vary : Varying) (low : ℤ) (own : Element → Bool) (answer : Answer k) (step : ℕ → Interaction (Unit {0})) (r rest : Interaction (Answer k)) → AreColumns vary low own answer step r rest → (know : Knowledge) → ((e : Element) (v : Value) → know e ≡ Some v → varies vary e ≡ false) → ((e : Element) → own e ≡ true → know e ≡ Some Undefined) → (n : ℕ) (c : ℤ) → is_column c (wholes_from low n) ≡ true → Lockstep vary (wholes_from low n) know know r (Order n (λ ks. in_order step ks rest)) }
    ensures apart { (k : Sort) (vary : Varying) (low : ℤ) (own : Element → Bool) (answer : Answer k) (step : ℕ → Interaction (Unit {0})) (r rest : Interaction (Answer k)) → AreColumns vary low own answer step r rest → IsApart own step }
{}

/// A marked loop over the columns from low on whose body is, in each iteration, the column's course on its elements: it
/// is in lock step with the columns' courses, in every order, for at least one column, and it is orderly.
pub fn marked_columns()
    ensures lockstep { (vary : Varying) (id : Element) (es : List Element) (low : ℤ) (q r : Course Way) → IsColumnBody vary id es q r → (know : Knowledge) → ((e : Element) (v : Value) → know e ≡ Some v → varies vary e ≡ false) → ((e : Element) → among (id ∷ es) e ≡ true → know e ≡ Some Undefined) → (n : ℕ) (c : ℤ) → is_column c (wholes_from low n) ≡ true → Lockstep vary (wholes_from low n) know know (line r) (line (marked id es low n q)) }
    ensures orderly { (vary : Varying) (id : Element) (es : List Element) (low : ℤ) (q r : Course Way) → IsColumnBody vary id es q r → (n : ℕ) → IsOrderly q → IsOrderly (marked id es low n q) }
{}

/// A call for all columns is in lock step with each column's call, where their bodies are, for any number of columns.
pub fn column_calls()
    ensures { (k l : Sort) (vary : Varying) (cols : List ℤ) (pre deep deep' mid post : Knowledge) (f f' : Callee k) (vs : List Value) (xs es xs' es' : List Element) → CallsMatch vary cols pre deep deep' mid f f' vs xs es xs' es' → (g g' : Answer k → Course l) → ((a : Answer k) → Lockstep vary cols mid post (line (g a)) (line (g' a))) → Lockstep vary cols pre post (line (called f vs xs es g)) (line (called f' vs xs' es' g')) }
{}

/// A course in lock step with the columns' course serves all columns, under every plan and every schedule, if it is
/// orderly.
pub fn columns_served()
    ensures { (vary : Varying) (cols : List ℤ) (pre post : Knowledge) (r q : Course Way) → Lockstep vary cols pre post (line r) (line q) → IsOrderly q → (s : Store) → Knows pre s → (plan : Plan) → Serves vary cols r q s plan }
{}
