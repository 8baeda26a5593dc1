//! Elements of variables.

ghost use Rattle.std.specs.Prelude.{◌≡◌, false};
ghost use Rattle.std.specs.Bool.{Decides};
ghost use Rattle.std.specs.Cmp.{IsEquivalence};
ghost use Rattle.courses.specs.Element.{Value, Element, Store, same_element, put};

/// The test by which stores and logs tell elements apart decides equality, and so is reflexive, symmetric and
/// transitive.
pub fn element_equality()
    ensures decides { (a b : Element) → Decides (same_element a b) (a ≡ b) }
    ensures equivalence { IsEquivalence same_element }
{}

/// A write changes one element and no other.
pub fn single_writes()
    ensures same { (s : Store) (e : Element) (v : Value) → put s e v e ≡ v }
    ensures other { (s : Store) (e : Element) (v : Value) (x : Element) → same_element e x ≡ false → put s e v x ≡ s x }
{}
