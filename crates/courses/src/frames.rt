//! Frames and stores.

ghost use Rattle.std.specs.Prelude.{◌≡◌, ◌&&◌, ℕ, ℤ, int_le, List, true};
ghost use Rattle.courses.specs.Element.{Element, Store};
ghost use Rattle.courses.specs.Columns.{inserted};
ghost use Rattle.courses.specs.Frames.{Entry, places, is_place, within, bounds_inserted, look, inside, filled, IsFrame};

/// The places of an array are the lists of one subscript for each dimension within its bounds, and so with a dimension
/// more.
pub fn array_places()
    ensures within { (bs : List (ℤ × ℤ)) (is : List ℤ) → is_place (places bs) is ≡ within bs is }
    ensures wide { (k : ℕ) (b : ℤ × ℤ) (bs : List (ℤ × ℤ)) (c : ℤ) (is : List ℤ) → within (bounds_inserted k b bs) (inserted k c is) ≡ (int_le b.0 c && int_le c b.1) && within bs is }
{}

/// The bridge between stores, in which proofs are done, and frames, which contracts see.
pub fn frames()
    ensures look_filled { (f : List Entry) (s : Store) (e : Element) → inside f e ≡ true → look (filled f s) e ≡ s e }
    ensures filled_look { (f : List Entry) → IsFrame f → filled f (look f) ≡ f }
    ensures filled_same { (f : List Entry) (s s' : Store) → IsFrame f → ((e : Element) → inside f e ≡ true → s e ≡ s' e) → filled f s ≡ filled f s' }
    ensures filled_frame { (f : List Entry) (s : Store) → IsFrame f → IsFrame (filled f s) }
{}
