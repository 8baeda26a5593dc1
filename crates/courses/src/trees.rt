//! Interaction trees.

ghost use Rattle.std.specs.Prelude.{◌≡◌, ◌+◌, ℕ, Bool, true, false, Some, None};
ghost use Rattle.courses.specs.Element.{Element, Store, merged};
ghost use Rattle.courses.specs.Interaction.{Interaction, Done, bind, Orders, answer_of, next_of, log_of, store_of};
ghost use Rattle.courses.specs.Logs.{Agree, Alike, is_written, turns};
ghost use Rattle.courses.specs.Renaming.{KeepsApart, RenamedRun};
ghost use Rattle.courses.specs.Handlers.{KeptAside, keeping};
ghost use Rattle.courses.specs.Always.{May, Always};
ghost use Rattle.courses.specs.Course.{Sort, Answer};

/// Going on with nothing changes nothing, and it doesn't matter how three parts are put together.
pub fn monad_laws()
    ensures unit { (k : Sort) (r : Interaction (Answer k)) → bind r Done ≡ r }
    ensures associative { (k l m : Sort) (r : Interaction (Answer k)) (f : Answer k → Interaction (Answer l)) (g : Answer l → Interaction (Answer m)) → bind (bind r f) g ≡ bind r (λ a. bind (f a) g) }
{}

/// The turns of two parts add up where the first ends, and are those of the first where it traps; a handler that keeps
/// elements aside changes none.
pub fn turns_add_up()
    ensures ends { (k l : Sort) (r : Interaction (Answer k)) (f : Answer k → Interaction (Answer l)) (a : Answer k) (o : Orders) (s : Store) (j : ℕ) → answer_of r o s j ≡ Some a → turns (log_of (bind r f) o s j) ≡ turns (log_of r o s j) + turns (log_of (f a) o (store_of r o s j) (next_of r o s j)) }
    ensures traps { (k l : Sort) (r : Interaction (Answer k)) (f : Answer k → Interaction (Answer l)) (o : Orders) (s : Store) (j : ℕ) → answer_of r o s j ≡ None → turns (log_of (bind r f) o s j) ≡ turns (log_of r o s j) }
    ensures kept { (k : Sort) (p : Element → Bool) (t : Store) (r : Interaction (Answer k)) (o : Orders) (s : Store) (j : ℕ) → turns (log_of (keeping p t r) o s j) ≡ turns (log_of r o (merged p t s) j) }
{}

/// Locality: from a store that agrees on what is read, a tree answers, logs and writes the same; and what it doesn't
/// write stays.
pub fn locality()
    ensures alike { (k : Sort) (r : Interaction (Answer k)) (o : Orders) (j : ℕ) (s s' : Store) → Agree (log_of r o s j) s s' → Alike r o j s s' }
    ensures unwritten { (k : Sort) (r : Interaction (Answer k)) (o : Orders) (s : Store) (j : ℕ) (e : Element) → is_written (log_of r o s j) e ≡ false → store_of r o s j e ≡ s e }
{}

/// Renaming: a tree with renamed elements does what the tree does on the store seen through the renaming, where the
/// renaming keeps elements apart.
pub fn renaming()
    ensures { (k : Sort) (f : Element → Element) (r : Interaction (Answer k)) (o : Orders) (s : Store) (j : ℕ) → KeepsApart f → RenamedRun f r o s j }
{}

/// A handler that keeps elements aside: the tree answers and logs as from the store that holds the kept elements, and
/// leaves these elements of its store as they were.
pub fn kept_aside()
    ensures { (k : Sort) (p : Element → Bool) (t : Store) (r : Interaction (Answer k)) (o : Orders) (s : Store) (j : ℕ) → KeptAside p t r o s j }
{}

/// What a tree may not write, whatever the replies, it leaves as it was, under all orders.
pub fn allowed_writes()
    ensures { (k : Sort) (m : May) (r : Interaction (Answer k)) (o : Orders) (s : Store) (j : ℕ) (e : Element) → Always m r → m.write e ≡ false → store_of r o s j e ≡ s e }
{}
