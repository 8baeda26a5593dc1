//! Courses and their readings.

ghost use Rattle.std.specs.Prelude.{◌≡◌, ℕ, List, [], ◌++◌};
ghost use Rattle.courses.specs.Element.{Value, Element, Store};
ghost use Rattle.courses.specs.Interaction.{bind, Orders, answer_of, next_of, store_of};
ghost use Rattle.courses.specs.Course.{Sort, Answer, Course, Give, and_then, line, loop_runs, on_some};
ghost use Rattle.courses.specs.Copying.{Callee, CallDoes};
ghost use Rattle.courses.specs.Weaving.{IsFair, IsOrderly, AreApart, AllApart, WovenAlike, LinesAlike, woven_line};

/// Going on with nothing changes nothing, and it doesn't matter how three courses are put together.
pub fn course_monad()
    ensures unit { (k : Sort) (q : Course k) → and_then q (λ a. Give {k = k} a) ≡ q }
    ensures associative { (k l m : Sort) (q : Course k) (f : Answer k → Course l) (g : Answer l → Course m) → and_then (and_then q f) g ≡ and_then q (λ a. and_then (f a) g) }
{}

/// The line of two courses, one after the other, is the line of the first and then that of the second.
pub fn course_line()
    ensures { (k l : Sort) (r : Course k) (g : Answer k → Course l) → line (and_then r g) ≡ bind (line r) (λ a. line (g a)) }
{}

/// The woven line of two courses is the two woven lines, and their loop runs are those of the first and, where it ends,
/// those of the second.
pub fn courses_in_sequence()
    ensures woven { (k l : Sort) (q : Course k) (g : Answer k → Course l) (ks : List ℕ) → woven_line (and_then q g) ks ≡ bind (woven_line q ks) (λ a. woven_line (g a) ks) }
    ensures loop_runs { (k l : Sort) (q : Course k) (g : Answer k → Course l) (o : Orders) (s : Store) (j : ℕ) → loop_runs (and_then q g) o s j ≡ loop_runs q o s j ++ on_some (answer_of (line q) o s j) [] (λ a. loop_runs (g a) o (store_of (line q) o s j) (next_of (line q) o s j)) }
{}

/// Where the iterations of each marked loop share no element that one of them writes, whatever they start from, the
/// loop runs are apart: in all orders, in nested loops, in callees, and in runs that trap.
pub fn loop_runs_apart()
    ensures { (k : Sort) (q : Course k) → AreApart q → (o : Orders) → IsFair o → (s : Store) (j : ℕ) → AllApart (loop_runs q o s j) }
{}

/// An orderly course ends or traps under every schedule as under all orders, leaves the same store, and each iteration
/// makes a prefix of the events that it makes alone.
pub fn schedules()
    ensures { (k : Sort) (q : Course k) → IsOrderly q → (ks : List ℕ) (o : Orders) → IsFair o → (s : Store) (j : ℕ) → WovenAlike q ks o s j }
{}

/// The same of the woven course as one line of accesses.
pub fn woven_lines()
    ensures { (k : Sort) (q : Course k) → IsOrderly q → (ks : List ℕ) (o : Orders) → IsFair o → (s : Store) (j : ℕ) → LinesAlike q ks o s j }
{}

/// A call by copy: the callee's body runs from a store in which its own elements are undefined but for the values and
/// copies that it gets; where it ends, its last values are copied back, all else that it owns is dropped, and the call
/// goes on with its answer.
pub fn calls_by_copy()
    ensures { (k l : Sort) (f : Callee k) (vs : List Value) (xs es : List Element) (g : Answer k → Course l) (o : Orders) (s : Store) (j : ℕ) → CallDoes f vs xs es g o s j }
{}
