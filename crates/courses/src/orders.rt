//! Steps in one order or another, plans, and interleavings.

ghost use Rattle.std.specs.Prelude.{ℕ, List, Bool};
ghost use Rattle.std.specs.Prelude.{◌≡◌};
ghost use Rattle.courses.specs.Element.{Value, Element, Store};
ghost use Rattle.courses.specs.Interaction.{Interaction, Orders, answer_of, log_of};
ghost use Rattle.courses.specs.Logs.{touches};
ghost use Rattle.courses.specs.Steps.{Steps, SameSteps, MayReorder, SameRun};
ghost use Rattle.courses.specs.Handlers.{Forgets, IsSettled};
ghost use Rattle.courses.specs.Private.{MayReorderBut, SameRunBut};
ghost use Rattle.courses.specs.Interleaving.{AllClear, WovenWell};
ghost use Rattle.courses.specs.Course.{Sort, Answer};
ghost use Rattle.courses.specs.Weaving.{IsFair, rising};
ghost use Rattle.courses.specs.Next.{next_access, replied, first_touch};
ghost use Rattle.courses.specs.Plans.{Plan, orders_of};

/// The law of orders: where no step traps in one order, and steps whose order differs in another share no element that
/// one of them writes, no step traps in the other order either, the stores are equal, and each step does what it did.
pub fn law_of_orders()
    ensures { (k : Sort) (w : Steps (Answer k)) (s : Store) (xs ys : List ℕ) → SameSteps xs ys → MayReorder w s xs ys → SameRun w s xs ys }
{}

/// The law of orders for steps that have elements of their own, which each undefines or sets before it reads them: the
/// stores are equal but for these.
pub fn private_orders()
    ensures { (own : Element → Bool) (step : ℕ → Interaction (Unit {0})) → ((i : ℕ) → IsSettled (step i)) → ((i : ℕ) → Forgets own (step i)) → (o : Orders) (s : Store) (j : ℕ) (xs ys : List ℕ) → SameSteps xs ys → MayReorderBut own step o s j xs ys → SameRunBut own step o s j xs ys }
{}

/// Weaving: where no two iterations, each run alone from the opening store, share an element that one of them writes,
/// under every schedule each iteration's events are a prefix of those that it makes alone, and in the end all of them;
/// a trap comes exactly where one traps alone, and the store is that of any order.
pub fn weaving()
    ensures { (k : Sort) (w : Steps (Answer k)) (xs ks : List ℕ) (s : Store) → AllClear w xs s → WovenWell w xs ks s }
{}

/// Every plan gives each marked loop each of its iterations once.
pub fn fair_plans()
    ensures { (plan : Plan) → IsFair (orders_of plan) }
{}

/// The next access of an iteration is determined by the replies to its earlier ones: it is the first touch of what is left
/// after these, from every store.
pub fn next_accesses()
    ensures { (k : Sort) (r : Interaction (Answer k)) (vs : List Value) (s : Store) (j : ℕ) → next_access r vs ≡ first_touch (touches (log_of (replied r vs) rising s j)) (answer_of (replied r vs) rising s j) }
{}
