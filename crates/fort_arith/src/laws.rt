//! The truth of the definitions in the words of the standard and of whole numbers: each function does nothing and ensures a law.
ghost use Rattle.std.specs.Prelude.{◌≡◌, ◌≢◌, ◌↔◌, ℕ, ◌+◌, Some, None, ℤ, pos, ◌*ℤ◌, ◌≤ℤ◌, IsTrue, List, [], ◌∷◌};
ghost use Rattle.fort_arith.specs.declared.kind.Kind.{Kind};
ghost use Rattle.fort_arith.specs.declared.op.Op.{Op};
ghost use Rattle.fort_arith.specs.declared.op.Intrinsic.{Intrinsic};
ghost use Rattle.fort_arith.specs.declared.op.Intrinsic.TheVariants.{Max, Min};
ghost use Rattle.fort_arith.specs.Range.{is_whole, least, greatest, in_kind, fitted};
ghost use Rattle.fort_arith.specs.Power.{power, quotient};
ghost use Rattle.fort_arith.specs.Operators.{exact, applied};
ghost use Rattle.fort_arith.specs.Intrinsics.{absolute, remainder, modulo, with_sign, exact_intrinsic, intrinsic_applied};
ghost use Rattle.fort_arith.specs.Laws.{Limits, Truncates, Floors, Relations, IsAbsolute, HasSign, IsGreatest, IsLeast, OperatorRows, IntrinsicRows};

/// A kind holds the signed numbers of its bits.
pub fn kinds()
    ensures limits { Limits }
    ensures between { (kind : Kind) (v : ℤ) → IsTrue (in_kind kind v) ↔ (IsTrue (is_whole kind) × (least kind ≤ℤ v) × (v ≤ℤ greatest kind)) }
{}

/// An operation has a value exactly where the exact value exists and is in the kind, and then it is that one.
pub fn values()
    ensures fitted { (kind : Kind) (v w : ℤ) → (fitted kind v ≡ Some w) ↔ ((v ≡ w) × IsTrue (in_kind kind w)) }
    ensures operators { (op : Op) (kind : Kind) (a b v : ℤ) → (applied op kind a b ≡ Some v) ↔ ((exact op a b ≡ Some v) × IsTrue (in_kind kind v)) }
    ensures intrinsics { (which : Intrinsic) (kind : Kind) (args : List ℤ) (v : ℤ) → (intrinsic_applied which kind args ≡ Some v) ↔ ((exact_intrinsic which args ≡ Some v) × IsTrue (in_kind kind v)) }
{}

/// The quotient is the one number that a truncating division gives, and there is none for zero (ISO/IEC 1539-1:2018
/// 10.1.5.2, integer division); MOD is what it leaves, MODULO what a division that rounds down leaves (16.9, MOD and MODULO).
pub fn division()
    ensures quotient { (a b q : ℤ) → (quotient a b ≡ Some q) ↔ ((r : ℤ) × Truncates a b q r) }
    ensures remainder { (a p r : ℤ) → (remainder a p ≡ Some r) ↔ ((q : ℤ) × Truncates a p q r) }
    ensures modulo { (a p r : ℤ) → (modulo a p ≡ Some r) ↔ ((q : ℤ) × Floors a p q r) }
{}

/// The laws of powers.
pub fn powers()
    ensures none { (x : ℤ) → power x 0 ≡ pos 1 }
    ensures one { (x : ℤ) → power x 1 ≡ x }
    ensures sum { (x : ℤ) (m n : ℕ) → power x (m + n) ≡ power x m *ℤ power x n }
{}

/// The relations are those of the whole numbers.
pub fn relations()
    ensures { (a b : ℤ) → Relations a b }
{}

/// The values of ABS, SIGN, MAX and MIN (ISO/IEC 1539-1:2018 16.9, each under its name).
pub fn extremes()
    ensures absolute { (a : ℤ) → IsAbsolute a (absolute a) }
    ensures sign { (a b : ℤ) → HasSign a b (with_sign a b) }
    ensures greatest { (args : List ℤ) (r : ℤ) → exact_intrinsic Max args ≡ Some r → IsGreatest args r }
    ensures least { (args : List ℤ) (r : ℤ) → exact_intrinsic Min args ≡ Some r → IsLeast args r }
{}

/// Edge cases, by computation.
pub fn rows()
    ensures operators { OperatorRows }
    ensures intrinsics { IntrinsicRows }
{}
