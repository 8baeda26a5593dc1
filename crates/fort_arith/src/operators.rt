ghost use Rattle.std.specs.Prelude.{◌≡◌, IsTrue};
ghost use Rattle.fort_arith.specs.Range.{is_whole, fitted};
ghost use Rattle.fort_arith.specs.declared.kind.Kind.TheVariants.{I8};
ghost use Rattle.std.specs.Option.{option_and_then};
ghost use Rattle.fort_arith.specs.Operators.{is_arithmetic, is_relation, exact as exact_of, applied, compared};

use crate::power::{exact_power, quotient};
use crate::range::fit;
use crate::{Kind, Op};

/// The truth of a relation between two numbers (ISO/IEC 1539-1:2018 10.1.5.5).
#[tactic(auto, unfolding(crate::specs::Operators::compared))]
pub fn compare(op: Op, a: i64, b: i64) -> bool
    requires relation { IsTrue (is_relation op) }
    ensures { result ≡ compared op a b }
{
    match op {
        Op::Eq => a == b,
        Op::Ne => a != b,
        Op::Lt => a < b,
        Op::Le => a <= b,
        Op::Gt => b < a,
        Op::Ge => b <= a,
        _ => unreachable!(),
    }
}

/// The value of an arithmetic operation on two numbers, in a kind (ISO/IEC 1539-1:2018 10.1.5.2): the exact value, or `None`
/// exactly where there is none, as in a division by zero or a negative power of zero, and where it isn't in the kind. The
/// operands are mostly of the kind, but needn't be.
pub fn apply(op: Op, kind: Kind, a: i64, b: i64) -> Option<i64>
    requires arithmetic { IsTrue (is_arithmetic op) }
    requires whole { IsTrue (is_whole kind) }
    ensures { result ≡ applied op kind a b }
{
    fit(kind, exact(op, a, b)?)
}

/// The exact value of an arithmetic operation, as a number of kind 8.
fn exact(op: Op, a: i64, b: i64) -> Option<i64>
    requires arithmetic { IsTrue (is_arithmetic op) }
    ensures { result ≡ option_and_then (fitted I8) (exact_of op a b) }
{
    match op {
        Op::Pow => exact_power(a, b),
        Op::Mul => a.checked_mul(b),
        Op::Div => quotient(a, b),
        Op::Add => a.checked_add(b),
        Op::Sub => a.checked_sub(b),
        _ => unreachable!(),
    }
}
