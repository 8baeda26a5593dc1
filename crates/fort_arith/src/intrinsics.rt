ghost use Rattle.std.specs.Prelude.{◌≡◌, IsTrue, length};
ghost use Rattle.std.specs.Int.{int_max, int_min};
ghost use Rattle.std.specs.List.{fold};
ghost use Rattle.std.specs.Option.{option_and_then};
ghost use Rattle.fort_arith.specs.declared.kind.Kind.TheVariants.{I8};
ghost use Rattle.fort_arith.specs.Range.{is_whole, fitted};
ghost use Rattle.fort_arith.specs.Intrinsics.{takes, remainder as remainder_of, modulo as modulo_of, with_sign as with_sign_of, exact_intrinsic, intrinsic_applied};

use crate::range::fit;
use crate::{Intrinsic, Kind};

/// The value of ABS, MAX, MIN, MOD, MODULO or SIGN of numbers, in a kind (ISO/IEC 1539-1:2018 16.9): the exact value, or
/// `None` exactly where there is none, as in MOD and MODULO of a zero second argument, and where it isn't in the kind. The
/// arguments are mostly of the kind, but needn't be.
pub fn intrinsic(which: Intrinsic, kind: Kind, args: &[i64]) -> Option<i64>
    requires takes { IsTrue (takes which (length args.now)) }
    requires whole { IsTrue (is_whole kind) }
    ensures { result ≡ intrinsic_applied which kind args.now }
{
    fit(kind, exact(which, args)?)
}

/// The exact value of a reference, as a number of kind 8.
fn exact(which: Intrinsic, args: &[i64]) -> Option<i64>
    requires takes { IsTrue (takes which (length args.now)) }
    ensures { result ≡ option_and_then (fitted I8) (exact_intrinsic which args.now) }
{
    match which {
        Intrinsic::Abs => args[0].checked_abs(),
        Intrinsic::Max => Some(greatest_of(args[0], &args[1..])),
        Intrinsic::Min => Some(least_of(args[0], &args[1..])),
        Intrinsic::Mod => remainder(args[0], args[1]),
        Intrinsic::Modulo => modulo(args[0], args[1]),
        Intrinsic::Sign => with_sign(args[0], args[1]),
        _ => unreachable!(),
    }
}

fn greatest_of(first: i64, rest: &[i64]) -> i64
    ensures { result ≡ fold int_max first rest.now }
{
    let mut greatest = first;
    for a in rest {
        greatest = greatest.max(*a);
    }
    greatest
}

fn least_of(first: i64, rest: &[i64]) -> i64
    ensures { result ≡ fold int_min first rest.now }
{
    let mut least = first;
    for a in rest {
        least = least.min(*a);
    }
    least
}

/// What a truncating division leaves, with the sign of a: `None` exactly where p is zero.
fn remainder(a: i64, p: i64) -> Option<i64>
    ensures { result ≡ option_and_then (fitted I8) (remainder_of a p) }
{
    if p == 0 {
        None
    } else {
        Some(a.wrapping_rem(p))
    }
}

/// The remainder with the sign of p: `None` exactly where p is zero.
fn modulo(a: i64, p: i64) -> Option<i64>
    ensures { result ≡ option_and_then (fitted I8) (modulo_of a p) }
{
    if p == 0 {
        return None;
    }
    let rest = a.wrapping_rem(p);
    if rest == 0 || (rest < 0) == (p < 0) {
        Some(rest)
    } else {
        Some(rest + p)
    }
}

/// |a| with the sign of b as a number of kind 8: `None` exactly where it isn't one.
fn with_sign(a: i64, b: i64) -> Option<i64>
    ensures { result ≡ fitted I8 (with_sign_of a b) }
{
    if 0 <= b {
        a.checked_abs()
    } else {
        Some(if a < 0 { a } else { -a })
    }
}
