ghost use Rattle.std.specs.Prelude.{◌≡◌, ℕ, ◌^◌, ◌/◌, ◌≤◌};
ghost use Rattle.fort_arith.specs.declared.kind.Kind.TheVariants.{I8};
ghost use Rattle.fort_arith.specs.Range.{fitted};
ghost use Rattle.fort_arith.specs.Power.{power as power_of, exact_power as exact_power_of, quotient as quotient_of};
ghost use Rattle.std.specs.Option.{option_and_then};

/// `base ** exponent` as a number of kind 8: `None` exactly where it isn't one.
///
/// It goes through the binary digits of the exponent, the highest first: one multiplication squares, and one more follows at
/// a digit 1. So there are at most 128 multiplications. For a base other than 0, 1 and -1 there are at most 13, since
/// partial powers at least double their exponent, none of more than 63 is in kind 8, and the first that isn't ends the work.
fn power(base: i64, exponent: u64) -> Option<i64>
    ensures { result ≡ fitted I8 (power_of base exponent) }
{
    let digits = u64::BITS - exponent.leading_zeros();
    let mut power: i64 = 1;
    for place in (0..digits).rev() {
        power = power.checked_mul(power)?;
        if (exponent >> place) % 2 == 1 {
            power = power.checked_mul(base)?;
        }
    }
    Some(power)
}

/// The quotient, truncated toward zero, as a number of kind 8: `None` where the divisor is zero, and for the least number by -1
/// (ISO/IEC 1539-1:2018 10.1.5.2, integer division).
pub fn quotient(a: i64, b: i64) -> Option<i64>
    ensures { result ≡ option_and_then (fitted I8) (quotient_of a b) }
{
    a.checked_div(b)
}

/// `x ** n` as a number of kind 8: `None` exactly where it isn't one, and for a negative power of zero. For n below zero it
/// is `1 / x ** (-n)`, taken exactly and truncated (ISO/IEC 1539-1:2018 10.1.5.2), so zero for every x but 1 and -1.
pub fn exact_power(x: i64, n: i64) -> Option<i64>
    ensures { result ≡ option_and_then (fitted I8) (exact_power_of x n) }
{
    if 0 <= n {
        return power(x, n.unsigned_abs());
    }
    match x {
        0 => None,
        1 => Some(1),
        -1 => Some(if n % 2 == 0 { 1 } else { -1 }),
        _ => Some(0),
    }
}
