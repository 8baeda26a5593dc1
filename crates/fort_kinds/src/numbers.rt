//! Numbers and values as they are written.
ghost use Rattle.std.specs.Prelude.{◌≡◌};
ghost use Rattle.fort_arith.specs.Range.{in_kind as in_kind_test};
ghost use Rattle.sound_programs.specs.Placed.{first as first_place};
ghost use Rattle.sound_programs.specs.Placing.{placed_expr};
ghost use Rattle.sound_programs.specs.KindFaults.{written_number as written, is_number_in as number_test, is_truth as truth_test, is_value_of as value_test, case_value as case_number, integer_constant};
ghost use Rattle.claw_meaning.specs.Plain.{plain_decl};
ghost use Rattle.claw_meaning.specs.Scope.{Constant};
ghost use Rattle.fort_names.specs.Sights.{means};

use fort_arith::limits_of;
use fort_names::{Meaning, Sight};
use fort_tree::{Decl, Expr, Kind, Name, Place, Unary};

/// The place of the first token.
pub fn first(expr: &Expr) -> Place
    ensures { result ≡ first_place (placed_expr expr.now) }
{
    match expr {
        Expr::Number(_, _, at)
        | Expr::Truth(_, at)
        | Expr::Ref(_, None, at)
        | Expr::Ref(_, Some(_), at)
        | Expr::One(_, _, at)
        | Expr::Paren(_, at) => *at,
        Expr::Two(_, left, _) => first(left.get()),
    }
}

/// Whether a number is one of the kind; LOGICAL has none.
#[tactic(auto, unfolding(fort_arith::specs::Range::in_kind))]
pub fn in_kind(kind: Kind, number: i128) -> bool
    ensures { result ≡ in_kind_test kind number }
{
    if !kind.is_whole() {
        return false;
    }
    let limits = limits_of(kind);
    i128::from(limits.least) <= number && number <= i128::from(limits.greatest)
}

/// A number that is written with a minus sign before it or with none.
pub fn written_number(expr: &Expr) -> Option<i128>
    ensures { result ≡ written (placed_expr expr.now) }
{
    match expr {
        Expr::Number(number, _, _) => Some(i128::from(*number)),
        Expr::One(Unary::Minus, part, _) => match part.get() {
            Expr::Number(number, _, _) => Some(-i128::from(*number)),
            Expr::Truth(..)
            | Expr::Ref(_, None, _)
            | Expr::Ref(_, Some(_), _)
            | Expr::One(..)
            | Expr::Two(..)
            | Expr::Paren(..) => None,
        },
        Expr::One(Unary::Plus | Unary::Not, _, _)
        | Expr::Truth(..)
        | Expr::Ref(_, None, _)
        | Expr::Ref(_, Some(_), _)
        | Expr::Two(..)
        | Expr::Paren(..) => None,
    }
}

fn is_number_in(kind: Kind, number: Option<i128>) -> bool
    ensures { result ≡ number_test kind number }
{
    match number {
        None => false,
        Some(number) => in_kind(kind, number),
    }
}

fn is_truth(expr: &Expr) -> bool
    ensures { result ≡ truth_test (placed_expr expr.now) }
{
    match expr {
        Expr::Truth(..) => true,
        Expr::Number(..)
        | Expr::Ref(_, None, _)
        | Expr::Ref(_, Some(_), _)
        | Expr::One(..)
        | Expr::Two(..)
        | Expr::Paren(..) => false,
    }
}

/// Whether it is a value of the kind: a number in it, or for LOGICAL a truth value.
pub fn is_value_of(kind: Kind, expr: &Expr) -> bool
    ensures { result ≡ value_test kind (placed_expr expr.now) }
{
    if kind.is_whole() {
        is_number_in(kind, written_number(expr))
    } else {
        is_truth(expr)
    }
}

/// The value of an INTEGER PARAMETER that is written as a number.
fn value_of_decl(decl: &Decl) -> Option<i128>
    ensures { result ≡ integer_constant (Constant (plain_decl decl.now)) }
{
    if !decl.kind.is_whole() {
        return None;
    }
    match &decl.value {
        None => None,
        Some(value) => written_number(value),
    }
}

fn value_of_name(sight: &Sight, name: &Name) -> Option<i128>
    ensures { result ≡ integer_constant (means sight.now name.now) }
{
    match sight.meaning(name) {
        Meaning::Constant(decl) => value_of_decl(decl),
        Meaning::Nothing | Meaning::Variable(..) | Meaning::Unit(..) => None,
    }
}

/// The value of a case: a number that is written, or that of an INTEGER PARAMETER.
pub fn case_value(sight: &Sight, expr: &Expr) -> Option<i128>
    ensures { result ≡ case_number (means sight.now) (placed_expr expr.now) }
{
    match expr {
        Expr::Ref(name, None, _) => value_of_name(sight, name),
        Expr::Number(..) | Expr::One(..) => written_number(expr),
        Expr::Ref(_, Some(_), _) | Expr::Truth(..) | Expr::Two(..) | Expr::Paren(..) => None,
    }
}
