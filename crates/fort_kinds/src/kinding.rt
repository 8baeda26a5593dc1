//! The kinds of expressions.
ghost use Rattle.std.specs.Prelude.{◌≡◌, []};
ghost use Rattle.fort_tree.specs.Intrinsic.{intrinsic_named};
ghost use Rattle.claw_meaning.specs.Kinds.{greater as greater_kind, or_default as kind_or_default};
ghost use Rattle.sound_programs.specs.Kinding.{kind as kind_meant, kinds_in, kind_of_entity, is_integer as integer_test, is_logical as logical_test, integer as integer_kind, greater_of, agreed as agreed_kind, common_kind as common, first_kind as first_of, kind_by_bytes as by_bytes, kind_named_by as named_by, kind_by_second as by_second, kind_of_int as int_kind, kind_of_intrinsic as intrinsic_kind, kind_of_reference as reference_kind};
ghost use Rattle.sound_programs.specs.Placing.{placed_expr, placed_sub, placed_subs};
ghost use Rattle.fort_kinds.specs.OneSub.{kind_of_one, shared_with, shared_after};
ghost use Rattle.fort_names.specs.Sights.{means};

use fort_names::Sight;
use fort_tree::{ByName, Expr, Intrinsic, Kind, Name, Sub, Unary};

/// The kind of a literal with this suffix: without one that of 4 bytes.
pub fn or_default(suffix: Option<Kind>) -> Kind
    ensures { result ≡ kind_or_default suffix }
{
    match suffix {
        None => Kind::I4,
        Some(kind) => kind,
    }
}

pub fn is_integer(kind: Option<Kind>) -> bool
    ensures { result ≡ integer_test kind }
{
    match kind {
        None => false,
        Some(kind) => kind.is_whole(),
    }
}

pub fn is_logical(kind: Option<Kind>) -> bool
    ensures { result ≡ logical_test kind }
{
    match kind {
        None => false,
        Some(kind) => kind == Kind::Logical,
    }
}

fn integer(kind: Option<Kind>) -> Option<Kind>
    ensures { result ≡ integer_kind kind }
{
    if is_integer(kind) { kind } else { None }
}

fn greater(a: Kind, b: Kind) -> Kind
    ensures { result ≡ greater_kind a b }
{
    match (a, b) {
        (Kind::I1, other) => other,
        (Kind::I2, Kind::I1) => Kind::I2,
        (Kind::I2, other) => other,
        (Kind::I4, Kind::I1) => Kind::I4,
        (Kind::I4, Kind::I2) => Kind::I4,
        (Kind::I4, other) => other,
        (Kind::I8, _) => Kind::I8,
        (Kind::Logical, _) => Kind::Logical,
    }
}

fn greater_of_both(a: Option<Kind>, b: Option<Kind>) -> Option<Kind>
    ensures { result ≡ greater_of a b }
{
    match (a, b) {
        (Some(a), Some(b)) => Some(greater(a, b)),
        _ => None,
    }
}

/// The kind of an arithmetic operation on operands of these kinds.
fn kind_of_both(a: Option<Kind>, b: Option<Kind>) -> Option<Kind>
    ensures { result ≡ greater_of (integer_kind a) (integer_kind b) }
{
    greater_of_both(integer(a), integer(b))
}

fn agreed(a: Option<Kind>, b: Option<Kind>) -> Option<Kind>
    ensures { result ≡ agreed_kind a b }
{
    if is_integer(a) && a == b { a } else { None }
}

/// The kind of all arguments so far, where those before this one have a kind, or there are none.
fn shared_kind(shared: Option<Option<Kind>>, kind: Option<Kind>) -> Option<Kind>
    ensures { result ≡ shared_with shared kind }
{
    match shared {
        None => integer(kind),
        Some(before) => agreed(before, kind),
    }
}

fn kind_or_none(shared: Option<Option<Kind>>) -> Option<Kind>
    ensures { result ≡ shared_after shared [] }
{
    match shared {
        None => None,
        Some(kind) => kind,
    }
}

fn kind_by_bytes(bytes: u64) -> Option<Kind>
    ensures { result ≡ by_bytes bytes }
{
    match bytes {
        1 => Some(Kind::I1),
        2 => Some(Kind::I2),
        4 => Some(Kind::I4),
        8 => Some(Kind::I8),
        _ => None,
    }
}

/// The kind that a literal 1, 2, 4 or 8 without suffix names.
pub fn kind_named_by(expr: &Expr) -> Option<Kind>
    ensures { result ≡ named_by (placed_expr expr.now) }
{
    match expr {
        Expr::Number(bytes, None, _) => kind_by_bytes(*bytes),
        Expr::Number(_, Some(_), _)
        | Expr::Truth(..)
        | Expr::Ref(_, None, _)
        | Expr::Ref(_, Some(_), _)
        | Expr::One(..)
        | Expr::Two(..)
        | Expr::Paren(..) => None,
    }
}

fn kind_by_second(args: &[Sub]) -> Option<Kind>
    ensures { result ≡ by_second (placed_subs args.now) }
{
    match args.first() {
        None => Some(Kind::I4),
        Some(Sub::One(expr)) => kind_named_by(expr),
        Some(Sub::Range(..)) => None,
    }
}

fn kind_of_int(args: &[Sub]) -> Option<Kind>
    ensures { result ≡ int_kind (placed_subs args.now) }
{
    match args.split_first() {
        None => Some(Kind::I4),
        Some((Sub::One(_), rest)) => kind_by_second(rest),
        Some((Sub::Range(..), _)) => None,
    }
}

/// The kind of an expression, or `None` where a fault leaves it open.
#[cycle(kind)]
pub fn kind_of(sight: &Sight, expr: &Expr) -> Option<Kind>
    ensures { result ≡ kind_meant (means sight.now) (placed_expr expr.now) }
{
    match expr {
        Expr::Number(_, suffix, _) => Some(or_default(*suffix)),
        Expr::Truth(..) => Some(Kind::Logical),
        Expr::Ref(name, None, _) => sight.kind(name),
        Expr::Ref(name, Some(subs), _) => kind_of_reference(sight, name, subs.items()),
        Expr::One(Unary::Plus | Unary::Minus, part, _) => integer(kind_of(sight, part.get())),
        Expr::One(Unary::Not, _, _) => Some(Kind::Logical),
        Expr::Two(op, left, right) => {
            if op.is_arithmetic() {
                kind_of_both(kind_of(sight, left.get()), kind_of(sight, right.get()))
            } else {
                Some(Kind::Logical)
            }
        }
        Expr::Paren(part, _) => kind_of(sight, part.get()),
    }
}

#[cycle(kind)]
fn kind_of_reference(sight: &Sight, name: &Name, args: &[Sub]) -> Option<Kind>
    ensures { result ≡ reference_kind (intrinsic_named name.now) (kind_of_entity (means sight.now name.now)) (placed_subs args.now) (kinds_in (means sight.now) (placed_subs args.now)) }
{
    match Intrinsic::named(name) {
        None => sight.kind(name),
        Some(which) => kind_of_intrinsic(sight, which, args),
    }
}

#[cycle(kind)]
fn kind_of_intrinsic(sight: &Sight, which: Intrinsic, args: &[Sub]) -> Option<Kind>
    ensures { result ≡ intrinsic_kind which (placed_subs args.now) (kinds_in (means sight.now) (placed_subs args.now)) }
{
    match which {
        Intrinsic::Int => kind_of_int(args),
        Intrinsic::Size => Some(Kind::I4),
        Intrinsic::Sum => first_kind(sight, args),
        Intrinsic::Abs
        | Intrinsic::Max
        | Intrinsic::Min
        | Intrinsic::Mod
        | Intrinsic::Modulo
        | Intrinsic::Sign => common_kind(sight, args),
    }
}

/// The kind of an argument; a range has none.
#[cycle(kind)]
fn kind_of_sub(sight: &Sight, sub: &Sub) -> Option<Kind>
    ensures { result ≡ kind_of_one (means sight.now) (placed_sub sub.now) }
{
    match sub {
        Sub::One(expr) => kind_of(sight, expr),
        Sub::Range(..) => None,
    }
}

#[cycle(kind)]
#[tactic(auto, using(crate::proofs::Subs::kinds_first))]
fn first_kind(sight: &Sight, args: &[Sub]) -> Option<Kind>
    ensures { result ≡ first_of (kinds_in (means sight.now) (placed_subs args.now)) }
{
    match args.first() {
        None => None,
        Some(first) => integer(kind_of_sub(sight, first)),
    }
}

/// The one kind of all arguments, where it is an INTEGER kind.
#[cycle(kind)]
#[tactic(auto, using(crate::proofs::Subs::kinds_first))]
fn common_kind(sight: &Sight, args: &[Sub]) -> Option<Kind>
    ensures { result ≡ common (kinds_in (means sight.now) (placed_subs args.now)) }
{
    let mut shared = None;
    for arg in args {
        let kind = kind_of_sub(sight, arg);
        shared = Some(shared_kind(shared, kind));
    }
    kind_or_none(shared)
}
