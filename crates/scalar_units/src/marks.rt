//! The two directives of a unit.
ghost use Rattle.std.specs.Prelude.{◌≡◌, ◌∷◌, [], map, Some};
ghost use Rattle.std.specs.List.{list_all};
ghost use Rattle.claw_meaning.specs.Plain.{plain_unit, plain_directive, plain_option, plain_expr};
ghost use Rattle.scalar_units.specs.Units.{is_among as among_test, stands_once as once_test, is_small_number as small_test, is_define_word as define_word_test, is_parallelize_word as parallelize_word_test, is_bare as bare_test, is_new as new_test, are_new as are_new_test, is_define as define_test, is_parallelize as parallelize_test};

use crate::header::is_absent;
use crate::names::{is_among, is_listed_once};
use fort_tree::{Directive, DirectiveWord, Expr, Name, Unit};

fn is_define_word(word: DirectiveWord) -> bool
    ensures { result ≡ define_word_test word }
{
    matches!(word, DirectiveWord::Define)
}

fn is_parallelize_word(word: DirectiveWord) -> bool
    ensures { result ≡ parallelize_word_test word }
{
    matches!(word, DirectiveWord::Parallelize)
}

fn is_bare(directive: &Directive) -> bool
    ensures { result ≡ bare_test (plain_directive directive.now) }
{
    directive.over.is_none()
        && directive.number.is_none()
        && directive.group.is_none()
        && !directive.init
}

fn is_small(expr: &Expr) -> bool
    ensures { result ≡ small_test (Some (plain_expr expr.now)) }
{
    match expr {
        Expr::Number(value, None, _) => *value <= 2147483647,
        Expr::Number(_, Some(_), _)
        | Expr::Truth(..)
        | Expr::Ref(_, None, _)
        | Expr::Ref(_, Some(_), _)
        | Expr::One(..)
        | Expr::Two(..)
        | Expr::Paren(..) => false,
    }
}

/// Whether it is a number without a suffix, of kind 4.
fn is_small_number(bound: &Option<Expr>) -> bool
    ensures { result ≡ small_test (plain_option bound.now) }
{
    match bound {
        None => false,
        Some(expr) => is_small(expr),
    }
}

/// Whether no dummy has the name, nor the unit.
fn is_new(unit: &Unit, name: &Name) -> bool
    ensures { result ≡ new_test (plain_unit unit.now) name.now }
{
    !is_among(unit.dummies.items(), name) && !(*name == unit.name)
}

fn is_new_upper(unit: &Unit, id: &Name, upper: &Expr) -> bool
    ensures { result ≡ are_new_test (plain_unit unit.now) (id.now ∷ []) (Some (plain_expr upper.now)) }
{
    match upper {
        Expr::Ref(name, None, _) => is_new(unit, id) && is_new(unit, name) && !(*id == *name),
        Expr::Ref(_, Some(_), _)
        | Expr::Number(..)
        | Expr::Truth(..)
        | Expr::One(..)
        | Expr::Two(..)
        | Expr::Paren(..) => false,
    }
}

/// Whether one name is listed, it and the upper bound are new, and they are two.
fn are_new(unit: &Unit, define: &Directive) -> bool
    ensures { result ≡ are_new_test (plain_unit unit.now) define.now.names (plain_option define.now.upper) }
{
    match (define.names.items(), &define.upper) {
        ([id], Some(upper)) => is_new_upper(unit, id, upper),
        _ => false,
    }
}

/// Whether the directive is `define dimension id ( number : upper )` with new names.
pub fn is_define(unit: &Unit, directive: &Directive) -> bool
    ensures { result ≡ define_test (plain_unit unit.now) (plain_directive directive.now) }
{
    is_define_word(directive.word)
        && is_bare(directive)
        && is_small_number(&directive.lower)
        && are_new(unit, directive)
}

fn are_dummies(unit: &Unit, listed: &[Name]) -> bool
    ensures { result ≡ list_all (among_test (plain_unit unit.now).dummies) listed.now }
{
    listed
        .iter()
        .all(|name| is_among(unit.dummies.items(), name))
}

fn lists_all(listed: &[Name], unit: &Unit) -> bool
    ensures { result ≡ list_all (once_test listed.now) (plain_unit unit.now).dummies }
{
    unit.dummies
        .items()
        .iter()
        .map(|dummy| dummy.name)
        .all(|name| is_listed_once(listed, &name))
}

/// Whether the directive is `parallelize data ( names )` with each of the dummies once.
pub fn is_parallelize(unit: &Unit, directive: &Directive) -> bool
    ensures { result ≡ parallelize_test (plain_unit unit.now) (plain_directive directive.now) }
{
    is_parallelize_word(directive.word)
        && is_bare(directive)
        && is_absent(&directive.lower)
        && is_absent(&directive.upper)
        && are_dummies(unit, directive.names.items())
        && lists_all(directive.names.items(), unit)
}
