//! The header and the declarations.
ghost use Rattle.std.specs.Prelude.{◌≡◌, map, option_map, is_none, not};
ghost use Rattle.std.specs.List.{list_all};
ghost use Rattle.claw_meaning.specs.Plain.{plain_unit, plain_decl, plain_option};
ghost use Rattle.scalar_units.specs.Units.{is_empty as empty_test, is_dummy as dummy_test, is_header as header_test, is_default as default_test, is_declaration as declaration_test};

use crate::names::{is_among, is_declared_once, is_one_dummy, is_ordinary};
use fort_tree::{Decl, Expr, Kind, Name, Unit};

fn is_dummy(unit: &Unit, name: &Name) -> bool
    ensures { result ≡ dummy_test (plain_unit unit.now) name.now }
{
    is_ordinary(name)
        && is_one_dummy(unit.dummies.items(), name)
        && is_declared_once(unit.decls.items(), name)
}

fn are_dummies(unit: &Unit) -> bool
    ensures { result ≡ list_all (dummy_test (plain_unit unit.now)) (map (λ d. d.name) unit.now.dummies) }
{
    unit.dummies
        .items()
        .iter()
        .map(|dummy| dummy.name)
        .all(|name| is_dummy(unit, &name))
}

fn has_no_result(unit: &Unit) -> bool
    ensures { result ≡ is_none (option_map (λ r. r.name) unit.now.result) }
{
    match &unit.result {
        None => true,
        Some(_) => false,
    }
}

fn has_dummies(unit: &Unit) -> bool
    ensures { result ≡ not (empty_test (map (λ d. d.name) unit.now.dummies)) }
{
    match unit.dummies.items() {
        [] => false,
        [_, ..] => true,
    }
}

/// Whether it is an external SUBROUTINE with dummies, each of which stands once in its header and is declared once.
pub fn is_header(unit: &Unit) -> bool
    ensures { result ≡ header_test (plain_unit unit.now) }
{
    unit.host.is_none() && has_no_result(unit) && has_dummies(unit) && are_dummies(unit)
}

fn is_default(kind: Kind) -> bool
    ensures { result ≡ default_test kind }
{
    matches!(kind, Kind::I4)
}

fn is_scalar(decl: &Decl) -> bool
    ensures { result ≡ empty_test (plain_decl decl.now).shape }
{
    match decl.shape.items() {
        [] => true,
        [_, ..] => false,
    }
}

/// Whether there is no value, or no bound.
pub fn is_absent(expr: &Option<Expr>) -> bool
    ensures { result ≡ is_none (plain_option expr.now) }
{
    match expr {
        None => true,
        Some(_) => false,
    }
}

/// Whether it declares a dummy that is a default INTEGER scalar with an INTENT.
pub fn is_declaration(unit: &Unit, decl: &Decl) -> bool
    ensures { result ≡ declaration_test (plain_unit unit.now) (plain_decl decl.now) }
{
    is_default(decl.kind)
        && decl.intent.is_some()
        && is_scalar(decl)
        && is_absent(&decl.value)
        && is_among(unit.dummies.items(), &decl.name)
}
