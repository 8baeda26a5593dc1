//! The dimension, its bounds, and bounds of declarations.
ghost use Rattle.std.specs.Prelude.{◌≡◌, Some, flat_map, map, IfOk};
ghost use Rattle.claw_meaning.specs.Plain.{plain_directive, plain_expr, plain_option, plain_unit};
ghost use Rattle.claw_meaning.specs.Units as units;
ghost use Rattle.sound_programs.specs.Placing.{placed_decl};
ghost use Rattle.sound_programs.specs.Scopes as scopes;
ghost use Rattle.sound_programs.specs.Walks as walks;
ghost use Rattle.fort_names.specs.Sights.{means};
ghost use Rattle.column_rules.specs.OnTrees as trees;
ghost use Rattle.column_rules.specs.Rules as rules;

use crate::dummies::is_shared;
use crate::marks::define_of;
use fort_names::{Meaning, Sight, declares_scalar_in, is_column_dummy};
use fort_tree::{Decl, Directive, Expr, File, Kind, Name, Named, NoMemory, Unary, Unit};
use std::alloc::Global;
use unit_steps::{bounds, note_names, note_parts};

fn is_known(sight: &Sight<'_>, name: &Name) -> bool
    ensures { result ≡ scopes.is_known (means sight.now name.now) }
{
    match sight.meaning(name) {
        Meaning::Nothing => false,
        Meaning::Variable(_, _) => true,
        Meaning::Constant(_) => true,
        Meaning::Unit(_, _) => true,
    }
}

fn is_module(file: &File, name: &Name) -> bool
    ensures { result ≡ units.is_listed (trees.module_names file.now) name.now }
{
    file.modules
        .items()
        .iter()
        .map(|module| module.name)
        .any(|other| other == *name)
}

fn is_visible(file: &File, sight: &Sight<'_>, name: &Name) -> bool
    ensures { result ≡ rules.is_visible (means sight.now) (trees.module_names file.now) name.now }
{
    is_known(sight, name) || is_module(file, name)
}

fn is_name(name: &Name, expr: &Expr) -> bool
    ensures { result ≡ rules.is_name name.now (plain_expr expr.now) }
{
    match expr {
        Expr::Ref(other, None, _) => *other == *name,
        Expr::Ref(_, Some(_), _)
        | Expr::Number(..)
        | Expr::Truth(..)
        | Expr::One(..)
        | Expr::Two(..)
        | Expr::Paren(..) => false,
    }
}

fn is_bare_name(name: &Name, bound: &Option<Expr>) -> bool
    ensures { result ≡ rules.is_bare_name name.now (plain_option bound.now) }
{
    match bound {
        None => false,
        Some(expr) => is_name(name, expr),
    }
}

fn is_new(file: &File, sight: &Sight<'_>, define: &Directive) -> bool
    ensures { result ≡ rules.is_new (means sight.now) (trees.module_names file.now) (plain_option define.now.upper) (rules.first_of define.now.names) }
{
    match define.names.items() {
        [] => false,
        [name, ..] => !is_visible(file, sight, name) && !is_bare_name(name, &define.upper),
    }
}

fn is_number(expr: &Expr) -> bool
    ensures { result ≡ rules.is_number (plain_expr expr.now) }
{
    match expr {
        Expr::Number(_, None, _) => true,
        Expr::Number(_, Some(_), _)
        | Expr::Truth(..)
        | Expr::Ref(_, None, _)
        | Expr::Ref(_, Some(_), _)
        | Expr::One(..)
        | Expr::Two(..)
        | Expr::Paren(..) => false,
    }
}

fn is_literal(expr: &Expr) -> bool
    ensures { result ≡ rules.is_literal (plain_expr expr.now) }
{
    match expr {
        Expr::Number(_, None, _) => true,
        Expr::One(Unary::Minus, number, _) => is_number(number.get()),
        Expr::Number(_, Some(_), _)
        | Expr::Truth(..)
        | Expr::Ref(_, None, _)
        | Expr::Ref(_, Some(_), _)
        | Expr::One(Unary::Plus, _, _)
        | Expr::One(Unary::Not, _, _)
        | Expr::Two(..)
        | Expr::Paren(..) => false,
    }
}

fn is_lower(bound: &Option<Expr>) -> bool
    ensures { result ≡ rules.is_lower (plain_option bound.now) }
{
    match bound {
        None => false,
        Some(expr) => is_literal(expr),
    }
}

fn is_default(kind: Kind) -> bool
    ensures { result ≡ rules.is_default kind }
{
    matches!(kind, Kind::I4)
}

fn may_bound(sight: &Sight<'_>, unit: &Unit, name: &Name) -> bool
    ensures { result ≡ rules.may_bound (plain_unit unit.now) name.now (means sight.now name.now) }
{
    match sight.meaning(name) {
        Meaning::Nothing => false,
        Meaning::Variable(_, decl) => is_default(decl.kind)
            && declares_scalar_in(decl)
            && is_shared(unit, name),
        Meaning::Constant(decl) => is_default(decl.kind),
        Meaning::Unit(_, _) => false,
    }
}

fn is_upper_name(file: &File, sight: &Sight<'_>, unit: &Unit, name: &Name) -> bool
    ensures { result ≡ rules.is_upper_name (means sight.now) (trees.module_names file.now) (plain_unit unit.now) name.now }
{
    !is_visible(file, sight, name) || may_bound(sight, unit, name)
}

fn is_upper_bound(file: &File, sight: &Sight<'_>, unit: &Unit, expr: &Expr) -> bool
    ensures { result ≡ rules.is_upper_bound (means sight.now) (trees.module_names file.now) (plain_unit unit.now) (plain_expr expr.now) }
{
    match expr {
        Expr::Ref(name, None, _) => is_upper_name(file, sight, unit, name),
        Expr::Number(_, None, _) => true,
        Expr::Number(_, Some(_), _)
        | Expr::Truth(..)
        | Expr::Ref(_, Some(_), _)
        | Expr::One(..)
        | Expr::Two(..)
        | Expr::Paren(..) => false,
    }
}

fn is_upper(file: &File, sight: &Sight<'_>, unit: &Unit, bound: &Option<Expr>) -> bool
    ensures { result ≡ rules.is_upper (means sight.now) (trees.module_names file.now) (plain_unit unit.now) (plain_option bound.now) }
{
    match bound {
        None => false,
        Some(expr) => is_upper_bound(file, sight, unit, expr),
    }
}

fn is_dimension(file: &File, sight: &Sight<'_>, unit: &Unit, define: &Directive) -> bool
    ensures { result ≡ rules.is_dimension (means sight.now) (trees.module_names file.now) (plain_unit unit.now) (Some (plain_directive define.now)) }
{
    is_new(file, sight, define)
        && is_lower(&define.lower)
        && is_upper(file, sight, unit, &define.upper)
}

/// Whether the dimension's name isn't visible in the unit and isn't the upper bound, the lower bound is a literal, and the upper
/// bound a literal, a PARAMETER or a shared scalar INTENT(IN) dummy of kind 4, or a name that isn't visible; the literals have no
/// suffix.
pub fn has_dimension(file: &File, sight: &Sight<'_>, unit: &Unit) -> bool
    ensures { result ≡ rules.has_dimension (means sight.now) (trees.module_names file.now) (plain_unit unit.now) }
{
    match define_of(unit.marks.items()) {
        None => false,
        Some(define) => is_dimension(file, sight, unit, define),
    }
}

fn names_in_bounds(alloc: Global, decls: &[Decl]) -> Result<Vec<Named>, NoMemory>
    ensures { IfOk result (λ names. names.items ≡ flat_map walks.name_in (flat_map walks.parts (walks.bounds_in (map placed_decl decls.now)))) }
{
    let whole = bounds(alloc, decls)?;
    let mut list = Vec::new(alloc);
    for expr in whole {
        note_parts(expr, &mut list)?;
    }
    let mut names = Vec::new(alloc);
    note_names(list.as_slice(), &mut names)?;
    Ok(names)
}

fn are_shared(unit: &Unit, names: &[Named]) -> bool
    ensures { result ≡ rules.are_shared (plain_unit unit.now) names.now }
{
    names
        .iter()
        .all(|named| !is_column_dummy(unit, &named.name))
}

/// Whether no bound in a declaration of the unit names a column dummy.
///
/// # Errors
/// `NoMemory` only where memory was refused.
pub fn has_shared_bounds(alloc: Global, unit: &Unit) -> Result<bool, NoMemory>
    ensures { IfOk result (λ shared. shared ≡ trees.has_shared_bounds unit.now) }
{
    let names = names_in_bounds(alloc, unit.decls.items())?;
    Ok(are_shared(unit, names.as_slice()))
}
