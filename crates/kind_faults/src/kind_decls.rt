//! Faults of kinds in declarations.
ghost use Rattle.std.specs.Prelude.{◌≡◌, ◌∷◌, ◌++◌, [], not, List, map, flat_map, OnOk, IfOk};
ghost use Rattle.std.specs.Option.{option_to_list};
ghost use Rattle.fort_tree.specs.declared.fault.Code.TheVariants.{E32};
ghost use Rattle.claw_meaning.specs.Units.{is_word_define};
ghost use Rattle.sound_programs.specs.Faults.{found};
ghost use Rattle.sound_programs.specs.KindFaults.{literal_fault, literals_in, literals_in_decls, defined_bounds, is_value_of as value_test, value_fault, bound_fault, kind_faults_of_decls};
ghost use Rattle.sound_programs.specs.Placed.{Directive as Placed, first as first_place};
ghost use Rattle.sound_programs.specs.Places.{where_place};
ghost use Rattle.sound_programs.specs.Placing.{placed_decl, placed_directive, placed_expr, placed_option, placed_unit};
ghost use Rattle.sound_programs.specs.Scopes.{decls_of};
ghost use Rattle.sound_programs.specs.Walks.{bounds_in, parts as parts_in};
ghost use Rattle.unit_steps.specs.Behind.{exprs};
ghost use Rattle.fort_names.specs.Leasts.{noted};
ghost use Rattle.kind_faults.specs.Holders.{scope_of};
ghost use Rattle.fort_names.specs.Sights.{means};

use crate::bounds::note_bound;
use crate::holder::Holder;
use crate::kind_parts::note_literal;
use fort_kinds::{first, is_value_of};
use fort_names::{Least, Sight};
use fort_tree::{Code, Decl, Directive, DirectiveWord, Expr, Kind, NoMemory, Unit};
use std::alloc::Global;
use unit_steps::{bounds, note_parts};

fn note_literals_of_parts(least: &mut Least, parts: &[&Expr])
    ensures { least.new ≡ noted (found E32 (flat_map literal_fault (exprs parts.now))) least.old }
{
    for part in parts {
        note_literal(least, part);
    }
}

/// An expression and all its parts.
fn parts_of<'a>(alloc: Global, expr: &'a Expr) -> Result<Vec<&'a Expr>, NoMemory>
    ensures { IfOk result (λ list. exprs list.items ≡ parts_in (placed_expr expr.now)) }
{
    let mut list = Vec::new(alloc);
    note_parts(expr, &mut list)?;
    Ok(list)
}

fn note_literals_in(alloc: Global, least: &mut Least, expr: &Expr) -> Result<(), NoMemory>
    ensures { OnOk result (least.new ≡ noted (found E32 (flat_map literal_fault (parts_in (placed_expr expr.now)))) least.old) }
{
    let list = parts_of(alloc, expr)?;
    note_literals_of_parts(least, list.as_slice());
    Ok(())
}

/// Notes the literals in these expressions whose numbers aren't in their kinds.
///
/// # Errors
/// `NoMemory` only where memory was refused.
fn note_literals(alloc: Global, least: &mut Least, whole: &[&Expr]) -> Result<(), NoMemory>
    ensures { OnOk result (least.new ≡ noted (found E32 (literals_in (exprs whole.now))) least.old) }
{
    for expr in whole {
        note_literals_in(alloc, least, expr)?;
    }
    Ok(())
}

fn add_if_any<'a>(expr: &'a Option<Expr>, into: &mut Vec<&'a Expr>) -> Result<(), NoMemory>
    ensures { OnOk result (exprs into.new.items ≡ exprs into.old.items ++ option_to_list (placed_option expr.now)) }
{
    match expr {
        None => Ok(()),
        Some(expr) => Ok(into.push(expr)?),
    }
}

fn add_values<'a>(decls: &'a [Decl], into: &mut Vec<&'a Expr>) -> Result<(), NoMemory>
    ensures { OnOk result (exprs into.new.items ≡ exprs into.old.items ++ flat_map (λ d. option_to_list d.value) (map placed_decl decls.now)) }
{
    for decl in decls {
        add_if_any(&decl.value, into)?;
    }
    Ok(())
}

fn is_define(directive: &Directive) -> bool
    ensures { result ≡ is_word_define directive.now.word }
{
    match directive.word {
        DirectiveWord::Define => true,
        _ => false,
    }
}

fn add_defined<'a>(mark: &'a Directive, into: &mut Vec<&'a Expr>) -> Result<(), NoMemory>
    ensures { OnOk result ((rest : List Placed) → exprs into.new.items ++ defined_bounds rest ≡ exprs into.old.items ++ defined_bounds (placed_directive mark.now ∷ rest)) }
{
    if is_define(mark) {
        add_if_any(&mark.lower, into)?;
        add_if_any(&mark.upper, into)?;
    }
    Ok(())
}

/// The bounds of `define`.
///
/// # Errors
/// `NoMemory` only where memory was refused.
fn defined<'a>(alloc: Global, marks: &'a [Directive]) -> Result<Vec<&'a Expr>, NoMemory>
    ensures { IfOk result (λ list. exprs list.items ≡ defined_bounds (map placed_directive marks.now)) }
{
    let mut list = Vec::new(alloc);
    for mark in marks {
        add_defined(mark, &mut list)?;
    }
    Ok(list)
}

#[tactic(auto, using(fort_names::proofs::FirstOf::noted_places))]
fn note_value_of(least: &mut Least, kind: Kind, value: &Expr)
    ensures { least.new ≡ noted (found E32 (flat_map (λ e. where_place (not (value_test kind e)) (first_place e)) (placed_expr value.now ∷ []))) least.old }
{
    let good = is_value_of(kind, value);
    least.note_if(!good, Code::E32, first(value));
}

fn note_value(least: &mut Least, decl: &Decl)
    ensures { least.new ≡ noted (found E32 (value_fault (placed_decl decl.now))) least.old }
{
    match &decl.value {
        None => {}
        Some(value) => note_value_of(least, decl.kind, value),
    }
}

fn note_values(least: &mut Least, decls: &[Decl])
    ensures { least.new ≡ noted (found E32 (flat_map value_fault (map placed_decl decls.now))) least.old }
{
    for decl in decls {
        note_value(least, decl);
    }
}

fn note_bounds(least: &mut Least, sight: &Sight, holder: &Holder, bounds: &[&Expr])
    ensures { least.new ≡ noted (found E32 (flat_map (bound_fault (scope_of holder.now) (means sight.now)) (exprs bounds.now))) least.old }
{
    for bound in bounds {
        note_bound(least, sight, holder, bound);
    }
}

fn note_literals_of_decls(alloc: Global, least: &mut Least, decls: &[Decl]) -> Result<(), NoMemory>
    ensures { OnOk result (least.new ≡ noted (found E32 (literals_in_decls (map placed_decl decls.now))) least.old) }
{
    let mut written = bounds(alloc, decls)?;
    add_values(decls, &mut written)?;
    note_literals(alloc, least, written.as_slice())
}

#[tactic(auto, using(fort_names::proofs::FirstOf::noted_places))]
fn note_decls(
    alloc: Global,
    least: &mut Least,
    sight: &Sight,
    holder: &Holder,
    decls: &[Decl],
) -> Result<(), NoMemory>
    ensures { OnOk result (least.new ≡ noted (found E32 (kind_faults_of_decls (scope_of holder.now) (means sight.now) (map placed_decl decls.now))) least.old) }
{
    note_literals_of_decls(alloc, least, decls)?;
    note_values(least, decls);
    let list = bounds(alloc, decls)?;
    note_bounds(least, sight, holder, list.as_slice());
    Ok(())
}

/// Notes the faults of kinds in the declarations of a unit or a module.
///
/// # Errors
/// `NoMemory` only where memory was refused.
pub fn note_kinds_of_decls(
    alloc: Global,
    least: &mut Least,
    sight: &Sight,
    holder: &Holder,
) -> Result<(), NoMemory>
    ensures { OnOk result (least.new ≡ noted (found E32 (kind_faults_of_decls (scope_of holder.now) (means sight.now) (decls_of (scope_of holder.now)))) least.old) }
{
    note_decls(alloc, least, sight, holder, holder.decls())
}

/// Notes the literals in the bounds of `define` whose numbers aren't in their kinds.
///
/// # Errors
/// `NoMemory` only where memory was refused.
pub fn note_defined(alloc: Global, least: &mut Least, unit: &Unit) -> Result<(), NoMemory>
    ensures { OnOk result (least.new ≡ noted (found E32 (literals_in (defined_bounds (placed_unit unit.now).marks))) least.old) }
{
    let list = defined(alloc, unit.marks.items())?;
    note_literals(alloc, least, list.as_slice())
}
