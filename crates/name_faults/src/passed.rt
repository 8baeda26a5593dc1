//! Names that a step passes to OUT or INOUT.
ghost use Rattle.std.specs.Prelude.{◌≡◌, List, [], ◌∷◌, ◌++◌, map, is_none, ◌&&◌, if◌then◌else◌, IfOk, OnOk};
ghost use Rattle.fort_tree.specs.Intrinsic.{intrinsic_named};
ghost use Rattle.claw_meaning.specs.Plain.{plain_unit};
ghost use Rattle.claw_meaning.specs.Scope.{decl_named};
ghost use Rattle.claw_meaning.specs.Syntax.{Text};
ghost use Rattle.sound_programs.specs.Placed.{Subscripts};
ghost use Rattle.sound_programs.specs.Placing.{placed_expr, placed_sub, placed_subs};
ghost use Rattle.sound_programs.specs.Scopes as scopes;
ghost use Rattle.sound_programs.specs.Walks as walks;
ghost use Rattle.fort_names.specs.Sights.{means};
ghost use Rattle.unit_steps.specs.Behind.{exprs, placed_step};
ghost use Rattle.name_faults.specs.Passing.{written_in, written_names, written_at_all, written_by, passed_names};

use crate::loop_names::name_in;
use fort_names::{Callee, Sight};
use fort_tree::{ByName, Expr, Intent, Intrinsic, Name, Named, NoMemory, Sub};
use std::alloc::Global;
use unit_steps::Step;

fn is_out(intent: &Option<Intent>) -> bool
    ensures { result ≡ scopes.is_written_intent intent.now }
{
    match intent {
        None => false,
        Some(Intent::In) => false,
        Some(Intent::Out) => true,
        Some(Intent::InOut) => true,
    }
}

/// Whether the first declaration of the name is that of an OUT or INOUT dummy.
fn is_written(callee: &Callee<'_>, name: &Name) -> bool
    ensures { result ≡ walks.is_written_decl (decl_named (plain_unit callee.now).decls name.now) }
{
    match callee.declaration(name) {
        None => false,
        Some(decl) => is_out(&decl.intent),
    }
}

/// Adds the name that the expression is or refers to, where that holds.
fn note_name_if(holds: bool, expr: &Expr, into: &mut Vec<Named>) -> Result<(), NoMemory>
    ensures { OnOk result (into.new.items ≡ into.old.items ++ (if holds then walks.name_in (placed_expr expr.now) else [])) }
{
    if holds {
        if let Some(named) = name_in(expr) {
            into.push(named)?;
        }
    }
    Ok(())
}

/// Adds the name that is passed to the dummy, if it is OUT or INOUT.
fn note_actual(
    callee: &Callee<'_>,
    dummy: &Name,
    sub: &Sub,
    into: &mut Vec<Named>,
) -> Result<(), NoMemory>
    ensures { OnOk result ((xs : List Text) (rest : Subscripts) → into.new.items ++ written_names xs (plain_unit callee.now).decls rest ≡ into.old.items ++ written_names (dummy.now ∷ xs) (plain_unit callee.now).decls (placed_sub sub.now rest)) }
{
    match sub {
        Sub::One(expr) => note_name_if(is_written(callee, dummy), expr, into),
        Sub::Range(..) => Ok(()),
    }
}

/// Adds the names that are passed to those of these dummies that are OUT or INOUT.
fn note_written(
    dummies: &[Named],
    callee: &Callee<'_>,
    args: &[Sub],
    into: &mut Vec<Named>,
) -> Result<(), NoMemory>
    ensures { OnOk result (into.new.items ≡ into.old.items ++ written_names (map (λ d. d.name) dummies.now) (plain_unit callee.now).decls (placed_subs args.now)) }
{
    for (index, dummy) in dummies.iter().enumerate() {
        match args.get(index) {
            None => return Ok(()),
            Some(sub) => note_actual(callee, &dummy.name, sub, into)?,
        }
    }
    Ok(())
}

/// Adds the names that a call or a reference with these arguments passes to OUT or INOUT.
fn note_site(
    sight: &Sight<'_>,
    name: &Name,
    args: &[Sub],
    into: &mut Vec<Named>,
) -> Result<(), NoMemory>
    ensures { OnOk result (into.new.items ≡ into.old.items ++ written_in (walks.actuals_of (scopes.unit_of (means sight.now name.now)) (placed_subs args.now))) }
{
    match sight.callee(name) {
        None => Ok(()),
        Some(callee) => note_written(callee.unit().dummies.items(), &callee, args, into),
    }
}

fn note_call(sight: &Sight<'_>, step: Step<'_>, into: &mut Vec<Named>) -> Result<(), NoMemory>
    ensures { OnOk result (into.new.items ≡ into.old.items ++ written_at_all (means sight.now) (walks.call_site (placed_step step.entry))) }
{
    match step {
        Step::Calls(name, args) => note_site(sight, &name.name, args, into),
        Step::Assigns(..) | Step::Tests(..) | Step::Chooses(..) | Step::Repeats(..) => Ok(()),
    }
}

fn is_function(sight: &Sight<'_>, name: &Name) -> bool
    ensures { result ≡ (is_none (intrinsic_named name.now) && scopes.is_function (means sight.now name.now)) }
{
    match Intrinsic::named(name) {
        None => sight.is_function(name),
        Some(_) => false,
    }
}

fn note_reference(sight: &Sight<'_>, expr: &Expr, into: &mut Vec<Named>) -> Result<(), NoMemory>
    ensures { OnOk result (into.new.items ≡ into.old.items ++ written_by (means sight.now) (placed_expr expr.now ∷ [])) }
{
    if let Expr::Ref(name, Some(args), _) = expr {
        if is_function(sight, name) {
            note_site(sight, name, args.items(), into)?;
        }
    }
    Ok(())
}

fn note_references(sight: &Sight<'_>, list: &[&Expr], into: &mut Vec<Named>) -> Result<(), NoMemory>
    ensures { OnOk result (into.new.items ≡ into.old.items ++ written_by (means sight.now) (exprs list.now)) }
{
    for expr in list {
        note_reference(sight, expr, into)?;
    }
    Ok(())
}

/// The names that a step passes to OUT or INOUT, of which these are all the parts that it reads.
///
/// # Errors
/// `NoMemory` only where memory was refused.
pub fn passed_in<'a>(
    alloc: Global,
    sight: &Sight<'_>,
    step: Step<'a>,
    parts: &[&'a Expr],
) -> Result<Vec<Named>, NoMemory>
    requires { exprs parts.now ≡ walks.parts_read (placed_step step) }
    ensures { IfOk result (λ names. names.items ≡ passed_names (means sight.now) (placed_step step.entry)) }
{
    let mut names = Vec::new(alloc);
    note_call(sight, step, &mut names)?;
    note_references(sight, parts, &mut names)?;
    Ok(names)
}
