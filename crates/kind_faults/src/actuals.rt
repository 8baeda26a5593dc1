//! Actual arguments and their dummies.
ghost use Rattle.std.specs.Prelude.{◌≡◌, ◌∷◌, ◌||◌, ◌&&◌, not, nat_eq, nat_lt, length, List, Some, map, flat_map};
ghost use Rattle.std.specs.Option.{option_copied, option_map};
ghost use Rattle.claw_meaning.specs.Plain.{plain_decl, plain_unit};
ghost use Rattle.claw_meaning.specs.Scope.{decl_named};
ghost use Rattle.claw_meaning.specs.Syntax.{Text};
ghost use Rattle.fort_tree.specs.declared.fault.Code.TheVariants.{E32, E33};
ghost use Rattle.sound_programs.specs.Faults.{found};
ghost use Rattle.sound_programs.specs.KindFaults.{actual_differs, kind_fault_of_actual};
ghost use Rattle.sound_programs.specs.Kinding.{kind as kind_meant};
ghost use Rattle.sound_programs.specs.Placed.{Subscripts, first as first_place};
ghost use Rattle.sound_programs.specs.Placing.{placed_expr, placed_sub, placed_subs};
ghost use Rattle.sound_programs.specs.RankFaults.{is_array_reference as reference_test, is_rank_fault, rank_fault_of_actual};
ghost use Rattle.sound_programs.specs.Walks.{Actual, actual, actuals, matched};
ghost use Rattle.fort_names.specs.Leasts.{noted};
ghost use Rattle.kind_faults.specs.Fitting.{code_of_fit, unfit};
ghost use Rattle.fort_names.specs.Sights.{means};
ghost use Rattle.fort_kinds.specs.Sites.{placed_site, placed_sites};

use crate::rank_parts::takes_sections;
use fort_kinds::{Site, first, kind_of, rank_of};
use fort_names::{Callee, Least, Sight};
use fort_tree::{Code, Decl, Expr, Name, Named, Sub};

/// In what an actual argument is to fit its dummy.
#[derive(Clone, Copy, Debug)]
pub enum Fit {
    Kind,
    Rank,
}

fn kind_differs(sight: &Sight, expr: &Expr, dummy: Option<&Decl>) -> bool
    ensures { result ≡ actual_differs (means sight.now) (kind_meant (means sight.now) (placed_expr expr.now)) (option_map plain_decl (option_copied dummy.entry)) }
{
    match kind_of(sight, expr) {
        None => false,
        Some(kind) => match dummy {
            None => false,
            Some(decl) => kind != decl.kind,
        },
    }
}

/// Whether it is the name of an array, or a section of one.
fn is_array_reference(sight: &Sight, expr: &Expr) -> bool
    ensures { result ≡ reference_test (means sight.now) (placed_expr expr.now) }
{
    match expr {
        Expr::Ref(name, None, _) => sight.is_variable(name),
        Expr::Ref(name, Some(_), _) => takes_sections(sight, name),
        Expr::Number(..) | Expr::Truth(..) | Expr::One(..) | Expr::Two(..) | Expr::Paren(..) =>
            false,
    }
}

#[tactic(auto, using(fort_names::proofs::Places::length_map))]
fn rank_differs_from(sight: &Sight, expr: &Expr, dummy: &Decl) -> bool
    ensures { result ≡ is_rank_fault (means sight.now) (placed_expr expr.now) (Some (plain_decl dummy.now)) }
{
    let rank = rank_of(sight, expr);
    let dimensions = dummy.shape.len();
    rank != dimensions || (0 < rank && !is_array_reference(sight, expr))
}

fn rank_differs(sight: &Sight, expr: &Expr, dummy: Option<&Decl>) -> bool
    ensures { result ≡ is_rank_fault (means sight.now) (placed_expr expr.now) (option_map plain_decl (option_copied dummy.entry)) }
{
    match dummy {
        None => false,
        Some(decl) => rank_differs_from(sight, expr, decl),
    }
}

fn note_expr(least: &mut Least, sight: &Sight, fit: Fit, expr: &Expr, dummy: Option<&Decl>)
    ensures { least.new ≡ noted (found (code_of_fit fit) (unfit (means sight.now) fit (actual (Some (placed_expr expr.now)) (first_place (placed_expr expr.now)) (option_map plain_decl (option_copied dummy.entry))))) least.old }
{
    match fit {
        Fit::Kind => {
            let differs = kind_differs(sight, expr, dummy);
            least.note_if(differs, Code::E32, first(expr));
        }
        Fit::Rank => {
            let differs = rank_differs(sight, expr, dummy);
            least.note_if(differs, Code::E33, first(expr));
        }
    }
}

#[tactic(auto, using(fort_names::proofs::FirstOf::noted_places))]
fn note_next(
    least: &mut Least,
    sight: &Sight,
    fit: Fit,
    expr: &Expr,
    dummy: &Name,
    callee: &Callee<'_>,
)
    ensures { (rest : List Actual) → noted (found (code_of_fit fit) (flat_map (unfit (means sight.now) fit) rest)) least.new ≡ noted (found (code_of_fit fit) (flat_map (unfit (means sight.now) fit) (actual (Some (placed_expr expr.now)) (first_place (placed_expr expr.now)) (decl_named (plain_unit callee.now).decls dummy.now) ∷ rest))) least.old }
{
    note_expr(least, sight, fit, expr, callee.declaration(dummy));
}

fn note_actual(
    least: &mut Least,
    sight: &Sight,
    fit: Fit,
    dummy: &Name,
    callee: &Callee<'_>,
    arg: &Sub,
)
    ensures { (xs : List Text) (rest : Subscripts) → noted (found (code_of_fit fit) (flat_map (unfit (means sight.now) fit) (matched xs (plain_unit callee.now).decls rest))) least.new ≡ noted (found (code_of_fit fit) (flat_map (unfit (means sight.now) fit) (matched (dummy.now ∷ xs) (plain_unit callee.now).decls (placed_sub arg.now rest)))) least.old }
{
    match arg {
        Sub::One(expr) => note_next(least, sight, fit, expr, dummy, callee),
        Sub::Range(..) => {}
    }
}

#[tactic(auto, using(crate::proofs::Fits::no_actual))]
fn note_actuals(
    least: &mut Least,
    sight: &Sight,
    fit: Fit,
    dummies: &[Named],
    callee: &Callee<'_>,
    args: &[Sub],
)
    ensures { least.new ≡ noted (found (code_of_fit fit) (flat_map (unfit (means sight.now) fit) (matched (map (λ d. d.name) dummies.now) (plain_unit callee.now).decls (placed_subs args.now)))) least.old }
{
    for (i, dummy) in dummies.iter().enumerate() {
        if args.len() <= i {
            return;
        }
        note_actual(least, sight, fit, &dummy.name, callee, &args[i]);
    }
}

fn note_site(least: &mut Least, sight: &Sight, fit: Fit, site: &Site)
    ensures { least.new ≡ noted (found (code_of_fit fit) (flat_map (unfit (means sight.now) fit) (actuals (means sight.now) (placed_site site.now)))) least.old }
{
    match sight.callee(site.name) {
        None => {}
        Some(callee) => note_actuals(
            least,
            sight,
            fit,
            callee.unit().dummies.items(),
            &callee,
            site.args,
        ),
    }
}

fn note_sites(least: &mut Least, sight: &Sight, fit: Fit, sites: &[Site])
    ensures { least.new ≡ noted (found (code_of_fit fit) (flat_map (unfit (means sight.now) fit) (flat_map (actuals (means sight.now)) (placed_sites sites.now)))) least.old }
{
    for site in sites {
        note_site(least, sight, fit, site);
    }
}

/// Notes the actual arguments whose kind isn't that of their dummy.
#[tactic(auto, using(crate::proofs::Fits::unfit_kinds))]
pub fn note_kinds_of_actuals(least: &mut Least, sight: &Sight, sites: &[Site])
    ensures { least.new ≡ noted (found E32 (flat_map (kind_fault_of_actual (means sight.now)) (flat_map (actuals (means sight.now)) (placed_sites sites.now)))) least.old }
{
    note_sites(least, sight, Fit::Kind, sites);
}

/// Notes the actual arguments whose rank isn't that of their dummy, and arrays that are no array names or sections.
#[tactic(auto, using(crate::proofs::Fits::unfit_ranks))]
pub fn note_ranks_of_actuals(least: &mut Least, sight: &Sight, sites: &[Site])
    ensures { least.new ≡ noted (found E33 (flat_map (rank_fault_of_actual (means sight.now)) (flat_map (actuals (means sight.now)) (placed_sites sites.now)))) least.old }
{
    note_sites(least, sight, Fit::Rank, sites);
}
