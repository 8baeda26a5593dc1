//! What is asked of expressions.
ghost use Rattle.std.specs.Prelude.{◌≡◌, ◌∷◌, ◌++◌, [], List, flat_map};
ghost use Rattle.std.specs.Option.{option_to_list};
ghost use Rattle.sound_programs.specs.Faults.{found};
ghost use Rattle.sound_programs.specs.Kinding.{kind as kind_meant, is_logical as logical_test};
ghost use Rattle.sound_programs.specs.Placed.{Expr as Placed, Subscripts};
ghost use Rattle.sound_programs.specs.Places.{option_places};
ghost use Rattle.sound_programs.specs.Placing.{limit, placed_expr, placed_option, placed_sub, placed_subs};
ghost use Rattle.sound_programs.specs.Walks.{in_limit, single_subscripts, section_bounds};
ghost use Rattle.fort_names.specs.Leasts.{noted};
ghost use Rattle.kind_faults.specs.Needs.{code_of, unmet};
ghost use Rattle.fort_names.specs.Sights.{means};

use fort_kinds::{first, first_differing, is_integer, is_logical, kind_of, rank_of};
use fort_names::{Least, Sight};
use fort_tree::{Code, Expr, Place, Sub, Unary};

/// What is asked of an expression where it stands.
#[derive(Clone, Copy, Debug)]
pub enum Need {
    /// To be INTEGER.
    Integer,
    /// To be LOGICAL.
    Logical,
    /// To be scalar.
    Scalar,
    /// That all its array operands have one rank.
    OneRank,
}

/// Notes the place if there is one.
pub fn note_at(least: &mut Least, code: Code, place: Option<Place>)
    ensures { least.new ≡ noted (found code (option_places place)) least.old }
{
    if let Some(at) = place {
        least.note(code, at);
    }
}

/// Whether the expression is LOGICAL. Its operands need no look: an operation is arithmetic, or it is LOGICAL.
#[tactic(auto, using(crate::proofs::Logicals::never_logical, crate::proofs::Logicals::sign_never_logical))]
fn is_logical_expr(sight: &Sight, expr: &Expr) -> bool
    ensures { result ≡ logical_test (kind_meant (means sight.now) (placed_expr expr.now)) }
{
    match expr {
        Expr::Two(op, _, _) => !op.is_arithmetic(),
        Expr::One(Unary::Not, _, _) => true,
        Expr::One(Unary::Plus | Unary::Minus, _, _) => false,
        Expr::Paren(part, _) => is_logical_expr(sight, part.get()),
        Expr::Number(..) | Expr::Truth(..) | Expr::Ref(_, None, _) | Expr::Ref(_, Some(_), _) =>
            is_logical(kind_of(sight, expr)),
    }
}

/// Notes where the expression isn't what is asked.
pub fn note_need(least: &mut Least, sight: &Sight, need: Need, expr: &Expr)
    ensures { least.new ≡ noted (found (code_of need) (unmet (means sight.now) need (placed_expr expr.now))) least.old }
{
    match need {
        Need::Integer => least.note_if(is_logical_expr(sight, expr), Code::E32, first(expr)),
        Need::Logical => least.note_if(is_integer(kind_of(sight, expr)), Code::E32, first(expr)),
        Need::Scalar => least.note_if(0 < rank_of(sight, expr), Code::E33, first(expr)),
        Need::OneRank => note_at(least, Code::E33, first_differing(sight, expr)),
    }
}

/// The same, before what stands behind it.
#[tactic(auto, using(fort_names::proofs::FirstOf::noted_places))]
fn note_next(least: &mut Least, sight: &Sight, need: Need, expr: &Expr)
    ensures { (rest : List Placed) → noted (found (code_of need) (flat_map (unmet (means sight.now) need) rest)) least.new ≡ noted (found (code_of need) (flat_map (unmet (means sight.now) need) (placed_expr expr.now ∷ rest))) least.old }
{
    note_need(least, sight, need, expr);
}

/// Notes where the only expression isn't what is asked.
#[tactic(auto, using(fort_names::proofs::FirstOf::noted_places))]
pub fn note_alone(least: &mut Least, sight: &Sight, need: Need, expr: &Expr)
    ensures { least.new ≡ noted (found (code_of need) (flat_map (unmet (means sight.now) need) (placed_expr expr.now ∷ []))) least.old }
{
    note_need(least, sight, need, expr);
}

/// Notes where the expression isn't what is asked, if there is one.
pub fn note_need_if_any(least: &mut Least, sight: &Sight, need: Need, expr: &Option<Expr>)
    ensures { least.new ≡ noted (found (code_of need) (flat_map (unmet (means sight.now) need) (option_to_list (placed_option expr.now)))) least.old }
{
    match expr {
        None => {}
        Some(expr) => note_alone(least, sight, need, expr),
    }
}

fn note_single(least: &mut Least, sight: &Sight, need: Need, sub: &Sub)
    ensures { (rest : Subscripts) → noted (found (code_of need) (flat_map (unmet (means sight.now) need) (single_subscripts rest))) least.new ≡ noted (found (code_of need) (flat_map (unmet (means sight.now) need) (single_subscripts (placed_sub sub.now rest)))) least.old }
{
    match sub {
        Sub::One(expr) => note_next(least, sight, need, expr),
        Sub::Range(..) => {}
    }
}

/// Notes the subscripts or arguments that are no sections and aren't what is asked.
pub fn note_singles(least: &mut Least, sight: &Sight, need: Need, subs: &[Sub])
    ensures { least.new ≡ noted (found (code_of need) (flat_map (unmet (means sight.now) need) (single_subscripts (placed_subs subs.now)))) least.old }
{
    for sub in subs {
        note_single(least, sight, need, sub);
    }
}

fn note_limit(least: &mut Least, sight: &Sight, need: Need, bound: &Option<Expr>)
    ensures { (rest : List Placed) → noted (found (code_of need) (flat_map (unmet (means sight.now) need) rest)) least.new ≡ noted (found (code_of need) (flat_map (unmet (means sight.now) need) (in_limit (limit (placed_option bound.now)) ++ rest))) least.old }
{
    match bound {
        None => {}
        Some(expr) => note_next(least, sight, need, expr),
    }
}

fn note_bounds_of_sub(least: &mut Least, sight: &Sight, need: Need, sub: &Sub)
    ensures { (rest : Subscripts) → noted (found (code_of need) (flat_map (unmet (means sight.now) need) (section_bounds rest))) least.new ≡ noted (found (code_of need) (flat_map (unmet (means sight.now) need) (section_bounds (placed_sub sub.now rest)))) least.old }
{
    match sub {
        Sub::One(_) => {}
        Sub::Range(from, to, _) => {
            note_limit(least, sight, need, from);
            note_limit(least, sight, need, to);
        }
    }
}

/// Notes the bounds of sections that aren't what is asked.
pub fn note_section_bounds(least: &mut Least, sight: &Sight, need: Need, subs: &[Sub])
    ensures { least.new ≡ noted (found (code_of need) (flat_map (unmet (means sight.now) need) (section_bounds (placed_subs subs.now)))) least.old }
{
    for sub in subs {
        note_bounds_of_sub(least, sight, need, sub);
    }
}
