//! Faults of ranks in parts of expressions.
ghost use Rattle.std.specs.Prelude.{◌≡◌, ◌&&◌, ◌++◌, [], not, is_none, nat_eq, flat_map, if◌then◌else◌};
ghost use Rattle.fort_tree.specs.declared.fault.Code.TheVariants.{E33};
ghost use Rattle.fort_tree.specs.Intrinsic.{intrinsic_named};
ghost use Rattle.sound_programs.specs.Faults.{found};
ghost use Rattle.sound_programs.specs.Placed.{Reference, Subscripts, No_more};
ghost use Rattle.sound_programs.specs.Placing.{placed_expr, placed_sub, placed_subs};
ghost use Rattle.sound_programs.specs.RankFaults.{needs_scalar, takes_sections as sections_test, is_array_name as array_name_test, is_dimension as dimension_test, is_size as size_test, is_sum as sum_test, is_intrinsic_use as use_test, is_used_well as used_test, own_lists, differing_in_each, rank_faults_of_part};
ghost use Rattle.sound_programs.specs.Ranking.{rank, rank_of_entity};
ghost use Rattle.sound_programs.specs.Scopes.{is_array as array_test};
ghost use Rattle.sound_programs.specs.Walks.{count_of as length_of, single_subscripts, section_bounds, section_places};
ghost use Rattle.fort_names.specs.Leasts.{noted};
ghost use Rattle.kind_faults.specs.Needs.{unmet};
ghost use Rattle.kind_faults.specs.declared.needs.Need.TheVariants.{OneRank};
ghost use Rattle.fort_names.specs.Sights.{means};

use crate::needs::{Need, note_section_bounds, note_singles};
use fort_kinds::rank_of;
use fort_names::{Least, Sight};
use fort_tree::{ByName, Code, Expr, Intrinsic, Name, Place, Sub};

/// The number of subscripts or arguments.
#[tactic(auto, using(fort_kinds::proofs::Subs::count_is))]
pub fn count_of(subs: &[Sub]) -> usize
    ensures { result ≡ length_of (placed_subs subs.now) }
{
    subs.len()
}

/// Whether sections may stand behind the name: it is an array.
pub fn takes_sections(sight: &Sight, name: &Name) -> bool
    ensures { result ≡ sections_test (means sight.now) name.now }
{
    Intrinsic::named(name).is_none() && sight.is_array(name)
}

fn has_wrong_count(sight: &Sight, name: &Name, subs: &[Sub]) -> bool
    ensures { result ≡ (is_none (intrinsic_named name.now) && (array_test (means sight.now name.now) && not (nat_eq (length_of (placed_subs subs.now)) (rank_of_entity (means sight.now name.now))))) }
{
    Intrinsic::named(name).is_none() && (sight.is_array(name) && count_of(subs) != sight.rank(name))
}

fn is_array_name(sight: &Sight, expr: &Expr) -> bool
    ensures { result ≡ array_name_test (means sight.now) (placed_expr expr.now) }
{
    match expr {
        Expr::Ref(name, None, _) => sight.is_array(name),
        Expr::Number(..)
        | Expr::Truth(..)
        | Expr::Ref(_, Some(_), _)
        | Expr::One(..)
        | Expr::Two(..)
        | Expr::Paren(..) => false,
    }
}

/// Whether the second is a literal that is one of the dimensions of the first.
fn is_dimension(sight: &Sight, array: &Expr, along: &Expr) -> bool
    ensures { result ≡ dimension_test (means sight.now) (placed_expr along.now) (rank (means sight.now) (placed_expr array.now)) }
{
    match along {
        Expr::Number(number, _, _) => {
            let dimensions = rank_of(sight, array);
            1 <= *number && *number <= dimensions as u64
        }
        Expr::Truth(..)
        | Expr::Ref(_, None, _)
        | Expr::Ref(_, Some(_), _)
        | Expr::One(..)
        | Expr::Two(..)
        | Expr::Paren(..) => false,
    }
}

fn is_list_name(sight: &Sight, array: &Expr) -> bool
    ensures { result ≡ (array_name_test (means sight.now) (placed_expr array.now) && nat_eq (rank (means sight.now) (placed_expr array.now)) 1) }
{
    is_array_name(sight, array) && rank_of(sight, array) == 1
}

fn is_dimension_of(sight: &Sight, array: &Expr, along: &Expr) -> bool
    ensures { result ≡ (array_name_test (means sight.now) (placed_expr array.now) && dimension_test (means sight.now) (placed_expr along.now) (rank (means sight.now) (placed_expr array.now))) }
{
    is_array_name(sight, array) && is_dimension(sight, array, along)
}

fn is_size_of(sight: &Sight, array: &Sub) -> bool
    ensures { result ≡ size_test (means sight.now) (placed_sub array.now No_more) }
{
    match array {
        Sub::One(expr) => is_list_name(sight, expr),
        Sub::Range(..) => false,
    }
}

fn is_size_along(sight: &Sight, array: &Sub, along: &Sub) -> bool
    ensures { result ≡ size_test (means sight.now) (placed_sub array.now (placed_sub along.now No_more)) }
{
    match (array, along) {
        (Sub::One(array), Sub::One(along)) => is_dimension_of(sight, array, along),
        (Sub::One(_), Sub::Range(..)) => false,
        (Sub::Range(..), Sub::One(_)) => false,
        (Sub::Range(..), Sub::Range(..)) => false,
    }
}

/// Whether SIZE can tell the size of its arguments. Where there are none or three and more, it is a matter of their number alone.
fn is_size(sight: &Sight, args: &[Sub]) -> bool
    ensures { result ≡ size_test (means sight.now) (placed_subs args.now) }
{
    match args {
        [] => true,
        [array] => is_size_of(sight, array),
        [array, along] => is_size_along(sight, array, along),
        [_, _, _, ..] => true,
    }
}

fn is_sum(sight: &Sight, args: &[Sub]) -> bool
    ensures { result ≡ sum_test (means sight.now) (placed_subs args.now) }
{
    match args.first() {
        None => true,
        Some(Sub::One(expr)) => 0 < rank_of(sight, expr),
        Some(Sub::Range(..)) => true,
    }
}

fn is_intrinsic_use(sight: &Sight, which: Intrinsic, args: &[Sub]) -> bool
    ensures { result ≡ use_test (means sight.now) which (placed_subs args.now) }
{
    match which {
        Intrinsic::Size => is_size(sight, args),
        Intrinsic::Sum => is_sum(sight, args),
        Intrinsic::Abs
        | Intrinsic::Int
        | Intrinsic::Max
        | Intrinsic::Min
        | Intrinsic::Mod
        | Intrinsic::Modulo
        | Intrinsic::Sign => true,
    }
}

fn is_used_well(sight: &Sight, name: &Name, args: &[Sub]) -> bool
    ensures { result ≡ used_test (means sight.now) (intrinsic_named name.now) (placed_subs args.now) }
{
    match Intrinsic::named(name) {
        None => true,
        Some(which) => is_intrinsic_use(sight, which, args),
    }
}

fn note_section(least: &mut Least, sub: &Sub)
    ensures { (rest : Subscripts) → noted (found E33 (section_places rest)) least.new ≡ noted (found E33 (section_places (placed_sub sub.now rest))) least.old }
{
    match sub {
        Sub::One(_) => {}
        Sub::Range(_, _, at) => least.note(Code::E33, *at),
    }
}

/// Notes the sections.
pub fn note_sections(least: &mut Least, subs: &[Sub])
    ensures { least.new ≡ noted (found E33 (section_places (placed_subs subs.now))) least.old }
{
    for sub in subs {
        note_section(least, sub);
    }
}

fn note_ranges_as_arguments(least: &mut Least, sight: &Sight, name: &Name, subs: &[Sub])
    ensures { least.new ≡ noted (found E33 (if sections_test (means sight.now) name.now then [] else section_places (placed_subs subs.now))) least.old }
{
    if !takes_sections(sight, name) {
        note_sections(least, subs);
    }
}

fn note_arrays_as_subscripts(least: &mut Least, sight: &Sight, name: &Name, subs: &[Sub])
    ensures { least.new ≡ noted (found E33 (if sections_test (means sight.now) name.now then flat_map (needs_scalar (means sight.now)) (single_subscripts (placed_subs subs.now)) else [])) least.old }
{
    if takes_sections(sight, name) {
        note_singles(least, sight, Need::Scalar, subs);
    }
}

fn note_own_lists(least: &mut Least, sight: &Sight, name: &Name, subs: &[Sub])
    ensures { least.new ≡ noted (found E33 (flat_map (unmet (means sight.now) OneRank) (own_lists (means sight.now) (intrinsic_named name.now) (single_subscripts (placed_subs subs.now))))) least.old }
{
    match Intrinsic::named(name) {
        None | Some(Intrinsic::Size | Intrinsic::Sum) => {
            note_singles(least, sight, Need::OneRank, subs);
        }
        Some(
            Intrinsic::Abs
            | Intrinsic::Int
            | Intrinsic::Max
            | Intrinsic::Min
            | Intrinsic::Mod
            | Intrinsic::Modulo
            | Intrinsic::Sign,
        ) => {}
    }
}

#[tactic(auto, using(crate::proofs::Places::noted_flat))]
fn note_ranks_inside(least: &mut Least, sight: &Sight, name: &Name, subs: &[Sub])
    ensures { least.new ≡ noted (found E33 (differing_in_each (means sight.now) (own_lists (means sight.now) (intrinsic_named name.now) (single_subscripts (placed_subs subs.now)) ++ section_bounds (placed_subs subs.now)))) least.old }
{
    note_own_lists(least, sight, name, subs);
    note_section_bounds(least, sight, Need::OneRank, subs);
}

#[tactic(auto, using(fort_names::proofs::FirstOf::noted_places))]
fn note_ranks_at(least: &mut Least, sight: &Sight, name: &Name, subs: &[Sub], at: Place)
    ensures { least.new ≡ noted (found E33 (rank_faults_of_part (means sight.now) (Reference name.now (placed_subs subs.now) at))) least.old }
{
    let wrong = has_wrong_count(sight, name, subs);
    least.note_if(wrong, Code::E33, at);
    let well = is_used_well(sight, name, subs);
    least.note_if(!well, Code::E33, at);
    note_ranges_as_arguments(least, sight, name, subs);
    note_arrays_as_subscripts(least, sight, name, subs);
    note_section_bounds(least, sight, Need::Scalar, subs);
    note_ranks_inside(least, sight, name, subs);
}

/// Notes the faults of ranks at a part of an expression, those in its own parts set aside.
pub fn note_ranks_of_part(least: &mut Least, sight: &Sight, part: &Expr)
    ensures { least.new ≡ noted (found E33 (rank_faults_of_part (means sight.now) (placed_expr part.now))) least.old }
{
    match part {
        Expr::Ref(name, Some(subs), at) => note_ranks_at(least, sight, name, subs.items(), *at),
        Expr::Number(..)
        | Expr::Truth(..)
        | Expr::Ref(_, None, _)
        | Expr::One(..)
        | Expr::Two(..)
        | Expr::Paren(..) => {}
    }
}
