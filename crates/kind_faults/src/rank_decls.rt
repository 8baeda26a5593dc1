//! Faults of ranks in declarations.
ghost use Rattle.std.specs.Prelude.{◌≡◌, ◌∷◌, ◌&&◌, ◌||◌, [], is_none, is_some, map, flat_map, nat_lt, length};
ghost use Rattle.fort_tree.specs.declared.fault.Code.TheVariants.{E33};
ghost use Rattle.std.specs.Str.{bytes_eq};
ghost use Rattle.sound_programs.specs.Faults.{found};
ghost use Rattle.sound_programs.specs.Placing.{placed_bound, placed_decl, placed_unit};
ghost use Rattle.sound_programs.specs.RankFaults.{greatest_rank as greatest_meant, has_assumed as assumed_test, has_explicit as explicit_test, is_assumed_of_no_dummy as of_no_dummy, is_assumed_beside_explicit as beside_explicit, has_dimensions as dimensions_test, places_of_decls, rank_above_limit, result_not_scalar, rank_faults_of_decls};
ghost use Rattle.sound_programs.specs.Scopes.{is_dummy as dummy_test};
ghost use Rattle.fort_names.specs.Leasts.{noted};
ghost use Rattle.kind_faults.specs.Holders.{scope_of};

use crate::holder::Holder;
use fort_names::{Least, is_named};
use fort_tree::{Bound, Code, Decl, Mode, Name, Named, Unit};

fn greatest_rank(mode: Mode) -> usize
    ensures { result ≡ greatest_meant mode }
{
    match mode {
        Mode::Source => 3,
        Mode::Target => 5,
    }
}

#[tactic(auto, using(fort_names::proofs::Places::length_map))]
fn is_above(mode: Mode, decl: &Decl) -> bool
    ensures { result ≡ nat_lt (greatest_meant mode) (length (placed_decl decl.now).shape) }
{
    let dimensions = decl.shape.len();
    greatest_rank(mode) < dimensions
}

fn note_above(least: &mut Least, mode: Mode, decls: &[Decl])
    ensures { least.new ≡ noted (found E33 (rank_above_limit mode (map placed_decl decls.now))) least.old }
{
    for decl in decls {
        least.note_if(is_above(mode, decl), Code::E33, decl.at);
    }
}

fn has_no_upper(bound: &Bound) -> bool
    ensures { result ≡ is_none (placed_bound bound.now).upper }
{
    match &bound.upper {
        None => true,
        Some(_) => false,
    }
}

fn has_upper(bound: &Bound) -> bool
    ensures { result ≡ is_some (placed_bound bound.now).upper }
{
    match &bound.upper {
        None => false,
        Some(_) => true,
    }
}

fn has_assumed(decl: &Decl) -> bool
    ensures { result ≡ assumed_test (placed_decl decl.now) }
{
    for bound in decl.shape.items() {
        if has_no_upper(bound) {
            return true;
        }
    }
    false
}

fn has_explicit(decl: &Decl) -> bool
    ensures { result ≡ explicit_test (placed_decl decl.now) }
{
    for bound in decl.shape.items() {
        if has_upper(bound) {
            return true;
        }
    }
    false
}

fn is_dummy(holder: &Holder, name: &Name) -> bool
    ensures { result ≡ dummy_test (scope_of holder.now) name.now }
{
    is_named(holder.dummies(), name)
}

/// Whether it has an assumed shape, and its name is no dummy.
fn is_assumed_of_no_dummy(holder: &Holder, decl: &Decl) -> bool
    ensures { result ≡ of_no_dummy (scope_of holder.now) (placed_decl decl.now) }
{
    has_assumed(decl) && !is_dummy(holder, &decl.name)
}

/// Whether it has an assumed shape beside a dimension that has an upper bound.
fn is_assumed_beside_explicit(decl: &Decl) -> bool
    ensures { result ≡ beside_explicit (placed_decl decl.now) }
{
    has_assumed(decl) && has_explicit(decl)
}

fn is_assumed_wrongly(holder: &Holder, decl: &Decl) -> bool
    ensures { result ≡ (of_no_dummy (scope_of holder.now) (placed_decl decl.now) || beside_explicit (placed_decl decl.now)) }
{
    is_assumed_of_no_dummy(holder, decl) || is_assumed_beside_explicit(decl)
}

fn note_assumed(least: &mut Least, holder: &Holder, decls: &[Decl])
    ensures { least.new ≡ noted (found E33 (places_of_decls (λ d. of_no_dummy (scope_of holder.now) d || beside_explicit d) (map placed_decl decls.now))) least.old }
{
    for decl in decls {
        least.note_if(is_assumed_wrongly(holder, decl), Code::E33, decl.at);
    }
}

/// Notes the faults of ranks in the declarations of a unit or a module.
#[tactic(auto, using(fort_names::proofs::FirstOf::noted_places))]
pub fn note_ranks_of_decls(least: &mut Least, mode: Mode, holder: &Holder)
    ensures { least.new ≡ noted (found E33 (rank_faults_of_decls mode (scope_of holder.now))) least.old }
{
    let decls = holder.decls();
    note_above(least, mode, decls);
    note_assumed(least, holder, decls);
}

fn has_dimensions(shape: &[Bound]) -> bool
    ensures { result ≡ dimensions_test (map placed_bound shape.now) }
{
    match shape {
        [] => false,
        _ => true,
    }
}

fn is_array_named(name: &Name, decl: &Decl) -> bool
    ensures { result ≡ (bytes_eq decl.now.name name.now && dimensions_test (placed_decl decl.now).shape) }
{
    decl.name == *name && has_dimensions(decl.shape.items())
}

fn note_arrays_named(least: &mut Least, name: &Name, decls: &[Decl])
    ensures { least.new ≡ noted (found E33 (places_of_decls (λ d. bytes_eq d.name name.now && dimensions_test d.shape) (map placed_decl decls.now))) least.old }
{
    for decl in decls {
        least.note_if(is_array_named(name, decl), Code::E33, decl.at);
    }
}

#[tactic(auto, using(fort_names::proofs::FirstOf::noted_places))]
fn note_result_named(least: &mut Least, result_name: &Named, decls: &[Decl])
    ensures { least.new ≡ noted (found E33 (flat_map (λ r. places_of_decls (λ d. bytes_eq d.name r.name && dimensions_test d.shape) (map placed_decl decls.now)) (result_name.now ∷ []))) least.old }
{
    note_arrays_named(least, &result_name.name, decls);
}

/// Notes the result of a function if it isn't scalar.
pub fn note_result(least: &mut Least, unit: &Unit)
    ensures { least.new ≡ noted (found E33 (result_not_scalar (placed_unit unit.now))) least.old }
{
    match &unit.result {
        None => {}
        Some(result_name) => note_result_named(least, result_name, unit.decls.items()),
    }
}
