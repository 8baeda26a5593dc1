//! The cases of a SELECT.
ghost use Rattle.std.specs.Prelude.{◌≡◌, ◌∷◌, ◌++◌, ◌≤◌, [], Some, map, flat_map, length, take, IfOk, OnOk};
ghost use Rattle.std.specs.Option.{option_to_list};
ghost use Rattle.fort_tree.specs.declared.fault.Code.TheVariants.{E32};
ghost use Rattle.sound_programs.specs.Faults.{found};
ghost use Rattle.sound_programs.specs.KindFaults.{case_value as case_number, is_case_fault as case_test, case_fault, edge as edge_value, is_below as below_test, overlap as overlap_test, values_of, needs_of_step};
ghost use Rattle.sound_programs.specs.Places.{option_places};
ghost use Rattle.sound_programs.specs.Placing.{placed_expr, placed_option, placed_range};
ghost use Rattle.sound_programs.specs.Walks.{ranges_of as ranges_meant};
ghost use Rattle.unit_steps.specs.Acts.{cases_placed};
ghost use Rattle.fort_names.specs.Leasts.{noted};
ghost use Rattle.sound_programs.specs.Walks.{Chooses};
ghost use Rattle.kind_faults.specs.Cases.{between, choice_of as choice_meant, nobody, numbers_of, overlaps_of, overlapped_by, overlapping_choices, place_changes, placed_ranges, value_place};
ghost use Rattle.fort_names.specs.Sights.{means};

use crate::needs::{Need, note_at, note_need};
use crate::spans::apart_up_to;
use fort_kinds::{case_value, first, in_kind, kind_of};
use fort_names::{Least, Sight};
use fort_tree::{Case, Code, Expr, Kind, NoMemory, Place, Range};
use std::alloc::Global;

/// The first and the last number of a range, each where there is one.
pub type Numbers = (Option<i128>, Option<i128>);

/// A range of a SELECT: its numbers where all its values are known, and the place of its first value.
#[derive(Clone, Copy, Drop)]
pub struct Choice {
    pub numbers: Option<Numbers>,
    pub at: Option<Place>,
}

fn is_case_fault(sight: &Sight, kind: Option<Kind>, value: &Expr) -> bool
    ensures { result ≡ case_test (means sight.now) kind (case_number (means sight.now) (placed_expr value.now)) }
{
    match case_value(sight, value) {
        None => true,
        Some(number) => match kind {
            None => false,
            Some(kind) => kind.is_whole() && !in_kind(kind, number),
        },
    }
}

/// Notes a value of a case that is no number and no INTEGER PARAMETER, or isn't in the kind.
fn note_case_value(least: &mut Least, sight: &Sight, kind: Option<Kind>, value: &Expr)
    ensures { least.new ≡ noted (found E32 (case_fault (means sight.now) kind (placed_expr value.now))) least.old }
{
    let fault = is_case_fault(sight, kind, value);
    least.note_if(fault, Code::E32, first(value));
}

#[tactic(auto, using(fort_names::proofs::FirstOf::noted_places))]
fn note_case_alone(least: &mut Least, sight: &Sight, kind: Option<Kind>, value: &Expr)
    ensures { least.new ≡ noted (found E32 (flat_map (case_fault (means sight.now) kind) (placed_expr value.now ∷ []))) least.old }
{
    note_case_value(least, sight, kind, value);
}

fn note_case_limit(least: &mut Least, sight: &Sight, kind: Option<Kind>, value: &Option<Expr>)
    ensures { least.new ≡ noted (found E32 (flat_map (case_fault (means sight.now) kind) (option_to_list (placed_option value.now)))) least.old }
{
    match value {
        None => {}
        Some(value) => note_case_alone(least, sight, kind, value),
    }
}

#[tactic(auto, using(crate::proofs::Places::noted_flat))]
fn note_case_limits(
    least: &mut Least,
    sight: &Sight,
    kind: Option<Kind>,
    lower: &Option<Expr>,
    upper: &Option<Expr>,
)
    ensures { least.new ≡ noted (found E32 (flat_map (case_fault (means sight.now) kind) (option_to_list (placed_option lower.now) ++ option_to_list (placed_option upper.now)))) least.old }
{
    note_case_limit(least, sight, kind, lower);
    note_case_limit(least, sight, kind, upper);
}

fn note_range_values(least: &mut Least, sight: &Sight, kind: Option<Kind>, range: &Range)
    ensures { least.new ≡ noted (found E32 (flat_map (case_fault (means sight.now) kind) (values_of (means sight.now) (placed_range range.now)))) least.old }
{
    match range {
        Range::One(value) => note_case_alone(least, sight, kind, value),
        Range::Span(lower, upper) => note_case_limits(least, sight, kind, lower, upper),
    }
}

/// Notes the values of cases that are no numbers of the kind.
pub fn note_case_values(least: &mut Least, sight: &Sight, kind: Option<Kind>, ranges: &[&Range])
    ensures { least.new ≡ noted (found E32 (flat_map (case_fault (means sight.now) kind) (flat_map (values_of (means sight.now)) (placed_ranges ranges.now)))) least.old }
{
    for range in ranges {
        note_range_values(least, sight, kind, range);
    }
}

fn edge_of(sight: &Sight, value: &Expr) -> Option<Option<i128>>
    ensures { result ≡ edge_value (means sight.now) (Some (placed_expr value.now)) }
{
    match case_value(sight, value) {
        None => None,
        Some(number) => Some(Some(number)),
    }
}

fn edge(sight: &Sight, limit: &Option<Expr>) -> Option<Option<i128>>
    ensures { result ≡ edge_value (means sight.now) (placed_option limit.now) }
{
    match limit {
        None => Some(None),
        Some(value) => edge_of(sight, value),
    }
}

fn numbers_between(lower: Option<Option<i128>>, upper: Option<Option<i128>>) -> Option<Numbers>
    ensures { result ≡ between lower upper }
{
    match (lower, upper) {
        (Some(lower), Some(upper)) => Some((lower, upper)),
        (Some(_), None) => None,
        (None, _) => None,
    }
}

fn numbers_in(sight: &Sight, range: &Range) -> Option<Numbers>
    ensures { result ≡ numbers_of (means sight.now) (placed_range range.now) }
{
    match range {
        Range::One(value) => {
            let number = edge_of(sight, value);
            numbers_between(number, number)
        }
        Range::Span(lower, upper) => numbers_between(edge(sight, lower), edge(sight, upper)),
    }
}

fn first_value(range: &Range) -> Option<Place>
    ensures { result ≡ value_place (placed_range range.now) }
{
    match range {
        Range::One(value) => Some(first(value)),
        Range::Span(Some(lower), _) => Some(first(lower)),
        Range::Span(None, Some(upper)) => Some(first(upper)),
        Range::Span(None, None) => None,
    }
}

fn choice_of(sight: &Sight, range: &Range) -> Choice
    ensures { result ≡ choice_meant (means sight.now) (placed_range range.now) }
{
    Choice {
        numbers: numbers_in(sight, range),
        at: first_value(range),
    }
}

/// Whether the first number of a range is at most the last number of a range.
pub fn is_below(a: Option<i128>, b: Option<i128>) -> bool
    ensures { result ≡ below_test nobody a b }
{
    match (a, b) {
        (Some(a), Some(b)) => a <= b,
        (Some(_), None) => true,
        (None, _) => true,
    }
}

/// Whether they have a number in common: each first is at most each last.
fn overlap(a: Numbers, b: Numbers) -> bool
    ensures { result ≡ overlap_test nobody a b }
{
    (is_below(a.0, a.1) && is_below(b.0, b.1)) && (is_below(a.0, b.1) && is_below(b.0, a.1))
}

/// The place of the later, if the two overlap.
fn overlap_of(a: &Choice, b: &Choice) -> Option<Place>
    ensures { option_places result ≡ overlaps_of a.now b.now }
{
    match (a.numbers, b.numbers) {
        (Some(numbers), Some(others)) => { if overlap(numbers, others) { b.at } else { None } }
        (Some(_), None) => None,
        (None, _) => None,
    }
}

/// Notes the place of a range for each of these before it that it overlaps.
fn note_overlapped(least: &mut Least, before: &[Choice], one: &Choice)
    ensures { least.new ≡ noted (found E32 (overlapped_by before.now one.now)) least.old }
{
    for other in before {
        note_at(least, Code::E32, overlap_of(other, one));
    }
}

/// Whether a fault at the place would be the least.
fn would_change(least: &Least, at: Option<Place>) -> bool
    ensures { result ≡ place_changes least.now at }
{
    match at {
        None => false,
        Some(at) => least.changes(Code::E32, at),
    }
}

/// The same, with no look at those before it where its place would change nothing.
#[tactic(auto, using(crate::proofs::Columns::unchanged))]
fn note_one_more(least: &mut Least, before: &[Choice], one: &Choice)
    ensures { least.new ≡ noted (found E32 (overlapped_by before.now one.now)) least.old }
{
    if would_change(least, one.at) {
        note_overlapped(least, before, one);
    }
}

/// Notes of each two that overlap the later, where no two of the first ones do.
fn note_behind_first(least: &mut Least, choices: &[Choice], apart: usize)
    requires within { apart ≤ length choices.now }
    requires told { overlapping_choices (take apart choices.now) ≡ [] }
    ensures { least.new ≡ noted (found E32 (overlapping_choices choices.now)) least.old }
{
    for i in apart..choices.len() {
        note_one_more(least, &choices[..i], &choices[i]);
    }
}

/// Notes of each two that overlap the later.
fn note_choices(alloc: Global, least: &mut Least, choices: &[Choice]) -> Result<(), NoMemory>
    ensures { OnOk result (least.new ≡ noted (found E32 (overlapping_choices choices.now)) least.old) }
{
    let apart = apart_up_to(alloc, choices)?;
    note_behind_first(least, choices, apart);
    Ok(())
}

fn choices_of(alloc: Global, sight: &Sight, ranges: &[&Range]) -> Result<Vec<Choice>, NoMemory>
    ensures { IfOk result (λ list. list.items ≡ map (choice_meant (means sight.now)) (placed_ranges ranges.now)) }
{
    let mut list = Vec::new(alloc);
    for range in ranges {
        list.push(choice_of(sight, range))?;
    }
    Ok(list)
}

fn note_ranges<'a>(ranges: &'a [Range], into: &mut Vec<&'a Range>) -> Result<(), NoMemory>
    ensures { OnOk result (placed_ranges into.new.items ≡ placed_ranges into.old.items ++ map placed_range ranges.now) }
{
    for range in ranges {
        into.push(range)?;
    }
    Ok(())
}

/// The ranges of all cases.
fn ranges_of<'a>(alloc: Global, cases: &'a [Case]) -> Result<Vec<&'a Range>, NoMemory>
    ensures { IfOk result (λ list. placed_ranges list.items ≡ ranges_meant (cases_placed cases.now)) }
{
    let mut list = Vec::new(alloc);
    for case in cases {
        note_ranges(case.ranges.items(), &mut list)?;
    }
    Ok(list)
}

/// Notes where the expression of a SELECT isn't INTEGER, values of cases that are no numbers of its kind, and ranges that overlap.
///
/// # Errors
/// `NoMemory` only where memory was refused.
#[tactic(auto, using(fort_names::proofs::FirstOf::noted_places, crate::proofs::Overlaps::choices_overlap))]
pub fn note_select(
    alloc: Global,
    least: &mut Least,
    sight: &Sight,
    on: &Expr,
    cases: &[Case],
) -> Result<(), NoMemory>
    ensures { OnOk result (least.new ≡ noted (found E32 (needs_of_step (means sight.now) (Chooses (placed_expr on.now) (ranges_meant (cases_placed cases.now))))) least.old) }
{
    let ranges = ranges_of(alloc, cases)?;
    let choices = choices_of(alloc, sight, ranges.as_slice())?;
    note_need(least, sight, Need::Integer, on);
    note_case_values(least, sight, kind_of(sight, on), ranges.as_slice());
    note_choices(alloc, least, choices.as_slice())?;
    Ok(())
}
