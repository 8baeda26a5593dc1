//! Whether ranges of a SELECT overlap, told by a sort.
ghost use Rattle.std.specs.Prelude.{◌≡◌, ◌≤◌, ◌∷◌, ◌++◌, ℤ, List, [], None, Option, true, if◌then◌else◌, length, take, IfOk, OnOk};
ghost use Rattle.kind_faults.specs.Cases.{overlapping_choices};
ghost use Rattle.kind_faults.specs.Spans.{span_before, spans_of as spans_in, is_beyond as beyond_test, ascends as ascend_from};

use crate::cases::{Choice, Numbers, is_below};
use fort_tree::NoMemory;
use std::alloc::Global;

fn push_if(holds: bool, span: Numbers, into: &mut Vec<Numbers>) -> Result<(), NoMemory>
    ensures { OnOk result (into.new.items ≡ into.old.items ++ (if holds then span ∷ [] else [])) }
{
    if holds {
        into.push(span)?;
    }
    Ok(())
}

fn add_span(numbers: Option<Numbers>, into: &mut Vec<Numbers>) -> Result<(), NoMemory>
    ensures { OnOk result ((rest : List (Option ℤ × Option ℤ)) → into.new.items ++ rest ≡ into.old.items ++ span_before numbers rest) }
{
    match numbers {
        None => Ok(()),
        Some(span) => push_if(is_below(span.0, span.1), span, into),
    }
}

/// The numbers of the ranges that are known and hold one.
fn spans_of(alloc: Global, choices: &[Choice]) -> Result<Vec<Numbers>, NoMemory>
    ensures { IfOk result (λ list. list.items ≡ spans_in choices.now) }
{
    let mut list = Vec::new(alloc);
    for choice in choices {
        add_span(choice.numbers, &mut list)?;
    }
    Ok(list)
}

fn is_beyond(last: Option<Option<i128>>, first: Option<i128>) -> bool
    ensures { result ≡ beyond_test last first }
{
    match last {
        None => true,
        Some(last) => !is_below(first, last),
    }
}

fn ascend(spans: &[Numbers]) -> bool
    ensures { result ≡ ascend_from None spans.now }
{
    let mut last = None;
    for span in spans {
        if !is_beyond(last, span.0) {
            return false;
        }
        last = Some(span.1);
    }
    true
}

/// Whether the ranges, in the order of their first numbers, each begin above the one before. Then no two overlap.
///
/// # Errors
/// `NoMemory` only where memory was refused.
fn are_apart(alloc: Global, choices: &[Choice]) -> Result<bool, NoMemory>
    ensures { IfOk result (λ apart. apart ≡ true → overlapping_choices choices.now ≡ []) }
{
    let mut spans = spans_of(alloc, choices)?;
    spans.sort_by_key(|span| span.0)?;
    Ok(ascend(spans.as_slice()))
}

/// The same as `apart_up_to`, where it is told of the first `low`, and asked of no more than the first `high`.
fn apart_between(
    alloc: Global,
    choices: &[Choice],
    low: usize,
    high: usize,
) -> Result<usize, NoMemory>
    requires order { low ≤ high }
    requires within { high ≤ length choices.now }
    requires told { overlapping_choices (take low choices.now) ≡ [] }
    ensures within { IfOk result (λ count. count ≤ length choices.now) }
    ensures told { IfOk result (λ count. overlapping_choices (take count choices.now) ≡ []) }
{
    if high - low < 2 {
        return Ok(low);
    }
    let middle = low + (high - low) / 2;
    if are_apart(alloc, &choices[..middle])? {
        apart_between(alloc, choices, middle, high)
    } else {
        apart_between(alloc, choices, low, middle)
    }
}

/// How many ranges from the first on have no two that overlap, as far as sorts of them tell it: all, or as many as halving finds.
///
/// # Errors
/// `NoMemory` only where memory was refused.
pub fn apart_up_to(alloc: Global, choices: &[Choice]) -> Result<usize, NoMemory>
    ensures within { IfOk result (λ count. count ≤ length choices.now) }
    ensures told { IfOk result (λ count. overlapping_choices (take count choices.now) ≡ []) }
{
    if are_apart(alloc, choices)? {
        return Ok(choices.len());
    }
    apart_between(alloc, choices, 0, choices.len())
}
