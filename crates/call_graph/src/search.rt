//! References on cycles, and units whose calls are too deep.
ghost use Rattle.std.specs.Prelude.{◌≡◌, ◌<◌, ◌++◌, ◌&&◌, [], IfOk, None, Some, true, false, length, map, slice_index_or};
ghost use Rattle.fort_names.specs.Leasts.{places_at};
ghost use Rattle.numbered_graph.specs.Graphs.{stands};
ghost use Rattle.call_graph.specs.Calling.{AreCalls, is_first as is_first_of, is_recursive as recursive, recursive_places, all_recursive, is_deep, links_of};
ghost use Rattle.call_graph.specs.Earliest.{earliest};
ghost use Rattle.call_graph.specs.Referring.{numbers, name_at, unit_names};

use crate::calls::{Calls, TOO_DEEP};
use crate::reference::Reference;
use fort_names::is_earlier;
use fort_tree::{NoMemory, Place};
use numbered_graph::depth_of;
use std::alloc::Global;

fn is_first(at: Place, first: Option<Place>) -> bool
    ensures { result ≡ is_first_of at first }
{
    match first {
        None => true,
        Some(first) => is_earlier(at, first),
    }
}

/// Whether a reference in the unit lies on a cycle.
fn is_recursive(
    alloc: Global,
    calls: &Calls<'_>,
    unit: usize,
    reference: Reference,
) -> Result<bool, NoMemory>
    requires calls { AreCalls calls.now }
    requires there { stands reference.unit (numbers (slice_index_or calls.now.references.items unit [])) ≡ true }
    ensures { IfOk result (λ on_cycle. on_cycle ≡ recursive calls.now unit reference) }
{
    let callees = calls.callees.as_slice();
    Ok(calls.groups.lead(alloc, callees, reference.unit, unit)?)
}

/// The first so far, or an earlier reference of the unit that lies on a cycle.
fn recursion_in(
    alloc: Global,
    calls: &Calls<'_>,
    unit: usize,
    mut first: Option<Place>,
) -> Result<Option<Place>, NoMemory>
    requires calls { AreCalls calls.now }
    requires within { unit < length calls.now.references.items }
    ensures { IfOk result (λ place. place ≡ earliest first (recursive_places calls.now unit (slice_index_or calls.now.references.items unit []))) }
{
    for reference in calls.references[unit].items() {
        if is_first(reference.at, first) && is_recursive(alloc, calls, unit, *reference)? {
            first = Some(reference.at);
        }
    }
    Ok(first)
}

/// The first reference that lies on a cycle.
pub fn first_recursion(alloc: Global, calls: &Calls<'_>) -> Result<Option<Place>, NoMemory>
    requires { AreCalls calls.now }
    ensures { IfOk result (λ place. place ≡ earliest None (all_recursive calls.now 0 calls.now.references.items)) }
{
    let mut first = None;
    for unit in 0..calls.references.len() {
        first = recursion_in(alloc, calls, unit, first)?;
    }
    Ok(first)
}

/// Whether the calls of the unit are deeper than 64.
fn is_too_deep(calls: &Calls<'_>, unit: usize) -> bool
    requires calls { AreCalls calls.now }
    requires within { unit < length calls.now.file.now.units }
    ensures { result ≡ is_deep (links_of calls.now) (name_at (unit_names calls.now.file.now) unit) }
{
    match depth_of(calls.depths.as_slice(), unit) {
        None => false,
        Some(depth) => depth >= TOO_DEEP,
    }
}

/// The first unit whose calls are deeper than 64.
pub fn first_too_deep(calls: &Calls<'_>) -> Option<Place>
    requires { AreCalls calls.now }
    ensures { result ≡ earliest None (places_at (λ u. is_deep (links_of calls.now) u.name) (λ u. u.at) calls.now.file.now.units) }
{
    let mut first = None;
    for (number, unit) in calls.file.units.items().iter().enumerate() {
        if is_too_deep(calls, number) && is_first(unit.at, first) {
            first = Some(unit.at);
        }
    }
    first
}
