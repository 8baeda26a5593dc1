//! Marks of module variables.
ghost use Rattle.std.specs.Prelude.{◌≡◌, ◌<◌, [], false, length, replicate, slice_index_or, IfOk};
ghost use Rattle.std.specs.Option.{ForSome};
ghost use Rattle.argument_faults.specs.Marking.{with_mark, some_mark, AreLong, AreMarks, AreMerged, HasAll};
ghost use Rattle.argument_faults.specs.ModuleNames.{pairs};

use crate::module_names::ModuleVariable;
use crate::variable_set::VariableSet;
use fort_tree::{NoMemory, Seq};
use std::alloc::Global;

fn no_marks(alloc: Global, count: usize) -> Result<Vec<bool>, NoMemory>
    ensures { IfOk result (λ marks. marks.items ≡ replicate count false) }
{
    let mut marks = Vec::new(alloc);
    for _variable in 0..count {
        marks.push(false)?;
    }
    Ok(marks)
}

fn mark(marks: &mut Vec<bool>, place: Option<usize>)
    requires { ForSome place (λ n. n < length marks.old.items) }
    ensures { marks.new.items ≡ with_mark marks.old.items place }
{
    match place {
        None => {}
        Some(n) => marks[n] = true,
    }
}

/// For each variable of the first list whether it is in the second.
pub fn marks_of(
    alloc: Global,
    variables: &VariableSet,
    list: &[ModuleVariable],
) -> Result<Vec<bool>, NoMemory>
    requires { HasAll variables.now (pairs list.now) }
    ensures { IfOk result (λ marks. AreMarks variables.now (pairs list.now) marks.items) }
{
    let mut marks = no_marks(alloc, variables.len())?;
    for variable in list {
        mark(&mut marks, variables.place(variable));
    }
    Ok(marks)
}

fn mark_in(rows: &[Seq<bool>], number: usize, place: usize) -> bool
    requires number { number < length rows.now }
    requires place { place < length (slice_index_or rows.now number []) }
    ensures { result ≡ slice_index_or (slice_index_or rows.now number []) place false }
{
    rows[number].items()[place]
}

/// Whether one of the rows of these numbers has a mark at the place.
fn has_mark(rows: &[Seq<bool>], numbers: &[usize], place: usize, long: usize) -> bool
    requires rows { AreLong rows.now numbers.now long }
    requires place { place < long }
    ensures { result ≡ some_mark rows.now numbers.now place }
{
    for number in numbers {
        if mark_in(rows, *number, place) {
            return true;
        }
    }
    false
}

/// The marks of the first list and of the rows of these numbers.
///
/// # Errors
/// `NoMemory` only where memory was refused.
pub fn merged(
    alloc: Global,
    own: &[bool],
    rows: &[Seq<bool>],
    numbers: &[usize],
) -> Result<Vec<bool>, NoMemory>
    requires { AreLong rows.now numbers.now (length own.now) }
    ensures { IfOk result (λ marks. AreMerged own.now rows.now numbers.now marks.items) }
{
    let mut marks = Vec::new(alloc);
    for (place, mark) in own.iter().enumerate() {
        marks.push(*mark || has_mark(rows, numbers, place, own.len()))?;
    }
    Ok(marks)
}
