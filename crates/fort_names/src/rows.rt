//! Which module declares what each module gives.
ghost use Rattle.std.specs.Prelude.{◌≡◌, IfOk, IsTrue, length, slice_get};
ghost use Rattle.std.specs.Option.{option_and_then};
ghost use Rattle.claw_meaning.specs.Plain.{plain_use};
ghost use Rattle.claw_meaning.specs.Scope.{brings as brings_test};
ghost use Rattle.numbered_graph.specs.Graphs.{IsOrder};
ghost use Rattle.fort_names.specs.Links.{links_among};
ghost use Rattle.fort_names.specs.Tables.{lines_origin as origin_by_lines, next_row as one_further, module_origin as origin_by_module, nowhere as no_module, origins as all_origins, origin_by_name, at_number};

use crate::columns::is_named;
use crate::firsts::Firsts;
use crate::homes::Declared;
use fort_tree::{Module, Name, NoMemory, Seq, Use};
use std::alloc::Global;

/// Whether the line brings the name, if its module gives it.
pub fn brings(line: &Use, name: &Name) -> bool
    ensures { result ≡ brings_test (plain_use line.now) name.now }
{
    match &line.only {
        None => true,
        Some(only) => is_named(only.items(), name),
    }
}

/// The number of the module that declares what the first line gives which gives the name, where the row says it of each module.
pub fn lines_origin(
    names: &Firsts<Name>,
    row: &[Option<usize>],
    lines: &[Use],
    name: &Name,
) -> Option<usize>
    ensures { result ≡ origin_by_lines names.now row.now lines.now name.now }
{
    for line in lines {
        if brings(line, name) {
            let origin = origin_of(names, row, &line.name);
            if origin.is_some() {
                return origin;
            }
        }
    }
    None
}

/// What the row says of the module of the name.
pub fn origin_of(names: &Firsts<Name>, row: &[Option<usize>], used: &Name) -> Option<usize>
    ensures { result ≡ origin_by_name names.now row.now used.now }
{
    number_at(row, names.place(used)?)
}

/// What the row says of the module of the number.
pub fn number_at(row: &[Option<usize>], number: usize) -> Option<usize>
    ensures { result ≡ at_number row.now number }
{
    row.get(number).copied()?
}

/// What the module of the number gives, by the row for the modules that it uses.
fn module_origin(
    declared: &Declared,
    row: &[Option<usize>],
    name: &Name,
    number: usize,
    one: &Module,
) -> Option<usize>
    ensures { result ≡ origin_by_module declared.now row.now name.now number one.now }
{
    match declared.in_module(number, name) {
        Some(_) => Some(number),
        None => lines_origin(&declared.names, row, one.uses.items(), name),
    }
}

fn next_row(
    alloc: Global,
    declared: &Declared,
    modules: &[Module],
    row: &[Option<usize>],
    name: &Name,
) -> Result<Seq<Option<usize>>, NoMemory>
    ensures { IfOk result (λ next. next ≡ one_further declared.now 0 modules.now row.now name.now) }
{
    let mut next = Seq::new(alloc);
    for (number, module) in modules.iter().enumerate() {
        next.push(module_origin(declared, row, name, number, module))?;
    }
    Ok(next)
}

fn nowhere(alloc: Global, modules: &[Module]) -> Result<Seq<Option<usize>>, NoMemory>
    ensures { IfOk result (λ row. row ≡ no_module modules.now) }
{
    let mut row = Seq::new(alloc);
    for _module in modules {
        row.push(None)?;
    }
    Ok(row)
}

fn is_same(row: &[Option<usize>], next: &[Option<usize>]) -> bool
    ensures { IsTrue result → next.now ≡ row.now }
{
    row == next
}

/// For each module the number of the module that declares what it gives under the name, or `None` where it gives nothing. A cycle of USE brings nothing more.
pub fn origins(
    alloc: Global,
    declared: &Declared,
    modules: &[Module],
    name: &Name,
) -> Result<Seq<Option<usize>>, NoMemory>
    ensures { IfOk result (λ row. row ≡ all_origins declared.now modules.now name.now) }
{
    let mut row = nowhere(alloc, modules)?;
    for _round in 0..modules.len() + 1 {
        let next = next_row(alloc, declared, modules, row.items(), name)?;
        if is_same(row.items(), next.items()) {
            return Ok(row);
        }
        row = next;
    }
    Ok(row)
}

fn origin_at(
    declared: &Declared,
    modules: &[Module],
    row: &[Option<usize>],
    name: &Name,
    number: usize,
) -> Option<usize>
    ensures { result ≡ option_and_then (origin_by_module declared.now row.now name.now number) (slice_get modules.now number) }
{
    module_origin(declared, row, name, number, modules.get(number)?)
}

/// The same in one pass, where all modules stand in the order.
fn one_pass(
    alloc: Global,
    declared: &Declared,
    modules: &[Module],
    order: &[usize],
    name: &Name,
) -> Result<Seq<Option<usize>>, NoMemory>
    requires order { IsOrder (links_among declared.now.names modules.now) order.now }
    requires whole { length order.now ≡ length modules.now }
    ensures { IfOk result (λ row. row ≡ all_origins declared.now modules.now name.now) }
{
    let mut row = nowhere(alloc, modules)?.into_vec();
    for number in order {
        let origin = origin_at(declared, modules, row.as_slice(), name, *number);
        row[*number] = origin;
    }
    Ok(Seq::from_vec(row))
}

/// The same, by an order of the modules that lead to no cycle. Where all do so, the time is linear in modules and USE lines.
pub fn origins_in_order(
    alloc: Global,
    declared: &Declared,
    modules: &[Module],
    order: &[usize],
    name: &Name,
) -> Result<Seq<Option<usize>>, NoMemory>
    requires { IsOrder (links_among declared.now.names modules.now) order.now }
    ensures { IfOk result (λ row. row ≡ all_origins declared.now modules.now name.now) }
{
    if order.len() == modules.len() {
        one_pass(alloc, declared, modules, order, name)
    } else {
        origins(alloc, declared, modules, name)
    }
}
