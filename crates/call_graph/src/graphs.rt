//! The call graph of a program.
ghost use Rattle.std.specs.Prelude.{◌≡◌, [], IfOk, IfErr};
ghost use Rattle.fort_names.specs.Scoping.{AreSymbolsOf};
ghost use Rattle.sound_programs.specs.Faults.{faults_of_calls, faults_of_names};
ghost use Rattle.sound_programs.specs.Placing.{placed};
ghost use Rattle.sound_programs.specs.Reported.{IsStopBy};
ghost use Rattle.call_graph.specs.CallGraphs.{IsCallGraph};

use crate::calls::{Calls, calls_of};
use crate::faults::first_fault;
use fort_names::Symbols;
use fort_tree::{Fault, File, Seq, Stop};
use numbered_graph::Row;
use std::alloc::Global;
use std::marker::Model;

/// For each unit of a file the units to which it refers, and an order of all units, by their numbers. Contracts see both as
/// lists.
#[derive(Debug, Drop)]
pub struct Graph {
    order: Vec<usize>,
    callees: Vec<Row>,
}

impl Model for Graph {
    ghost use Rattle.call_graph.specs.CallGraphs.{CallGraph};

    ghost Value = { CallGraph };

    ghost view = { λ s. record { order = s.order.items; callees = s.callees.items } };
}

impl<'a> Calls<'a> {
    ghost use Rattle.std.specs.Prelude.{◌≡◌};

    fn into_graph(self) -> Graph
        ensures order { result.order ≡ self.entry.order.items }
        ensures callees { result.callees ≡ self.entry.callees.items }
    {
        let Calls {
            file: _,
            references,
            callees,
            order,
            depths,
            groups,
        } = self;
        drop(references);
        drop(depths);
        drop(groups);
        Graph { order, callees }
    }
}

/// The call graph of a file without faults of names.
///
/// # Errors
/// - `Stop::Fault` with the least fault of calls, by place and then by code, exactly where there is one: a reference that lies on
///   a cycle, more than 2000 units, or calls more than 64 deep.
/// - `Stop::NoMemory` only where memory was refused.
pub fn graph_of(alloc: Global, file: &File, symbols: &Symbols) -> Result<Graph, Stop>
    requires symbols { AreSymbolsOf file.now symbols.now }
    requires names { faults_of_names (placed file.now) ≡ [] }
    ensures sound { IfOk result (λ graph. faults_of_calls (placed file.now) ≡ []) }
    ensures graph { IfOk result (IsCallGraph file.now) }
    ensures stop { IfErr result (IsStopBy (faults_of_calls (placed file.now))) }
{
    let calls = calls_of(alloc, file, symbols)?;
    match first_fault(alloc, &calls)? {
        Some(at) => Err(Stop::Fault(Fault::new(at.code, at.place))),
        None => Ok(calls.into_graph()),
    }
}

impl Graph {
    ghost use Rattle.std.specs.Prelude.{◌≡◌, ◌<◌, length};
    ghost use Rattle.numbered_graph.specs.Graphs.{row};

    /// The numbers of all units, each once, each behind all units to which it refers.
    pub fn order(&self) -> &[usize]
        ensures { result.now ≡ self.now.order }
    {
        self.order.as_slice()
    }

    /// The numbers of the units to which a unit refers, each once, in the order in which it first refers to them.
    pub fn callees(&self, unit: usize) -> &[usize]
        requires { unit < length self.now.callees }
        ensures { result.now ≡ row self.now.callees unit }
    {
        self.callees[unit].numbers()
    }
}
