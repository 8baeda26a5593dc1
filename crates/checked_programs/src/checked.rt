//! A sound program with its tables, and one that isn't sound with its first fault.

use call_graph::Graph;
use fort_names::Symbols;
use fort_tree::{File, Mode, Stop};
use std::marker::Model;

/// A sound program, with what each name is in each of its scopes, and its call graph.
#[derive(Drop)]
pub struct Checked {
    mode: Mode,
    file: File,
    symbols: Symbols,
    graph: Graph,
}

impl Model for Checked {
    ghost use Rattle.checked_programs.specs.Checking.{Program, IsChecked};
    ghost use Rattle.fort_tree.specs.contracts.unit.File as file_type;
    ghost use Rattle.fort_names.specs.contracts.symbols.Symbols as symbols_type;
    ghost use Rattle.std.specs.Coded.{codes};

    ghost Value = { Program };

    ghost coded = { Prim.hlevel (codes, file_type.the_row.coded, symbols_type.the_row.coded) };

    ghost view = { λ s. record { mode = s.mode; file = s.file; symbols = s.symbols; graph = s.graph } };

    ghost invariant = { λ s. IsChecked (record { mode = s.mode; file = s.file; symbols = s.symbols; graph = s.graph }) };
}

/// A program that wasn't taken, and why.
#[derive(Debug, Drop)]
pub struct Refused {
    pub file: File,
    pub stop: Stop,
}

impl Checked {
    ghost use Rattle.std.specs.Prelude.{◌≡◌};
    ghost use Rattle.checked_programs.specs.Checking.{Program, IsChecked};

    /// The program of these parts.
    pub(crate) fn of(mode: Mode, file: File, symbols: Symbols, graph: Graph) -> Checked
        requires { IsChecked (record { mode = mode; file = file; symbols = symbols; graph = graph }) }
        ensures { result ≡ record { mode = mode; file = file; symbols = symbols; graph = graph } }
    {
        Checked {
            mode,
            file,
            symbols,
            graph,
        }
    }

    /// The program's tree.
    pub fn file(&self) -> &File
        ensures { result.now ≡ self.now.file }
    {
        &self.file
    }

    /// What each name is in each scope of the program.
    pub fn symbols(&self) -> &Symbols
        ensures { result.now ≡ self.now.symbols }
    {
        &self.symbols
    }

    /// Which units each unit refers to, and an order with callees first.
    pub fn graph(&self) -> &Graph
        ensures { result.now ≡ self.now.graph }
    {
        &self.graph
    }

    /// Every such program is sound, and its tables are its own.
    pub fn is_sound(&self)
        ensures { IsChecked self.now }
    {
        let _file = &self.file;
    }

    /// The program's tree alone.
    pub fn into_file(self) -> File
        ensures { result ≡ self.file }
    {
        let Checked {
            mode: _,
            file,
            symbols,
            graph,
        } = self;
        drop(symbols);
        drop(graph);
        file
    }
}
