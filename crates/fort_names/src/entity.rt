//! What a name is.

use fort_tree::Decl;

/// What sort of thing it is.
#[derive(Clone, Copy, Debug, PartialEq, Eq)]
pub enum Sort {
    Variable,
    Parameter,
    Unit,
    Module,
}

/// Where it is declared.
#[derive(Clone, Copy, Debug, PartialEq, Eq)]
pub enum Home {
    /// In the unit whose scope it is.
    Local,
    /// In the module of this number in the file.
    Module(usize),
    /// In the files: an external unit or a module.
    Global,
}

/// The one thing that a name is in a scope.
#[derive(Debug, Drop)]
pub struct Entity {
    pub sort: Sort,
    pub home: Home,
    /// The number of its declaration in its home, or that of the unit or module in the file, from 0.
    pub index: usize,
    /// An equal copy of its declaration, if it is a variable or a PARAMETER.
    pub decl: Option<Decl>,
    /// Whether it is a column dummy of the scope's unit.
    pub column: bool,
}
