//! What rows of the grammar build of a statement, beside the values of its expressions.
ghost use Rattle.std.specs.Prelude.{◌≡◌};
ghost use Rattle.fort_stmt.specs.Values.{blank};

use fort_expr::Value;
use fort_grammar::Stack;
use fort_tree::{Bound, Expr, Intent, Kind, Name, Named, Place, Range, Seq, Statement};
use std::alloc::Global;

const NOWHERE: Place = Place {
    file: 0,
    line: 0,
    column: 0,
};

/// An entity of a declaration by itself, before the line's type and attributes are given to it.
#[derive(Debug, Drop)]
pub struct Entity {
    pub name: Name,
    pub at: Place,
    /// Its own shape, without dimensions where it has none.
    pub shape: Seq<Bound>,
    pub value: Option<Expr>,
}

/// What has been built so far of a statement.
#[derive(Debug, Drop)]
pub struct Draft {
    /// The values of expressions, and words that wait for an action.
    pub values: Stack<Value>,
    /// The statement, or the action behind IF, that was built last.
    pub statement: Statement,
    /// The place of the first token of an action.
    pub at: Place,
    pub names: Seq<Named>,
    /// The name behind END.
    pub end_name: Option<Name>,
    /// The name of a function's result.
    pub result: Option<Named>,
    pub kind: Kind,
    /// The place of a type's word.
    pub type_at: Place,
    pub intent: Intent,
    /// The shape of DIMENSION, and above it that of an entity.
    pub shapes: Stack<Seq<Bound>>,
    pub entities: Seq<Entity>,
    pub ranges: Seq<Range>,
}

impl Draft {
    /// The draft before any token. It takes no memory.
    pub fn new(alloc: Global) -> Draft
        ensures { result ≡ blank }
    {
        Draft {
            values: Stack::new(alloc),
            statement: Statement::Contains,
            at: NOWHERE,
            names: Seq::new(alloc),
            end_name: None,
            result: None,
            kind: Kind::I4,
            type_at: NOWHERE,
            intent: Intent::In,
            shapes: Stack::new(alloc),
            entities: Seq::new(alloc),
            ranges: Seq::new(alloc),
        }
    }

    /// The statement that was built last.
    pub fn into_statement(self) -> Statement
        ensures { result ≡ self.statement }
    {
        self.statement
    }
}
