//! What rows of the grammar build of an expression.
use fort_tree::{Expr, Place, Seq, Sub};

/// A token as it is written.
#[derive(Debug, Drop)]
pub struct Word {
    pub text: Seq<u8>,
    pub at: Place,
}

/// What has been built so far of some tokens.
#[derive(Debug, Drop)]
pub enum Value {
    Written(Word),
    /// An expression, and the place of its first token.
    Operand(Expr, Place),
    /// A bound of a section, if it is written.
    Bound(Option<Expr>),
    Subscript(Sub),
    Subscripts(Seq<Sub>),
}

/// What is known of a value without its tree: its sort, and its depth, at most the greatest `u32`.
#[derive(Clone, Copy, Debug)]
pub enum Shape {
    Written,
    Operand(u32),
    Bound(u32),
    Subscript(u32),
    Subscripts(u32),
}
