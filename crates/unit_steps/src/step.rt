//! Steps.

use fort_tree::{Case, Directive, Expr, Head, Named, Sub};

/// What a statement does by itself, the statements inside it set aside.
#[derive(Clone, Copy, Drop)]
pub enum Step<'a> {
    /// An assignment to the left side, of the right side.
    Assigns(&'a Expr, &'a Expr),
    /// A CALL of the name with these arguments.
    Calls(&'a Named, &'a [Sub]),
    /// The test of an IF or an ELSE IF.
    Tests(&'a Expr),
    /// The expression of a SELECT, and its cases, whose ranges belong to the step.
    Chooses(&'a Expr, &'a [Case]),
    /// The head of a DO, and the directive or the mark before it.
    Repeats(&'a Head, &'a Option<Directive>),
}
