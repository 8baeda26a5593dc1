//! What tokens are as a statement.

use fort_tree::Statement;

/// What some tokens are by their form alone.
#[derive(Debug, Drop)]
pub enum Outcome {
    Form(Statement),
    /// No statement: with as many tokens one can begin, and with the next none.
    Syntax(usize),
}
