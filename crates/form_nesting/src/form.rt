//! Forms.

use fort_tree::{Directive, Place, Statement};

/// What a line of a program is: a statement at the place of its first token, or a directive or mark.
#[derive(Debug, Drop)]
pub enum Form {
    Says(Place, Statement),
    Directs(Directive),
}
