//! What nesting is judged by.
ghost use Rattle.std.specs.Prelude.{◌≡◌};
ghost use Rattle.fort_units.specs.Passing as passing;

use fort_stmt::Sort;
use fort_tree::{DirectiveWord, Place};

/// A statement or a directive of a text, as far as its nesting is judged by it.
#[derive(Clone, Copy, Debug, PartialEq)]
pub enum Item {
    /// A statement, with the place of its first token.
    Statement(Place, Sort),
    /// A statement with a fault of its own. It counts where a file ends, and else it is passed over.
    Absent(Place),
    /// A directive or a mark, with the place of its sentinel. A line with two of them is two items.
    Directive {
        at: Place,
        /// Whether its line stands inside a continued statement.
        within: bool,
        word: DirectiveWord,
    },
    /// A directive or mark line of no form.
    Unread {
        at: Place,
        within: bool,
        /// Whether it is a mark line.
        mark: bool,
    },
}

impl Item {
    /// The number of its file.
    pub fn file(&self) -> u32
        ensures { result ≡ passing.file_of self.now }
    {
        match self {
            Item::Statement(at, _) => at.file,
            Item::Absent(at) => at.file,
            Item::Directive { at, .. } => at.file,
            Item::Unread { at, .. } => at.file,
        }
    }
}
