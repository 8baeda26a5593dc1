//! What is open around a line.

use fort_grammar::Stack;
use fort_tree::{DirectiveWord, EndWord, Name, Place};

/// How far the head of the innermost open module or unit has come.
#[derive(Clone, Copy, Debug, PartialEq, Eq)]
pub enum Part {
    /// USE lines can stand, and all that can stand behind them.
    Uses,
    /// Declarations can stand, and what can stand behind them.
    Declarations,
    /// Statements of a unit alone; units of a module or of a file, where none is open.
    Body,
}

/// A construct that is open (ISO/IEC 1539-1:2018 11.1).
#[derive(Clone, Copy, Debug, PartialEq, Eq)]
pub enum Construct {
    /// An IF before its ELSE.
    If,
    /// An IF behind its ELSE.
    Else,
    /// A SELECT before its first CASE.
    Select,
    /// A SELECT behind a CASE.
    Case {
        /// Whether CASE DEFAULT has stood.
        default: bool,
    },
    Do,
}

/// The innermost DO around.
#[derive(Clone, Copy, Debug, PartialEq, Eq)]
pub enum Exits {
    /// There is none.
    Nowhere,
    /// It has no mark.
    Loop,
    /// It has the mark with this place.
    Marked(Place),
}

/// A block of directives that is open.
#[derive(Clone, Copy, Debug, PartialEq, Eq)]
pub struct Block {
    pub at: Place,
    /// The directive that begins it.
    pub word: DirectiveWord,
    /// How many constructs and blocks are open around it, counted to 64.
    pub depth: u8,
}

/// A list of statements that is open: that of a unit, of an arm, of a case or of a DO.
#[derive(Debug, Drop)]
pub struct Listing {
    /// The construct that it stands in; `None` for the list of a unit.
    pub construct: Option<Construct>,
    pub exits: Exits,
    /// The mark of the outermost marked DO around.
    pub returns: Option<Place>,
    /// How many constructs and blocks are open, counted to 64.
    pub depth: u8,
    /// The blocks that are open in it.
    pub blocks: Stack<Block>,
}

/// The unit that is open.
#[derive(Clone, Copy, Debug, PartialEq)]
pub struct Heading {
    /// What its END may say.
    pub word: EndWord,
    pub name: Name,
}

/// A directive that stands directly before what follows.
#[derive(Clone, Copy, Debug, PartialEq, Eq)]
pub struct Waiting {
    pub at: Place,
    pub word: DirectiveWord,
}

/// What is open around the next line, and what waits for it.
#[derive(Debug, Drop)]
pub struct Around {
    pub file: u32,
    /// The line in which the file's last statement begins.
    pub line: u32,
    /// The module that is open.
    pub host: Option<Name>,
    /// The unit that is open.
    pub unit: Option<Heading>,
    pub part: Part,
    /// The innermost list of statements.
    pub list: Listing,
    /// The lists around it, the innermost first.
    pub outside: Stack<Listing>,
    /// `define` and `parallelize` of the unit's head.
    pub define: Option<Place>,
    pub parallelize: Option<Place>,
    /// The first block or mark of the unit's head behind which no more of the head may stand.
    pub head_end: Option<Place>,
    pub waiting: Option<Waiting>,
}
