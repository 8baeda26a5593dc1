//! Statements of a tree and their parts.

use crate::{Expr, Name, Place, Seq, Sub};

/// A name where it is written.
#[derive(Clone, Copy, Debug, PartialEq, Eq)]
pub struct Named {
    pub name: Name,
    pub at: Place,
}

/// The head of a DO loop (ISO/IEC 1539-1:2018 11.1.7.2).
#[derive(Debug, Drop, PartialEq)]
pub struct Head {
    pub var: Name,
    /// The place of the variable.
    pub at: Place,
    pub from: Expr,
    pub to: Expr,
    pub step: Option<Expr>,
}

/// What a CASE names (ISO/IEC 1539-1:2018 11.1.9.1).
#[derive(Debug, Drop, PartialEq)]
pub enum Range {
    One(Expr),
    /// From the first value to the second. One that isn't written is no bound.
    Span(Option<Expr>, Option<Expr>),
}

/// What a directive or a mark asks for. The directives are those of the CLAW language that this project takes.
#[derive(Clone, Copy, Debug, PartialEq, Eq)]
pub enum DirectiveWord {
    /// `define dimension`.
    Define,
    /// `parallelize`, with what it may say of data and positions.
    Parallelize,
    /// `parallelize forward`.
    Forward,
    /// `loop-fusion`.
    Fusion,
    /// `loop-interchange`.
    Interchange,
    /// `loop-hoist`.
    Hoist,
    /// `end loop-hoist`.
    EndHoist,
    /// `array-transform`.
    Transform,
    /// `end array-transform`.
    EndTransform,
    /// `kcache`.
    Cache,
    /// A loop over columns, which no text has: a compiler makes it.
    Column,
    /// `!$omp parallel do`.
    OpenMpLoop,
    /// `!$acc parallel loop gang vector`.
    OpenAccLoop,
    /// `!$acc routine seq`.
    Routine,
}

/// A directive or a mark. What its form doesn't give is `None`, empty or false.
#[derive(Debug, Drop, PartialEq)]
pub struct Directive {
    /// The place of its sentinel.
    pub at: Place,
    pub word: DirectiveWord,
    /// The names that it lists: of data, of loop variables, or of private variables. Of `define` it is the dimension's name alone.
    pub names: Seq<Name>,
    /// The positions of `over`, where `None` is a colon.
    pub over: Option<Seq<Option<Name>>>,
    /// The number of `collapse`.
    pub number: Option<u32>,
    /// The name of `group`.
    pub group: Option<Name>,
    /// Whether `init` is written.
    pub init: bool,
    /// The bounds of `define`.
    pub lower: Option<Expr>,
    pub upper: Option<Expr>,
}

/// A statement. Its place `at` is that of its first token.
#[cycle(stmt)]
#[derive(Debug, Drop, PartialEq)]
pub enum Stmt {
    Assign {
        at: Place,
        left: Expr,
        right: Expr,
    },
    Call {
        at: Place,
        name: Named,
        args: Seq<Sub>,
        /// Whether `parallelize forward` stands before it.
        forward: bool,
    },
    If {
        at: Place,
        arms: Seq<Arm>,
        other: Option<Seq<Stmt>>,
    },
    Select {
        at: Place,
        on: Expr,
        arms: Seq<Case>,
        other: Option<Seq<Stmt>>,
    },
    Loop {
        at: Place,
        head: Head,
        body: Seq<Stmt>,
        /// The directive or the mark before it.
        mark: Option<Directive>,
    },
    /// Statements between a directive and its end, with the place of the sentinel.
    Block {
        at: Place,
        mark: Directive,
        body: Seq<Stmt>,
    },
    /// Statements that are one for a compiler; no text shows it.
    Piece(Seq<Stmt>),
    Exit(Place),
    Cycle(Place),
    Return(Place),
}

/// A test of an IF, and what runs where it holds first.
#[cycle(stmt)]
#[derive(Debug, Drop, PartialEq)]
pub struct Arm {
    pub test: Expr,
    pub body: Seq<Stmt>,
}

/// The ranges of a CASE, and what runs where the value lies in one.
#[cycle(stmt)]
#[derive(Debug, Drop, PartialEq)]
pub struct Case {
    pub ranges: Seq<Range>,
    pub body: Seq<Stmt>,
}
