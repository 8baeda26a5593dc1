//! Lines, their tokens, and the statements that they are read as.

ghost use Rattle.std.specs.Prelude.{◌≡◌, IsTrue};
ghost use Rattle.fort_tree.specs.Token.{is_token};

use crate::{Boxed, Decl, Expr, Head, Kind, Mode, Name, Named, Place, Range, Seq, Sub, Use};

/// A token of a line (ISO/IEC 1539-1:2018 6.2; the numbers' limit and suffixes are this project's own), or a sentinel `!$claw`, `!$omp` or `!$acc`.
///
/// A token is a name; digits of a number of at most 9223372036854775807, with `_1`, `_2`, `_4`, `_8` or nothing behind them; a word between points, as `.true.`;
/// or an operator or delimiter. Case doesn't count, and the text is kept in lower case.
#[derive(Debug, Drop, PartialEq)]
pub struct Token {
    pub text: Seq<u8>,
    /// The place of its first character.
    pub at: Place,
    ghost whole: { IsTrue (is_token text) },
}

/// A logical line: a statement, or a directive or mark line, with its continuations joined.
#[derive(Debug, Drop, PartialEq)]
pub struct Line {
    /// The place of the first token.
    pub at: Place,
    pub mode: Mode,
    /// Whether it is a directive or mark line. Its first token is the sentinel then.
    pub directive: bool,
    /// The place of its last `&`, where the line that continues it is missing.
    pub unfinished: Option<Place>,
    /// Whether it stands inside a continued statement.
    pub within: bool,
    pub tokens: Seq<Token>,
}

/// The word behind END.
#[derive(Clone, Copy, Debug, PartialEq, Eq)]
pub enum EndWord {
    Module,
    Subroutine,
    Function,
}

/// A statement by itself, before statements are nested.
#[derive(Debug, Drop, PartialEq)]
pub enum Statement {
    Module(Named),
    Contains,
    /// The end of a module or a unit, with the word and the name behind END.
    End(Option<EndWord>, Option<Name>),
    Subroutine {
        name: Named,
        dummies: Seq<Named>,
    },
    Function {
        /// A type before the word FUNCTION, and its place.
        prefix: Option<(Kind, Place)>,
        name: Named,
        dummies: Seq<Named>,
        result: Option<Named>,
    },
    Using(Use),
    ImplicitNone,
    /// A declaration for each name, with the attributes of the line.
    Declare(Seq<Decl>),
    Assign {
        left: Expr,
        right: Expr,
    },
    Call {
        name: Named,
        args: Seq<Sub>,
    },
    /// An IF on one line.
    IfAction {
        test: Expr,
        /// The place of the action's first token.
        at: Place,
        action: Boxed<Statement>,
    },
    IfThen(Expr),
    ElseIf(Expr),
    Else,
    EndIf,
    Do(Head),
    EndDo,
    Exit,
    Cycle,
    Return,
    Select(Expr),
    EndSelect,
    Case(Seq<Range>),
    CaseDefault,
}

impl Token {
    /// The token of a text in lower case.
    pub fn new(text: Seq<u8>, at: Place) -> Token
        requires { IsTrue (is_token text) }
        ensures text { result.text ≡ text }
        ensures at { result.at ≡ at }
    {
        Token { text, at }
    }

    /// The text, in lower case.
    pub fn text(&self) -> &[u8]
        ensures text { result.now ≡ self.now.text }
        ensures whole { IsTrue (is_token self.now.text) }
    {
        self.text.items()
    }
}
