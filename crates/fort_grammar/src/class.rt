//! Classes of tokens: the terminal symbols of the grammar. Made by tools/grammar/make.py.
ghost use Rattle.std.specs.Prelude.{◌≡◌, map};
ghost use Rattle.fort_grammar.specs.Class.{word, words};

/// The class of a token. A keyword is a class of its own; a reserved word without a place in the grammar is in `Reserved`.
#[derive(Clone, Copy, Debug, PartialEq, Eq)]
pub enum Class {
    Open,
    Close,
    Comma,
    Colon,
    DoubleColon,
    Equals,
    Plus,
    Minus,
    Star,
    Slash,
    Power,
    Relation,
    Not,
    And,
    Or,
    Equivalence,
    Truth,
    KindNumber,
    Intrinsic,
    Module,
    End,
    Contains,
    Subroutine,
    Function,
    Result,
    Use,
    Only,
    Implicit,
    None,
    Integer,
    Kind,
    Logical,
    Parameter,
    Intent,
    In,
    Out,
    Inout,
    Dimension,
    Call,
    If,
    Then,
    Else,
    Do,
    Exit,
    Cycle,
    Return,
    Select,
    Case,
    Default,
    Enddo,
    Endif,
    Elseif,
    Endsubroutine,
    Endfunction,
    Endmodule,
    Selectcase,
    Endselect,
    Number,
    Name,
    Reserved,
    Other,
}

/// A text, and the class of the token that has it.
#[derive(Clone, Copy, Debug)]
pub struct Word {
    pub text: &'static [u8],
    pub class: Class,
}

impl Class {
    ghost use Rattle.std.specs.Prelude.{◌≡◌, nat_eq};
    ghost use Rattle.fort_grammar.specs.Class.{code, is_reserved as reserved_test};

    /// The number of the class, from 0.
    pub fn code(self) -> u8
        ensures { result ≡ code self }
    {
        self as u8
    }

    /// Whether both are the same class.
    pub fn is(self, other: Class) -> bool
        ensures { result ≡ nat_eq (code self) (code other) }
    {
        self.code() == other.code()
    }

    /// Whether it is the class of a reserved word, the names of intrinsic functions set aside.
    pub fn is_reserved(self) -> bool
        ensures { result ≡ reserved_test self }
    {
        matches!(
            self,
            Class::Module
                | Class::End
                | Class::Contains
                | Class::Subroutine
                | Class::Function
                | Class::Result
                | Class::Use
                | Class::Only
                | Class::Implicit
                | Class::None
                | Class::Integer
                | Class::Kind
                | Class::Logical
                | Class::Parameter
                | Class::Intent
                | Class::In
                | Class::Out
                | Class::Inout
                | Class::Dimension
                | Class::Call
                | Class::If
                | Class::Then
                | Class::Else
                | Class::Do
                | Class::Exit
                | Class::Cycle
                | Class::Return
                | Class::Select
                | Class::Case
                | Class::Default
                | Class::Enddo
                | Class::Endif
                | Class::Elseif
                | Class::Endsubroutine
                | Class::Endfunction
                | Class::Endmodule
                | Class::Selectcase
                | Class::Endselect
                | Class::Reserved
        )
    }
}

/// The texts whose class is not that of all names or of all numbers.
pub fn words() -> &'static [Word]
    ensures { map word result.now ≡ words }
{
    &[
        Word {
            text: b"(",
            class: Class::Open,
        },
        Word {
            text: b")",
            class: Class::Close,
        },
        Word {
            text: b",",
            class: Class::Comma,
        },
        Word {
            text: b":",
            class: Class::Colon,
        },
        Word {
            text: b"::",
            class: Class::DoubleColon,
        },
        Word {
            text: b"=",
            class: Class::Equals,
        },
        Word {
            text: b"+",
            class: Class::Plus,
        },
        Word {
            text: b"-",
            class: Class::Minus,
        },
        Word {
            text: b"*",
            class: Class::Star,
        },
        Word {
            text: b"/",
            class: Class::Slash,
        },
        Word {
            text: b"**",
            class: Class::Power,
        },
        Word {
            text: b"==",
            class: Class::Relation,
        },
        Word {
            text: b"/=",
            class: Class::Relation,
        },
        Word {
            text: b"<",
            class: Class::Relation,
        },
        Word {
            text: b"<=",
            class: Class::Relation,
        },
        Word {
            text: b">",
            class: Class::Relation,
        },
        Word {
            text: b">=",
            class: Class::Relation,
        },
        Word {
            text: b".eq.",
            class: Class::Relation,
        },
        Word {
            text: b".ne.",
            class: Class::Relation,
        },
        Word {
            text: b".lt.",
            class: Class::Relation,
        },
        Word {
            text: b".le.",
            class: Class::Relation,
        },
        Word {
            text: b".gt.",
            class: Class::Relation,
        },
        Word {
            text: b".ge.",
            class: Class::Relation,
        },
        Word {
            text: b".not.",
            class: Class::Not,
        },
        Word {
            text: b".and.",
            class: Class::And,
        },
        Word {
            text: b".or.",
            class: Class::Or,
        },
        Word {
            text: b".eqv.",
            class: Class::Equivalence,
        },
        Word {
            text: b".neqv.",
            class: Class::Equivalence,
        },
        Word {
            text: b".true.",
            class: Class::Truth,
        },
        Word {
            text: b".false.",
            class: Class::Truth,
        },
        Word {
            text: b"1",
            class: Class::KindNumber,
        },
        Word {
            text: b"2",
            class: Class::KindNumber,
        },
        Word {
            text: b"4",
            class: Class::KindNumber,
        },
        Word {
            text: b"8",
            class: Class::KindNumber,
        },
        Word {
            text: b"abs",
            class: Class::Intrinsic,
        },
        Word {
            text: b"int",
            class: Class::Intrinsic,
        },
        Word {
            text: b"max",
            class: Class::Intrinsic,
        },
        Word {
            text: b"min",
            class: Class::Intrinsic,
        },
        Word {
            text: b"mod",
            class: Class::Intrinsic,
        },
        Word {
            text: b"modulo",
            class: Class::Intrinsic,
        },
        Word {
            text: b"sign",
            class: Class::Intrinsic,
        },
        Word {
            text: b"size",
            class: Class::Intrinsic,
        },
        Word {
            text: b"sum",
            class: Class::Intrinsic,
        },
        Word {
            text: b"module",
            class: Class::Module,
        },
        Word {
            text: b"end",
            class: Class::End,
        },
        Word {
            text: b"contains",
            class: Class::Contains,
        },
        Word {
            text: b"subroutine",
            class: Class::Subroutine,
        },
        Word {
            text: b"function",
            class: Class::Function,
        },
        Word {
            text: b"result",
            class: Class::Result,
        },
        Word {
            text: b"use",
            class: Class::Use,
        },
        Word {
            text: b"only",
            class: Class::Only,
        },
        Word {
            text: b"implicit",
            class: Class::Implicit,
        },
        Word {
            text: b"none",
            class: Class::None,
        },
        Word {
            text: b"integer",
            class: Class::Integer,
        },
        Word {
            text: b"kind",
            class: Class::Kind,
        },
        Word {
            text: b"logical",
            class: Class::Logical,
        },
        Word {
            text: b"parameter",
            class: Class::Parameter,
        },
        Word {
            text: b"intent",
            class: Class::Intent,
        },
        Word {
            text: b"in",
            class: Class::In,
        },
        Word {
            text: b"out",
            class: Class::Out,
        },
        Word {
            text: b"inout",
            class: Class::Inout,
        },
        Word {
            text: b"dimension",
            class: Class::Dimension,
        },
        Word {
            text: b"call",
            class: Class::Call,
        },
        Word {
            text: b"if",
            class: Class::If,
        },
        Word {
            text: b"then",
            class: Class::Then,
        },
        Word {
            text: b"else",
            class: Class::Else,
        },
        Word {
            text: b"do",
            class: Class::Do,
        },
        Word {
            text: b"exit",
            class: Class::Exit,
        },
        Word {
            text: b"cycle",
            class: Class::Cycle,
        },
        Word {
            text: b"return",
            class: Class::Return,
        },
        Word {
            text: b"select",
            class: Class::Select,
        },
        Word {
            text: b"case",
            class: Class::Case,
        },
        Word {
            text: b"default",
            class: Class::Default,
        },
        Word {
            text: b"enddo",
            class: Class::Enddo,
        },
        Word {
            text: b"endif",
            class: Class::Endif,
        },
        Word {
            text: b"elseif",
            class: Class::Elseif,
        },
        Word {
            text: b"endsubroutine",
            class: Class::Endsubroutine,
        },
        Word {
            text: b"endfunction",
            class: Class::Endfunction,
        },
        Word {
            text: b"endmodule",
            class: Class::Endmodule,
        },
        Word {
            text: b"selectcase",
            class: Class::Selectcase,
        },
        Word {
            text: b"endselect",
            class: Class::Endselect,
        },
        Word {
            text: b"real",
            class: Class::Reserved,
        },
        Word {
            text: b"complex",
            class: Class::Reserved,
        },
        Word {
            text: b"double",
            class: Class::Reserved,
        },
        Word {
            text: b"character",
            class: Class::Reserved,
        },
        Word {
            text: b"type",
            class: Class::Reserved,
        },
        Word {
            text: b"class",
            class: Class::Reserved,
        },
        Word {
            text: b"enum",
            class: Class::Reserved,
        },
        Word {
            text: b"program",
            class: Class::Reserved,
        },
        Word {
            text: b"block",
            class: Class::Reserved,
        },
        Word {
            text: b"submodule",
            class: Class::Reserved,
        },
        Word {
            text: b"interface",
            class: Class::Reserved,
        },
        Word {
            text: b"procedure",
            class: Class::Reserved,
        },
        Word {
            text: b"recursive",
            class: Class::Reserved,
        },
        Word {
            text: b"pure",
            class: Class::Reserved,
        },
        Word {
            text: b"elemental",
            class: Class::Reserved,
        },
        Word {
            text: b"entry",
            class: Class::Reserved,
        },
        Word {
            text: b"import",
            class: Class::Reserved,
        },
        Word {
            text: b"goto",
            class: Class::Reserved,
        },
        Word {
            text: b"go",
            class: Class::Reserved,
        },
        Word {
            text: b"continue",
            class: Class::Reserved,
        },
        Word {
            text: b"stop",
            class: Class::Reserved,
        },
        Word {
            text: b"error",
            class: Class::Reserved,
        },
        Word {
            text: b"pause",
            class: Class::Reserved,
        },
        Word {
            text: b"where",
            class: Class::Reserved,
        },
        Word {
            text: b"forall",
            class: Class::Reserved,
        },
        Word {
            text: b"associate",
            class: Class::Reserved,
        },
        Word {
            text: b"while",
            class: Class::Reserved,
        },
        Word {
            text: b"concurrent",
            class: Class::Reserved,
        },
        Word {
            text: b"open",
            class: Class::Reserved,
        },
        Word {
            text: b"close",
            class: Class::Reserved,
        },
        Word {
            text: b"read",
            class: Class::Reserved,
        },
        Word {
            text: b"write",
            class: Class::Reserved,
        },
        Word {
            text: b"print",
            class: Class::Reserved,
        },
        Word {
            text: b"rewind",
            class: Class::Reserved,
        },
        Word {
            text: b"inquire",
            class: Class::Reserved,
        },
        Word {
            text: b"backspace",
            class: Class::Reserved,
        },
        Word {
            text: b"endfile",
            class: Class::Reserved,
        },
        Word {
            text: b"format",
            class: Class::Reserved,
        },
        Word {
            text: b"flush",
            class: Class::Reserved,
        },
        Word {
            text: b"namelist",
            class: Class::Reserved,
        },
        Word {
            text: b"include",
            class: Class::Reserved,
        },
        Word {
            text: b"save",
            class: Class::Reserved,
        },
        Word {
            text: b"common",
            class: Class::Reserved,
        },
        Word {
            text: b"data",
            class: Class::Reserved,
        },
        Word {
            text: b"equivalence",
            class: Class::Reserved,
        },
        Word {
            text: b"external",
            class: Class::Reserved,
        },
        Word {
            text: b"intrinsic",
            class: Class::Reserved,
        },
        Word {
            text: b"private",
            class: Class::Reserved,
        },
        Word {
            text: b"public",
            class: Class::Reserved,
        },
        Word {
            text: b"protected",
            class: Class::Reserved,
        },
        Word {
            text: b"allocate",
            class: Class::Reserved,
        },
        Word {
            text: b"deallocate",
            class: Class::Reserved,
        },
        Word {
            text: b"nullify",
            class: Class::Reserved,
        },
        Word {
            text: b"allocatable",
            class: Class::Reserved,
        },
        Word {
            text: b"pointer",
            class: Class::Reserved,
        },
        Word {
            text: b"target",
            class: Class::Reserved,
        },
        Word {
            text: b"optional",
            class: Class::Reserved,
        },
        Word {
            text: b"value",
            class: Class::Reserved,
        },
        Word {
            text: b"volatile",
            class: Class::Reserved,
        },
        Word {
            text: b"contiguous",
            class: Class::Reserved,
        },
        Word {
            text: b"bind",
            class: Class::Reserved,
        },
    ]
}
