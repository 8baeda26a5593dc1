//! The words of this project's profile of the language.
ghost use Rattle.std.specs.Prelude.{◌≡◌};
ghost use Rattle.fort_tables.specs.Order.{texts};
ghost use Rattle.fort_tables.specs.Words.{keyword_list, refused_list, operator_list, intrinsic_list};

use crate::Table;

/// The fixed words of the statement forms (ISO/IEC 1539-1:2018; this project's own choice of its forms), and each two of them that may be written as one.
pub const KEYWORDS: Table<38> = Table {
    words: &[
        b"call",
        b"case",
        b"contains",
        b"cycle",
        b"default",
        b"dimension",
        b"do",
        b"else",
        b"elseif",
        b"end",
        b"enddo",
        b"endfunction",
        b"endif",
        b"endmodule",
        b"endselect",
        b"endsubroutine",
        b"exit",
        b"function",
        b"if",
        b"implicit",
        b"in",
        b"inout",
        b"integer",
        b"intent",
        b"kind",
        b"logical",
        b"module",
        b"none",
        b"only",
        b"out",
        b"parameter",
        b"result",
        b"return",
        b"select",
        b"selectcase",
        b"subroutine",
        b"then",
        b"use",
    ],
};

/// Words of statements and attributes of ISO/IEC 1539-1:2018 that the profile leaves out. No name may be one. `dimension`, `parameter` and `intent`, with
/// which no statement may begin, stand among the keywords.
pub const REFUSED: Table<61> = Table {
    words: &[
        b"allocatable",
        b"allocate",
        b"associate",
        b"backspace",
        b"bind",
        b"block",
        b"character",
        b"class",
        b"close",
        b"common",
        b"complex",
        b"concurrent",
        b"contiguous",
        b"continue",
        b"data",
        b"deallocate",
        b"double",
        b"elemental",
        b"endfile",
        b"entry",
        b"enum",
        b"equivalence",
        b"error",
        b"external",
        b"flush",
        b"forall",
        b"format",
        b"go",
        b"goto",
        b"import",
        b"include",
        b"inquire",
        b"interface",
        b"intrinsic",
        b"namelist",
        b"nullify",
        b"open",
        b"optional",
        b"pause",
        b"pointer",
        b"print",
        b"private",
        b"procedure",
        b"program",
        b"protected",
        b"public",
        b"pure",
        b"read",
        b"real",
        b"recursive",
        b"rewind",
        b"save",
        b"stop",
        b"submodule",
        b"target",
        b"type",
        b"value",
        b"volatile",
        b"where",
        b"while",
        b"write",
    ],
};

/// The operators, the delimiters and the words between points (ISO/IEC 1539-1:2018 6.2; this project's own choice).
pub const OPERATORS: Table<30> = Table {
    words: &[
        b"(", b")", b"*", b"**", b"+", b",", b"-", b".and.", b".eq.", b".eqv.", b".false.",
        b".ge.", b".gt.", b".le.", b".lt.", b".ne.", b".neqv.", b".not.", b".or.", b".true.", b"/",
        b"/=", b":", b"::", b"<", b"<=", b"=", b"==", b">", b">=",
    ],
};

/// The intrinsic functions of the profile (ISO/IEC 1539-1:2018 16.9).
pub const INTRINSICS: Table<9> = Table {
    words: &[
        b"abs", b"int", b"max", b"min", b"mod", b"modulo", b"sign", b"size", b"sum",
    ],
};

/// `KEYWORDS`, with its words in the contract: a clause can't name a constant that holds references.
pub fn keywords() -> Table<38>
    ensures { texts result.words.now ≡ keyword_list }
{
    KEYWORDS
}

/// `REFUSED`, with its words in the contract: a clause can't name a constant that holds references.
pub fn refused() -> Table<61>
    ensures { texts result.words.now ≡ refused_list }
{
    REFUSED
}

/// `OPERATORS`, with its words in the contract: a clause can't name a constant that holds references.
pub fn operators() -> Table<30>
    ensures { texts result.words.now ≡ operator_list }
{
    OPERATORS
}

/// `INTRINSICS`, with its words in the contract: a clause can't name a constant that holds references.
pub fn intrinsics() -> Table<9>
    ensures { texts result.words.now ≡ intrinsic_list }
{
    INTRINSICS
}
