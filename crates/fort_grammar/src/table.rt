//! The grammar as data: the rows of each part. Made by tools/grammar/make.py.
ghost use Rattle.std.specs.Prelude.{◌≡◌, map};
ghost use Rattle.fort_grammar.specs.Table.{choice, table};

use crate::class::Class;

/// What is built where the action stands in a row.
#[derive(Clone, Copy, Debug, PartialEq, Eq)]
pub enum Action {
    Module,
    EndDo,
    EndIf,
    EndSelect,
    EndModule,
    EndSubroutine,
    EndFunction,
    Contains,
    Subroutine,
    ImplicitNone,
    Call,
    Whole,
    ElseIf,
    Do,
    Exit,
    Cycle,
    Return,
    Select,
    End,
    SomeName,
    NoName,
    Dummies,
    NoDummies,
    NoNames,
    FirstName,
    NextName,
    Function,
    SomeResult,
    NoResult,
    Only,
    All,
    Assign,
    Arguments,
    NoArguments,
    IfThen,
    IfAction,
    Else,
    SomeStep,
    NoStep,
    CaseRanges,
    CaseDefault,
    FirstRange,
    NextRange,
    ToValue,
    Span,
    OneValue,
    SomeValue,
    NoValue,
    Negative,
    Positive,
    NamedValue,
    Digits,
    Integer,
    Logical,
    SomeKind,
    NoKind,
    KeywordKind,
    Kind,
    Prefixed,
    Declare,
    DeclareParameter,
    DeclareIntentShape,
    DeclareIntent,
    DeclareShapeIntent,
    DeclareShape,
    Out,
    Inout,
    InOut,
    In,
    FirstEntity,
    NextEntity,
    Entity,
    SomeShape,
    NoShape,
    Constant,
    TruthValue,
    FirstDimension,
    NextDimension,
    Assumed,
    Bounds,
    UpperOnly,
    SomeBound,
    NoBound,
    BoundPlus,
    BoundMinus,
    BoundName,
    Two,
    Not,
    Plus,
    Minus,
    Number,
    Truth,
    Paren,
    Subscripted,
    Bare,
    FirstSub,
    NoSubs,
    NextSub,
    FromStart,
    Section,
    OneSub,
    Present,
    Absent,
}

/// A part of the grammar: a nonterminal symbol.
#[derive(Clone, Copy, Debug, PartialEq, Eq)]
pub enum Part {
    Statement,
    EndRest,
    NameOption,
    DummiesOption,
    NamesOption,
    Names,
    NamesTail,
    FunctionRest,
    ResultOption,
    UseRest,
    Assignment,
    Target,
    ArgumentsOption,
    IfRest,
    Action,
    ElseRest,
    StepOption,
    CaseRest,
    Ranges,
    RangesTail,
    Range,
    RangeRest,
    ValueOption,
    Value,
    Digits,
    TypeSpec,
    KindOption,
    KindBody,
    AfterType,
    Attribute,
    AfterIntent,
    AfterDimension,
    IntentBody,
    OutOption,
    Entities,
    EntitiesTail,
    Entity,
    ShapeOption,
    Constants,
    ConstantsTail,
    Constant,
    Initial,
    Shape,
    ShapeTail,
    Dimension,
    DimensionRest,
    BoundOption,
    Bound,
    BoundOffset,
    Expr,
    EqvTail,
    Disj,
    OrTail,
    Conj,
    AndTail,
    Neg,
    Rel,
    RelTail,
    Sum,
    AddTail,
    Term,
    MulTail,
    Factor,
    PowTail,
    Primary,
    RefTail,
    Subs,
    SubTail,
    Sub,
    SubRest,
    Upper,
}

/// What stands in a row.
#[derive(Clone, Copy, Debug)]
pub enum Symbol {
    /// A token of the class.
    Take(Class),
    /// Tokens of the part.
    Call(Part),
    /// No token; something is built.
    Build(Action),
}

/// A row of a part, with the classes that can begin it, and whether it can be empty.
#[derive(Clone, Copy, Debug)]
pub struct Row {
    pub first: &'static [Class],
    pub empty: bool,
    pub symbols: &'static [Symbol],
}

/// The rows of the part.
pub fn rows(part: Part) -> &'static [Row]
    ensures { map choice result.now ≡ table part }
{
    match part {
        Part::Statement => {
            &[
                Row {
                    first: &[Class::Module],
                    empty: false,
                    symbols: &[
                        Symbol::Take(Class::Module),
                        Symbol::Take(Class::Name),
                        Symbol::Build(Action::Module),
                    ],
                },
                Row {
                    first: &[Class::End],
                    empty: false,
                    symbols: &[Symbol::Take(Class::End), Symbol::Call(Part::EndRest)],
                },
                Row {
                    first: &[Class::Enddo],
                    empty: false,
                    symbols: &[Symbol::Take(Class::Enddo), Symbol::Build(Action::EndDo)],
                },
                Row {
                    first: &[Class::Endif],
                    empty: false,
                    symbols: &[Symbol::Take(Class::Endif), Symbol::Build(Action::EndIf)],
                },
                Row {
                    first: &[Class::Endselect],
                    empty: false,
                    symbols: &[
                        Symbol::Take(Class::Endselect),
                        Symbol::Build(Action::EndSelect),
                    ],
                },
                Row {
                    first: &[Class::Endmodule],
                    empty: false,
                    symbols: &[
                        Symbol::Take(Class::Endmodule),
                        Symbol::Call(Part::NameOption),
                        Symbol::Build(Action::EndModule),
                    ],
                },
                Row {
                    first: &[Class::Endsubroutine],
                    empty: false,
                    symbols: &[
                        Symbol::Take(Class::Endsubroutine),
                        Symbol::Call(Part::NameOption),
                        Symbol::Build(Action::EndSubroutine),
                    ],
                },
                Row {
                    first: &[Class::Endfunction],
                    empty: false,
                    symbols: &[
                        Symbol::Take(Class::Endfunction),
                        Symbol::Call(Part::NameOption),
                        Symbol::Build(Action::EndFunction),
                    ],
                },
                Row {
                    first: &[Class::Contains],
                    empty: false,
                    symbols: &[
                        Symbol::Take(Class::Contains),
                        Symbol::Build(Action::Contains),
                    ],
                },
                Row {
                    first: &[Class::Subroutine],
                    empty: false,
                    symbols: &[
                        Symbol::Take(Class::Subroutine),
                        Symbol::Take(Class::Name),
                        Symbol::Call(Part::DummiesOption),
                        Symbol::Build(Action::Subroutine),
                    ],
                },
                Row {
                    first: &[Class::Integer, Class::Logical],
                    empty: false,
                    symbols: &[Symbol::Call(Part::TypeSpec), Symbol::Call(Part::AfterType)],
                },
                Row {
                    first: &[Class::Function],
                    empty: false,
                    symbols: &[
                        Symbol::Take(Class::Function),
                        Symbol::Call(Part::FunctionRest),
                    ],
                },
                Row {
                    first: &[Class::Use],
                    empty: false,
                    symbols: &[
                        Symbol::Take(Class::Use),
                        Symbol::Take(Class::Name),
                        Symbol::Call(Part::UseRest),
                    ],
                },
                Row {
                    first: &[Class::Implicit],
                    empty: false,
                    symbols: &[
                        Symbol::Take(Class::Implicit),
                        Symbol::Take(Class::None),
                        Symbol::Build(Action::ImplicitNone),
                    ],
                },
                Row {
                    first: &[Class::Name, Class::Intrinsic],
                    empty: false,
                    symbols: &[Symbol::Call(Part::Assignment)],
                },
                Row {
                    first: &[Class::Call],
                    empty: false,
                    symbols: &[
                        Symbol::Take(Class::Call),
                        Symbol::Take(Class::Name),
                        Symbol::Call(Part::ArgumentsOption),
                        Symbol::Build(Action::Call),
                    ],
                },
                Row {
                    first: &[Class::If],
                    empty: false,
                    symbols: &[
                        Symbol::Take(Class::If),
                        Symbol::Take(Class::Open),
                        Symbol::Call(Part::Expr),
                        Symbol::Build(Action::Whole),
                        Symbol::Take(Class::Close),
                        Symbol::Call(Part::IfRest),
                    ],
                },
                Row {
                    first: &[Class::Else],
                    empty: false,
                    symbols: &[Symbol::Take(Class::Else), Symbol::Call(Part::ElseRest)],
                },
                Row {
                    first: &[Class::Elseif],
                    empty: false,
                    symbols: &[
                        Symbol::Take(Class::Elseif),
                        Symbol::Take(Class::Open),
                        Symbol::Call(Part::Expr),
                        Symbol::Build(Action::Whole),
                        Symbol::Take(Class::Close),
                        Symbol::Take(Class::Then),
                        Symbol::Build(Action::ElseIf),
                    ],
                },
                Row {
                    first: &[Class::Do],
                    empty: false,
                    symbols: &[
                        Symbol::Take(Class::Do),
                        Symbol::Take(Class::Name),
                        Symbol::Take(Class::Equals),
                        Symbol::Call(Part::Expr),
                        Symbol::Build(Action::Whole),
                        Symbol::Take(Class::Comma),
                        Symbol::Call(Part::Expr),
                        Symbol::Build(Action::Whole),
                        Symbol::Call(Part::StepOption),
                        Symbol::Build(Action::Do),
                    ],
                },
                Row {
                    first: &[Class::Exit],
                    empty: false,
                    symbols: &[Symbol::Take(Class::Exit), Symbol::Build(Action::Exit)],
                },
                Row {
                    first: &[Class::Cycle],
                    empty: false,
                    symbols: &[Symbol::Take(Class::Cycle), Symbol::Build(Action::Cycle)],
                },
                Row {
                    first: &[Class::Return],
                    empty: false,
                    symbols: &[Symbol::Take(Class::Return), Symbol::Build(Action::Return)],
                },
                Row {
                    first: &[Class::Select],
                    empty: false,
                    symbols: &[
                        Symbol::Take(Class::Select),
                        Symbol::Take(Class::Case),
                        Symbol::Take(Class::Open),
                        Symbol::Call(Part::Expr),
                        Symbol::Build(Action::Whole),
                        Symbol::Take(Class::Close),
                        Symbol::Build(Action::Select),
                    ],
                },
                Row {
                    first: &[Class::Selectcase],
                    empty: false,
                    symbols: &[
                        Symbol::Take(Class::Selectcase),
                        Symbol::Take(Class::Open),
                        Symbol::Call(Part::Expr),
                        Symbol::Build(Action::Whole),
                        Symbol::Take(Class::Close),
                        Symbol::Build(Action::Select),
                    ],
                },
                Row {
                    first: &[Class::Case],
                    empty: false,
                    symbols: &[Symbol::Take(Class::Case), Symbol::Call(Part::CaseRest)],
                },
            ]
        }
        Part::EndRest => {
            &[
                Row {
                    first: &[Class::Module],
                    empty: false,
                    symbols: &[
                        Symbol::Take(Class::Module),
                        Symbol::Call(Part::NameOption),
                        Symbol::Build(Action::EndModule),
                    ],
                },
                Row {
                    first: &[Class::Subroutine],
                    empty: false,
                    symbols: &[
                        Symbol::Take(Class::Subroutine),
                        Symbol::Call(Part::NameOption),
                        Symbol::Build(Action::EndSubroutine),
                    ],
                },
                Row {
                    first: &[Class::Function],
                    empty: false,
                    symbols: &[
                        Symbol::Take(Class::Function),
                        Symbol::Call(Part::NameOption),
                        Symbol::Build(Action::EndFunction),
                    ],
                },
                Row {
                    first: &[Class::Do],
                    empty: false,
                    symbols: &[Symbol::Take(Class::Do), Symbol::Build(Action::EndDo)],
                },
                Row {
                    first: &[Class::If],
                    empty: false,
                    symbols: &[Symbol::Take(Class::If), Symbol::Build(Action::EndIf)],
                },
                Row {
                    first: &[Class::Select],
                    empty: false,
                    symbols: &[
                        Symbol::Take(Class::Select),
                        Symbol::Build(Action::EndSelect),
                    ],
                },
                Row {
                    first: &[],
                    empty: true,
                    symbols: &[Symbol::Build(Action::End)],
                },
            ]
        }
        Part::NameOption => {
            &[
                Row {
                    first: &[Class::Name],
                    empty: false,
                    symbols: &[Symbol::Take(Class::Name), Symbol::Build(Action::SomeName)],
                },
                Row {
                    first: &[],
                    empty: true,
                    symbols: &[Symbol::Build(Action::NoName)],
                },
            ]
        }
        Part::DummiesOption => {
            &[
                Row {
                    first: &[Class::Open],
                    empty: false,
                    symbols: &[
                        Symbol::Take(Class::Open),
                        Symbol::Call(Part::NamesOption),
                        Symbol::Take(Class::Close),
                        Symbol::Build(Action::Dummies),
                    ],
                },
                Row {
                    first: &[],
                    empty: true,
                    symbols: &[Symbol::Build(Action::NoDummies)],
                },
            ]
        }
        Part::NamesOption => {
            &[
                Row {
                    first: &[Class::Name],
                    empty: false,
                    symbols: &[Symbol::Call(Part::Names)],
                },
                Row {
                    first: &[],
                    empty: true,
                    symbols: &[Symbol::Build(Action::NoNames)],
                },
            ]
        }
        Part::Names => {
            &[Row {
                first: &[Class::Name],
                empty: false,
                symbols: &[
                    Symbol::Take(Class::Name),
                    Symbol::Build(Action::FirstName),
                    Symbol::Call(Part::NamesTail),
                ],
            }]
        }
        Part::NamesTail => {
            &[
                Row {
                    first: &[Class::Comma],
                    empty: false,
                    symbols: &[
                        Symbol::Take(Class::Comma),
                        Symbol::Take(Class::Name),
                        Symbol::Build(Action::NextName),
                        Symbol::Call(Part::NamesTail),
                    ],
                },
                Row {
                    first: &[],
                    empty: true,
                    symbols: &[],
                },
            ]
        }
        Part::FunctionRest => {
            &[Row {
                first: &[Class::Name],
                empty: false,
                symbols: &[
                    Symbol::Take(Class::Name),
                    Symbol::Take(Class::Open),
                    Symbol::Call(Part::NamesOption),
                    Symbol::Take(Class::Close),
                    Symbol::Call(Part::ResultOption),
                    Symbol::Build(Action::Function),
                ],
            }]
        }
        Part::ResultOption => {
            &[
                Row {
                    first: &[Class::Result],
                    empty: false,
                    symbols: &[
                        Symbol::Take(Class::Result),
                        Symbol::Take(Class::Open),
                        Symbol::Take(Class::Name),
                        Symbol::Take(Class::Close),
                        Symbol::Build(Action::SomeResult),
                    ],
                },
                Row {
                    first: &[],
                    empty: true,
                    symbols: &[Symbol::Build(Action::NoResult)],
                },
            ]
        }
        Part::UseRest => {
            &[
                Row {
                    first: &[Class::Comma],
                    empty: false,
                    symbols: &[
                        Symbol::Take(Class::Comma),
                        Symbol::Take(Class::Only),
                        Symbol::Take(Class::Colon),
                        Symbol::Call(Part::NamesOption),
                        Symbol::Build(Action::Only),
                    ],
                },
                Row {
                    first: &[],
                    empty: true,
                    symbols: &[Symbol::Build(Action::All)],
                },
            ]
        }
        Part::Assignment => {
            &[Row {
                first: &[Class::Name, Class::Intrinsic],
                empty: false,
                symbols: &[
                    Symbol::Call(Part::Target),
                    Symbol::Take(Class::Equals),
                    Symbol::Call(Part::Expr),
                    Symbol::Build(Action::Whole),
                    Symbol::Build(Action::Assign),
                ],
            }]
        }
        Part::Target => {
            &[
                Row {
                    first: &[Class::Name],
                    empty: false,
                    symbols: &[
                        Symbol::Take(Class::Name),
                        Symbol::Call(Part::RefTail),
                        Symbol::Build(Action::Whole),
                    ],
                },
                Row {
                    first: &[Class::Intrinsic],
                    empty: false,
                    symbols: &[
                        Symbol::Take(Class::Intrinsic),
                        Symbol::Call(Part::RefTail),
                        Symbol::Build(Action::Whole),
                    ],
                },
            ]
        }
        Part::ArgumentsOption => {
            &[
                Row {
                    first: &[Class::Open],
                    empty: false,
                    symbols: &[
                        Symbol::Take(Class::Open),
                        Symbol::Call(Part::Subs),
                        Symbol::Take(Class::Close),
                        Symbol::Build(Action::Arguments),
                    ],
                },
                Row {
                    first: &[],
                    empty: true,
                    symbols: &[Symbol::Build(Action::NoArguments)],
                },
            ]
        }
        Part::IfRest => {
            &[
                Row {
                    first: &[Class::Then],
                    empty: false,
                    symbols: &[Symbol::Take(Class::Then), Symbol::Build(Action::IfThen)],
                },
                Row {
                    first: &[
                        Class::Call,
                        Class::Exit,
                        Class::Cycle,
                        Class::Return,
                        Class::Name,
                        Class::Intrinsic,
                    ],
                    empty: false,
                    symbols: &[Symbol::Call(Part::Action), Symbol::Build(Action::IfAction)],
                },
            ]
        }
        Part::Action => {
            &[
                Row {
                    first: &[Class::Name, Class::Intrinsic],
                    empty: false,
                    symbols: &[Symbol::Call(Part::Assignment)],
                },
                Row {
                    first: &[Class::Call],
                    empty: false,
                    symbols: &[
                        Symbol::Take(Class::Call),
                        Symbol::Take(Class::Name),
                        Symbol::Call(Part::ArgumentsOption),
                        Symbol::Build(Action::Call),
                    ],
                },
                Row {
                    first: &[Class::Exit],
                    empty: false,
                    symbols: &[Symbol::Take(Class::Exit), Symbol::Build(Action::Exit)],
                },
                Row {
                    first: &[Class::Cycle],
                    empty: false,
                    symbols: &[Symbol::Take(Class::Cycle), Symbol::Build(Action::Cycle)],
                },
                Row {
                    first: &[Class::Return],
                    empty: false,
                    symbols: &[Symbol::Take(Class::Return), Symbol::Build(Action::Return)],
                },
            ]
        }
        Part::ElseRest => {
            &[
                Row {
                    first: &[Class::If],
                    empty: false,
                    symbols: &[
                        Symbol::Take(Class::If),
                        Symbol::Take(Class::Open),
                        Symbol::Call(Part::Expr),
                        Symbol::Build(Action::Whole),
                        Symbol::Take(Class::Close),
                        Symbol::Take(Class::Then),
                        Symbol::Build(Action::ElseIf),
                    ],
                },
                Row {
                    first: &[],
                    empty: true,
                    symbols: &[Symbol::Build(Action::Else)],
                },
            ]
        }
        Part::StepOption => {
            &[
                Row {
                    first: &[Class::Comma],
                    empty: false,
                    symbols: &[
                        Symbol::Take(Class::Comma),
                        Symbol::Call(Part::Expr),
                        Symbol::Build(Action::Whole),
                        Symbol::Build(Action::SomeStep),
                    ],
                },
                Row {
                    first: &[],
                    empty: true,
                    symbols: &[Symbol::Build(Action::NoStep)],
                },
            ]
        }
        Part::CaseRest => {
            &[
                Row {
                    first: &[Class::Open],
                    empty: false,
                    symbols: &[
                        Symbol::Take(Class::Open),
                        Symbol::Call(Part::Ranges),
                        Symbol::Take(Class::Close),
                        Symbol::Build(Action::CaseRanges),
                    ],
                },
                Row {
                    first: &[Class::Default],
                    empty: false,
                    symbols: &[
                        Symbol::Take(Class::Default),
                        Symbol::Build(Action::CaseDefault),
                    ],
                },
            ]
        }
        Part::Ranges => {
            &[Row {
                first: &[
                    Class::Colon,
                    Class::Minus,
                    Class::Name,
                    Class::Number,
                    Class::KindNumber,
                ],
                empty: false,
                symbols: &[
                    Symbol::Call(Part::Range),
                    Symbol::Build(Action::FirstRange),
                    Symbol::Call(Part::RangesTail),
                ],
            }]
        }
        Part::RangesTail => {
            &[
                Row {
                    first: &[Class::Comma],
                    empty: false,
                    symbols: &[
                        Symbol::Take(Class::Comma),
                        Symbol::Call(Part::Range),
                        Symbol::Build(Action::NextRange),
                        Symbol::Call(Part::RangesTail),
                    ],
                },
                Row {
                    first: &[],
                    empty: true,
                    symbols: &[],
                },
            ]
        }
        Part::Range => {
            &[
                Row {
                    first: &[Class::Colon],
                    empty: false,
                    symbols: &[
                        Symbol::Take(Class::Colon),
                        Symbol::Call(Part::Value),
                        Symbol::Build(Action::ToValue),
                    ],
                },
                Row {
                    first: &[Class::Minus, Class::Name, Class::Number, Class::KindNumber],
                    empty: false,
                    symbols: &[Symbol::Call(Part::Value), Symbol::Call(Part::RangeRest)],
                },
            ]
        }
        Part::RangeRest => {
            &[
                Row {
                    first: &[Class::Colon],
                    empty: false,
                    symbols: &[
                        Symbol::Take(Class::Colon),
                        Symbol::Call(Part::ValueOption),
                        Symbol::Build(Action::Span),
                    ],
                },
                Row {
                    first: &[],
                    empty: true,
                    symbols: &[Symbol::Build(Action::OneValue)],
                },
            ]
        }
        Part::ValueOption => {
            &[
                Row {
                    first: &[Class::Minus, Class::Name, Class::Number, Class::KindNumber],
                    empty: false,
                    symbols: &[Symbol::Call(Part::Value), Symbol::Build(Action::SomeValue)],
                },
                Row {
                    first: &[],
                    empty: true,
                    symbols: &[Symbol::Build(Action::NoValue)],
                },
            ]
        }
        Part::Value => {
            &[
                Row {
                    first: &[Class::Minus],
                    empty: false,
                    symbols: &[
                        Symbol::Take(Class::Minus),
                        Symbol::Call(Part::Digits),
                        Symbol::Build(Action::Negative),
                    ],
                },
                Row {
                    first: &[Class::Number, Class::KindNumber],
                    empty: false,
                    symbols: &[Symbol::Call(Part::Digits), Symbol::Build(Action::Positive)],
                },
                Row {
                    first: &[Class::Name],
                    empty: false,
                    symbols: &[Symbol::Take(Class::Name), Symbol::Build(Action::NamedValue)],
                },
            ]
        }
        Part::Digits => {
            &[
                Row {
                    first: &[Class::Number],
                    empty: false,
                    symbols: &[Symbol::Take(Class::Number), Symbol::Build(Action::Digits)],
                },
                Row {
                    first: &[Class::KindNumber],
                    empty: false,
                    symbols: &[
                        Symbol::Take(Class::KindNumber),
                        Symbol::Build(Action::Digits),
                    ],
                },
            ]
        }
        Part::TypeSpec => {
            &[
                Row {
                    first: &[Class::Integer],
                    empty: false,
                    symbols: &[
                        Symbol::Take(Class::Integer),
                        Symbol::Call(Part::KindOption),
                        Symbol::Build(Action::Integer),
                    ],
                },
                Row {
                    first: &[Class::Logical],
                    empty: false,
                    symbols: &[Symbol::Take(Class::Logical), Symbol::Build(Action::Logical)],
                },
            ]
        }
        Part::KindOption => {
            &[
                Row {
                    first: &[Class::Open],
                    empty: false,
                    symbols: &[
                        Symbol::Take(Class::Open),
                        Symbol::Call(Part::KindBody),
                        Symbol::Take(Class::Close),
                        Symbol::Build(Action::SomeKind),
                    ],
                },
                Row {
                    first: &[],
                    empty: true,
                    symbols: &[Symbol::Build(Action::NoKind)],
                },
            ]
        }
        Part::KindBody => {
            &[
                Row {
                    first: &[Class::Kind],
                    empty: false,
                    symbols: &[
                        Symbol::Take(Class::Kind),
                        Symbol::Take(Class::Equals),
                        Symbol::Take(Class::KindNumber),
                        Symbol::Build(Action::KeywordKind),
                    ],
                },
                Row {
                    first: &[Class::KindNumber],
                    empty: false,
                    symbols: &[Symbol::Take(Class::KindNumber), Symbol::Build(Action::Kind)],
                },
            ]
        }
        Part::AfterType => {
            &[
                Row {
                    first: &[Class::Function],
                    empty: false,
                    symbols: &[
                        Symbol::Take(Class::Function),
                        Symbol::Call(Part::FunctionRest),
                        Symbol::Build(Action::Prefixed),
                    ],
                },
                Row {
                    first: &[Class::Comma],
                    empty: false,
                    symbols: &[Symbol::Take(Class::Comma), Symbol::Call(Part::Attribute)],
                },
                Row {
                    first: &[Class::DoubleColon],
                    empty: false,
                    symbols: &[
                        Symbol::Take(Class::DoubleColon),
                        Symbol::Call(Part::Entities),
                        Symbol::Build(Action::Declare),
                    ],
                },
                Row {
                    first: &[Class::Name],
                    empty: false,
                    symbols: &[Symbol::Call(Part::Entities), Symbol::Build(Action::Declare)],
                },
            ]
        }
        Part::Attribute => {
            &[
                Row {
                    first: &[Class::Parameter],
                    empty: false,
                    symbols: &[
                        Symbol::Take(Class::Parameter),
                        Symbol::Take(Class::DoubleColon),
                        Symbol::Call(Part::Constants),
                        Symbol::Build(Action::DeclareParameter),
                    ],
                },
                Row {
                    first: &[Class::Intent],
                    empty: false,
                    symbols: &[
                        Symbol::Take(Class::Intent),
                        Symbol::Take(Class::Open),
                        Symbol::Call(Part::IntentBody),
                        Symbol::Take(Class::Close),
                        Symbol::Call(Part::AfterIntent),
                    ],
                },
                Row {
                    first: &[Class::Dimension],
                    empty: false,
                    symbols: &[
                        Symbol::Take(Class::Dimension),
                        Symbol::Take(Class::Open),
                        Symbol::Call(Part::Shape),
                        Symbol::Take(Class::Close),
                        Symbol::Call(Part::AfterDimension),
                    ],
                },
            ]
        }
        Part::AfterIntent => {
            &[
                Row {
                    first: &[Class::Comma],
                    empty: false,
                    symbols: &[
                        Symbol::Take(Class::Comma),
                        Symbol::Take(Class::Dimension),
                        Symbol::Take(Class::Open),
                        Symbol::Call(Part::Shape),
                        Symbol::Take(Class::Close),
                        Symbol::Take(Class::DoubleColon),
                        Symbol::Call(Part::Entities),
                        Symbol::Build(Action::DeclareIntentShape),
                    ],
                },
                Row {
                    first: &[Class::DoubleColon],
                    empty: false,
                    symbols: &[
                        Symbol::Take(Class::DoubleColon),
                        Symbol::Call(Part::Entities),
                        Symbol::Build(Action::DeclareIntent),
                    ],
                },
            ]
        }
        Part::AfterDimension => {
            &[
                Row {
                    first: &[Class::Comma],
                    empty: false,
                    symbols: &[
                        Symbol::Take(Class::Comma),
                        Symbol::Take(Class::Intent),
                        Symbol::Take(Class::Open),
                        Symbol::Call(Part::IntentBody),
                        Symbol::Take(Class::Close),
                        Symbol::Take(Class::DoubleColon),
                        Symbol::Call(Part::Entities),
                        Symbol::Build(Action::DeclareShapeIntent),
                    ],
                },
                Row {
                    first: &[Class::DoubleColon],
                    empty: false,
                    symbols: &[
                        Symbol::Take(Class::DoubleColon),
                        Symbol::Call(Part::Entities),
                        Symbol::Build(Action::DeclareShape),
                    ],
                },
            ]
        }
        Part::IntentBody => {
            &[
                Row {
                    first: &[Class::In],
                    empty: false,
                    symbols: &[Symbol::Take(Class::In), Symbol::Call(Part::OutOption)],
                },
                Row {
                    first: &[Class::Out],
                    empty: false,
                    symbols: &[Symbol::Take(Class::Out), Symbol::Build(Action::Out)],
                },
                Row {
                    first: &[Class::Inout],
                    empty: false,
                    symbols: &[Symbol::Take(Class::Inout), Symbol::Build(Action::Inout)],
                },
            ]
        }
        Part::OutOption => {
            &[
                Row {
                    first: &[Class::Out],
                    empty: false,
                    symbols: &[Symbol::Take(Class::Out), Symbol::Build(Action::InOut)],
                },
                Row {
                    first: &[],
                    empty: true,
                    symbols: &[Symbol::Build(Action::In)],
                },
            ]
        }
        Part::Entities => {
            &[Row {
                first: &[Class::Name],
                empty: false,
                symbols: &[
                    Symbol::Call(Part::Entity),
                    Symbol::Build(Action::FirstEntity),
                    Symbol::Call(Part::EntitiesTail),
                ],
            }]
        }
        Part::EntitiesTail => {
            &[
                Row {
                    first: &[Class::Comma],
                    empty: false,
                    symbols: &[
                        Symbol::Take(Class::Comma),
                        Symbol::Call(Part::Entity),
                        Symbol::Build(Action::NextEntity),
                        Symbol::Call(Part::EntitiesTail),
                    ],
                },
                Row {
                    first: &[],
                    empty: true,
                    symbols: &[],
                },
            ]
        }
        Part::Entity => {
            &[Row {
                first: &[Class::Name],
                empty: false,
                symbols: &[
                    Symbol::Take(Class::Name),
                    Symbol::Call(Part::ShapeOption),
                    Symbol::Build(Action::Entity),
                ],
            }]
        }
        Part::ShapeOption => {
            &[
                Row {
                    first: &[Class::Open],
                    empty: false,
                    symbols: &[
                        Symbol::Take(Class::Open),
                        Symbol::Call(Part::Shape),
                        Symbol::Take(Class::Close),
                        Symbol::Build(Action::SomeShape),
                    ],
                },
                Row {
                    first: &[],
                    empty: true,
                    symbols: &[Symbol::Build(Action::NoShape)],
                },
            ]
        }
        Part::Constants => {
            &[Row {
                first: &[Class::Name],
                empty: false,
                symbols: &[
                    Symbol::Call(Part::Constant),
                    Symbol::Build(Action::FirstEntity),
                    Symbol::Call(Part::ConstantsTail),
                ],
            }]
        }
        Part::ConstantsTail => {
            &[
                Row {
                    first: &[Class::Comma],
                    empty: false,
                    symbols: &[
                        Symbol::Take(Class::Comma),
                        Symbol::Call(Part::Constant),
                        Symbol::Build(Action::NextEntity),
                        Symbol::Call(Part::ConstantsTail),
                    ],
                },
                Row {
                    first: &[],
                    empty: true,
                    symbols: &[],
                },
            ]
        }
        Part::Constant => {
            &[Row {
                first: &[Class::Name],
                empty: false,
                symbols: &[
                    Symbol::Take(Class::Name),
                    Symbol::Take(Class::Equals),
                    Symbol::Call(Part::Initial),
                    Symbol::Build(Action::Constant),
                ],
            }]
        }
        Part::Initial => {
            &[
                Row {
                    first: &[Class::Minus],
                    empty: false,
                    symbols: &[
                        Symbol::Take(Class::Minus),
                        Symbol::Call(Part::Digits),
                        Symbol::Build(Action::Negative),
                    ],
                },
                Row {
                    first: &[Class::Number, Class::KindNumber],
                    empty: false,
                    symbols: &[Symbol::Call(Part::Digits), Symbol::Build(Action::Positive)],
                },
                Row {
                    first: &[Class::Truth],
                    empty: false,
                    symbols: &[
                        Symbol::Take(Class::Truth),
                        Symbol::Build(Action::TruthValue),
                    ],
                },
            ]
        }
        Part::Shape => {
            &[Row {
                first: &[
                    Class::Colon,
                    Class::Minus,
                    Class::Number,
                    Class::KindNumber,
                    Class::Name,
                ],
                empty: false,
                symbols: &[
                    Symbol::Call(Part::Dimension),
                    Symbol::Build(Action::FirstDimension),
                    Symbol::Call(Part::ShapeTail),
                ],
            }]
        }
        Part::ShapeTail => {
            &[
                Row {
                    first: &[Class::Comma],
                    empty: false,
                    symbols: &[
                        Symbol::Take(Class::Comma),
                        Symbol::Call(Part::Dimension),
                        Symbol::Build(Action::NextDimension),
                        Symbol::Call(Part::ShapeTail),
                    ],
                },
                Row {
                    first: &[],
                    empty: true,
                    symbols: &[],
                },
            ]
        }
        Part::Dimension => {
            &[
                Row {
                    first: &[Class::Colon],
                    empty: false,
                    symbols: &[Symbol::Take(Class::Colon), Symbol::Build(Action::Assumed)],
                },
                Row {
                    first: &[Class::Minus, Class::Number, Class::KindNumber, Class::Name],
                    empty: false,
                    symbols: &[Symbol::Call(Part::Bound), Symbol::Call(Part::DimensionRest)],
                },
            ]
        }
        Part::DimensionRest => {
            &[
                Row {
                    first: &[Class::Colon],
                    empty: false,
                    symbols: &[
                        Symbol::Take(Class::Colon),
                        Symbol::Call(Part::BoundOption),
                        Symbol::Build(Action::Bounds),
                    ],
                },
                Row {
                    first: &[],
                    empty: true,
                    symbols: &[Symbol::Build(Action::UpperOnly)],
                },
            ]
        }
        Part::BoundOption => {
            &[
                Row {
                    first: &[Class::Minus, Class::Number, Class::KindNumber, Class::Name],
                    empty: false,
                    symbols: &[Symbol::Call(Part::Bound), Symbol::Build(Action::SomeBound)],
                },
                Row {
                    first: &[],
                    empty: true,
                    symbols: &[Symbol::Build(Action::NoBound)],
                },
            ]
        }
        Part::Bound => {
            &[
                Row {
                    first: &[Class::Minus],
                    empty: false,
                    symbols: &[
                        Symbol::Take(Class::Minus),
                        Symbol::Call(Part::Digits),
                        Symbol::Build(Action::Negative),
                    ],
                },
                Row {
                    first: &[Class::Number, Class::KindNumber],
                    empty: false,
                    symbols: &[Symbol::Call(Part::Digits), Symbol::Build(Action::Positive)],
                },
                Row {
                    first: &[Class::Name],
                    empty: false,
                    symbols: &[Symbol::Take(Class::Name), Symbol::Call(Part::BoundOffset)],
                },
            ]
        }
        Part::BoundOffset => {
            &[
                Row {
                    first: &[Class::Plus],
                    empty: false,
                    symbols: &[
                        Symbol::Take(Class::Plus),
                        Symbol::Call(Part::Digits),
                        Symbol::Build(Action::BoundPlus),
                    ],
                },
                Row {
                    first: &[Class::Minus],
                    empty: false,
                    symbols: &[
                        Symbol::Take(Class::Minus),
                        Symbol::Call(Part::Digits),
                        Symbol::Build(Action::BoundMinus),
                    ],
                },
                Row {
                    first: &[],
                    empty: true,
                    symbols: &[Symbol::Build(Action::BoundName)],
                },
            ]
        }
        Part::Expr => {
            &[Row {
                first: &[
                    Class::Not,
                    Class::Plus,
                    Class::Minus,
                    Class::Number,
                    Class::KindNumber,
                    Class::Truth,
                    Class::Name,
                    Class::Intrinsic,
                    Class::Open,
                ],
                empty: false,
                symbols: &[Symbol::Call(Part::Disj), Symbol::Call(Part::EqvTail)],
            }]
        }
        Part::EqvTail => {
            &[
                Row {
                    first: &[Class::Equivalence],
                    empty: false,
                    symbols: &[
                        Symbol::Take(Class::Equivalence),
                        Symbol::Call(Part::Disj),
                        Symbol::Build(Action::Two),
                        Symbol::Call(Part::EqvTail),
                    ],
                },
                Row {
                    first: &[],
                    empty: true,
                    symbols: &[],
                },
            ]
        }
        Part::Disj => {
            &[Row {
                first: &[
                    Class::Not,
                    Class::Plus,
                    Class::Minus,
                    Class::Number,
                    Class::KindNumber,
                    Class::Truth,
                    Class::Name,
                    Class::Intrinsic,
                    Class::Open,
                ],
                empty: false,
                symbols: &[Symbol::Call(Part::Conj), Symbol::Call(Part::OrTail)],
            }]
        }
        Part::OrTail => {
            &[
                Row {
                    first: &[Class::Or],
                    empty: false,
                    symbols: &[
                        Symbol::Take(Class::Or),
                        Symbol::Call(Part::Conj),
                        Symbol::Build(Action::Two),
                        Symbol::Call(Part::OrTail),
                    ],
                },
                Row {
                    first: &[],
                    empty: true,
                    symbols: &[],
                },
            ]
        }
        Part::Conj => {
            &[Row {
                first: &[
                    Class::Not,
                    Class::Plus,
                    Class::Minus,
                    Class::Number,
                    Class::KindNumber,
                    Class::Truth,
                    Class::Name,
                    Class::Intrinsic,
                    Class::Open,
                ],
                empty: false,
                symbols: &[Symbol::Call(Part::Neg), Symbol::Call(Part::AndTail)],
            }]
        }
        Part::AndTail => {
            &[
                Row {
                    first: &[Class::And],
                    empty: false,
                    symbols: &[
                        Symbol::Take(Class::And),
                        Symbol::Call(Part::Neg),
                        Symbol::Build(Action::Two),
                        Symbol::Call(Part::AndTail),
                    ],
                },
                Row {
                    first: &[],
                    empty: true,
                    symbols: &[],
                },
            ]
        }
        Part::Neg => {
            &[
                Row {
                    first: &[Class::Not],
                    empty: false,
                    symbols: &[
                        Symbol::Take(Class::Not),
                        Symbol::Call(Part::Rel),
                        Symbol::Build(Action::Not),
                    ],
                },
                Row {
                    first: &[
                        Class::Plus,
                        Class::Minus,
                        Class::Number,
                        Class::KindNumber,
                        Class::Truth,
                        Class::Name,
                        Class::Intrinsic,
                        Class::Open,
                    ],
                    empty: false,
                    symbols: &[Symbol::Call(Part::Rel)],
                },
            ]
        }
        Part::Rel => {
            &[Row {
                first: &[
                    Class::Plus,
                    Class::Minus,
                    Class::Number,
                    Class::KindNumber,
                    Class::Truth,
                    Class::Name,
                    Class::Intrinsic,
                    Class::Open,
                ],
                empty: false,
                symbols: &[Symbol::Call(Part::Sum), Symbol::Call(Part::RelTail)],
            }]
        }
        Part::RelTail => {
            &[
                Row {
                    first: &[Class::Relation],
                    empty: false,
                    symbols: &[
                        Symbol::Take(Class::Relation),
                        Symbol::Call(Part::Sum),
                        Symbol::Build(Action::Two),
                    ],
                },
                Row {
                    first: &[],
                    empty: true,
                    symbols: &[],
                },
            ]
        }
        Part::Sum => {
            &[
                Row {
                    first: &[Class::Plus],
                    empty: false,
                    symbols: &[
                        Symbol::Take(Class::Plus),
                        Symbol::Call(Part::Term),
                        Symbol::Build(Action::Plus),
                        Symbol::Call(Part::AddTail),
                    ],
                },
                Row {
                    first: &[Class::Minus],
                    empty: false,
                    symbols: &[
                        Symbol::Take(Class::Minus),
                        Symbol::Call(Part::Term),
                        Symbol::Build(Action::Minus),
                        Symbol::Call(Part::AddTail),
                    ],
                },
                Row {
                    first: &[
                        Class::Number,
                        Class::KindNumber,
                        Class::Truth,
                        Class::Name,
                        Class::Intrinsic,
                        Class::Open,
                    ],
                    empty: false,
                    symbols: &[Symbol::Call(Part::Term), Symbol::Call(Part::AddTail)],
                },
            ]
        }
        Part::AddTail => {
            &[
                Row {
                    first: &[Class::Plus],
                    empty: false,
                    symbols: &[
                        Symbol::Take(Class::Plus),
                        Symbol::Call(Part::Term),
                        Symbol::Build(Action::Two),
                        Symbol::Call(Part::AddTail),
                    ],
                },
                Row {
                    first: &[Class::Minus],
                    empty: false,
                    symbols: &[
                        Symbol::Take(Class::Minus),
                        Symbol::Call(Part::Term),
                        Symbol::Build(Action::Two),
                        Symbol::Call(Part::AddTail),
                    ],
                },
                Row {
                    first: &[],
                    empty: true,
                    symbols: &[],
                },
            ]
        }
        Part::Term => {
            &[Row {
                first: &[
                    Class::Number,
                    Class::KindNumber,
                    Class::Truth,
                    Class::Name,
                    Class::Intrinsic,
                    Class::Open,
                ],
                empty: false,
                symbols: &[Symbol::Call(Part::Factor), Symbol::Call(Part::MulTail)],
            }]
        }
        Part::MulTail => {
            &[
                Row {
                    first: &[Class::Star],
                    empty: false,
                    symbols: &[
                        Symbol::Take(Class::Star),
                        Symbol::Call(Part::Factor),
                        Symbol::Build(Action::Two),
                        Symbol::Call(Part::MulTail),
                    ],
                },
                Row {
                    first: &[Class::Slash],
                    empty: false,
                    symbols: &[
                        Symbol::Take(Class::Slash),
                        Symbol::Call(Part::Factor),
                        Symbol::Build(Action::Two),
                        Symbol::Call(Part::MulTail),
                    ],
                },
                Row {
                    first: &[],
                    empty: true,
                    symbols: &[],
                },
            ]
        }
        Part::Factor => {
            &[Row {
                first: &[
                    Class::Number,
                    Class::KindNumber,
                    Class::Truth,
                    Class::Name,
                    Class::Intrinsic,
                    Class::Open,
                ],
                empty: false,
                symbols: &[Symbol::Call(Part::Primary), Symbol::Call(Part::PowTail)],
            }]
        }
        Part::PowTail => {
            &[
                Row {
                    first: &[Class::Power],
                    empty: false,
                    symbols: &[
                        Symbol::Take(Class::Power),
                        Symbol::Call(Part::Factor),
                        Symbol::Build(Action::Two),
                    ],
                },
                Row {
                    first: &[],
                    empty: true,
                    symbols: &[],
                },
            ]
        }
        Part::Primary => {
            &[
                Row {
                    first: &[Class::Number],
                    empty: false,
                    symbols: &[Symbol::Take(Class::Number), Symbol::Build(Action::Number)],
                },
                Row {
                    first: &[Class::KindNumber],
                    empty: false,
                    symbols: &[
                        Symbol::Take(Class::KindNumber),
                        Symbol::Build(Action::Number),
                    ],
                },
                Row {
                    first: &[Class::Truth],
                    empty: false,
                    symbols: &[Symbol::Take(Class::Truth), Symbol::Build(Action::Truth)],
                },
                Row {
                    first: &[Class::Name],
                    empty: false,
                    symbols: &[Symbol::Take(Class::Name), Symbol::Call(Part::RefTail)],
                },
                Row {
                    first: &[Class::Intrinsic],
                    empty: false,
                    symbols: &[Symbol::Take(Class::Intrinsic), Symbol::Call(Part::RefTail)],
                },
                Row {
                    first: &[Class::Open],
                    empty: false,
                    symbols: &[
                        Symbol::Take(Class::Open),
                        Symbol::Call(Part::Expr),
                        Symbol::Take(Class::Close),
                        Symbol::Build(Action::Paren),
                    ],
                },
            ]
        }
        Part::RefTail => {
            &[
                Row {
                    first: &[Class::Open],
                    empty: false,
                    symbols: &[
                        Symbol::Take(Class::Open),
                        Symbol::Call(Part::Subs),
                        Symbol::Take(Class::Close),
                        Symbol::Build(Action::Subscripted),
                    ],
                },
                Row {
                    first: &[],
                    empty: true,
                    symbols: &[Symbol::Build(Action::Bare)],
                },
            ]
        }
        Part::Subs => {
            &[
                Row {
                    first: &[
                        Class::Colon,
                        Class::Not,
                        Class::Plus,
                        Class::Minus,
                        Class::Number,
                        Class::KindNumber,
                        Class::Truth,
                        Class::Name,
                        Class::Intrinsic,
                        Class::Open,
                    ],
                    empty: false,
                    symbols: &[
                        Symbol::Call(Part::Sub),
                        Symbol::Build(Action::FirstSub),
                        Symbol::Call(Part::SubTail),
                    ],
                },
                Row {
                    first: &[],
                    empty: true,
                    symbols: &[Symbol::Build(Action::NoSubs)],
                },
            ]
        }
        Part::SubTail => {
            &[
                Row {
                    first: &[Class::Comma],
                    empty: false,
                    symbols: &[
                        Symbol::Take(Class::Comma),
                        Symbol::Call(Part::Sub),
                        Symbol::Build(Action::NextSub),
                        Symbol::Call(Part::SubTail),
                    ],
                },
                Row {
                    first: &[],
                    empty: true,
                    symbols: &[],
                },
            ]
        }
        Part::Sub => {
            &[
                Row {
                    first: &[
                        Class::Not,
                        Class::Plus,
                        Class::Minus,
                        Class::Number,
                        Class::KindNumber,
                        Class::Truth,
                        Class::Name,
                        Class::Intrinsic,
                        Class::Open,
                    ],
                    empty: false,
                    symbols: &[Symbol::Call(Part::Expr), Symbol::Call(Part::SubRest)],
                },
                Row {
                    first: &[Class::Colon],
                    empty: false,
                    symbols: &[
                        Symbol::Take(Class::Colon),
                        Symbol::Call(Part::Upper),
                        Symbol::Build(Action::FromStart),
                    ],
                },
            ]
        }
        Part::SubRest => {
            &[
                Row {
                    first: &[Class::Colon],
                    empty: false,
                    symbols: &[
                        Symbol::Take(Class::Colon),
                        Symbol::Call(Part::Upper),
                        Symbol::Build(Action::Section),
                    ],
                },
                Row {
                    first: &[],
                    empty: true,
                    symbols: &[Symbol::Build(Action::OneSub)],
                },
            ]
        }
        Part::Upper => {
            &[
                Row {
                    first: &[
                        Class::Not,
                        Class::Plus,
                        Class::Minus,
                        Class::Number,
                        Class::KindNumber,
                        Class::Truth,
                        Class::Name,
                        Class::Intrinsic,
                        Class::Open,
                    ],
                    empty: false,
                    symbols: &[Symbol::Call(Part::Expr), Symbol::Build(Action::Present)],
                },
                Row {
                    first: &[],
                    empty: true,
                    symbols: &[Symbol::Build(Action::Absent)],
                },
            ]
        }
    }
}
