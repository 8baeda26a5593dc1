ghost use Rattle.std.specs.Prelude.{◌≡◌};

/// A binary operator of an expression (ISO/IEC 1539-1:2018 10.1.5).
#[derive(Clone, Copy, Debug, PartialEq, Eq)]
pub enum Op {
    Pow,
    Mul,
    Div,
    Add,
    Sub,
    Eq,
    Ne,
    Lt,
    Le,
    Gt,
    Ge,
    And,
    Or,
    Eqv,
    Neqv,
}

impl Op {
    ghost use Rattle.fort_arith.specs.Operators.{is_arithmetic as arithmetic_test, is_relation as relation_test};

    /// Whether it takes two numbers and gives a number.
    pub fn is_arithmetic(self) -> bool
        ensures { result ≡ arithmetic_test self }
    {
        matches!(self, Op::Pow | Op::Mul | Op::Div | Op::Add | Op::Sub)
    }

    /// Whether it compares two numbers.
    pub fn is_relation(self) -> bool
        ensures { result ≡ relation_test self }
    {
        matches!(self, Op::Eq | Op::Ne | Op::Lt | Op::Le | Op::Gt | Op::Ge)
    }
}

/// An intrinsic function of the profile (ISO/IEC 1539-1:2018 16.9).
#[derive(Clone, Copy, Debug, PartialEq, Eq)]
pub enum Intrinsic {
    Abs,
    Int,
    Max,
    Min,
    Mod,
    Modulo,
    Sign,
    Size,
    Sum,
}

impl Intrinsic {
    ghost use Rattle.fort_arith.specs.Intrinsics.{takes as takes_test};

    /// Whether it is a function of whole numbers that takes this number of arguments: ABS one, MOD, MODULO and SIGN two,
    /// MAX and MIN two or more. INT, SIZE and SUM are no functions of whole numbers alone.
    pub fn takes(self, count: usize) -> bool
        ensures { result ≡ takes_test self count }
    {
        match self {
            Intrinsic::Abs => count == 1,
            Intrinsic::Max | Intrinsic::Min => 2 <= count,
            Intrinsic::Mod | Intrinsic::Modulo | Intrinsic::Sign => count == 2,
            Intrinsic::Int | Intrinsic::Size | Intrinsic::Sum => false,
        }
    }
}
