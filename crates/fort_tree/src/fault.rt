//! Faults of a program and how they are reported.
ghost use Rattle.std.specs.Prelude.{◌≡◌, ◌↔◌, ◌<◌, IsTrue, Some, None};
ghost use Rattle.fort_tree.specs.Code.{code_number, code_text, code_meaning};

use crate::{NoMemory, Place};

/// What is wrong. The codes are this project's own.
#[derive(Clone, Copy, Debug, PartialEq, Eq)]
pub enum Code {
    /// A byte that no text may have.
    E01,
    /// A line with more than 132 bytes outside comments.
    E02,
    /// Characters that are no token.
    E03,
    /// A statement of no form, or one without its continuation.
    E10,
    /// A statement that nothing around it lets stand here.
    E11,
    /// Fortran that this project does not take.
    E20,
    /// A name that is declared nowhere.
    E30,
    /// A name that is declared twice.
    E31,
    /// A value or an operand of the wrong kind.
    E32,
    /// A wrong number of dimensions.
    E33,
    /// A USE of what is not there, or in a circle.
    E34,
    /// A call or reference of what is no unit, array or function.
    E35,
    /// A call on a circle of calls.
    E36,
    /// A wrong number of arguments.
    E37,
    /// A variable that a call would reach by two ways, one of them to write.
    E38,
    /// A wrong use of a DO variable.
    E39,
    /// A write to what may not be written.
    E3A,
    /// A dummy without INTENT, or INTENT on another name.
    E3B,
    /// A directive or mark line of no form.
    E40,
    /// A directive or a mark at a wrong place.
    E41,
    /// A dummy that all columns share and that is written.
    E50,
    /// A module variable that a column unit writes.
    E51,
    /// A wrong list in `data` or `over`.
    E52,
    /// A wrong bound of the column dimension.
    E53,
    /// RETURN in a column unit.
    E54,
    /// A call of a column unit where columns may differ.
    E55,
    /// A wrong argument of a call of a column unit.
    E56,
    /// A wrong loop around a forwarded call.
    E57,
    /// A call of a column unit without `forward`, or `forward` without such a call.
    E58,
    /// Loops that have no form for `loop-fusion`.
    E60,
    /// Loops whose fusion would change what they compute.
    E61,
    /// Loops that have no form for `loop-interchange`.
    E62,
    /// Loops whose interchange would change what they compute.
    E63,
    /// Loops that have no form for `loop-hoist`.
    E64,
    /// Statements that have no form for `array-transform`.
    E65,
    /// Array assignments whose loops would change what they compute.
    E66,
    /// A loop that has no form for `kcache`.
    E67,
    /// A statement, a nest or an expression above the limits.
    E70,
    /// Too many units, or calls that are too deep.
    E71,
}

/// A fault of a program at its place.
#[derive(Clone, Copy, Debug, PartialEq, Eq)]
pub struct Fault {
    pub code: Code,
    pub place: Place,
    /// Which part of Fortran it is that E20 speaks of, from 1; else 0.
    pub item: u8,
    /// The two accesses that clash, for E61, E63 and E66; else `None`.
    pub first: Option<Place>,
    pub second: Option<Place>,
}

/// Why a call gave no result.
#[derive(Clone, Copy, Debug, PartialEq, Eq)]
pub enum Stop {
    Fault(Fault),
    NoMemory,
}

impl Code {
    /// The code as it is reported.
    pub fn text(self) -> &'static str
        ensures { result.now ≡ code_text self }
    {
        match self {
            Code::E01 => "E01",
            Code::E02 => "E02",
            Code::E03 => "E03",
            Code::E10 => "E10",
            Code::E11 => "E11",
            Code::E20 => "E20",
            Code::E30 => "E30",
            Code::E31 => "E31",
            Code::E32 => "E32",
            Code::E33 => "E33",
            Code::E34 => "E34",
            Code::E35 => "E35",
            Code::E36 => "E36",
            Code::E37 => "E37",
            Code::E38 => "E38",
            Code::E39 => "E39",
            Code::E3A => "E3A",
            Code::E3B => "E3B",
            Code::E40 => "E40",
            Code::E41 => "E41",
            Code::E50 => "E50",
            Code::E51 => "E51",
            Code::E52 => "E52",
            Code::E53 => "E53",
            Code::E54 => "E54",
            Code::E55 => "E55",
            Code::E56 => "E56",
            Code::E57 => "E57",
            Code::E58 => "E58",
            Code::E60 => "E60",
            Code::E61 => "E61",
            Code::E62 => "E62",
            Code::E63 => "E63",
            Code::E64 => "E64",
            Code::E65 => "E65",
            Code::E66 => "E66",
            Code::E67 => "E67",
            Code::E70 => "E70",
            Code::E71 => "E71",
        }
    }

    /// The words that are reported with it.
    pub fn meaning(self) -> &'static str
        ensures { result.now ≡ code_meaning self }
    {
        match self {
            Code::E01 => "bad byte",
            Code::E02 => "line too long",
            Code::E03 => "bad token",
            Code::E10 => "syntax",
            Code::E11 => "nesting",
            Code::E20 => "not in the profile",
            Code::E30 => "undeclared name",
            Code::E31 => "declared twice",
            Code::E32 => "kind",
            Code::E33 => "rank",
            Code::E34 => "module",
            Code::E35 => "unit",
            Code::E36 => "recursion",
            Code::E37 => "argument count",
            Code::E38 => "alias",
            Code::E39 => "DO variable",
            Code::E3A => "write",
            Code::E3B => "no INTENT",
            Code::E40 => "directive",
            Code::E41 => "directive place",
            Code::E50 => "shared dummy is not INTENT(IN)",
            Code::E51 => "module variable written",
            Code::E52 => "data or over",
            Code::E53 => "bound",
            Code::E54 => "RETURN",
            Code::E55 => "column call",
            Code::E56 => "column argument",
            Code::E57 => "forwarded call",
            Code::E58 => "forward",
            Code::E60 => "fusion shape",
            Code::E61 => "fusion clash",
            Code::E62 => "interchange shape",
            Code::E63 => "interchange clash",
            Code::E64 => "hoist shape",
            Code::E65 => "array shape",
            Code::E66 => "array clash",
            Code::E67 => "cache shape",
            Code::E70 => "too deep or too long",
            Code::E71 => "units or depth",
        }
    }

    /// The number of the code in the order of codes, from 0.
    pub fn number(self) -> u8
        ensures { result ≡ code_number self }
    {
        self as u8
    }

    /// Whether it comes before the other in the order of codes.
    pub fn is_before(self, other: Code) -> bool
        ensures { IsTrue result ↔ (code_number self < code_number other) }
    {
        self.number() < other.number()
    }
}

impl Fault {
    /// A fault of which no more is to say than its code.
    pub fn new(code: Code, place: Place) -> Fault
        ensures { result ≡ record { code = code; place = place; item = 0; first = None; second = None } }
    {
        Fault {
            code,
            place,
            item: 0,
            first: None,
            second: None,
        }
    }

    /// Fortran that this project does not take, as E20 with its item.
    pub fn outside_profile(place: Place, item: u8) -> Fault
        ensures { result ≡ record { code = Code.E20; place = place; item = item; first = None; second = None } }
    {
        Fault {
            code: Code::E20,
            place,
            item,
            first: None,
            second: None,
        }
    }

    /// A clash of two accesses, as E61, E63 or E66.
    pub fn clash(code: Code, place: Place, first: Place, second: Place) -> Fault
        ensures { result ≡ record { code = code; place = place; item = 0; first = Some first; second = Some second } }
    {
        Fault {
            code,
            place,
            item: 0,
            first: Some(first),
            second: Some(second),
        }
    }
}

impl From<NoMemory> for Stop {
    ghost use Rattle.std.specs.Prelude.{◌≡◌};
    ghost use Rattle.fort_tree.specs.declared.fault.Stop.TheVariants.{NoMemory as OutOfMemory};

    ghost from_gives = { λ _ stop. stop ≡ OutOfMemory };

    fn from(_refused: NoMemory) -> Stop {
        Stop::NoMemory
    }
}

impl From<Fault> for Stop {
    ghost use Rattle.std.specs.Prelude.{◌≡◌};
    ghost use Rattle.fort_tree.specs.declared.fault.Stop.TheVariants.{Fault as Fails};

    ghost from_gives = { λ fault stop. stop ≡ Fails fault };

    fn from(fault: Fault) -> Stop {
        Stop::Fault(fault)
    }
}
