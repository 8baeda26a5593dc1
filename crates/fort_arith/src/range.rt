ghost use Rattle.std.specs.Prelude.{◌≡◌, IsTrue};
ghost use Rattle.fort_arith.specs.Range.{is_whole, least, greatest, in_kind, fitted};

use crate::Kind;

/// The least and the greatest number of an INTEGER kind.
#[derive(Clone, Copy, Debug, PartialEq, Eq)]
pub struct Limits {
    pub least: i64,
    pub greatest: i64,
}

/// The limits of each INTEGER kind, of 1, 2, 4 and 8 bytes.
const LIMITS: [Limits; 4] = [
    Limits {
        least: -0x80,
        greatest: 0x7F,
    },
    Limits {
        least: -0x8000,
        greatest: 0x7FFF,
    },
    Limits {
        least: -0x8000_0000,
        greatest: 0x7FFF_FFFF,
    },
    Limits {
        least: i64::MIN,
        greatest: i64::MAX,
    },
];

/// The limits of an INTEGER kind, by the table. All else on the four kinds goes through here.
#[tactic(auto, unfolding(crate::specs::Range::least, crate::specs::Range::greatest))]
pub fn limits_of(kind: Kind) -> Limits
    requires whole { IsTrue (is_whole kind) }
    ensures least { result.least ≡ least kind }
    ensures greatest { result.greatest ≡ greatest kind }
{
    match kind {
        Kind::I1 => LIMITS[0],
        Kind::I2 => LIMITS[1],
        Kind::I4 => LIMITS[2],
        Kind::I8 => LIMITS[3],
        Kind::Logical => unreachable!(),
    }
}

/// Whether a number is one of the kind; LOGICAL has none.
#[tactic(auto, unfolding(crate::specs::Range::in_kind))]
pub fn holds(kind: Kind, a: i64) -> bool
    ensures { result ≡ in_kind kind a }
{
    if !kind.is_whole() {
        return false;
    }
    let Limits { least, greatest } = limits_of(kind);
    least <= a && a <= greatest
}

/// The number converted to an INTEGER kind: the same number, or `None` exactly where it isn't in the kind.
#[tactic(auto, unfolding(crate::specs::Range::fitted))]
pub fn fit(kind: Kind, a: i64) -> Option<i64>
    requires whole { IsTrue (is_whole kind) }
    ensures { result ≡ fitted kind a }
{
    if holds(kind, a) { Some(a) } else { None }
}
