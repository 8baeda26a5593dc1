//! The first of faults.
ghost use Rattle.std.specs.Prelude.{◌≡◌};
ghost use Rattle.fort_lex.specs.Lines.{is_before as is_place_before, comes_before as is_fault_before};
ghost use Rattle.fort_lex.specs.Machine.{earlier as earlier_of, token_fault as fault_of_token};

use fort_tree::{Code, Fault, Place};

/// Whether a place stands before another.
pub fn is_before(place: Place, other: Place) -> bool
    ensures { result ≡ is_place_before place other }
{
    place.line < other.line || place.line == other.line && place.column < other.column
}

fn comes_before(fault: Fault, other: Fault) -> bool
    ensures { result ≡ is_fault_before fault other }
{
    is_before(fault.place, other.place)
        || fault.place.line == other.place.line
            && fault.place.column == other.place.column
            && fault.code.number() < other.code.number()
}

/// The one of two faults that comes first: that with the lesser place, or at one place the smaller code.
pub fn earlier(first: Option<Fault>, other: Option<Fault>) -> Option<Fault>
    ensures { result ≡ earlier_of first other }
{
    match (first, other) {
        (None, _) => other,
        (_, None) => first,
        (Some(fault), Some(next)) => {
            if comes_before(next, fault) {
                other
            } else {
                first
            }
        }
    }
}

/// The fault of a bad token.
pub fn token_fault(bad: Option<Place>) -> Option<Fault>
    ensures { result ≡ fault_of_token bad }
{
    match bad {
        None => None,
        Some(at) => Some(Fault::new(Code::E03, at)),
    }
}
