//! The least of faults that are noted in any order.
ghost use Rattle.std.specs.Prelude.{◌≡◌, None};
ghost use Rattle.sound_programs.specs.Faults.{found, is_before as before_test};
ghost use Rattle.sound_programs.specs.Places.{is_earlier as earlier_test, same_place as same_test, where_place};
ghost use Rattle.std.specs.Option.{option_map};
ghost use Rattle.fort_names.specs.Leasts.{note as note_one, noted, changes as changes_least};
ghost use Rattle.fort_names.specs.FoundAt.{found_of};

use fort_tree::{Code, Place};
use std::marker::Model;

/// A code at a place.
#[derive(Clone, Copy, Debug)]
pub struct At {
    pub code: Code,
    pub place: Place,
}

/// The least fault so far: by file, line and column, and at one place by code.
#[derive(Drop)]
pub struct Least {
    first: Option<At>,
}

impl Model for Least {
    ghost use Rattle.std.specs.Prelude.{Option};
    ghost use Rattle.sound_programs.specs.Faults.{Found};

    ghost Value = { Option Found };

    ghost use Rattle.fort_names.specs.FoundAt.{found_of};
    ghost use Rattle.std.specs.Option.{option_map};

    ghost view = { λ s. option_map found_of s.first };
}

/// Whether the first place stands before the second.
pub fn is_earlier(at: Place, other: Place) -> bool
    ensures { result ≡ earlier_test at other }
{
    at.file < other.file
        || (at.file == other.file
            && (at.line < other.line || (at.line == other.line && at.column < other.column)))
}

fn is_same(at: Place, other: Place) -> bool
    ensures { result ≡ same_test at other }
{
    at.file == other.file && (at.line == other.line && at.column == other.column)
}

fn is_before(fault: At, other: At) -> bool
    ensures { result ≡ before_test (found_of fault) (found_of other) }
{
    is_earlier(fault.place, other.place)
        || (is_same(fault.place, other.place) && fault.code.number() < other.code.number())
}

fn lesser(first: Option<At>, fault: At) -> Option<At>
    ensures { option_map found_of result ≡ note_one (option_map found_of first) (found_of fault) }
{
    match first {
        None => Some(fault),
        Some(least) => {
            if is_before(fault, least) {
                Some(fault)
            } else {
                Some(least)
            }
        }
    }
}

impl Least {
    /// No fault so far.
    pub fn new() -> Least
        ensures { result ≡ None }
    {
        Least { first: None }
    }

    /// Notes one more.
    pub fn note(&mut self, code: Code, place: Place)
        ensures { self.new ≡ note_one self.old (record { code = code; at = place }) }
    {
        self.first = lesser(self.first, At { code, place });
    }

    /// Whether it would be the least fault, so that noting it changes anything.
    pub fn changes(&self, code: Code, place: Place) -> bool
        ensures { result ≡ changes_least self.now (record { code = code; at = place }) }
    {
        match self.first {
            None => true,
            Some(least) => is_before(At { code, place }, least),
        }
    }

    /// Notes one more where it holds.
    pub fn note_if(&mut self, holds: bool, code: Code, place: Place)
        ensures { self.new ≡ noted (found code (where_place holds place)) self.old }
    {
        if holds {
            self.note(code, place);
        }
    }

    /// The least fault that was noted.
    pub fn first(&self) -> Option<At>
        ensures { option_map found_of result ≡ self.now }
    {
        self.first
    }
}
