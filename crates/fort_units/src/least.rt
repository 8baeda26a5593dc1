//! The first of faults that are noted in any order.
ghost use Rattle.std.specs.Prelude.{◌≡◌};
ghost use Rattle.fort_units.specs.Faults as faults;
ghost use Rattle.fort_units.specs.Passing as passing;

use crate::around::{Exits, Listing, Waiting};
use fort_stmt::{ActionSort, Sort};
use fort_tree::{Code, DirectiveWord, Fault, Mode, Place};

fn is_before(place: Place, other: Place) -> bool
    ensures { result ≡ passing.is_before place other }
{
    place.file < other.file
        || place.file == other.file
            && (place.line < other.line || place.line == other.line && place.column < other.column)
}

fn is_same(place: Place, other: Place) -> bool
    ensures { result ≡ passing.is_same_place place other }
{
    place.file == other.file && (place.line == other.line && place.column == other.column)
}

fn comes_before(fault: Fault, other: Fault) -> bool
    ensures { result ≡ passing.comes_before fault other }
{
    is_before(fault.place, other.place)
        || is_same(fault.place, other.place) && fault.code.number() < other.code.number()
}

/// The earlier of a first fault and another one.
pub fn earlier(first: Option<Fault>, fault: Fault) -> Option<Fault>
    ensures { result ≡ passing.earlier first fault }
{
    match first {
        None => Some(fault),
        Some(other) => {
            if comes_before(fault, other) {
                Some(fault)
            } else {
                Some(other)
            }
        }
    }
}

/// Whether a directive may stand directly before such a statement.
fn stands_before(sort: &Sort, word: DirectiveWord) -> bool
    ensures { result ≡ faults.stands_before sort.now word }
{
    match sort {
        Sort::Do => true,
        Sort::Act(ActionSort::Call) => matches!(word, DirectiveWord::Forward),
        _ => false,
    }
}

/// How many constructs and blocks may be open in one another. The limits are this project's own.
fn limit(mode: Mode) -> u8
    ensures { result ≡ faults.limit mode }
{
    match mode {
        Mode::Source => 32,
        Mode::Target => 64,
    }
}

/// The first of the faults that were noted: that with the least place, and at one place the one with the smallest code.
#[derive(Debug, Drop)]
pub struct Least {
    pub first: Option<Fault>,
}

impl Least {
    pub fn note(&mut self, fault: Fault)
        ensures { self.new.first ≡ passing.earlier self.old.first fault }
    {
        self.first = earlier(self.first, fault);
    }

    /// Notes that a directive stands at a wrong place.
    pub fn note_misplaced(&mut self, at: Place)
        ensures { self.new.first ≡ passing.earlier self.old.first (faults.misplaced at) }
    {
        self.note(Fault::new(Code::E41, at));
    }

    pub fn note_misplaced_if(&mut self, at: Option<Place>)
        ensures { self.new.first ≡ passing.noted self.old.first (faults.misplaced_if at) }
    {
        if let Some(at) = at {
            self.note_misplaced(at);
        }
    }

    /// Notes one of `define` and `parallelize` without the other.
    pub fn note_alone(&mut self, define: Option<Place>, parallelize: Option<Place>)
        ensures { self.new.first ≡ passing.noted self.old.first (faults.alone_of define parallelize) }
    {
        match (define, parallelize) {
            (None, other) => self.note_misplaced_if(other),
            (Some(at), None) => self.note_misplaced(at),
            (Some(_), Some(_)) => {}
        }
    }

    /// Notes a directive that doesn't stand directly before its DO or CALL.
    pub fn note_unmet(&mut self, waiting: Option<Waiting>, sort: &Sort)
        ensures { self.new.first ≡ passing.noted self.old.first (faults.unmet waiting sort.now) }
    {
        if let Some(waiting) = waiting {
            if !stands_before(sort, waiting.word) {
                self.note_misplaced(waiting.at);
            }
        }
    }

    /// Notes a directive behind which no statement follows directly.
    pub fn note_cut(&mut self, waiting: Option<Waiting>)
        ensures { self.new.first ≡ passing.noted self.old.first (faults.cut_off waiting) }
    {
        if let Some(waiting) = waiting {
            self.note_misplaced(waiting.at);
        }
    }

    /// Notes the second of two directives that can stand once.
    pub fn note_twice(&mut self, earlier: Option<Place>, at: Place)
        ensures { self.new.first ≡ passing.noted self.old.first (faults.twice earlier at) }
    {
        if earlier.is_some() {
            self.note_misplaced(at);
        }
    }

    /// Notes the mark of a loop that may not have this EXIT or RETURN.
    pub fn note_action(&mut self, action: ActionSort, list: &Listing)
        ensures { self.new.first ≡ passing.noted self.old.first (faults.action_faults action list.now) }
    {
        match action {
            ActionSort::Exit => match list.exits {
                Exits::Marked(mark) => self.note_misplaced(mark),
                _ => {}
            },
            ActionSort::Return => self.note_misplaced_if(list.returns),
            _ => {}
        }
    }

    /// Notes what begins here, where it is too deep.
    pub fn note_deep(&mut self, mode: Mode, at: Place, depth: u8)
        ensures { self.new.first ≡ passing.noted self.old.first (faults.deep_from mode at depth) }
    {
        if depth >= limit(mode) {
            self.note(Fault::new(Code::E70, at));
        }
    }
}
