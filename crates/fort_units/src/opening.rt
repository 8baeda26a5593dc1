//! What statements and directives leave open.
ghost use Rattle.std.specs.Prelude.{◌≡◌, OnOk};
ghost use Rattle.fort_units.specs.Opens as opens;
ghost use Rattle.fort_units.specs.Faults as faults;
ghost use Rattle.fort_units.specs.Passing as passing;

use crate::around::{Around, Block, Construct, Exits, Heading, Listing, Part, Waiting};
use crate::least::Least;
use fort_grammar::Stack;
use fort_tree::{DirectiveWord, EndWord, Name, NoMemory, Place};
use std::alloc::Global;
use std::mem;

/// One more, counted to 64.
pub fn deeper(depth: u8) -> u8
    ensures { result ≡ opens.deeper depth }
{
    if depth < 64 { depth + 1 } else { 64 }
}

pub fn or_else(first: Option<Place>, second: Option<Place>) -> Option<Place>
    ensures { result ≡ opens.or_else first second }
{
    match first {
        None => second,
        Some(at) => Some(at),
    }
}

fn exits_of(mark: Option<Place>) -> Exits
    ensures { result ≡ opens.exits_of mark }
{
    match mark {
        None => Exits::Loop,
        Some(at) => Exits::Marked(at),
    }
}

pub fn had_default(construct: Option<Construct>) -> bool
    ensures { result ≡ opens.had_default construct }
{
    match construct {
        Some(Construct::Case { default }) => default,
        _ => false,
    }
}

impl Listing {
    /// The list of a unit before its first statement.
    pub fn of_unit(alloc: Global) -> Listing
        ensures { result ≡ opens.unit_list }
    {
        Listing {
            construct: None,
            exits: Exits::Nowhere,
            returns: None,
            depth: 0,
            blocks: Stack::new(alloc),
        }
    }

    /// The first list of statements of a construct that isn't a DO.
    fn inside(&self, alloc: Global, construct: Construct) -> Listing
        ensures { result ≡ opens.list_in construct self.now }
    {
        Listing {
            construct: Some(construct),
            exits: self.exits,
            returns: self.returns,
            depth: deeper(self.depth),
            blocks: Stack::new(alloc),
        }
    }

    /// The list of a DO with a mark, or without.
    fn inside_do(&self, alloc: Global, mark: Option<Place>) -> Listing
        ensures { result ≡ opens.list_in_do mark self.now }
    {
        Listing {
            construct: Some(Construct::Do),
            exits: exits_of(mark),
            returns: or_else(self.returns, mark),
            depth: deeper(self.depth),
            blocks: Stack::new(alloc),
        }
    }
}

impl Around {
    /// What is open where a file begins.
    pub fn top(alloc: Global, file: u32) -> Around
        ensures { result ≡ passing.top file }
    {
        Around {
            file,
            line: 0,
            host: None,
            unit: None,
            part: Part::Body,
            list: Listing::of_unit(alloc),
            outside: Stack::new(alloc),
            define: None,
            parallelize: None,
            head_end: None,
            waiting: None,
        }
    }

    /// The head goes on in this part.
    pub fn go_on_in(&mut self, alloc: Global, part: Part)
        ensures { self.new ≡ opens.in_part part self.old }
    {
        self.part = part;
        self.list = Listing::of_unit(alloc);
        self.outside = Stack::new(alloc);
        self.head_end = None;
    }

    /// The head is over where a statement stands.
    pub fn end_head(&mut self)
        ensures { self.new ≡ opens.in_statements self.old }
    {
        self.part = Part::Body;
        self.define = None;
        self.parallelize = None;
        self.head_end = None;
    }

    pub fn leave_unit(&mut self, alloc: Global)
        ensures { self.new ≡ opens.without_unit self.old }
    {
        self.unit = None;
        self.part = Part::Body;
        self.list = Listing::of_unit(alloc);
        self.outside = Stack::new(alloc);
        self.define = None;
        self.parallelize = None;
        self.head_end = None;
    }

    pub fn enter_unit(&mut self, alloc: Global, word: EndWord, name: Name)
        ensures { self.new ≡ opens.in_unit word name self.old }
    {
        self.leave_unit(alloc);
        self.unit = Some(Heading { word, name });
        self.part = Part::Uses;
    }

    /// Leaves the unit, or where none is open the module.
    pub fn leave(&mut self, alloc: Global)
        ensures { self.new ≡ opens.ended self.old.unit self.old }
    {
        match self.unit {
            Some(_) => self.leave_unit(alloc),
            None => {
                self.leave_unit(alloc);
                self.host = None;
            }
        }
    }

    /// Opens a list of statements in the innermost one.
    fn put_in(&mut self, inner: Listing) -> Result<(), NoMemory>
        ensures { OnOk result (self.new ≡ opens.put_in inner self.old) }
    {
        let outer = mem::replace(&mut self.list, inner);
        self.outside.push(outer)
    }

    /// Begins a construct that isn't a DO.
    ///
    /// # Errors
    /// `NoMemory` only where memory was refused.
    pub fn begin(&mut self, alloc: Global, construct: Construct) -> Result<(), NoMemory>
        ensures { OnOk result (self.new ≡ opens.put_in (opens.list_in construct self.old.list) (opens.in_statements self.old)) }
    {
        let inner = self.list.inside(alloc, construct);
        self.end_head();
        self.put_in(inner)
    }

    /// Begins a DO with a mark, or without.
    ///
    /// # Errors
    /// `NoMemory` only where memory was refused.
    pub fn begin_do(&mut self, alloc: Global, mark: Option<Place>) -> Result<(), NoMemory>
        ensures { OnOk result (self.new ≡ opens.put_in (opens.list_in_do mark self.old.list) (opens.in_statements self.old)) }
    {
        let inner = self.list.inside_do(alloc, mark);
        self.end_head();
        self.put_in(inner)
    }

    /// Ends the construct of the innermost list.
    pub fn end_construct(&mut self, alloc: Global)
        ensures { self.new ≡ opens.taken_out self.old }
    {
        match self.outside.pop() {
            Some(outer) => self.list = outer,
            None => self.list = Listing::of_unit(alloc),
        }
    }
}
