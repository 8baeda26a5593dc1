//! Which statements may stand next.
ghost use Rattle.std.specs.Prelude.{◌≡◌, if◌then◌else◌, false};
ghost use Rattle.fort_units.specs.Opens as opens;
ghost use Rattle.fort_units.specs.Faults as faults;

use crate::around::{Around, Construct, Exits, Heading, Part};
use fort_stmt::{ActionSort, Sort};
use fort_tree::{EndWord, Name};

fn is_uses(part: Part) -> bool
    ensures { result ≡ opens.is_uses part }
{
    matches!(part, Part::Uses)
}

pub fn in_head(part: Part) -> bool
    ensures { result ≡ opens.in_head part }
{
    !matches!(part, Part::Body)
}

fn holds_statements(construct: Option<Construct>) -> bool
    ensures { result ≡ opens.holds_statements construct }
{
    !matches!(construct, Some(Construct::Select))
}

/// Whether a statement of the sort goes on with the construct, or ends it.
fn goes_on(sort: &Sort, construct: Option<Construct>) -> bool
    ensures { result ≡ opens.goes_on sort.now construct }
{
    match sort {
        Sort::ElseIf => matches!(construct, Some(Construct::If)),
        Sort::Else => matches!(construct, Some(Construct::If)),
        Sort::EndIf => match construct {
            Some(Construct::If) => true,
            Some(Construct::Else) => true,
            _ => false,
        },
        Sort::EndDo => matches!(construct, Some(Construct::Do)),
        Sort::EndSelect => match construct {
            Some(Construct::Select) => true,
            Some(Construct::Case { .. }) => true,
            _ => false,
        },
        Sort::Case => match construct {
            Some(Construct::Select) => true,
            Some(Construct::Case { .. }) => true,
            _ => false,
        },
        Sort::CaseDefault => match construct {
            Some(Construct::Select) => true,
            Some(Construct::Case { default }) => !default,
            _ => false,
        },
        _ => false,
    }
}

fn in_loop(exits: Exits) -> bool
    ensures { result ≡ opens.in_loop exits }
{
    !matches!(exits, Exits::Nowhere)
}

fn action_stands(exits: Exits, action: ActionSort) -> bool
    ensures { result ≡ opens.action_stands exits action }
{
    match action {
        ActionSort::Exit => in_loop(exits),
        ActionSort::Cycle => in_loop(exits),
        _ => true,
    }
}

fn same_word(word: EndWord, other: EndWord) -> bool
    ensures { result ≡ opens.same_word word other }
{
    match word {
        EndWord::Module => matches!(other, EndWord::Module),
        EndWord::Subroutine => matches!(other, EndWord::Subroutine),
        EndWord::Function => matches!(other, EndWord::Function),
    }
}

/// Whether a name behind END, if there is one, is this name.
fn names(said: &Option<Name>, name: &Name) -> bool
    ensures { result ≡ opens.names said.now name.now }
{
    match said {
        None => true,
        Some(said) => said == name,
    }
}

/// Whether END with this word and this name ends a unit or a module.
fn ends(word: Option<EndWord>, name: &Option<Name>, opened: EndWord, opened_as: &Name) -> bool
    ensures { result ≡ opens.ends word name.now (record { word = opened; name = opened_as.now }) }
{
    match word {
        None => name.is_none(),
        Some(word) => same_word(word, opened) && names(name, opened_as),
    }
}

impl Around {
    pub fn list_open(&self) -> bool
        ensures { result ≡ opens.list_open self.now }
    {
        self.unit.is_some() && holds_statements(self.list.construct)
    }

    fn action_stands(&self, action: ActionSort) -> bool
        ensures { result ≡ (if opens.list_open self.now then opens.action_stands self.now.list.exits action else false) }
    {
        self.list_open() && action_stands(self.list.exits, action)
    }

    fn ends(&self, word: Option<EndWord>, name: &Option<Name>) -> bool
        ensures { result ≡ opens.ends_unit word name.now self.now.list.construct self.now.unit self.now.host }
    {
        match &self.unit {
            Some(unit) => self.list.construct.is_none() && ends(word, name, unit.word, &unit.name),
            None => match &self.host {
                None => false,
                Some(host) => ends(word, name, EndWord::Module, host),
            },
        }
    }

    /// Whether a statement of the sort may stand next, directives set aside.
    pub fn may_stand(&self, sort: &Sort) -> bool
        ensures { result ≡ opens.may_stand self.now sort.now }
    {
        match sort {
            Sort::Module(_) => self.unit.is_none() && self.host.is_none(),
            Sort::Contains => self.unit.is_none() && in_head(self.part),
            Sort::End(word, name) => self.ends(*word, name),
            Sort::Subroutine(_) => self.unit.is_none() && !in_head(self.part),
            Sort::Function(_) => self.unit.is_none() && !in_head(self.part),
            Sort::Use => is_uses(self.part),
            Sort::ImplicitNone => is_uses(self.part),
            Sort::Declare => in_head(self.part),
            Sort::Act(action) => self.action_stands(*action),
            Sort::IfAct(action) => self.action_stands(*action),
            Sort::IfThen => self.list_open(),
            Sort::Do => self.list_open(),
            Sort::Select => self.list_open(),
            Sort::ElseIf => goes_on(sort, self.list.construct),
            Sort::Else => goes_on(sort, self.list.construct),
            Sort::EndIf => goes_on(sort, self.list.construct),
            Sort::EndDo => goes_on(sort, self.list.construct),
            Sort::EndSelect => goes_on(sort, self.list.construct),
            Sort::Case => goes_on(sort, self.list.construct),
            Sort::CaseDefault => goes_on(sort, self.list.construct),
        }
    }

    /// Whether the next line stands before the first executable statement of a SUBROUTINE.
    pub fn in_subroutine_head(&self) -> bool
        ensures { result ≡ faults.in_subroutine_head self.now }
    {
        match &self.unit {
            None => false,
            Some(unit) => same_word(unit.word, EndWord::Subroutine) && in_head(self.part),
        }
    }

    /// Whether the next line stands in the head of a unit.
    pub fn in_unit_head(&self) -> bool
        ensures { result ≡ faults.in_unit_head self.now }
    {
        self.unit.is_some() && in_head(self.part)
    }
}
