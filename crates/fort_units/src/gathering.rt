//! What each line gives: what nesting is judged by, its first own fault, and its forms.
ghost use Rattle.std.specs.Prelude.{◌≡◌, ◌++◌, ◌∷◌, [], ◌<◌, map, length, OnOk, IfOk, false, true, Err};
ghost use Rattle.fort_stmt.specs.Sort.{sort_of};
ghost use Rattle.fort_stmt.specs.Verdict as verdict;
ghost use Rattle.claw_lines.specs.Forms as directive_line;
ghost use Rattle.fort_units.specs.Adding.{Adds, Gathers};
ghost use Rattle.fort_units.specs.Passing.{earlier};
ghost use Rattle.fort_units.specs.Program as program;

use crate::item::Item;
use crate::least::Least;
use claw_lines::directive;
use form_nesting::Form;
use fort_stmt::{Sort, sketch, statement};
use fort_tree::{Directive, Fault, Line, Name, NoMemory, Place, Seq, Statement, Stop, Token};
use std::alloc::Global;

/// What lines give.
#[derive(Debug, Drop)]
pub struct Gathered {
    pub items: Seq<Item>,
    pub forms: Seq<Form>,
    /// The first own fault of a line.
    pub least: Least,
}

/// Whether the tokens of a line of directives begin with a mark's sentinel.
fn is_mark_line(tokens: &[Token]) -> bool
    ensures { result ≡ program.is_mark_line tokens.now }
{
    match tokens.first() {
        None => false,
        Some(sentinel) => sentinel.text() != b"!$claw".as_slice(),
    }
}

fn sentinel_at(line: &Line) -> Place
    ensures { result ≡ directive_line.sentinel_place line.now }
{
    match line.tokens.items().first() {
        None => line.at,
        Some(sentinel) => sentinel.at,
    }
}

impl Gathered {
    pub fn new(alloc: Global) -> Gathered
        ensures { result ≡ record { items = []; forms = []; least = record { first = None } } }
    {
        Gathered {
            items: Seq::new(alloc),
            forms: Seq::new(alloc),
            least: Least { first: None },
        }
    }

    fn add_statement(&mut self, at: Place, statement: Statement) -> Result<(), NoMemory>
        ensures items { OnOk result (self.new.items ≡ self.old.items ++ Item.Statement at (sort_of statement) ∷ []) }
        ensures forms { OnOk result (self.new.forms ≡ self.old.forms ++ Form.Says at statement ∷ []) }
        ensures least { OnOk result (self.new.least ≡ self.old.least) }
    {
        self.items.push(Item::Statement(at, Sort::of(&statement)))?;
        self.forms.push(Form::Says(at, statement))?;
        Ok(())
    }

    /// Adds what nesting is judged by, and a fault, of a line without a form.
    fn add_fault(&mut self, item: Item, fault: Fault) -> Result<(), NoMemory>
        ensures items { OnOk result (self.new.items ≡ self.old.items ++ item ∷ []) }
        ensures forms { OnOk result (self.new.forms ≡ self.old.forms) }
        ensures least { OnOk result (self.new.least.first ≡ earlier self.old.least.first fault) }
    {
        // The prover is told of these types only where a value of each stands.
        let _types: Option<(Sort, Name)> = None;
        self.items.push(item)?;
        self.least.note(fault);
        Ok(())
    }

    /// Adds what nesting is judged by, and the fault, of a statement that has one.
    fn add_sketch(&mut self, at: Place, sort: Option<Sort>, fault: Fault) -> Result<(), NoMemory>
        ensures items { OnOk result (self.new.items ≡ self.old.items ++ program.item_of_sketch at sort ∷ []) }
        ensures forms { OnOk result (self.new.forms ≡ self.old.forms) }
        ensures least { OnOk result (self.new.least.first ≡ earlier self.old.least.first fault) }
    {
        match sort {
            Some(sort) => self.add_fault(Item::Statement(at, sort), fault),
            None => self.add_fault(Item::Absent(at), fault),
        }
    }

    /// Adds what a statement's line with a fault gives.
    fn add_faulty(&mut self, alloc: Global, line: &Line, fault: Fault) -> Result<(), NoMemory>
        requires statement { line.now.directive ≡ false }
        requires faulty { verdict.Answers (Err (Stop.Fault fault)) line.now }
        ensures { OnOk result (Adds line.now self.old self.new) }
    {
        // The prover is told of these types only where a value of each stands.
        let _types: Option<Name> = None;
        let sort = sketch(alloc, line)?;
        self.add_sketch(line.at, sort, fault)
    }

    fn add_directives(&mut self, within: bool, directives: Seq<Directive>) -> Result<(), NoMemory>
        ensures items { OnOk result (self.new.items ≡ self.old.items ++ map (program.item_of_directive within) directives) }
        ensures forms { OnOk result (self.new.forms ≡ self.old.forms ++ map (λ d. Form.Directs d) directives) }
        ensures least { OnOk result (self.new.least ≡ self.old.least) }
    {
        // The prover is told of these types only where a value of each stands.
        let _types: Option<(Sort, Name)> = None;
        for directive in directives.into_vec() {
            self.items.push(Item::Directive {
                at: directive.at,
                within,
                word: directive.word,
            })?;
            self.forms.push(Form::Directs(directive))?;
        }
        Ok(())
    }

    /// Adds what a directive or mark line of no form gives.
    fn add_unread(&mut self, line: &Line, fault: Fault) -> Result<(), NoMemory>
        ensures items { OnOk result (self.new.items ≡ self.old.items ++ Item.Unread (directive_line.sentinel_place line.now) line.now.within (program.is_mark_line line.now.tokens) ∷ []) }
        ensures forms { OnOk result (self.new.forms ≡ self.old.forms) }
        ensures least { OnOk result (self.new.least.first ≡ earlier self.old.least.first fault) }
    {
        let at = sentinel_at(line);
        let mark = is_mark_line(line.tokens.items());
        let within = line.within;
        self.add_fault(Item::Unread { at, within, mark }, fault)
    }

    /// Adds what a directive or mark line gives.
    fn add_directive_line(&mut self, alloc: Global, line: &Line) -> Result<(), NoMemory>
        requires { line.now.directive ≡ true }
        ensures { OnOk result (Adds line.now self.old self.new) }
    {
        match directive(alloc, line) {
            Ok(directives) => self.add_directives(line.within, directives),
            Err(Stop::Fault(fault)) => self.add_unread(line, fault),
            Err(Stop::NoMemory) => Err(NoMemory),
        }
    }

    /// Adds what a statement's line gives.
    fn add_statement_line(&mut self, alloc: Global, line: &Line) -> Result<(), NoMemory>
        requires statement { line.now.directive ≡ false }
        requires tokens { 0 < length line.now.tokens }
        ensures { OnOk result (Adds line.now self.old self.new) }
    {
        match statement(alloc, line) {
            Ok(statement) => self.add_statement(line.at, statement),
            Err(Stop::Fault(fault)) => self.add_faulty(alloc, line, fault),
            Err(Stop::NoMemory) => Err(NoMemory),
        }
    }

    /// Adds what a line gives.
    fn add(&mut self, alloc: Global, line: &Line) -> Result<(), NoMemory>
        ensures { OnOk result (Adds line.now self.old self.new) }
    {
        if line.directive {
            return self.add_directive_line(alloc, line);
        }
        if line.tokens.len() == 0 {
            return Ok(());
        }
        self.add_statement_line(alloc, line)
    }
}

/// What the lines of all files give.
///
/// # Errors
/// `NoMemory` only where memory was refused.
pub fn gather(alloc: Global, lines: &[Line]) -> Result<Gathered, NoMemory>
    ensures { IfOk result (λ gathered. Gathers lines.now gathered) }
{
    let mut gathered = Gathered::new(alloc);
    for line in lines {
        gathered.add(alloc, line)?;
    }
    Ok(gathered)
}
