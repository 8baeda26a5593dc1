//! The file, while it is read.
ghost use Rattle.std.specs.Prelude.{◌≡◌, ◌<◌, ◌^◌, IsTrue, is_some, length, OnOk};
ghost use Rattle.fort_tree.specs.declared.statement.Statement.{out-Statement};
ghost use Rattle.form_nesting.specs.Forms.{form_of};
ghost use Rattle.form_nesting.specs.Runs.{step};
ghost use Rattle.form_nesting.specs.Steps.{start, say, direct, host_of, using_line, declaring, marking, ended, unit_ended, module_ended, opened, function, subroutine};

use crate::construct::{Construct, Heading};
use crate::form::Form;
use crate::header::{add_decls, function_unit, subroutine_unit};
use crate::role::{Role, role_of};
use crate::statements::{Statements, simple};
use fort_tree::{
    Decl, Directive, File, Item, Kind, Module, Named, NoMemory, Place, Seq, Statement, Stmt, Unit,
    Use,
};
use std::alloc::Global;
use std::mem;

/// The file so far.
#[derive(Debug, Drop)]
pub struct Nest {
    /// The modules and units that have ended.
    pub file: File,
    /// The module that is open.
    pub host: Option<Module>,
    /// The unit that is open, without its statements.
    pub unit: Option<Unit>,
    pub statements: Statements,
}

impl Nest {
    /// Before the first form. It takes no memory.
    pub fn new(alloc: Global) -> Nest
        ensures { result ≡ start }
    {
        Nest {
            file: File {
                modules: Seq::new(alloc),
                units: Seq::new(alloc),
                order: Seq::new(alloc),
            },
            host: None,
            unit: None,
            statements: Statements::new(alloc),
        }
    }

    /// The number of the module in which a unit stands that begins here.
    fn host_number(&self) -> Option<u32>
        requires { length self.now.file.modules < 2 ^ 32 }
        ensures { result ≡ host_of self.now }
    {
        match &self.host {
            Some(_) => Some(self.file.modules.len() as u32),
            None => None,
        }
    }

    fn open_module(&mut self, alloc: Global, name: Named)
        ensures { self.new ≡ opened name self.old }
    {
        self.host = Some(Module {
            name: name.name,
            at: name.at,
            uses: Seq::new(alloc),
            decls: Seq::new(alloc),
        });
    }

    fn open_subroutine(&mut self, alloc: Global, name: Named, dummies: Seq<Named>)
        requires { length self.old.file.modules < 2 ^ 32 }
        ensures { self.new ≡ subroutine name dummies self.old }
    {
        let host = self.host_number();
        self.unit = Some(subroutine_unit(alloc, name, dummies, host));
    }

    /// Begins a FUNCTION.
    ///
    /// # Errors
    /// As in all functions here, `NoMemory` only where memory was refused. Nothing is said of the file then.
    fn open_function(
        &mut self,
        alloc: Global,
        prefix: Option<(Kind, Place)>,
        name: Named,
        dummies: Seq<Named>,
        outcome: Option<Named>,
    ) -> Result<(), NoMemory>
        requires { length self.old.file.modules < 2 ^ 32 }
        ensures { OnOk result (self.new ≡ function prefix name dummies outcome self.old) }
    {
        let host = self.host_number();
        let unit = function_unit(alloc, prefix, name, dummies, outcome, host)?;
        self.unit = Some(unit);
        Ok(())
    }

    fn add_use(&mut self, line: Use) -> Result<(), NoMemory>
        requires { IsTrue (is_some (using_line line self.old)) }
        ensures { OnOk result (Some self.new ≡ using_line line self.old) }
    {
        if let Some(unit) = &mut self.unit {
            unit.uses.push(line)
        } else if let Some(host) = &mut self.host {
            host.uses.push(line)
        } else {
            unreachable!()
        }
    }

    fn declare(&mut self, line: Seq<Decl>) -> Result<(), NoMemory>
        requires { IsTrue (is_some (declaring line self.old)) }
        ensures { OnOk result (Some self.new ≡ declaring line self.old) }
    {
        if let Some(unit) = &mut self.unit {
            add_decls(&mut unit.decls, line)
        } else if let Some(host) = &mut self.host {
            add_decls(&mut host.decls, line)
        } else {
            unreachable!()
        }
    }

    fn mark(&mut self, directive: Directive) -> Result<(), NoMemory>
        requires { IsTrue (is_some (marking directive self.old)) }
        ensures { OnOk result (Some self.new ≡ marking directive self.old) }
    {
        if let Some(unit) = &mut self.unit {
            unit.marks.push(directive)
        } else {
            unreachable!()
        }
    }

    fn end_unit(&mut self, alloc: Global, unit: Unit) -> Result<(), NoMemory>
        requires { length self.old.file.units < 2 ^ 32 }
        ensures { OnOk result (self.new ≡ unit_ended unit self.old) }
    {
        let mut unit = unit;
        unit.body = mem::replace(&mut self.statements.body, Seq::new(alloc));
        if unit.host.is_none() {
            let number = self.file.units.len() as u32;
            self.file.order.push(Item::Unit(number))?;
        }
        self.file.units.push(unit)
    }

    fn end_module(&mut self, host: Module) -> Result<(), NoMemory>
        requires { length self.old.file.modules < 2 ^ 32 }
        ensures { OnOk result (self.new ≡ module_ended host self.old) }
    {
        let number = self.file.modules.len() as u32;
        self.file.order.push(Item::Module(number))?;
        self.file.modules.push(host)
    }

    /// END of a unit, or of a module where no unit is open.
    fn end(&mut self, alloc: Global) -> Result<(), NoMemory>
        requires open { IsTrue (is_some (ended self.old)) }
        requires modules { length self.old.file.modules < 2 ^ 32 }
        requires units { length self.old.file.units < 2 ^ 32 }
        ensures { OnOk result (Some self.new ≡ ended self.old) }
    {
        if let Some(unit) = self.unit.take() {
            self.end_unit(alloc, unit)
        } else if let Some(host) = self.host.take() {
            self.end_module(host)
        } else {
            unreachable!()
        }
    }

    /// Takes a statement.
    pub fn say(&mut self, alloc: Global, at: Place, statement: Statement) -> Result<(), NoMemory>
        requires fits { IsTrue (is_some (say at (out-Statement statement) self.old)) }
        requires modules { length self.old.file.modules < 2 ^ 32 }
        requires units { length self.old.file.units < 2 ^ 32 }
        ensures { OnOk result (Some self.new ≡ say at (out-Statement statement) self.old) }
    {
        match statement {
            Statement::Module(name) => {
                self.open_module(alloc, name);
                Ok(())
            }
            Statement::End(_, _) => self.end(alloc),
            Statement::Subroutine { name, dummies } => {
                self.open_subroutine(alloc, name, dummies);
                Ok(())
            }
            Statement::Function {
                prefix,
                name,
                dummies,
                result: outcome,
            } => self.open_function(alloc, prefix, name, dummies, outcome),
            Statement::Using(line) => self.add_use(line),
            Statement::Contains | Statement::ImplicitNone => Ok(()),
            Statement::Declare(line) => self.declare(line),
            Statement::Assign { left, right } => {
                self.statements.add(Stmt::Assign { at, left, right })
            }
            Statement::Call { name, args } => self.statements.call(at, name, args),
            Statement::IfAction {
                test,
                at: place,
                action,
            } => self
                .statements
                .add_if(alloc, at, test, simple(place, action.into_inner())),
            Statement::IfThen(test) => self.statements.begin_if(alloc, at, test),
            Statement::ElseIf(test) => self.statements.next_arm(alloc, Some(test)),
            Statement::Else => self.statements.next_arm(alloc, None),
            Statement::EndIf => self.statements.end_if(),
            Statement::Do(head) => self.statements.begin_do(alloc, at, head),
            Statement::EndDo => self.statements.end_do(),
            Statement::Exit => self.statements.add(Stmt::Exit(at)),
            Statement::Cycle => self.statements.add(Stmt::Cycle(at)),
            Statement::Return => self.statements.add(Stmt::Return(at)),
            Statement::Select(on) => self.statements.begin_select(alloc, at, on),
            Statement::EndSelect => self.statements.end_select(),
            Statement::Case(ranges) => self.statements.next_case(alloc, Heading::Ranges(ranges)),
            Statement::CaseDefault => self.statements.next_case(alloc, Heading::Default),
        }
    }

    /// Takes a directive or mark.
    pub fn direct(&mut self, alloc: Global, directive: Directive) -> Result<(), NoMemory>
        requires { IsTrue (is_some (direct directive self.old)) }
        ensures { OnOk result (Some self.new ≡ direct directive self.old) }
    {
        match role_of(directive.word) {
            Role::OfUnit => self.mark(directive),
            Role::Before => {
                self.statements.waiting = Some(directive);
                Ok(())
            }
            Role::Begins => self
                .statements
                .enter(alloc, Construct::Block { mark: directive }),
            Role::Ends => self.statements.end_block(),
            Role::Nowhere => unreachable!(),
        }
    }

    /// Takes the next form of the text.
    pub fn take(&mut self, alloc: Global, form: Form) -> Result<(), NoMemory>
        requires fits { IsTrue (is_some (step (form_of form) self.old)) }
        requires modules { length self.old.file.modules < 2 ^ 32 }
        requires units { length self.old.file.units < 2 ^ 32 }
        ensures { OnOk result (Some self.new ≡ step (form_of form) self.old) }
    {
        match form {
            Form::Says(at, statement) => self.say(alloc, at, statement),
            Form::Directs(directive) => self.direct(alloc, directive),
        }
    }

    /// The modules and units that have ended.
    pub fn into_file(self) -> File
        ensures { result ≡ self.file }
    {
        self.file
    }
}
