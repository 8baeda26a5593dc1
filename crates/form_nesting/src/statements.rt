//! The statements of a unit, while they are read.
ghost use Rattle.std.specs.Prelude.{◌≡◌, IsTrue, is_some, MatchOption, OnOk};
ghost use Rattle.fort_tree.specs.declared.statement.Statement.{out-Statement};
ghost use Rattle.form_nesting.specs.Statements.{begun, with_statement, within, left, next_arm, end_if, next_case, end_select, end_do, end_block, do_behind, call_behind, if_then, if_action, selects, simple as simple_of};

use crate::construct::{Arms, Cases, Construct, Heading};
use fort_grammar::Stack;
use fort_tree::{Directive, Expr, Head, Named, NoMemory, Place, Seq, Statement, Stmt, Sub};
use std::alloc::Global;
use std::mem;

/// A construct that is open, and the statements before it in the list in which it stands.
#[derive(Debug, Drop)]
pub struct Frame {
    pub before: Seq<Stmt>,
    pub construct: Construct,
}

/// The statements of a unit so far.
#[derive(Debug, Drop)]
pub struct Statements {
    /// Those of the innermost list that is open.
    pub body: Seq<Stmt>,
    /// The constructs that are open, the innermost on top.
    pub frames: Stack<Frame>,
    /// The directive or the mark directly before.
    pub waiting: Option<Directive>,
}

/// The statement by itself, which is one that is whole by itself.
pub fn simple(at: Place, statement: Statement) -> Stmt
    requires { IsTrue (is_some (simple_of at (out-Statement statement))) }
    ensures { Some result ≡ simple_of at (out-Statement statement) }
{
    match statement {
        Statement::Assign { left, right } => Stmt::Assign { at, left, right },
        Statement::Call { name, args } => Stmt::Call {
            at,
            name,
            args,
            forward: false,
        },
        Statement::Exit => Stmt::Exit(at),
        Statement::Cycle => Stmt::Cycle(at),
        Statement::Return => Stmt::Return(at),
        _ => unreachable!(),
    }
}

impl Statements {
    /// No statement. It takes no memory.
    pub fn new(alloc: Global) -> Statements
        ensures { result ≡ begun }
    {
        Statements {
            body: Seq::new(alloc),
            frames: Stack::new(alloc),
            waiting: None,
        }
    }

    /// Adds a statement to the innermost list.
    ///
    /// # Errors
    /// As in all functions here, `NoMemory` only where memory was refused. Nothing is said of the statements then.
    pub fn add(&mut self, statement: Stmt) -> Result<(), NoMemory>
        ensures { OnOk result (self.new ≡ with_statement statement self.old) }
    {
        self.body.push(statement)
    }

    /// Begins a list inside a construct.
    pub fn enter(&mut self, alloc: Global, construct: Construct) -> Result<(), NoMemory>
        ensures { OnOk result (self.new ≡ within construct self.old) }
    {
        let before = mem::replace(&mut self.body, Seq::new(alloc));
        self.frames.push(Frame { before, construct })
    }

    /// Ends the innermost list: the construct in which it stands, and the list. None is open otherwise.
    fn leave(&mut self) -> Option<(Construct, Seq<Stmt>)>
        ensures { MatchOption result (left self.old ≡ None) (λ inner. left self.old ≡ Some (record { construct = inner.0; body = inner.1; outside = self.new })) }
    {
        let Frame { before, construct } = self.frames.pop()?;
        let body = mem::replace(&mut self.body, before);
        Some((construct, body))
    }

    /// CALL, with or without `parallelize forward` before it.
    pub fn call(&mut self, at: Place, name: Named, args: Seq<Sub>) -> Result<(), NoMemory>
        ensures { OnOk result (self.new ≡ call_behind at name args self.old) }
    {
        let forward = self.waiting.take().is_some();
        self.add(Stmt::Call {
            at,
            name,
            args,
            forward,
        })
    }

    /// DO, with or without a directive or mark before it.
    pub fn begin_do(&mut self, alloc: Global, at: Place, head: Head) -> Result<(), NoMemory>
        ensures { OnOk result (self.new ≡ do_behind at head self.old) }
    {
        let mark = self.waiting.take();
        self.enter(alloc, Construct::Do { at, head, mark })
    }

    /// IF with THEN.
    pub fn begin_if(&mut self, alloc: Global, at: Place, test: Expr) -> Result<(), NoMemory>
        ensures { OnOk result (self.new ≡ if_then at test self.old) }
    {
        let arms = Arms::new(alloc);
        self.enter(
            alloc,
            Construct::If {
                at,
                arms,
                test: Some(test),
            },
        )
    }

    /// An IF on one line.
    pub fn add_if(
        &mut self,
        alloc: Global,
        at: Place,
        test: Expr,
        action: Stmt,
    ) -> Result<(), NoMemory>
        ensures { OnOk result (self.new ≡ if_action at test action self.old) }
    {
        let mut body = Seq::new(alloc);
        body.push(action)?;
        let mut arms = Arms::new(alloc);
        arms.add(Some(test), body)?;
        let Arms { list, other } = arms;
        self.add(Stmt::If {
            at,
            arms: list,
            other,
        })
    }

    /// SELECT.
    pub fn begin_select(&mut self, alloc: Global, at: Place, on: Expr) -> Result<(), NoMemory>
        ensures { OnOk result (self.new ≡ selects at on self.old) }
    {
        let cases = Cases::new(alloc);
        self.enter(
            alloc,
            Construct::Select {
                at,
                on,
                cases,
                heading: Heading::Nothing,
            },
        )
    }

    /// END DO.
    pub fn end_do(&mut self) -> Result<(), NoMemory>
        requires { IsTrue (is_some (end_do self.old)) }
        ensures { OnOk result (Some self.new ≡ end_do self.old) }
    {
        let Some((construct, body)) = self.leave() else {
            unreachable!()
        };
        let Construct::Do { at, head, mark } = construct else {
            unreachable!()
        };
        self.add(Stmt::Loop {
            at,
            head,
            body,
            mark,
        })
    }

    /// The last line of a block.
    pub fn end_block(&mut self) -> Result<(), NoMemory>
        requires { IsTrue (is_some (end_block self.old)) }
        ensures { OnOk result (Some self.new ≡ end_block self.old) }
    {
        let Some((construct, body)) = self.leave() else {
            unreachable!()
        };
        let Construct::Block { mark } = construct else {
            unreachable!()
        };
        self.add(Stmt::Block {
            at: mark.at,
            mark,
            body,
        })
    }

    /// ELSE IF, or ELSE, which has no test.
    pub fn next_arm(&mut self, alloc: Global, test: Option<Expr>) -> Result<(), NoMemory>
        requires { IsTrue (is_some (next_arm test self.old)) }
        ensures { OnOk result (Some self.new ≡ next_arm test self.old) }
    {
        let Some((construct, body)) = self.leave() else {
            unreachable!()
        };
        let Construct::If {
            at,
            mut arms,
            test: last,
        } = construct
        else {
            unreachable!()
        };
        arms.add(last, body)?;
        self.enter(alloc, Construct::If { at, arms, test })
    }

    /// END IF.
    pub fn end_if(&mut self) -> Result<(), NoMemory>
        requires { IsTrue (is_some (end_if self.old)) }
        ensures { OnOk result (Some self.new ≡ end_if self.old) }
    {
        let Some((construct, body)) = self.leave() else {
            unreachable!()
        };
        let Construct::If { at, mut arms, test } = construct else {
            unreachable!()
        };
        arms.add(test, body)?;
        let Arms { list, other } = arms;
        self.add(Stmt::If {
            at,
            arms: list,
            other,
        })
    }

    /// CASE and CASE DEFAULT.
    pub fn next_case(&mut self, alloc: Global, heading: Heading) -> Result<(), NoMemory>
        requires { IsTrue (is_some (next_case heading self.old)) }
        ensures { OnOk result (Some self.new ≡ next_case heading self.old) }
    {
        let Some((construct, body)) = self.leave() else {
            unreachable!()
        };
        let Construct::Select {
            at,
            on,
            mut cases,
            heading: last,
        } = construct
        else {
            unreachable!()
        };
        cases.add(last, body)?;
        self.enter(
            alloc,
            Construct::Select {
                at,
                on,
                cases,
                heading,
            },
        )
    }

    /// END SELECT.
    pub fn end_select(&mut self) -> Result<(), NoMemory>
        requires { IsTrue (is_some (end_select self.old)) }
        ensures { OnOk result (Some self.new ≡ end_select self.old) }
    {
        let Some((construct, body)) = self.leave() else {
            unreachable!()
        };
        let Construct::Select {
            at,
            on,
            mut cases,
            heading,
        } = construct
        else {
            unreachable!()
        };
        cases.add(heading, body)?;
        let Cases { list, other } = cases;
        self.add(Stmt::Select {
            at,
            on,
            arms: list,
            other,
        })
    }
}
