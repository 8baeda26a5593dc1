//! Constructs of which the end has not been read.
ghost use Rattle.std.specs.Prelude.{◌≡◌, OnOk};
ghost use Rattle.form_nesting.specs.Constructs.{no_arms, no_cases, with_arm, with_case};

use fort_tree::{Arm, Case, Directive, Expr, Head, NoMemory, Place, Range, Seq, Stmt};
use std::alloc::Global;

/// The branches of an IF so far.
#[derive(Debug, Drop)]
pub struct Arms {
    pub list: Seq<Arm>,
    /// What stands behind ELSE.
    pub other: Option<Seq<Stmt>>,
}

/// The branches of a SELECT so far.
#[derive(Debug, Drop)]
pub struct Cases {
    pub list: Seq<Case>,
    /// What stands behind CASE DEFAULT.
    pub other: Option<Seq<Stmt>>,
}

/// What stands before the branch of a SELECT that is being read.
#[derive(Debug, Drop)]
pub enum Heading {
    /// SELECT itself, so that no branch has begun.
    Nothing,
    Ranges(Seq<Range>),
    Default,
}

/// A construct of which the end has not been read.
#[derive(Debug, Drop)]
pub enum Construct {
    If {
        at: Place,
        arms: Arms,
        /// The test of the branch that is being read. Behind ELSE there is none.
        test: Option<Expr>,
    },
    Select {
        at: Place,
        on: Expr,
        cases: Cases,
        heading: Heading,
    },
    Do {
        at: Place,
        head: Head,
        /// The directive or the mark before it.
        mark: Option<Directive>,
    },
    /// The statements between a directive and its end.
    Block {
        mark: Directive,
    },
}

impl Arms {
    /// No branch. It takes no memory.
    pub fn new(alloc: Global) -> Arms
        ensures { result ≡ no_arms }
    {
        Arms {
            list: Seq::new(alloc),
            other: None,
        }
    }

    /// Adds the branch with this test, or the one behind ELSE.
    ///
    /// # Errors
    /// `NoMemory` only where memory was refused. Nothing is said of the branches then.
    pub fn add(&mut self, test: Option<Expr>, body: Seq<Stmt>) -> Result<(), NoMemory>
        ensures { OnOk result (self.new ≡ with_arm test body self.old) }
    {
        match test {
            Some(test) => self.list.push(Arm { test, body }),
            None => {
                self.other = Some(body);
                Ok(())
            }
        }
    }
}

impl Cases {
    /// No branch. It takes no memory.
    pub fn new(alloc: Global) -> Cases
        ensures { result ≡ no_cases }
    {
        Cases {
            list: Seq::new(alloc),
            other: None,
        }
    }

    /// Adds the branch behind this heading, if it heads one.
    ///
    /// # Errors
    /// `NoMemory` only where memory was refused. Nothing is said of the branches then.
    pub fn add(&mut self, heading: Heading, body: Seq<Stmt>) -> Result<(), NoMemory>
        ensures { OnOk result (self.new ≡ with_case heading body self.old) }
    {
        match heading {
            Heading::Nothing => Ok(()),
            Heading::Ranges(ranges) => self.list.push(Case { ranges, body }),
            Heading::Default => {
                self.other = Some(body);
                Ok(())
            }
        }
    }
}
