//! Copies of statements.
ghost use Rattle.std.specs.Prelude.{◌≡◌, IfOk};

use crate::copy::copy_if_any;
use crate::{Arm, Case, Directive, Head, NoMemory, Range, Seq, Stmt, TryClone};
use std::alloc::Global;

impl TryClone for Range {
    fn try_clone(&self, alloc: Global) -> Result<Range, NoMemory> {
        Ok(match self {
            Range::One(expr) => Range::One(expr.try_clone(alloc)?),
            Range::Span(from, to) => {
                Range::Span(copy_if_any(alloc, from)?, copy_if_any(alloc, to)?)
            }
        })
    }
}

impl TryClone for Head {
    fn try_clone(&self, alloc: Global) -> Result<Head, NoMemory> {
        Ok(Head {
            var: self.var,
            at: self.at,
            from: self.from.try_clone(alloc)?,
            to: self.to.try_clone(alloc)?,
            step: copy_if_any(alloc, &self.step)?,
        })
    }
}

impl TryClone for Directive {
    fn try_clone(&self, alloc: Global) -> Result<Directive, NoMemory> {
        let over = match &self.over {
            None => None,
            Some(over) => Some(over.copied(alloc)?),
        };
        Ok(Directive {
            at: self.at,
            word: self.word,
            names: self.names.copied(alloc)?,
            over,
            number: self.number,
            group: self.group,
            init: self.init,
            lower: copy_if_any(alloc, &self.lower)?,
            upper: copy_if_any(alloc, &self.upper)?,
        })
    }
}

impl TryClone for Stmt {
    #[cycle(copy_stmt)]
    fn try_clone(&self, alloc: Global) -> Result<Stmt, NoMemory> {
        match self {
            Stmt::Assign { at, left, right } => Ok(Stmt::Assign {
                at: *at,
                left: left.try_clone(alloc)?,
                right: right.try_clone(alloc)?,
            }),
            Stmt::Call {
                at,
                name,
                args,
                forward,
            } => Ok(Stmt::Call {
                at: *at,
                name: *name,
                args: args.try_clone(alloc)?,
                forward: *forward,
            }),
            Stmt::If {
                at,
                arms,
                other: None,
            } => Ok(Stmt::If {
                at: *at,
                arms: copy_arms(alloc, arms.items())?,
                other: None,
            }),
            Stmt::If {
                at,
                arms,
                other: Some(body),
            } => Ok(Stmt::If {
                at: *at,
                arms: copy_arms(alloc, arms.items())?,
                other: Some(copy_body(alloc, body.items())?),
            }),
            Stmt::Select {
                at,
                on,
                arms,
                other: None,
            } => Ok(Stmt::Select {
                at: *at,
                on: on.try_clone(alloc)?,
                arms: copy_cases(alloc, arms.items())?,
                other: None,
            }),
            Stmt::Select {
                at,
                on,
                arms,
                other: Some(body),
            } => Ok(Stmt::Select {
                at: *at,
                on: on.try_clone(alloc)?,
                arms: copy_cases(alloc, arms.items())?,
                other: Some(copy_body(alloc, body.items())?),
            }),
            Stmt::Loop {
                at,
                head,
                body,
                mark,
            } => Ok(Stmt::Loop {
                at: *at,
                head: head.try_clone(alloc)?,
                body: copy_body(alloc, body.items())?,
                mark: copy_mark(alloc, mark)?,
            }),
            Stmt::Block { at, mark, body } => Ok(Stmt::Block {
                at: *at,
                mark: mark.try_clone(alloc)?,
                body: copy_body(alloc, body.items())?,
            }),
            Stmt::Piece(body) => Ok(Stmt::Piece(copy_body(alloc, body.items())?)),
            Stmt::Exit(at) => Ok(Stmt::Exit(*at)),
            Stmt::Cycle(at) => Ok(Stmt::Cycle(*at)),
            Stmt::Return(at) => Ok(Stmt::Return(*at)),
        }
    }
}

#[cycle(copy_stmt)]
fn copy_body(alloc: Global, body: &[Stmt]) -> Result<Seq<Stmt>, NoMemory>
    ensures { IfOk result (λ copy. copy ≡ body.now) }
{
    let mut copy = Seq::new(alloc);
    for stmt in body {
        copy.push(stmt.try_clone(alloc)?)?;
    }
    Ok(copy)
}

#[cycle(copy_stmt)]
fn copy_arms(alloc: Global, arms: &[Arm]) -> Result<Seq<Arm>, NoMemory>
    ensures { IfOk result (λ copy. copy ≡ arms.now) }
{
    let mut copy = Seq::new(alloc);
    for arm in arms {
        let test = arm.test.try_clone(alloc)?;
        let body = copy_body(alloc, arm.body.items())?;
        copy.push(Arm { test, body })?;
    }
    Ok(copy)
}

#[cycle(copy_stmt)]
fn copy_cases(alloc: Global, cases: &[Case]) -> Result<Seq<Case>, NoMemory>
    ensures { IfOk result (λ copy. copy ≡ cases.now) }
{
    let mut copy = Seq::new(alloc);
    for case in cases {
        let ranges = case.ranges.try_clone(alloc)?;
        let body = copy_body(alloc, case.body.items())?;
        copy.push(Case { ranges, body })?;
    }
    Ok(copy)
}

fn copy_mark(alloc: Global, mark: &Option<Directive>) -> Result<Option<Directive>, NoMemory>
    ensures { IfOk result (λ copy. copy ≡ mark.now) }
{
    match mark {
        None => Ok(None),
        Some(mark) => Ok(Some(mark.try_clone(alloc)?)),
    }
}
