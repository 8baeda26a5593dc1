//! A small unit, and what stands in it.

use crate::{
    Step, bounds, name_before_parenthesis, name_in, note_bare_names, note_names,
    note_names_before_parenthesis, note_parts, note_read_by, note_subscripts, parts_read, read_by,
    steps_of,
};
use fort_tree::{
    Arm, Bound, Boxed, Decl, Directive, DirectiveWord, Expr, Head, Kind, Name, Named, NoMemory, Op,
    Place, Seq, Stmt, Sub, Unit,
};
use std::alloc::Global;
use std::test::Fail;

const AT: Place = Place {
    file: 0,
    line: 1,
    column: 1,
};

fn named(text: &[u8]) -> Option<Named> {
    let name = Name::read(text)?;
    Some(Named { name, at: AT })
}

fn with<T: Drop>(list: Option<Seq<T>>, item: Option<T>) -> Option<Seq<T>> {
    let mut list = list?;
    list.push(item?).ok()?;
    Some(list)
}

fn only<T: Drop>(alloc: Global, item: Option<T>) -> Option<Seq<T>> {
    with(Some(Seq::new(alloc)), item)
}

fn variable(text: &[u8]) -> Option<Expr> {
    Some(Expr::Ref(Name::read(text)?, None, AT))
}

fn argument(expr: Option<Expr>) -> Option<Sub> {
    Some(Sub::One(expr?))
}

fn element(alloc: Global, text: &[u8], expr: Option<Expr>) -> Option<Expr> {
    let subs = only(alloc, argument(expr))?;
    Some(Expr::Ref(Name::read(text)?, Some(subs), AT))
}

/// The sum of two variables.
fn sum(alloc: Global, left: &[u8], right: &[u8]) -> Option<Expr> {
    let left = Boxed::new(alloc, variable(left)?).ok()?;
    let right = Boxed::new(alloc, variable(right)?).ok()?;
    Some(Expr::Two(Op::Add, left, right))
}

/// `a(i + j) = b(k)`
fn assignment(alloc: Global) -> Option<Stmt> {
    let left = element(alloc, b"a", sum(alloc, b"i", b"j"))?;
    Some(Stmt::Assign {
        at: AT,
        left,
        right: element(alloc, b"b", variable(b"k"))?,
    })
}

/// `call f(x)`
fn call(alloc: Global) -> Option<Stmt> {
    let args = only(alloc, argument(variable(b"x")))?;
    Some(Stmt::Call {
        at: AT,
        name: named(b"f")?,
        args,
        forward: false,
    })
}

/// An IF around the assignment.
fn choice(alloc: Global) -> Option<Stmt> {
    let test = variable(b"t")?;
    let body = only(alloc, assignment(alloc))?;
    Some(Stmt::If {
        at: AT,
        arms: only(alloc, Some(Arm { test, body }))?,
        other: None,
    })
}

/// `!$omp parallel do private(p)`
fn mark(alloc: Global) -> Option<Directive> {
    Some(Directive {
        at: AT,
        word: DirectiveWord::OpenMpLoop,
        names: only(alloc, Name::read(b"p"))?,
        over: None,
        number: None,
        group: None,
        init: false,
        lower: None,
        upper: None,
    })
}

/// `i = m, n`
fn head() -> Option<Head> {
    let var = Name::read(b"i")?;
    let from = variable(b"m")?;
    let to = variable(b"n")?;
    Some(Head {
        var,
        at: AT,
        from,
        to,
        step: None,
    })
}

/// A DO around the IF, and the CALL behind it.
fn body(alloc: Global) -> Option<Seq<Stmt>> {
    let inner = only(alloc, choice(alloc))?;
    let mark = mark(alloc)?;
    let repeat = Stmt::Loop {
        at: AT,
        head: head()?,
        body: inner,
        mark: Some(mark),
    };
    with(only(alloc, Some(repeat)), call(alloc))
}

/// `integer :: d(m : n)`
fn decl(alloc: Global) -> Option<Decl> {
    let lower = variable(b"m")?;
    let upper = variable(b"n")?;
    let bound = Bound {
        lower: Some(lower),
        upper: Some(upper),
    };
    Some(Decl {
        name: Name::read(b"d")?,
        at: AT,
        kind: Kind::I4,
        intent: None,
        shape: only(alloc, Some(bound))?,
        value: None,
    })
}

fn unit(alloc: Global) -> Option<Unit> {
    let decls = only(alloc, decl(alloc))?;
    Some(Unit {
        name: Name::read(b"s")?,
        at: AT,
        dummies: Seq::new(alloc),
        result: None,
        uses: Seq::new(alloc),
        decls,
        marks: Seq::new(alloc),
        body: body(alloc)?,
        host: None,
    })
}

/// How many whole expressions the step reads, parts of them, bare names among these, and names before parentheses.
fn counts(alloc: Global, step: Step) -> Result<(usize, usize, usize, usize), NoMemory> {
    let whole = read_by(alloc, step)?;
    let parts = parts_read(alloc, step)?;
    let mut bare = Vec::new(alloc);
    note_bare_names(parts.as_slice(), &mut bare)?;
    let mut before = Vec::new(alloc);
    note_names_before_parenthesis(parts.as_slice(), &mut before)?;
    Ok((whole.len(), parts.len(), bare.len(), before.len()))
}

#[test]
fn what_each_step_reads(rt: HostRuntime) -> Result<(), Fail> {
    let unit = unit(rt.alloc()).ok_or("no unit")?;
    let steps = steps_of(rt.alloc(), &unit)?;
    let expected = [(2, 2, 2, 0), (1, 1, 1, 0), (2, 5, 3, 1), (1, 1, 1, 0)];
    assert_eq!(rt; steps.len(), expected.len());
    for (step, row) in steps.iter().zip(&expected) {
        assert_eq!(rt; counts(rt.alloc(), *step)?, *row);
    }
    Ok(())
}

#[test]
fn names_of_steps(rt: HostRuntime) -> Result<(), Fail> {
    let unit = unit(rt.alloc()).ok_or("no unit")?;
    let steps = steps_of(rt.alloc(), &unit)?;
    let repeat = steps.get(0).ok_or("no DO")?;
    assert_eq!(rt; repeat.loop_variable(), named(b"i"));
    let mut private = Vec::new(rt.alloc());
    repeat.note_private_names(&mut private)?;
    assert_eq!(rt; private.first().copied(), named(b"p"));
    let assigned = steps.get(2).ok_or("no assignment")?;
    let left = assigned.left().ok_or("no left side")?;
    assert_eq!(rt; name_in(left), named(b"a"));
    assert_eq!(rt; name_before_parenthesis(left), named(b"a"));
    assert_eq!(rt; steps.get(3).ok_or("no CALL")?.call_name(), named(b"f"));
    Ok(())
}

#[test]
fn bounds_and_parts(rt: HostRuntime) -> Result<(), Fail> {
    let unit = unit(rt.alloc()).ok_or("no unit")?;
    let list = bounds(rt.alloc(), unit.decls.items())?;
    let mut names = Vec::new(rt.alloc());
    note_names(list.as_slice(), &mut names)?;
    assert_eq!(rt; names.get(1).copied(), named(b"n"));
    let args = only(rt.alloc(), argument(sum(rt.alloc(), b"i", b"j"))).ok_or("no arguments")?;
    let mut whole = Vec::new(rt.alloc());
    note_subscripts(args.items(), &mut whole)?;
    let first = *whole.first().ok_or("no argument")?;
    note_parts(first, &mut whole)?;
    note_read_by(Step::Tests(first), &mut whole)?;
    assert_eq!(rt; whole.len(), 5);
    Ok(())
}
