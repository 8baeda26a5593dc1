//! Units of one statement, and declarations of several dimensions.

use crate::{note_counts, note_kinds, note_ranks};
use fort_names::{Least, symbols_of};
use fort_tree::{
    Bound, Case, Code, Decl, Expr, File, Kind, Mode, Name, NoMemory, Place, Range, Seq, Stmt, Sub,
    Unit,
};
use std::alloc::Global;
use std::test::Fail;

const AT: Place = Place {
    file: 0,
    line: 1,
    column: 1,
};

fn only<T: Drop>(alloc: Global, item: T) -> Option<Seq<T>> {
    let mut list = Seq::new(alloc);
    list.push(item).ok()?;
    Some(list)
}

fn number() -> Expr {
    Expr::Number(1, None, AT)
}

/// `a = ` and the expression.
fn assigned(right: Option<Expr>) -> Option<Stmt> {
    let left = Expr::Ref(Name::read(b"a")?, None, AT);
    Some(Stmt::Assign {
        at: AT,
        left,
        right: right?,
    })
}

/// `a = 1`
fn good(_alloc: Global) -> Option<Stmt> {
    assigned(Some(number()))
}

/// `a = .true.`
fn truth(_alloc: Global) -> Option<Stmt> {
    assigned(Some(Expr::Truth(true, AT)))
}

/// `a = c`
fn array(_alloc: Global) -> Option<Stmt> {
    assigned(Some(Expr::Ref(Name::read(b"c")?, None, AT)))
}

/// `a = abs(1, 1)`
fn two_arguments(alloc: Global) -> Option<Stmt> {
    let mut args = only(alloc, Sub::One(number()))?;
    args.push(Sub::One(number())).ok()?;
    assigned(Some(Expr::Ref(Name::read(b"abs")?, Some(args), AT)))
}

/// `select case (1)` with one case of these two ranges.
fn chosen(alloc: Global, first: Range, second: Range) -> Option<Stmt> {
    let mut ranges = only(alloc, first)?;
    ranges.push(second).ok()?;
    let body = Seq::new(alloc);
    let arms = only(alloc, Case { ranges, body })?;
    Some(Stmt::Select {
        at: AT,
        on: number(),
        arms,
        other: None,
    })
}

/// `case (1, 1)`
fn chosen_twice(alloc: Global) -> Option<Stmt> {
    chosen(alloc, Range::One(number()), Range::One(number()))
}

/// `case (1:, :0)`
fn chosen_once(alloc: Global) -> Option<Stmt> {
    let below = Range::Span(None, Some(Expr::Number(0, None, AT)));
    chosen(alloc, Range::Span(Some(number()), None), below)
}

/// Dimensions up to 1.
fn shape(alloc: Global, dimensions: usize) -> Option<Seq<Bound>> {
    let mut shape = Seq::new(alloc);
    for _ in 0..dimensions {
        let upper = Some(number());
        shape.push(Bound { lower: None, upper }).ok()?;
    }
    Some(shape)
}

fn decl(alloc: Global, text: &[u8], dimensions: usize) -> Option<Decl> {
    let shape = shape(alloc, dimensions)?;
    Some(Decl {
        name: Name::read(text)?,
        at: AT,
        kind: Kind::I4,
        intent: None,
        shape,
        value: None,
    })
}

/// The scalar `a`, and the array `c`.
fn decls(alloc: Global, dimensions: usize) -> Option<Seq<Decl>> {
    let mut list = only(alloc, decl(alloc, b"a", 0)?)?;
    list.push(decl(alloc, b"c", dimensions)?).ok()?;
    Some(list)
}

/// A unit of these declarations and statements.
fn unit(alloc: Global, decls: Option<Seq<Decl>>, body: Option<Seq<Stmt>>) -> Option<Unit> {
    Some(Unit {
        name: Name::read(b"s")?,
        at: AT,
        dummies: Seq::new(alloc),
        result: None,
        uses: Seq::new(alloc),
        decls: decls?,
        marks: Seq::new(alloc),
        body: body?,
        host: None,
    })
}

fn file(alloc: Global, dimensions: usize, stmt: Option<Stmt>) -> Option<File> {
    let body = only(alloc, stmt?);
    let units = only(alloc, unit(alloc, decls(alloc, dimensions), body)?)?;
    Some(File {
        modules: Seq::new(alloc),
        units,
        order: Seq::new(alloc),
    })
}

fn first_code(alloc: Global, mode: Mode, file: &File) -> Result<Option<Code>, NoMemory> {
    let symbols = symbols_of(alloc, file)?;
    let mut least = Least::new();
    note_kinds(alloc, &mut least, file, &symbols)?;
    note_ranks(alloc, &mut least, mode, file, &symbols)?;
    note_counts(alloc, &mut least, file, &symbols)?;
    match least.first() {
        None => Ok(None),
        Some(fault) => Ok(Some(fault.code)),
    }
}

#[test]
fn faults_of_one_statement(rt: HostRuntime) -> Result<(), Fail> {
    let rows: [(fn(Global) -> Option<Stmt>, Option<Code>); 6] = [
        (good, None),
        (chosen_once, None),
        (chosen_twice, Some(Code::E32)),
        (truth, Some(Code::E32)),
        (array, Some(Code::E33)),
        (two_arguments, Some(Code::E37)),
    ];
    for (stmt, code) in rows {
        let file = file(rt.alloc(), 1, stmt(rt.alloc())).ok_or("no file")?;
        assert_eq!(rt; first_code(rt.alloc(), Mode::Source, &file)?, code);
    }
    Ok(())
}

#[test]
fn ranks_up_to_the_limit(rt: HostRuntime) -> Result<(), Fail> {
    let rows = [
        (Mode::Source, 3, None),
        (Mode::Source, 4, Some(Code::E33)),
        (Mode::Target, 5, None),
    ];
    for (mode, dimensions, code) in rows {
        let file = file(rt.alloc(), dimensions, good(rt.alloc())).ok_or("no file")?;
        assert_eq!(rt; first_code(rt.alloc(), mode, &file)?, code);
    }
    Ok(())
}
