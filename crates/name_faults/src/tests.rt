//! Units of one statement.

use crate::{note_undeclared, note_unit_faults};
use fort_names::{Least, symbols_of};
use fort_tree::{Code, Decl, Expr, File, Kind, Name, Named, NoMemory, Place, Seq, Stmt, Sub, Unit};
use std::alloc::Global;
use std::test::Fail;

const AT: Place = Place {
    file: 0,
    line: 1,
    column: 1,
};

fn only<T: Drop>(alloc: Global, item: T) -> Option<Seq<T>> {
    let mut list = Seq::new(alloc);
    list.push(item).ok()?;
    Some(list)
}

fn variable(text: &[u8]) -> Option<Expr> {
    Some(Expr::Ref(Name::read(text)?, None, AT))
}

/// The name with one argument, a number.
fn element(alloc: Global, text: &[u8]) -> Option<Expr> {
    let subs = only(alloc, Sub::One(Expr::Number(1, None, AT)))?;
    Some(Expr::Ref(Name::read(text)?, Some(subs), AT))
}

fn assignment(left: Option<Expr>, right: Option<Expr>) -> Option<Stmt> {
    let left = left?;
    Some(Stmt::Assign {
        at: AT,
        left,
        right: right?,
    })
}

/// `a = a`
fn declared(_alloc: Global) -> Option<Stmt> {
    assignment(variable(b"a"), variable(b"a"))
}

/// `a = b`
fn undeclared(_alloc: Global) -> Option<Stmt> {
    assignment(variable(b"a"), variable(b"b"))
}

/// `abs = a`
fn intrinsic_assigned(_alloc: Global) -> Option<Stmt> {
    assignment(variable(b"abs"), variable(b"a"))
}

/// `a = abs(1)`
fn intrinsic(alloc: Global) -> Option<Stmt> {
    assignment(variable(b"a"), element(alloc, b"abs"))
}

/// `a = f(1)`
fn nothing(alloc: Global) -> Option<Stmt> {
    assignment(variable(b"a"), element(alloc, b"f"))
}

/// `a(1) = a`
fn scalar_assigned(alloc: Global) -> Option<Stmt> {
    assignment(element(alloc, b"a"), variable(b"a"))
}

/// `call a()`
fn variable_called(alloc: Global) -> Option<Stmt> {
    let name = Name::read(b"a")?;
    Some(Stmt::Call {
        at: AT,
        name: Named { name, at: AT },
        args: Seq::new(alloc),
        forward: false,
    })
}

/// A declaration of the scalar `a`.
fn scalar(alloc: Global) -> Option<Decl> {
    Some(Decl {
        name: Name::read(b"a")?,
        at: AT,
        kind: Kind::I4,
        intent: None,
        shape: Seq::new(alloc),
        value: None,
    })
}

/// A unit that declares the scalar `a`, of these statements.
fn unit(alloc: Global, body: Option<Seq<Stmt>>) -> Option<Unit> {
    let decls = only(alloc, scalar(alloc)?)?;
    Some(Unit {
        name: Name::read(b"s")?,
        at: AT,
        dummies: Seq::new(alloc),
        result: None,
        uses: Seq::new(alloc),
        decls,
        marks: Seq::new(alloc),
        body: body?,
        host: None,
    })
}

fn file(alloc: Global, stmt: Option<Stmt>) -> Option<File> {
    let body = only(alloc, stmt?);
    let units = only(alloc, unit(alloc, body)?)?;
    Some(File {
        modules: Seq::new(alloc),
        units,
        order: Seq::new(alloc),
    })
}

fn first_code(alloc: Global, file: &File) -> Result<Option<Code>, NoMemory> {
    let symbols = symbols_of(alloc, file)?;
    let mut least = Least::new();
    note_undeclared(alloc, &mut least, &symbols, file)?;
    note_unit_faults(alloc, &mut least, &symbols, file)?;
    match least.first() {
        None => Ok(None),
        Some(fault) => Ok(Some(fault.code)),
    }
}

#[test]
fn faults_of_one_statement(rt: HostRuntime) -> Result<(), Fail> {
    let rows: [(fn(Global) -> Option<Stmt>, Option<Code>); 7] = [
        (declared, None),
        (undeclared, Some(Code::E30)),
        (intrinsic_assigned, Some(Code::E30)),
        (intrinsic, None),
        (nothing, Some(Code::E35)),
        (scalar_assigned, Some(Code::E35)),
        (variable_called, Some(Code::E35)),
    ];
    for (stmt, code) in rows {
        let file = file(rt.alloc(), stmt(rt.alloc())).ok_or("no file")?;
        assert_eq!(rt; first_code(rt.alloc(), &file)?, code);
    }
    Ok(())
}
