use crate::{built_units_are_column_scalars, note_unit};
use fort_tree::{
    Boxed, Decl, Directive, DirectiveWord, Expr, Intent, Kind, Name, Named, Op, Place, Seq, Stmt,
    Unit,
};
use std::alloc::Global;
use std::test::Fail;

fn at(line: u32) -> Place {
    Place {
        file: 0,
        line,
        column: 3,
    }
}

fn name(text: &[u8]) -> Option<Name> {
    Name::read(text)
}

fn one<T: Drop>(alloc: Global, item: T) -> Option<Seq<T>> {
    let mut list = Seq::new(alloc);
    list.push(item).ok()?;
    Some(list)
}

fn directive(
    alloc: Global,
    word: DirectiveWord,
    listed: Name,
    bounds: Option<(Expr, Expr)>,
) -> Option<Directive> {
    let (lower, upper) = match bounds {
        None => (None, None),
        Some((lower, upper)) => (Some(lower), Some(upper)),
    };
    Some(Directive {
        at: at(3),
        word,
        names: one(alloc, listed)?,
        over: None,
        number: None,
        group: None,
        init: false,
        lower,
        upper,
    })
}

/// `!$claw define dimension j(1:n)` and `!$claw parallelize data(a)`
fn marks(alloc: Global) -> Option<Seq<Directive>> {
    let bounds = (
        Expr::Number(1, None, at(3)),
        Expr::Ref(name(b"n")?, None, at(3)),
    );
    let mut marks = one(
        alloc,
        directive(alloc, DirectiveWord::Define, name(b"j")?, Some(bounds))?,
    )?;
    marks
        .push(directive(alloc, DirectiveWord::Parallelize, name(b"a")?, None)?)
        .ok()?;
    Some(marks)
}

/// `a = a OP 2`
fn statement(alloc: Global, op: Op) -> Option<Stmt> {
    let left = Boxed::new(alloc, Expr::Ref(name(b"a")?, None, at(4))).ok()?;
    let right = Boxed::new(alloc, Expr::Number(2, None, at(4))).ok()?;
    Some(Stmt::Assign {
        at: at(4),
        left: Expr::Ref(name(b"a")?, None, at(4)),
        right: Expr::Two(op, left, right),
    })
}

/// A file of one subroutine of `a`, declared with the kind, with the one statement.
fn unit(alloc: Global, kind: Kind, op: Op) -> Option<Unit> {
    let dummy = Named {
        name: name(b"a")?,
        at: at(1),
    };
    let decl = Decl {
        name: name(b"a")?,
        at: at(2),
        kind,
        intent: Some(Intent::InOut),
        shape: Seq::new(alloc),
        value: None,
    };
    Some(Unit {
        name: name(b"f")?,
        at: at(1),
        dummies: one(alloc, dummy)?,
        result: None,
        uses: Seq::new(alloc),
        decls: one(alloc, decl)?,
        marks: marks(alloc)?,
        body: one(alloc, statement(alloc, op)?)?,
        host: None,
    })
}

fn line_of(unit: Option<Unit>) -> Option<u32> {
    let unit = unit?;
    match note_unit(None, &unit) {
        None => Some(0),
        Some(place) => Some(place.line),
    }
}

/// The line at which each unit isn't one of column scalars, or 0.
#[test]
fn units_are_judged_at_their_first_line(rt: HostRuntime) -> Result<(), Fail> {
    let alloc = rt.alloc();
    built_units_are_column_scalars();
    assert_eq!(rt; line_of(unit(alloc, Kind::I4, Op::Mul)), Some(0));
    assert_eq!(rt; line_of(unit(alloc, Kind::I4, Op::Div)), Some(4));
    assert_eq!(rt; line_of(unit(alloc, Kind::I8, Op::Div)), Some(2));
    Ok(())
}
