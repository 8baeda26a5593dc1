use crate::{has_dimension, widen};
use fort_tree::{
    Boxed, Decl, Directive, DirectiveWord, Expr, Intent, Kind, Name, Named, Op, Place, Seq, Stmt,
    Unit,
};
use std::alloc::Global;
use std::test::Fail;

fn at(line: u32) -> Place {
    Place {
        file: 0,
        line,
        column: 1,
    }
}

fn name_of(text: &[u8]) -> Result<Name, Fail> {
    Ok(Name::read(text).ok_or("no name")?)
}

fn scalar(alloc: Global, text: &[u8]) -> Result<Decl, Fail> {
    Ok(Decl {
        name: name_of(text)?,
        at: at(4),
        kind: Kind::I4,
        intent: Some(Intent::InOut),
        shape: Seq::new(alloc),
        value: None,
    })
}

/// `!$claw define dimension j(1:n)`
fn dimension(alloc: Global) -> Result<Directive, Fail> {
    let mut names = Seq::new(alloc);
    names.push(name_of(b"j")?)?;
    Ok(Directive {
        at: at(2),
        word: DirectiveWord::Define,
        names,
        over: None,
        number: None,
        group: None,
        init: false,
        lower: Some(Expr::Number(1, None, at(2))),
        upper: Some(Expr::Ref(name_of(b"n")?, None, at(2))),
    })
}

/// `b = b + a`
fn sum(alloc: Global) -> Result<Stmt, Fail> {
    let left = Boxed::new(alloc, Expr::Ref(name_of(b"b")?, None, at(5)))?;
    let right = Boxed::new(alloc, Expr::Ref(name_of(b"a")?, None, at(5)))?;
    Ok(Stmt::Assign {
        at: at(5),
        left: Expr::Ref(name_of(b"b")?, None, at(5)),
        right: Expr::Two(Op::Add, left, right),
    })
}

/// A subroutine of `a` and `b`, with these statements.
fn column_unit(alloc: Global, body: Seq<Stmt>) -> Result<Unit, Fail> {
    let mut dummies = Seq::new(alloc);
    let mut decls = Seq::new(alloc);
    for text in [b"a", b"b"] {
        dummies.push(Named {
            name: name_of(text.as_slice())?,
            at: at(1),
        })?;
        decls.push(scalar(alloc, text.as_slice())?)?;
    }
    let mut marks = Seq::new(alloc);
    marks.push(dimension(alloc)?)?;
    Ok(Unit {
        name: name_of(b"add")?,
        at: at(1),
        dummies,
        result: None,
        uses: Seq::new(alloc),
        decls,
        marks,
        body,
        host: None,
    })
}

fn widened(alloc: Global, body: Seq<Stmt>) -> Result<Unit, Fail> {
    let unit = column_unit(alloc, body)?;
    if !has_dimension(&unit) {
        return Err("no dimension".into());
    }
    Ok(widen(alloc, &unit)?)
}

#[test]
fn widens_a_unit(rt: HostRuntime) -> Result<(), Fail> {
    let alloc = rt.alloc();
    let mut body = Seq::new(alloc);
    body.push(sum(alloc)?)?;
    let wide = widened(alloc, body)?;
    let last = wide.dummies.items().last().ok_or("no dummy")?;
    assert_eq!(rt; wide.dummies.len(), 3);
    assert_eq!(rt; last.name, name_of(b"n")?);
    let names = [b"n", b"a", b"b", b"j"];
    assert_eq!(rt; wide.decls.len(), 4);
    for (decl, text) in wide.decls.items().iter().zip(names.iter()) {
        assert_eq!(rt; decl.name.text(), text.as_slice());
    }
    assert_eq!(rt; wide.body.len(), 2);
    Ok(())
}

#[test]
fn leaves_no_loop_round_nothing(rt: HostRuntime) -> Result<(), Fail> {
    let alloc = rt.alloc();
    let wide = widened(alloc, Seq::new(alloc))?;
    assert_eq!(rt; wide.body.len(), 1);
    Ok(())
}
