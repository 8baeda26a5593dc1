use crate::{is_column_unit, is_undirected, regrouped};
use fort_tree::{Decl, Expr, Intent, Kind, Name, Named, Place, Seq, Stmt, Unit};
use std::alloc::Global;
use std::test::Fail;

fn at(line: u32) -> Place {
    Place {
        file: 0,
        line,
        column: 1,
    }
}

fn name_of(text: &[u8]) -> Result<Name, Fail> {
    Ok(Name::read(text).ok_or("no name")?)
}

fn declared(
    alloc: Global,
    text: &[u8],
    intent: Option<Intent>,
    value: Option<Expr>,
) -> Result<Decl, Fail> {
    Ok(Decl {
        name: name_of(text)?,
        at: at(2),
        kind: Kind::I4,
        intent,
        shape: Seq::new(alloc),
        value,
    })
}

/// A name that a compiler made, a local, a dummy, and a PARAMETER, in this order.
fn declarations(alloc: Global) -> Result<Seq<Decl>, Fail> {
    let mut decls = Seq::new(alloc);
    decls.push(declared(alloc, b"claw_1", None, None)?)?;
    decls.push(declared(alloc, b"x", None, None)?)?;
    decls.push(declared(alloc, b"n", Some(Intent::In), None)?)?;
    decls.push(declared(alloc, b"k", None, Some(Expr::Number(3, None, at(5))))?)?;
    Ok(decls)
}

fn subroutine(alloc: Global, body: Seq<Stmt>) -> Result<Unit, Fail> {
    let mut dummies = Seq::new(alloc);
    dummies.push(Named {
        name: name_of(b"n")?,
        at: at(1),
    })?;
    Ok(Unit {
        name: name_of(b"s")?,
        at: at(1),
        dummies,
        result: None,
        uses: Seq::new(alloc),
        decls: declarations(alloc)?,
        marks: Seq::new(alloc),
        body,
        host: None,
    })
}

#[test]
fn regroups_declarations(rt: HostRuntime) -> Result<(), Fail> {
    let alloc = rt.alloc();
    let unit = subroutine(alloc, Seq::new(alloc))?;
    if is_column_unit(&unit) {
        return Err("a column unit".into());
    }
    let made = regrouped(alloc, &unit)?;
    let names: [&[u8]; 4] = [b"k", b"n", b"x", b"claw_1"];
    assert_eq!(rt; made.decls.len(), 4);
    for (decl, text) in made.decls.items().iter().zip(names.iter()) {
        assert_eq!(rt; decl.name.text(), *text);
    }
    Ok(())
}

/// `call s`, under `parallelize forward` or not
fn call(alloc: Global, forward: bool) -> Result<Seq<Stmt>, Fail> {
    let mut body = Seq::new(alloc);
    body.push(Stmt::Call {
        at: at(6),
        name: Named {
            name: name_of(b"s")?,
            at: at(6),
        },
        args: Seq::new(alloc),
        forward,
    })?;
    Ok(body)
}

#[test]
fn sees_a_call_under_a_directive(rt: HostRuntime) -> Result<(), Fail> {
    let alloc = rt.alloc();
    assert!(rt; is_undirected(&subroutine(alloc, call(alloc, false)?)?));
    assert!(rt; !is_undirected(&subroutine(alloc, call(alloc, true)?)?));
    Ok(())
}
