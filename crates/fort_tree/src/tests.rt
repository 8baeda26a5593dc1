use crate::{
    Arm, Boxed, ByName, Case, Code, Decl, Expr, Fault, File, Head, Intent, Intrinsic, Item, Kind,
    Module, Name, Named, NoMemory, Op, Place, Range, Seq, Stmt, Stop, Sub, Token, TryClone, Unit,
};
use std::alloc::Global;
use std::test::Fail;

fn at(line: u32, column: u32) -> Place {
    Place {
        file: 0,
        line,
        column,
    }
}

fn name_of(text: &[u8]) -> Result<Name, Fail> {
    Ok(Name::read(text).ok_or("no name")?)
}

/// `name(k-number)`, each part at the place.
fn element(alloc: Global, name: &[u8], number: u64, place: Place) -> Result<Expr, Fail> {
    let k = Expr::Ref(name_of(b"k")?, None, place);
    let one = Expr::Number(number, None, place);
    let index = Expr::Two(Op::Sub, Boxed::new(alloc, k)?, Boxed::new(alloc, one)?);
    let mut subs = Seq::new(alloc);
    subs.push(Sub::One(index))?;
    Ok(Expr::Ref(name_of(name)?, Some(subs), place))
}

#[test]
fn reads_names(rt: HostRuntime) -> Result<(), Fail> {
    assert_eq!(rt; Name::read(b"Qc_1"), Name::read(b"qC_1"));
    assert_eq!(rt; name_of(b"Qc_1")?.text(), b"qc_1".as_slice());
    assert!(rt; Name::read(&[b'a'; 63]).is_some());
    assert_eq!(rt; Name::read(&[b'a'; 64]), None);
    assert_eq!(rt; Name::read(b""), None);
    assert_eq!(rt; Name::read(b"1a"), None);
    assert_eq!(rt; Name::read(b"_a"), None);
    assert_eq!(rt; Name::read(b"a-b"), None);
    assert_eq!(rt;
        Intrinsic::named(&name_of(b"MODULO")?),
        Some(Intrinsic::Modulo)
    );
    assert_eq!(rt; Intrinsic::named(&name_of(b"sin")?), None);
    Ok(())
}

#[test]
fn keeps_lists(rt: HostRuntime) -> Result<(), Fail> {
    let alloc = rt.alloc();
    let mut list = Seq::new(alloc);
    assert!(rt; list.is_empty());
    list.push(1)?;
    list.push(2)?;
    list.items_mut()[0] = 7;
    assert_eq!(rt; list.len(), 2);
    assert_eq!(rt; list.copied(alloc)?, list);
    assert_eq!(rt; list.pop(), Some(2));
    let mut list = Seq::from_vec(list.into_vec());
    assert_eq!(rt; list.items(), [7].as_slice());
    let value = Boxed::new(alloc, 3)?;
    assert_eq!(rt; *value.get(), 3);
    assert_eq!(rt; value.into_inner(), 3);
    Ok(())
}

#[test]
fn compares_expressions(rt: HostRuntime) -> Result<(), Fail> {
    let alloc = rt.alloc();
    let expr = element(alloc, b"a", 1, at(1, 1))?;
    assert_eq!(rt; expr.depth(), 3);
    assert_eq!(rt; expr.try_clone(alloc)?, expr);
    assert!(rt; expr.same(&element(alloc, b"A", 1, at(2, 9))?));
    assert!(rt; !expr.same(&element(alloc, b"a", 2, at(1, 1))?));
    assert!(rt; !expr.same(&element(alloc, b"b", 1, at(1, 1))?));
    Ok(())
}

#[test]
fn reports_faults(rt: HostRuntime) {
    assert_eq!(rt; Code::E3B.text(), "E3B");
    assert_eq!(rt; Code::E50.meaning(), "shared dummy is not INTENT(IN)");
    assert!(rt; Code::E39.is_before(Code::E3A));
    assert!(rt; Code::E3B.is_before(Code::E40));
    assert_eq!(rt; Code::E01.number(), 0);
    assert_eq!(rt; Fault::new(Code::E10, at(4, 9)).item, 0);
    assert_eq!(rt; Fault::outside_profile(at(1, 1), 10).code, Code::E20);
    let clash = Fault::clash(Code::E61, at(9, 3), at(7, 5), at(11, 12));
    assert_eq!(rt; clash.second, Some(at(11, 12)));
    assert_eq!(rt; Stop::from(clash), Stop::Fault(clash));
    assert_eq!(rt; Stop::from(NoMemory), Stop::NoMemory);
}

#[test]
fn makes_tokens(rt: HostRuntime) -> Result<(), Fail> {
    let mut text = Seq::new(rt.alloc());
    text.push(b'*')?;
    assert_eq!(rt; Token::new(text, at(1, 2)).text(), b"*".as_slice());
    Ok(())
}

fn number(value: u64) -> Expr {
    Expr::Number(value, Some(Kind::I4), at(2, 9))
}

/// `do k = 1, 3` around EXIT.
fn loop_of(alloc: Global) -> Result<Stmt, Fail> {
    let mut body = Seq::new(alloc);
    body.push(Stmt::Exit(at(3, 5)))?;
    let head = Head {
        var: name_of(b"k")?,
        at: at(2, 4),
        from: number(1),
        to: number(3),
        step: None,
    };
    Ok(Stmt::Loop {
        at: at(2, 1),
        head,
        body,
        mark: None,
    })
}

/// An IF around a loop, with an empty ELSE.
fn choice_of(alloc: Global) -> Result<Stmt, Fail> {
    let mut body = Seq::new(alloc);
    body.push(loop_of(alloc)?)?;
    let mut arms = Seq::new(alloc);
    arms.push(Arm {
        test: Expr::Truth(true, at(1, 5)),
        body,
    })?;
    Ok(Stmt::If {
        at: at(1, 1),
        arms,
        other: Some(Seq::new(alloc)),
    })
}

/// A SELECT with one CASE.
fn select_of(alloc: Global) -> Result<Stmt, Fail> {
    let mut ranges = Seq::new(alloc);
    ranges.push(Range::Span(None, Some(number(4))))?;
    let mut arms = Seq::new(alloc);
    arms.push(Case {
        ranges,
        body: Seq::new(alloc),
    })?;
    Ok(Stmt::Select {
        at: at(4, 1),
        on: number(2),
        arms,
        other: None,
    })
}

fn unit_of(alloc: Global, name: Named) -> Result<Unit, Fail> {
    let mut dummies = Seq::new(alloc);
    dummies.push(name)?;
    let mut decls = Seq::new(alloc);
    decls.push(Decl {
        name: name.name,
        at: name.at,
        kind: Kind::I8,
        intent: Some(Intent::InOut),
        shape: Seq::new(alloc),
        value: None,
    })?;
    let mut body = Seq::new(alloc);
    body.push(choice_of(alloc)?)?;
    body.push(select_of(alloc)?)?;
    Ok(Unit {
        name: name_of(b"s")?,
        at: at(1, 12),
        dummies,
        result: None,
        uses: Seq::new(alloc),
        decls,
        marks: Seq::new(alloc),
        body,
        host: Some(0),
    })
}

#[test]
fn copies_files(rt: HostRuntime) -> Result<(), Fail> {
    let alloc = rt.alloc();
    let name = Named {
        name: name_of(b"n")?,
        at: at(1, 14),
    };
    let mut file = File {
        modules: Seq::new(alloc),
        units: Seq::new(alloc),
        order: Seq::new(alloc),
    };
    file.modules.push(Module {
        name: name_of(b"m")?,
        at: at(1, 8),
        uses: Seq::new(alloc),
        decls: Seq::new(alloc),
    })?;
    file.units.push(unit_of(alloc, name)?)?;
    file.order.push(Item::Module(0))?;
    let copy = file.try_clone(alloc)?;
    assert_eq!(rt; copy, file);
    for unit in file.units.items_mut() {
        unit.host = None;
    }
    assert_ne!(rt; copy, file);
    Ok(())
}
