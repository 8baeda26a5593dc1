use crate::{first_unbuilt, translated};
use fort_tree::{
    Boxed, Decl, Directive, DirectiveWord, Expr, File, Intent, Item, Kind, Name, Named, Op, Place,
    Seq, Stmt, Unit,
};
use std::alloc::Global;
use std::test::Fail;

fn at(line: u32) -> Place {
    Place {
        file: 0,
        line,
        column: 3,
    }
}

fn named(text: &[u8], line: u32) -> Option<Named> {
    Some(Named {
        name: Name::read(text)?,
        at: at(line),
    })
}

fn one<T: Drop>(alloc: Global, item: T) -> Option<Seq<T>> {
    let mut list = Seq::new(alloc);
    list.push(item).ok()?;
    Some(list)
}

fn two<T: Drop>(alloc: Global, first: T, second: T) -> Option<Seq<T>> {
    let mut list = one(alloc, first)?;
    list.push(second).ok()?;
    Some(list)
}

fn variable(text: &[u8], line: u32) -> Option<Expr> {
    Some(Expr::Ref(Name::read(text)?, None, at(line)))
}

fn directive(
    alloc: Global,
    word: DirectiveWord,
    listed: &[u8],
    upper: Option<Expr>,
) -> Option<Directive> {
    let lower = match &upper {
        None => None,
        Some(_) => Some(Expr::Number(1, None, at(3))),
    };
    Some(Directive {
        at: at(3),
        word,
        names: one(alloc, Name::read(listed)?)?,
        over: None,
        number: None,
        group: None,
        init: false,
        lower,
        upper,
    })
}

/// `a = a * 2`
fn statement(alloc: Global) -> Option<Stmt> {
    let left = Boxed::new(alloc, variable(b"a", 4)?).ok()?;
    let right = Boxed::new(alloc, Expr::Number(2, None, at(4))).ok()?;
    Some(Stmt::Assign {
        at: at(4),
        left: variable(b"a", 4)?,
        right: Expr::Two(Op::Mul, left, right),
    })
}

/// `define dimension j(1:n)` and `parallelize data(a)`
fn marks(alloc: Global) -> Option<Seq<Directive>> {
    let define = directive(alloc, DirectiveWord::Define, b"j", variable(b"n", 3))?;
    let parallelize = directive(alloc, DirectiveWord::Parallelize, b"a", None)?;
    two(alloc, define, parallelize)
}

fn declaration(alloc: Global) -> Option<Decl> {
    Some(Decl {
        name: Name::read(b"a")?,
        at: at(2),
        kind: Kind::I4,
        intent: Some(Intent::InOut),
        shape: Seq::new(alloc),
        value: None,
    })
}

/// A subroutine of this name, without dummies.
fn subroutine(alloc: Global, text: &[u8], line: u32, body: Seq<Stmt>) -> Option<Unit> {
    Some(Unit {
        name: Name::read(text)?,
        at: at(line),
        dummies: Seq::new(alloc),
        result: None,
        uses: Seq::new(alloc),
        decls: Seq::new(alloc),
        marks: Seq::new(alloc),
        body,
        host: None,
    })
}

/// A column unit `f` of `a`.
fn column_unit(alloc: Global) -> Option<Unit> {
    let mut unit = subroutine(alloc, b"f", 1, one(alloc, statement(alloc)?)?)?;
    unit.dummies.push(named(b"a", 1)?).ok()?;
    unit.decls.push(declaration(alloc)?).ok()?;
    unit.marks = marks(alloc)?;
    Some(unit)
}

/// A subroutine of this name that calls another.
fn caller(alloc: Global, text: &[u8], callee: &[u8]) -> Option<Unit> {
    let call = Stmt::Call {
        at: at(8),
        name: named(callee, 8)?,
        args: Seq::new(alloc),
        forward: false,
    };
    subroutine(alloc, text, 7, one(alloc, call)?)
}

/// The column unit, and one without columns.
fn program(alloc: Global, text: &[u8], callee: &[u8]) -> Option<File> {
    let units = two(alloc, column_unit(alloc)?, caller(alloc, text, callee)?)?;
    let order = two(alloc, Item::Unit(0), Item::Unit(1))?;
    Some(File {
        modules: Seq::new(alloc),
        units,
        order,
    })
}

#[test]
fn translates_both_units(rt: HostRuntime) -> Result<(), Fail> {
    let alloc = rt.alloc();
    let file = program(alloc, b"g", b"h").ok_or("no program")?;
    let None = first_unbuilt(alloc, &file)? else {
        return Err("not built".into());
    };
    let made = translated(alloc, &file)?;
    let mut dummies = Vec::new(alloc);
    for unit in made.units.items() {
        dummies.push(unit.dummies.len())?;
    }
    assert_eq!(rt; dummies.as_slice(), [2, 0].as_slice());
    Ok(())
}

fn line_of(alloc: Global, text: &[u8], callee: &[u8]) -> Result<u32, Fail> {
    let file = program(alloc, text, callee).ok_or("no program")?;
    Ok(first_unbuilt(alloc, &file)?.map_or(0, |place| place.line))
}

/// The line at which each program isn't built, or 0.
#[test]
fn programs_are_judged_at_their_first_line(rt: HostRuntime) -> Result<(), Fail> {
    let alloc = rt.alloc();
    assert_eq!(rt; line_of(alloc, b"g", b"h")?, 0);
    assert_eq!(rt; line_of(alloc, b"g", b"f")?, 8);
    assert_eq!(rt; line_of(alloc, b"n", b"f")?, 3);
    Ok(())
}
