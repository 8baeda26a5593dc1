//! Each public function once.

use crate::{case_value, kind_of, rank_of};
use fort_names::symbols_of;
use fort_tree::{Bound, Decl, Expr, File, Kind, Name, Place, Seq, Unit};
use std::alloc::Global;
use std::test::Fail;

const AT: Place = Place {
    file: 0,
    line: 1,
    column: 1,
};

fn only<T: Drop>(alloc: Global, item: T) -> Option<Seq<T>> {
    let mut list = Seq::new(alloc);
    list.push(item).ok()?;
    Some(list)
}

fn name(text: &[u8]) -> Option<Expr> {
    Some(Expr::Ref(Name::read(text)?, None, AT))
}

/// `integer(2) :: a(9)`
fn array(alloc: Global) -> Option<Decl> {
    let upper = Some(Expr::Number(9, None, AT));
    let shape = only(alloc, Bound { lower: None, upper })?;
    Some(Decl {
        name: Name::read(b"a")?,
        at: AT,
        kind: Kind::I2,
        intent: None,
        shape,
        value: None,
    })
}

/// `integer(8), parameter :: n = 5`
fn constant(alloc: Global) -> Option<Decl> {
    Some(Decl {
        name: Name::read(b"n")?,
        at: AT,
        kind: Kind::I8,
        intent: None,
        shape: Seq::new(alloc),
        value: Some(Expr::Number(5, None, AT)),
    })
}

fn decls(alloc: Global) -> Option<Seq<Decl>> {
    let mut list = only(alloc, array(alloc)?)?;
    list.push(constant(alloc)?).ok()?;
    Some(list)
}

fn unit(alloc: Global, decls: Option<Seq<Decl>>) -> Option<Unit> {
    Some(Unit {
        name: Name::read(b"s")?,
        at: AT,
        dummies: Seq::new(alloc),
        result: None,
        uses: Seq::new(alloc),
        decls: decls?,
        marks: Seq::new(alloc),
        body: Seq::new(alloc),
        host: None,
    })
}

fn file(alloc: Global) -> Option<File> {
    let units = only(alloc, unit(alloc, decls(alloc))?)?;
    Some(File {
        modules: Seq::new(alloc),
        units,
        order: Seq::new(alloc),
    })
}

#[test]
fn kinds_ranks_and_values(rt: HostRuntime) -> Result<(), Fail> {
    let file = file(rt.alloc()).ok_or("no file")?;
    let symbols = symbols_of(rt.alloc(), &file)?;
    let a = name(b"a").ok_or("no name")?;
    let n = name(b"n").ok_or("no name")?;
    for number in 0..file.units.len() {
        let sight = symbols.sight_of_unit(&file, number);
        assert_eq!(rt; kind_of(&sight, &a), Some(Kind::I2));
        assert_eq!(rt; kind_of(&sight, &n), Some(Kind::I8));
        assert_eq!(rt; rank_of(&sight, &a), 1);
        assert_eq!(rt; rank_of(&sight, &n), 0);
        assert_eq!(rt; case_value(&sight, &n), Some(5));
        assert_eq!(rt; case_value(&sight, &a), None);
    }
    Ok(())
}
