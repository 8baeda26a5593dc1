//! Each public function once.

use crate::{
    Home, Least, NameSet, Shared, Sort, note_declarations, nothing_where_nothing_is_seen,
    symbols_of,
};
use fort_tree::{Code, Decl, File, Kind, Module, Name, NoMemory, Place, Seq, Unit, Use};
use std::alloc::Global;
use std::test::Fail;

const AT: Place = Place {
    file: 0,
    line: 1,
    column: 1,
};

fn named(text: &[u8]) -> Result<Name, Fail> {
    Ok(Name::read(text).ok_or("no name")?)
}

fn scalar(alloc: Global, name: Name) -> Decl {
    Decl {
        name,
        at: AT,
        kind: Kind::I4,
        intent: None,
        shape: Seq::new(alloc),
        value: None,
    }
}

fn one_decl(alloc: Global, name: Name) -> Result<Seq<Decl>, NoMemory> {
    let mut decls = Seq::new(alloc);
    decls.push(scalar(alloc, name))?;
    Ok(decls)
}

fn unit(alloc: Global, name: Name, local: Name) -> Result<Unit, NoMemory> {
    Ok(Unit {
        name,
        at: AT,
        dummies: Seq::new(alloc),
        result: None,
        uses: Seq::new(alloc),
        decls: one_decl(alloc, local)?,
        marks: Seq::new(alloc),
        body: Seq::new(alloc),
        host: Some(0),
    })
}

fn small_file(
    alloc: Global,
    host: Name,
    shared: Name,
    name: Name,
    local: Name,
) -> Result<File, NoMemory> {
    let mut modules = Seq::new(alloc);
    modules.push(Module {
        name: host,
        at: AT,
        uses: Seq::new(alloc),
        decls: one_decl(alloc, shared)?,
    })?;
    let mut units = Seq::new(alloc);
    units.push(unit(alloc, name, local)?)?;
    Ok(File {
        modules,
        units,
        order: Seq::new(alloc),
    })
}

#[test]
fn names_in_a_row(rt: HostRuntime) -> Result<(), Fail> {
    let (a, b) = (named(b"a")?, named(b"b")?);
    let mut names = NameSet::new(rt.alloc());
    names.insert(a)?;
    names.insert(b)?;
    names.insert(a)?;
    assert_eq!(rt; names.names().len(), 2);
    assert!(rt; names.has(&b));
    assert_eq!(rt; names.place(&b), Some(1));
    assert_eq!(rt; names.at(0), Some(a));
    assert_eq!(rt; names.at(2), None);
    Ok(())
}

#[test]
fn a_name_of_the_module_around(rt: HostRuntime) -> Result<(), Fail> {
    let (host, n, s, k) = (named(b"mo")?, named(b"n")?, named(b"s")?, named(b"k")?);
    let file = small_file(rt.alloc(), host, n, s, k)?;
    let symbols = symbols_of(rt.alloc(), &file)?;
    let scope = symbols.units().first().ok_or("no scope")?;
    let own = scope.find(&k).ok_or("no k")?;
    assert_eq!(rt; own.home, Home::Local);
    let around = scope.find(&n).ok_or("no n")?;
    assert_eq!(rt; around.home, Home::Module(0));
    assert_eq!(rt; scope.find(&s).ok_or("no s")?.sort, Sort::Unit);
    assert_eq!(rt; scope.find(&host).ok_or("no mo")?.sort, Sort::Module);
    assert!(rt;
        symbols
            .modules()
            .first()
            .ok_or("no scope")?
            .find(&k)
            .is_none()
    );
    Ok(())
}

#[test]
fn the_least_fault(rt: HostRuntime) -> Result<(), Fail> {
    nothing_where_nothing_is_seen();
    let mut least = Least::new();
    let later = Place {
        file: 0,
        line: 2,
        column: 1,
    };
    least.note(Code::E3B, later);
    least.note(Code::E31, AT);
    least.note(Code::E30, AT);
    let first = least.first().ok_or("none")?;
    assert_eq!(rt; first.code, Code::E30);
    assert_eq!(rt; first.place, AT);
    Ok(())
}

fn use_line(alloc: Global, name: Name) -> Result<Seq<Use>, NoMemory> {
    let mut lines = Seq::new(alloc);
    lines.push(Use {
        name,
        only: None,
        at: AT,
    })?;
    Ok(lines)
}

fn first_fault(alloc: Global, file: &File) -> Result<Option<Code>, NoMemory> {
    let shared = Shared::of(alloc, file)?;
    let mut least = Least::new();
    note_declarations(alloc, &mut least, &shared, file)?;
    match least.first() {
        None => Ok(None),
        Some(fault) => Ok(Some(fault.code)),
    }
}

/// A module `mo` with a declaration and a unit of these names; the unit uses the module of the third.
fn using_file(alloc: Global, shared: Name, name: Name, used: Name) -> Result<File, Fail> {
    let mut file = small_file(alloc, named(b"mo")?, shared, name, named(b"k")?)?;
    let mut last = file.units.pop().ok_or("no unit")?;
    last.uses = use_line(alloc, used)?;
    file.units.push(last)?;
    Ok(file)
}

#[test]
fn faults_of_declarations(rt: HostRuntime) -> Result<(), Fail> {
    let rows: [(&[u8], &[u8], &[u8], Option<Code>); 4] = [
        (b"n", b"s", b"mo", None),
        (b"s", b"s", b"mo", Some(Code::E31)),
        (b"k", b"s", b"mo", Some(Code::E31)),
        (b"n", b"s", b"zz", Some(Code::E34)),
    ];
    for (shared, name, used, expected) in rows {
        let file = using_file(rt.alloc(), named(shared)?, named(name)?, named(used)?)?;
        assert_eq!(rt; first_fault(rt.alloc(), &file)?, expected);
    }
    Ok(())
}

#[test]
fn what_names_mean(rt: HostRuntime) -> Result<(), Fail> {
    let (host, n, s, k) = (named(b"mo")?, named(b"n")?, named(b"s")?, named(b"k")?);
    let file = small_file(rt.alloc(), host, n, s, k)?;
    let symbols = symbols_of(rt.alloc(), &file)?;
    for number in 0..file.units.len() {
        let sight = symbols.sight_of_unit(&file, number);
        assert_eq!(rt; sight.kind(&k), Some(Kind::I4));
        assert_eq!(rt; sight.rank(&n), 0);
        assert_eq!(rt; sight.module_of(&s, &n), Some(host));
        assert_eq!(rt; sight.module_of(&s, &k), None);
        assert_eq!(rt; sight.unit_number(&s), Some(0));
        assert!(rt; sight.is_variable(&n) && sight.is_variable_or_constant(&k));
        assert!(rt; sight.is_subroutine(&s) && !sight.is_function(&s));
        assert!(rt; !sight.is_array(&k) && !sight.is_in_dummy(&k));
        assert!(rt; sight.unit(&s).is_some() && sight.decl(&s).is_none());
        let callee = sight.callee(&s).ok_or("none")?;
        assert_eq!(rt; callee.unit().name, s);
        assert!(rt; callee.declaration(&k).is_some() && callee.declaration(&n).is_none());
    }
    for number in 0..file.modules.len() {
        let sight = symbols.sight_of_module(&file, number);
        assert!(rt; sight.is_variable(&n) && !sight.is_variable(&k));
    }
    Ok(())
}
