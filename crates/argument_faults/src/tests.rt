//! Each public function once, and the faults of one unit.
ghost use Rattle.std.specs.Prelude.{◌≡◌, [], ◌∷◌, None, IfOk};

use crate::actuals::{actuals_of, is_written};
use crate::shared::note_shared_actuals;
use crate::writes::note_function_dummies;
use crate::{note_aliases, note_writes};
use call_graph::graph_of;
use fort_names::{Least, symbols_of};
use fort_tree::{
    Code, Decl, Expr, File, Intent, Kind, Name, Named, NoMemory, Place, Seq, Sub, Unit,
};
use std::alloc::Global;
use std::test::Fail;

const AT: Place = Place {
    file: 0,
    line: 1,
    column: 1,
};

fn empty_unit(alloc: Global, name: Name) -> Unit
    ensures { result ≡ record { name = name; at = AT; dummies = []; result = None; uses = []; decls = []; marks = []; body = []; host = None } }
{
    Unit {
        name,
        at: AT,
        dummies: Seq::new(alloc),
        result: None,
        uses: Seq::new(alloc),
        decls: Seq::new(alloc),
        marks: Seq::new(alloc),
        body: Seq::new(alloc),
        host: None,
    }
}

fn one_unit(alloc: Global, name: Name) -> Result<File, NoMemory>
    ensures units { IfOk result (λ file. file.units ≡ record { name = name; at = AT; dummies = []; result = None; uses = []; decls = []; marks = []; body = []; host = None } ∷ []) }
    ensures modules { IfOk result (λ file. file.modules ≡ []) }
{
    let mut units = Seq::new(alloc);
    units.push(empty_unit(alloc, name))?;
    Ok(File {
        modules: Seq::new(alloc),
        units,
        order: Seq::new(alloc),
    })
}

#[test]
fn an_empty_unit(rt: HostRuntime) -> Result<(), Fail> {
    let name = Name::read(b"s").ok_or("no name")?;
    let file = one_unit(rt.alloc(), name)?;
    let symbols = symbols_of(rt.alloc(), &file)?;
    let graph = graph_of(rt.alloc(), &file, &symbols)?;
    let mut least = Least::new();
    note_aliases(rt.alloc(), &mut least, &file, &symbols, &graph)?;
    note_writes(rt.alloc(), &mut least, &file, &symbols, &graph)?;
    assert!(rt; least.first().is_none());
    Ok(())
}

fn named(text: &[u8]) -> Option<Named> {
    let name = Name::read(text)?;
    Some(Named { name, at: AT })
}

/// A scalar for INOUT.
fn changed(alloc: Global, name: Name) -> Decl {
    Decl {
        name,
        at: AT,
        kind: Kind::I4,
        intent: Some(Intent::InOut),
        shape: Seq::new(alloc),
        value: None,
    }
}

/// The function `f(x)`, whose dummy is for INOUT.
fn function(alloc: Global) -> Option<Unit> {
    let (f, x) = (named(b"f")?, named(b"x")?);
    let mut dummies = Seq::new(alloc);
    dummies.push(x).ok()?;
    let mut decls = Seq::new(alloc);
    decls.push(changed(alloc, x.name)).ok()?;
    Some(Unit {
        name: f.name,
        at: AT,
        dummies,
        result: Some(f),
        uses: Seq::new(alloc),
        decls,
        marks: Seq::new(alloc),
        body: Seq::new(alloc),
        host: None,
    })
}

#[test]
fn a_function_that_changes_its_dummy(rt: HostRuntime) -> Result<(), Fail> {
    let unit = function(rt.alloc()).ok_or("no unit")?;
    let mut least = Least::new();
    note_function_dummies(&mut least, &unit);
    let fault = least.first().ok_or("none")?;
    assert_eq!(rt; fault.code, Code::E3A);
    Ok(())
}

fn argument(alloc: Global) -> Option<Seq<Sub>> {
    let mut args = Seq::new(alloc);
    args.push(Sub::One(Expr::Ref(Name::read(b"x")?, None, AT)))
        .ok()?;
    Some(args)
}

fn only_file(alloc: Global) -> Option<File> {
    let mut units = Seq::new(alloc);
    units.push(function(alloc)?).ok()?;
    Some(File {
        modules: Seq::new(alloc),
        units,
        order: Seq::new(alloc),
    })
}

#[test]
fn one_variable_twice(rt: HostRuntime) -> Result<(), Fail> {
    let file = only_file(rt.alloc()).ok_or("no file")?;
    let symbols = symbols_of(rt.alloc(), &file)?;
    assert_eq!(rt; file.units.len(), 1);
    let sight = symbols.sight_of_unit(&file, 0);
    let args = argument(rt.alloc()).ok_or("no argument")?;
    let f = Name::read(b"f").ok_or("no name")?;
    let list = actuals_of(rt.alloc(), sight.callee(&f), args.items())?;
    assert_eq!(rt; list.len(), 1);
    let actual = list.first().ok_or("none")?;
    assert!(rt; is_written(actual));
    let mut least = Least::new();
    note_shared_actuals(rt.alloc(), &mut least, &sight, &[*actual, *actual])?;
    let fault = least.first().ok_or("none")?;
    assert_eq!(rt; fault.code, Code::E38);
    Ok(())
}
