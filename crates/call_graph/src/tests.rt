//! Each public function once, and that the groups of a small graph are told at once.
ghost use Rattle.std.specs.Prelude.{◌≡◌, [], ◌∷◌, None, IfOk};
ghost use Rattle.sound_programs.specs.Faults.{faults_of_names};
ghost use Rattle.sound_programs.specs.Placing.{placed};

use crate::graph_of;
use crate::groups::Groups;
use fort_names::symbols_of;
use fort_tree::{File, Name, NoMemory, Place, Seq, Unit};
use numbered_graph::{Row, reversed};
use std::alloc::{AllocError, Global};
use std::test::Fail;

const AT: Place = Place {
    file: 0,
    line: 1,
    column: 1,
};

fn empty_unit(alloc: Global, name: Name) -> Unit
    ensures { result ≡ record { name = name; at = AT; dummies = []; result = None; uses = []; decls = []; marks = []; body = []; host = None } }
{
    Unit {
        name,
        at: AT,
        dummies: Seq::new(alloc),
        result: None,
        uses: Seq::new(alloc),
        decls: Seq::new(alloc),
        marks: Seq::new(alloc),
        body: Seq::new(alloc),
        host: None,
    }
}

fn one_unit(alloc: Global, name: Name) -> Result<File, NoMemory>
    ensures units { IfOk result (λ file. file.units ≡ record { name = name; at = AT; dummies = []; result = None; uses = []; decls = []; marks = []; body = []; host = None } ∷ []) }
    ensures modules { IfOk result (λ file. file.modules ≡ []) }
{
    let mut units = Seq::new(alloc);
    units.push(empty_unit(alloc, name))?;
    Ok(File {
        modules: Seq::new(alloc),
        units,
        order: Seq::new(alloc),
    })
}

#[test]
fn one_unit_by_itself(rt: HostRuntime) -> Result<(), Fail> {
    let name = Name::read(b"s").ok_or("no name")?;
    let file = one_unit(rt.alloc(), name)?;
    let symbols = symbols_of(rt.alloc(), &file)?;
    let graph = graph_of(rt.alloc(), &file, &symbols)?;
    assert_eq!(rt; graph.order(), [0].as_slice());
    assert_eq!(rt; graph.callees(0).len(), 0);
    Ok(())
}

/// A link leads to a cycle of two points, and one from it.
fn around_a_cycle(alloc: Global) -> Result<Vec<Row>, AllocError>
    ensures { IfOk result (λ rows. rows.items ≡ (1 ∷ []) ∷ (2 ∷ []) ∷ (1 ∷ 3 ∷ []) ∷ [] ∷ []) }
{
    let mut rows = Vec::new(alloc);
    rows.push(Row::of(alloc, &[1])?)?;
    rows.push(Row::of(alloc, &[2])?)?;
    rows.push(Row::of(alloc, &[1, 3])?)?;
    rows.push(Row::new(alloc))?;
    Ok(rows)
}

#[test]
fn groups_are_told(rt: HostRuntime) -> Result<(), Fail> {
    let rows = around_a_cycle(rt.alloc())?;
    let back = reversed(rt.alloc(), rows.as_slice())?;
    let groups = Groups::of(rt.alloc(), rows.as_slice(), back.as_slice())?;
    assert!(rt; groups.is_apart(1, 0));
    assert!(rt; groups.is_joined(2, 1));
    assert!(rt; groups.is_joined(1, 2));
    assert!(rt; groups.is_apart(3, 2));
    Ok(())
}
