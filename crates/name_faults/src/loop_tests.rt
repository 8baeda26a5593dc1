//! Faults of DO variables in a small file.

use crate::note_loops;
use fort_names::{Least, symbols_of};
use fort_tree::{Decl, Expr, File, Head, Kind, Name, NoMemory, Place, Seq, Stmt, Unit};
use std::alloc::Global;
use std::test::Fail;

fn place(line: u32) -> Place {
    Place {
        file: 0,
        line,
        column: 1,
    }
}

fn scalar(alloc: Global, name: Name) -> Decl {
    Decl {
        name,
        at: place(1),
        kind: Kind::I4,
        intent: None,
        shape: Seq::new(alloc),
        value: None,
    }
}

/// An assignment of 1 to the name.
fn assignment(line: u32, name: Name) -> Stmt {
    Stmt::Assign {
        at: place(line),
        left: Expr::Ref(name, None, place(line)),
        right: Expr::Number(1, None, place(line)),
    }
}

/// A DO loop over the first name in which 1 is assigned to the second.
fn loop_with(alloc: Global, variable: Name, assigned: Name) -> Result<Stmt, NoMemory> {
    let mut body = Seq::new(alloc);
    body.push(assignment(3, assigned))?;
    Ok(Stmt::Loop {
        at: place(2),
        head: Head {
            var: variable,
            at: place(2),
            from: Expr::Number(1, None, place(2)),
            to: Expr::Number(9, None, place(2)),
            step: None,
        },
        body,
        mark: None,
    })
}

fn unit_with(alloc: Global, local: Name, stmt: Stmt) -> Result<Unit, NoMemory> {
    let mut decls = Seq::new(alloc);
    decls.push(scalar(alloc, local))?;
    let mut body = Seq::new(alloc);
    body.push(stmt)?;
    Ok(Unit {
        name: local,
        at: place(1),
        dummies: Seq::new(alloc),
        result: None,
        uses: Seq::new(alloc),
        decls,
        marks: Seq::new(alloc),
        body,
        host: None,
    })
}

fn file_with(alloc: Global, unit: Unit) -> Result<File, NoMemory> {
    let mut units = Seq::new(alloc);
    units.push(unit)?;
    Ok(File {
        modules: Seq::new(alloc),
        units,
        order: Seq::new(alloc),
    })
}

/// The line of the first fault of a loop over `i` in which 1 is assigned to the name.
fn line_of_fault(alloc: Global, i: Name, assigned: Name) -> Result<Option<u32>, NoMemory> {
    let unit = unit_with(alloc, i, loop_with(alloc, i, assigned)?)?;
    let file = file_with(alloc, unit)?;
    let symbols = symbols_of(alloc, &file)?;
    let mut least = Least::new();
    note_loops(alloc, &mut least, &symbols, &file)?;
    match least.first() {
        None => Ok(None),
        Some(fault) => Ok(Some(fault.place.line)),
    }
}

#[test]
fn assigned_in_its_loop(rt: HostRuntime) -> Result<(), Fail> {
    let i = Name::read(b"i").ok_or("no name")?;
    let x = Name::read(b"x").ok_or("no name")?;
    assert_eq!(rt; line_of_fault(rt.alloc(), i, x)?, None);
    assert_eq!(rt; line_of_fault(rt.alloc(), i, i)?, Some(3));
    Ok(())
}
