//! Headers of units and declarations.
ghost use Rattle.std.specs.Prelude.{◌≡◌, ◌++◌, OnOk, IfOk};
ghost use Rattle.form_nesting.specs.Steps.{prefix_decls, subroutine_unit as unit_of_subroutine, function_unit as unit_of_function};

use fort_tree::{Decl, Kind, Named, NoMemory, Place, Seq, Unit};
use std::alloc::Global;

/// The declaration of a function's result by the type before FUNCTION, if there is one.
fn prefix_decls(
    alloc: Global,
    of: &Named,
    prefix: Option<(Kind, Place)>,
) -> Result<Seq<Decl>, NoMemory>
    ensures { IfOk result (λ decls. decls ≡ prefix_decls of.now prefix) }
{
    let mut decls = Seq::new(alloc);
    if let Some((kind, at)) = prefix {
        decls.push(Decl {
            name: of.name,
            at,
            kind,
            intent: None,
            shape: Seq::new(alloc),
            value: None,
        })?;
    }
    Ok(decls)
}

/// A SUBROUTINE without declarations and statements. It takes no memory.
pub fn subroutine_unit(alloc: Global, name: Named, dummies: Seq<Named>, host: Option<u32>) -> Unit
    ensures { result ≡ unit_of_subroutine name dummies host }
{
    Unit {
        name: name.name,
        at: name.at,
        dummies,
        result: None,
        uses: Seq::new(alloc),
        decls: Seq::new(alloc),
        marks: Seq::new(alloc),
        body: Seq::new(alloc),
        host,
    }
}

/// A FUNCTION without declarations of its own and without statements.
///
/// # Errors
/// `NoMemory` only where memory was refused.
pub fn function_unit(
    alloc: Global,
    prefix: Option<(Kind, Place)>,
    name: Named,
    dummies: Seq<Named>,
    outcome: Option<Named>,
    host: Option<u32>,
) -> Result<Unit, NoMemory>
    ensures { IfOk result (λ unit. unit ≡ unit_of_function prefix name dummies outcome host) }
{
    let outcome = match outcome {
        Some(outcome) => outcome,
        None => Named {
            name: name.name,
            at: name.at,
        },
    };
    let decls = prefix_decls(alloc, &outcome, prefix)?;
    Ok(Unit {
        name: name.name,
        at: name.at,
        dummies,
        result: Some(outcome),
        uses: Seq::new(alloc),
        decls,
        marks: Seq::new(alloc),
        body: Seq::new(alloc),
        host,
    })
}

/// Adds the declarations of a line.
///
/// # Errors
/// `NoMemory` only where memory was refused. Some of them may be added then.
pub fn add_decls(into: &mut Seq<Decl>, line: Seq<Decl>) -> Result<(), NoMemory>
    ensures { OnOk result (into.new ≡ into.old ++ line) }
{
    for decl in line.into_vec() {
        into.push(decl)?;
    }
    Ok(())
}
