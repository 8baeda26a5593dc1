//! A unit without columns as it is written.

ghost use Rattle.std.specs.Prelude.{◌≡◌, ◌++◌, List, [], ◌∷◌, map, false, IfOk, OnOk, if◌then◌else◌};
ghost use Rattle.std.specs.List.{filter};
ghost use Rattle.claw_meaning.specs.Plain.{plain_decl, plain_unit};
ghost use Rattle.claw_meaning.specs.Units.{is_column_unit, is_array_decl};
ghost use Rattle.claw_meaning.specs.Interface.{is_constant_decl, is_fresh as fresh_test};
ghost use Rattle.plain_units.specs.Regrouped.{regrouped as regrouped_unit};
ghost use Rattle.plain_units.specs.Groups.{is_shared as shared_test, is_other as other_test, is_in_group as group_test, in_groups as groups_of, with_groups};

use fort_tree::{Decl, Intent, NoMemory, Seq, TryClone, Unit};
use std::alloc::Global;

/// A group of declarations, in the order in which they are written.
#[derive(Clone, Copy)]
pub(crate) enum Group {
    Constants,
    /// Scalar IN dummies.
    Shared,
    Others,
    /// Those of the names that the compiler made.
    Made,
}

/// The unit with its declarations in their groups, each in the order of the source: PARAMETERs, scalar IN dummies, and all
/// others, the names that the compiler made last. All else is as it was, but that it has no directives.
///
/// # Errors
/// `NoMemory` only where memory for it was refused.
pub fn regrouped(alloc: Global, unit: &Unit) -> Result<Unit, NoMemory>
    requires { is_column_unit (plain_unit unit.now) ≡ false }
    ensures { IfOk result (λ made. plain_unit made ≡ regrouped_unit (plain_unit unit.now)) }
{
    in_groups(alloc, unit)
}

fn in_groups(alloc: Global, unit: &Unit) -> Result<Unit, NoMemory>
    ensures { IfOk result (λ made. plain_unit made ≡ with_groups (plain_unit unit.now)) }
{
    Ok(Unit {
        name: unit.name,
        at: unit.at,
        dummies: unit.dummies.copied(alloc)?,
        result: unit.result,
        uses: unit.uses.try_clone(alloc)?,
        decls: grouped(alloc, unit.decls.items())?,
        marks: Seq::new(alloc),
        body: unit.body.try_clone(alloc)?,
        host: unit.host,
    })
}

/// The declarations, group by group.
fn grouped(alloc: Global, decls: &[Decl]) -> Result<Seq<Decl>, NoMemory>
    ensures { IfOk result (λ all. map plain_decl all ≡ groups_of (map plain_decl decls.now)) }
{
    let mut all = Seq::new(alloc);
    add_group(alloc, Group::Constants, decls, &mut all)?;
    add_group(alloc, Group::Shared, decls, &mut all)?;
    add_group(alloc, Group::Others, decls, &mut all)?;
    add_group(alloc, Group::Made, decls, &mut all)?;
    Ok(all)
}

fn add_group(
    alloc: Global,
    group: Group,
    decls: &[Decl],
    all: &mut Seq<Decl>,
) -> Result<(), NoMemory>
    ensures { OnOk result (map plain_decl all.new ≡ map plain_decl all.old ++ filter (group_test group) (map plain_decl decls.now)) }
{
    for decl in decls {
        add_if_in(alloc, group, decl, all)?;
    }
    Ok(())
}

fn add_if_in(alloc: Global, group: Group, decl: &Decl, all: &mut Seq<Decl>) -> Result<(), NoMemory>
    ensures { OnOk result (map plain_decl all.new ≡ map plain_decl all.old ++ (if group_test group (plain_decl decl.now) then plain_decl decl.now ∷ [] else [])) }
{
    if !is_in_group(group, decl) {
        return Ok(());
    }
    all.push(decl.try_clone(alloc)?)?;
    Ok(())
}

fn is_in_group(group: Group, decl: &Decl) -> bool
    ensures { result ≡ group_test group (plain_decl decl.now) }
{
    match group {
        Group::Constants => is_constant(decl),
        Group::Shared => is_shared(decl),
        Group::Others => is_other(decl) && !is_made(decl.name.text()),
        Group::Made => is_other(decl) && is_made(decl.name.text()),
    }
}

fn is_other(decl: &Decl) -> bool
    ensures { result ≡ other_test (plain_decl decl.now) }
{
    !is_constant(decl) && !is_shared(decl)
}

fn is_shared(decl: &Decl) -> bool
    ensures { result ≡ shared_test (plain_decl decl.now) }
{
    matches!(decl.intent, Some(Intent::In)) && !is_array(decl)
}

fn is_constant(decl: &Decl) -> bool
    ensures { result ≡ is_constant_decl (plain_decl decl.now) }
{
    match &decl.value {
        None => false,
        Some(_) => true,
    }
}

fn is_array(decl: &Decl) -> bool
    ensures { result ≡ is_array_decl (plain_decl decl.now) }
{
    match decl.shape.items() {
        [] => false,
        [_, ..] => true,
    }
}

/// Whether a compiler made the name.
fn is_made(text: &[u8]) -> bool
    ensures { result ≡ fresh_test text.now }
{
    text.starts_with(b"claw_")
}
