//! The declarations of a scope by name.
ghost use Rattle.std.specs.Prelude.{◌≡◌, IfOk, map, position};
ghost use Rattle.std.specs.Option.{option_copied, option_map};
ghost use Rattle.claw_meaning.specs.Plain.{plain_unit};
ghost use Rattle.fort_names.specs.Entities.{sort_of as sort_of_value};
ghost use Rattle.fort_names.specs.Tables.{table_find, table_of, decl_entities, columns_of};

use crate::columns::is_column_dummy;
use crate::entity::{Entity, Home, Sort};
use crate::firsts::Firsts;
use fort_tree::{Decl, Expr, Name, NoMemory, Seq, TryClone, Unit};
use std::alloc::Global;

/// Declarations as entities, in their order, found by name.
#[derive(Drop)]
pub struct Table {
    pub names: Firsts<Name>,
    pub entities: Seq<Entity>,
}

fn sort_of(value: &Option<Expr>) -> Sort
    ensures { result ≡ sort_of_value value.now }
{
    match value {
        None => Sort::Variable,
        Some(_) => Sort::Parameter,
    }
}

fn is_column(unit: Option<&Unit>, name: &Name) -> bool
    ensures { result ≡ columns_of (option_copied unit.entry) name.now }
{
    match unit {
        None => false,
        Some(unit) => is_column_dummy(unit, name),
    }
}

fn names_of(alloc: Global, decls: &[Decl]) -> Result<Vec<Name>, NoMemory>
    ensures { IfOk result (λ names. names.items ≡ map (λ d. d.name) decls.now) }
{
    let mut names = Vec::new(alloc);
    for decl in decls {
        names.push(decl.name)?;
    }
    Ok(names)
}

fn entities_of(
    alloc: Global,
    home: Home,
    unit: Option<&Unit>,
    decls: &[Decl],
) -> Result<Seq<Entity>, NoMemory>
    ensures { IfOk result (λ list. list ≡ decl_entities home (columns_of (option_copied unit.entry)) 0 decls.now) }
{
    let mut list = Seq::new(alloc);
    for (index, decl) in decls.iter().enumerate() {
        list.push(Entity {
            sort: sort_of(&decl.value),
            home,
            index,
            decl: Some(decl.try_clone(alloc)?),
            column: is_column(unit, &decl.name),
        })?;
    }
    Ok(list)
}

impl Table {
    /// The declarations of a home, which is the unit if there is one.
    ///
    /// # Errors
    /// `NoMemory` only where memory was refused.
    pub fn of(
        alloc: Global,
        home: Home,
        unit: Option<&Unit>,
        decls: &[Decl],
    ) -> Result<Table, NoMemory>
        ensures { IfOk result (λ table. table ≡ table_of home (columns_of (option_copied unit.entry)) decls.now) }
    {
        let names = Firsts::of(alloc, names_of(alloc, decls)?)?;
        let entities = entities_of(alloc, home, unit, decls)?;
        Ok(Table { names, entities })
    }

    /// The first declaration of the name.
    pub fn find(&self, name: &Name) -> Option<&Entity>
        ensures { option_copied result ≡ table_find self.now name.now }
    {
        self.entities.items().get(self.names.place(name)?)
    }
}
