//! What all scopes of a file share.
ghost use Rattle.std.specs.Prelude.{◌≡◌, IfOk, OnOk, map, length};
ghost use Rattle.fort_names.specs.Tables.{origins as all_origins};
ghost use Rattle.fort_names.specs.Sharing.{inserted, with_modules, given_names, row_of as row_in, shared_of, gives as gives_name};

use crate::homes::Declared;
use crate::links::order_of;
use crate::name_set::NameSet;
use crate::rows::{origin_of, origins_in_order};
use fort_tree::{Decl, File, Module, Name, NoMemory, Seq, Unit};
use std::alloc::Global;

/// What a file declares, and for each name which module declares what each module gives under it.
#[derive(Drop)]
pub struct Shared {
    pub declared: Declared,
    /// The names that modules can give.
    pub given: NameSet,
    /// For each of them the origins, by the number of the module that gives it.
    pub rows: Seq<Seq<Option<usize>>>,
}

fn insert_decls(names: &mut NameSet, decls: &[Decl]) -> Result<(), NoMemory>
    ensures { OnOk result (names.new ≡ inserted names.old (map (λ d. d.name) decls.now)) }
{
    for decl in decls {
        names.insert(decl.name)?;
    }
    Ok(())
}

fn insert_modules(names: &mut NameSet, modules: &[Module]) -> Result<(), NoMemory>
    ensures { OnOk result (names.new ≡ with_modules names.old modules.now) }
{
    for one in modules {
        insert_decls(names, one.decls.items())?;
    }
    Ok(())
}

fn insert_units(names: &mut NameSet, units: &[Unit]) -> Result<(), NoMemory>
    ensures { OnOk result (names.new ≡ inserted names.old (map (λ u. u.name) units.now)) }
{
    for unit in units {
        names.insert(unit.name)?;
    }
    Ok(())
}

fn names_given(alloc: Global, file: &File) -> Result<NameSet, NoMemory>
    ensures { IfOk result (λ names. names ≡ given_names file.now) }
{
    let mut names = NameSet::new(alloc);
    insert_modules(&mut names, file.modules.items())?;
    insert_units(&mut names, file.units.items())?;
    Ok(names)
}

fn all_rows(
    alloc: Global,
    declared: &Declared,
    modules: &[Module],
    names: &[Name],
) -> Result<Seq<Seq<Option<usize>>>, NoMemory>
    requires { length declared.now.names ≡ length modules.now }
    ensures { IfOk result (λ rows. rows ≡ map (all_origins declared.now modules.now) names.now) }
{
    let order = order_of(alloc, &declared.names, modules)?;
    let mut rows = Seq::new(alloc);
    for name in names {
        rows.push(origins_in_order(alloc, declared, modules, order.as_slice(), name)?)?;
    }
    Ok(rows)
}

impl Shared {
    /// What all scopes of the file share.
    ///
    /// # Errors
    /// `NoMemory` only where memory was refused.
    pub fn of(alloc: Global, file: &File) -> Result<Shared, NoMemory>
        ensures { IfOk result (λ shared. shared ≡ shared_of file.now) }
    {
        let declared = Declared::of(alloc, file)?;
        let given = names_given(alloc, file)?;
        let rows = all_rows(alloc, &declared, file.modules.items(), given.names())?;
        Ok(Shared {
            declared,
            given,
            rows,
        })
    }

    /// The origins of the name, by the number of the module that gives it; none where no module gives it.
    pub fn row_of(&self, name: &Name) -> &[Option<usize>]
        ensures { result.now ≡ row_in self.now name.now }
    {
        match self.given.place(name) {
            None => &[],
            Some(place) => match self.rows.items().get(place) {
                None => &[],
                Some(row) => row.items(),
            },
        }
    }

    /// Whether the first module of the name gives something under another name.
    pub fn gives(&self, used: &Name, name: &Name) -> bool
        ensures { result ≡ gives_name self.now used.now name.now }
    {
        origin_of(&self.declared.names, self.row_of(name), used).is_some()
    }
}
