//! Lists of different module variables.
ghost use Rattle.std.specs.Prelude.{◌≡◌, [], IfOk, OnOk};
ghost use Rattle.argument_faults.specs.ModuleNames.{pairs, rows_of, with_rows, with_variables};

use crate::module_names::ModuleVariable;
use fort_tree::{NoMemory, Seq};
use indexmap::IndexSet;
use std::alloc::Global;
use std::marker::Model;

/// Module variables in the order in which they came, each once. Contracts see the list of the names of their modules and of
/// themselves.
#[derive(Drop)]
pub struct VariableSet {
    variables: IndexSet<ModuleVariable>,
}

impl Model for VariableSet {
    ghost use Rattle.std.specs.Prelude.{List, ℕ};
    ghost use Rattle.argument_faults.specs.ModuleNames.{pairs};

    ghost Value = { List (List ℕ × List ℕ) };

    ghost view = { λ s. pairs s.variables.keys };
}

impl VariableSet {
    ghost use Rattle.std.specs.Prelude.{◌≡◌, [], length, position, OnOk};
    ghost use Rattle.sound_programs.specs.ArgumentFaults.{same_pair};
    ghost use Rattle.argument_faults.specs.ModuleNames.{pair_of, with_variable};

    /// The empty list. It takes no memory.
    pub fn new(alloc: Global) -> VariableSet
        ensures { result ≡ [] }
    {
        VariableSet {
            variables: IndexSet::new(alloc),
        }
    }

    /// Puts the variable last if it isn't there.
    ///
    /// # Errors
    /// `NoMemory` only where memory for it was refused.
    pub fn insert(&mut self, variable: ModuleVariable) -> Result<(), NoMemory>
        ensures { OnOk result (self.new ≡ with_variable self.old (pair_of variable)) }
    {
        self.variables.insert(variable)?;
        Ok(())
    }

    /// The place of the variable, or `None` exactly where it isn't there.
    pub fn place(&self, variable: &ModuleVariable) -> Option<usize>
        ensures { result ≡ position (same_pair (pair_of variable.now)) self.now }
    {
        self.variables.get_index_of(variable)
    }

    /// How many there are.
    pub fn len(&self) -> usize
        ensures { result ≡ length self.now }
    {
        self.variables.len()
    }
}

fn insert_all(into: &mut VariableSet, list: &[ModuleVariable]) -> Result<(), NoMemory>
    ensures { OnOk result (into.new ≡ with_variables into.old (pairs list.now)) }
{
    for variable in list {
        into.insert(*variable)?;
    }
    Ok(())
}

/// All variables of these lists.
///
/// # Errors
/// `NoMemory` only where memory was refused.
pub fn variables_in(alloc: Global, rows: &[Seq<ModuleVariable>]) -> Result<VariableSet, NoMemory>
    ensures { IfOk result (λ set. set ≡ with_rows [] (rows_of rows.now)) }
{
    let mut set = VariableSet::new(alloc);
    for row in rows {
        insert_all(&mut set, row.items())?;
    }
    Ok(set)
}
