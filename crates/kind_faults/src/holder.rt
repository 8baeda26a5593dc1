//! What holds declarations.

use fort_tree::{Decl, Module, Name, Named, Unit};

/// A unit, or a module with its number in the file.
#[derive(Clone, Copy)]
pub enum Holder<'a> {
    Unit(&'a Unit),
    Module(usize, &'a Module),
}

impl<'a> Holder<'a> {
    ghost use Rattle.std.specs.Prelude.{◌≡◌, map};
    ghost use Rattle.sound_programs.specs.Placing.{placed_decl};
    ghost use Rattle.sound_programs.specs.Scopes.{name_of_scope, dummies_of, decls_of};
    ghost use Rattle.kind_faults.specs.Holders.{scope_of};

    pub fn name(&self) -> Name
        ensures { result ≡ name_of_scope (scope_of self.now) }
    {
        match self {
            Holder::Unit(unit) => unit.name,
            Holder::Module(_, one) => one.name,
        }
    }

    /// The dummies; a module has none.
    pub fn dummies(&self) -> &'a [Named]
        ensures { result.now ≡ dummies_of (scope_of self.now) }
    {
        match self {
            Holder::Unit(unit) => unit.dummies.items(),
            Holder::Module(_, _) => &[],
        }
    }

    pub fn decls(&self) -> &'a [Decl]
        ensures { map placed_decl result.now ≡ decls_of (scope_of self.now) }
    {
        match self {
            Holder::Unit(unit) => unit.decls.items(),
            Holder::Module(_, one) => one.decls.items(),
        }
    }
}
