//! A file seen from a unit or a module.
use crate::callee::{Callee, result_kind};
use crate::columns::{has_dimensions, is_in};
use crate::meaning::{Meaning, has_result, meaning_of_entity};
use crate::spot::{Spot, find_at};
use crate::symbols::Symbols;
use fort_tree::{Decl, File, Kind, Name, Unit};
use std::marker::Model;

/// A file seen from one of its units or modules. It says what each name means there, as the meaning of programs has it.
#[derive(Drop)]
pub struct Sight<'a> {
    file: &'a File,
    symbols: &'a Symbols,
    spot: Spot<'a>,
}

impl<'a> Model for Sight<'a> {
    ghost use Rattle.fort_names.specs.Sights.{Seeing};
    ghost use Rattle.fort_tree.specs.contracts.unit.File as tree_file;
    ghost use Rattle.fort_tree.specs.contracts.unit.Module as tree_module;
    ghost use Rattle.fort_tree.specs.contracts.unit.Unit as tree_unit;
    ghost use Rattle.std.specs.Coded.{codes};

    ghost Value = { Seeing };

    ghost coded = { Prim.hlevel (codes, tree_file.the_row.coded, tree_module.the_row.coded, tree_unit.the_row.coded) };

    ghost use Rattle.fort_names.specs.Spots.{seeing, Sees};

    ghost view = { λ s. seeing s.file.now s.spot };

    ghost invariant = { λ s. Sees s.file.now s.symbols.now s.spot };
}

impl<'a> Sight<'a> {
    ghost use Rattle.std.specs.Prelude.{◌≡◌, Some, slice_get};
    ghost use Rattle.std.specs.Option.{option_copied, option_map, option_and_then};
    ghost use Rattle.claw_meaning.specs.Plain.{plain_unit, plain_decl};
    ghost use Rattle.sound_programs.specs.Kinding.{kind_of_entity};
    ghost use Rattle.sound_programs.specs.Ranking.{rank_of_entity};
    ghost use Rattle.sound_programs.specs.Scopes as scopes;
    ghost use Rattle.fort_names.specs.Meanings.{meaning_of, decl_of, IsNumbered};
    ghost use Rattle.fort_names.specs.Sights.{means, file_of};

    /// What the name means.
    pub fn meaning(&self, name: &Name) -> Meaning<'a>
        ensures is { meaning_of result ≡ means self.now name.now }
        ensures numbered { IsNumbered (file_of self.now) result }
    {
        meaning_of_entity(
            self.file,
            self.spot.name(),
            find_at(self.symbols.shared(), self.spot, name),
        )
    }

    /// The unit of this number.
    fn numbered(&self, number: usize, unit: &'a Unit) -> Callee<'a>
        requires { slice_get (file_of self.now).units number ≡ Some unit.now }
        ensures { result ≡ unit.now }
    {
        Callee {
            unit,
            scope: self.symbols.scope(number),
        }
    }

    /// The kind of a variable, of a PARAMETER or of a function's result.
    pub fn kind(&self, name: &Name) -> Option<Kind>
        ensures { result ≡ kind_of_entity (means self.now name.now) }
    {
        match self.meaning(name) {
            Meaning::Nothing => None,
            Meaning::Variable(_, decl) => Some(decl.kind),
            Meaning::Constant(decl) => Some(decl.kind),
            Meaning::Unit(number, unit) => result_kind(&self.numbered(number, unit)),
        }
    }

    /// The number of dimensions of a variable or a PARAMETER.
    #[tactic(auto, using(crate::proofs::Places::length_map))]
    pub fn rank(&self, name: &Name) -> usize
        ensures { result ≡ rank_of_entity (means self.now name.now) }
    {
        match self.meaning(name) {
            Meaning::Nothing => 0,
            Meaning::Variable(_, decl) => decl.shape.len(),
            Meaning::Constant(decl) => decl.shape.len(),
            Meaning::Unit(_, _) => 0,
        }
    }

    pub fn is_variable(&self, name: &Name) -> bool
        ensures { result ≡ scopes.is_variable (means self.now name.now) }
    {
        match self.meaning(name) {
            Meaning::Nothing => false,
            Meaning::Variable(_, _) => true,
            Meaning::Constant(_) => false,
            Meaning::Unit(_, _) => false,
        }
    }

    pub fn is_variable_or_constant(&self, name: &Name) -> bool
        ensures { result ≡ scopes.is_variable_or_constant (means self.now name.now) }
    {
        match self.meaning(name) {
            Meaning::Nothing => false,
            Meaning::Variable(_, _) => true,
            Meaning::Constant(_) => true,
            Meaning::Unit(_, _) => false,
        }
    }

    /// Whether it is a variable with dimensions.
    pub fn is_array(&self, name: &Name) -> bool
        ensures { result ≡ scopes.is_array (means self.now name.now) }
    {
        match self.meaning(name) {
            Meaning::Nothing => false,
            Meaning::Variable(_, decl) => has_dimensions(decl.shape.items()),
            Meaning::Constant(_) => false,
            Meaning::Unit(_, _) => false,
        }
    }

    pub fn is_function(&self, name: &Name) -> bool
        ensures { result ≡ scopes.is_function (means self.now name.now) }
    {
        match self.meaning(name) {
            Meaning::Nothing => false,
            Meaning::Variable(_, _) => false,
            Meaning::Constant(_) => false,
            Meaning::Unit(_, unit) => has_result(unit),
        }
    }

    pub fn is_subroutine(&self, name: &Name) -> bool
        ensures { result ≡ scopes.is_subroutine (means self.now name.now) }
    {
        match self.meaning(name) {
            Meaning::Nothing => false,
            Meaning::Variable(_, _) => false,
            Meaning::Constant(_) => false,
            Meaning::Unit(_, unit) => !has_result(unit),
        }
    }

    /// Whether it is a variable that is declared INTENT(IN).
    pub fn is_in_dummy(&self, name: &Name) -> bool
        ensures { result ≡ scopes.is_in_dummy (means self.now name.now) }
    {
        match self.meaning(name) {
            Meaning::Nothing => false,
            Meaning::Variable(_, decl) => is_in(&decl.intent),
            Meaning::Constant(_) => false,
            Meaning::Unit(_, _) => false,
        }
    }

    /// The unit that the name is.
    pub fn unit(&self, name: &Name) -> Option<&'a Unit>
        ensures { option_map plain_unit (option_copied result) ≡ scopes.unit_of (means self.now name.now) }
    {
        match self.meaning(name) {
            Meaning::Nothing => None,
            Meaning::Variable(_, _) => None,
            Meaning::Constant(_) => None,
            Meaning::Unit(_, unit) => Some(unit),
        }
    }

    /// The unit that the name is, with its declarations by name.
    pub fn callee(&self, name: &Name) -> Option<Callee<'a>>
        ensures { option_map plain_unit result ≡ scopes.unit_of (means self.now name.now) }
    {
        match self.meaning(name) {
            Meaning::Nothing => None,
            Meaning::Variable(_, _) => None,
            Meaning::Constant(_) => None,
            Meaning::Unit(number, unit) => Some(self.numbered(number, unit)),
        }
    }

    /// The number in the file of the unit that the name is.
    pub fn unit_number(&self, name: &Name) -> Option<usize>
        ensures { option_map plain_unit (option_and_then (slice_get (file_of self.now).units) result) ≡ scopes.unit_of (means self.now name.now) }
    {
        match self.meaning(name) {
            Meaning::Nothing => None,
            Meaning::Variable(_, _) => None,
            Meaning::Constant(_) => None,
            Meaning::Unit(number, _) => Some(number),
        }
    }

    /// The declaration of a variable or of a PARAMETER.
    pub fn decl(&self, name: &Name) -> Option<&'a Decl>
        ensures { option_map plain_decl (option_copied result) ≡ decl_of (means self.now name.now) }
    {
        match self.meaning(name) {
            Meaning::Nothing => None,
            Meaning::Variable(_, decl) => Some(decl),
            Meaning::Constant(decl) => Some(decl),
            Meaning::Unit(_, _) => None,
        }
    }

    /// The name of the module that declares the variable, where that isn't the unit of the first name. The second is the variable's.
    pub fn module_of(&self, unit: &Name, name: &Name) -> Option<Name>
        ensures { option_map (λ m. (m, name.now)) result ≡ scopes.module_variable unit.now name.now (means self.now name.now) }
    {
        match self.meaning(name) {
            Meaning::Nothing => None,
            Meaning::Variable(home, _) => { if home == *unit { None } else { Some(home) } }
            Meaning::Constant(_) => None,
            Meaning::Unit(_, _) => None,
        }
    }
}

impl Symbols {
    ghost use Rattle.std.specs.Prelude.{◌≡◌, ◌<◌, length, Some, slice_get};
    ghost use Rattle.fort_tree.specs.declared.unit.Module.{Module};
    ghost use Rattle.fort_tree.specs.declared.unit.Unit as tree_unit;
    ghost use Rattle.sound_programs.specs.Placed.{bare_program};
    ghost use Rattle.sound_programs.specs.Placing.{placed, placed_unit, placed_module};
    ghost use Rattle.sound_programs.specs.Scopes.{Of_unit, Of_module, entity_in};
    ghost use Rattle.fort_names.specs.Scoping.{AreSymbolsOf};
    ghost use Rattle.fort_names.specs.Sights.{means, file_of};

    /// Their file, seen from the unit of this number.
    pub fn sight_of_unit<'a>(&'a self, file: &'a File, unit: usize) -> Sight<'a>
        requires of_file { AreSymbolsOf file.now self.now }
        requires within { unit < length file.now.units }
        ensures means { (u : tree_unit.Unit) → slice_get file.now.units unit ≡ Some u → means result ≡ entity_in (bare_program (placed file.now)) (Of_unit (placed_unit u)) }
        ensures file { file_of result ≡ file.now }
    {
        let spot = Spot::InUnit(self.scope(unit), &file.units.items()[unit]);
        Sight {
            file,
            symbols: self,
            spot,
        }
    }

    /// Their file, seen from the module of this number.
    pub fn sight_of_module<'a>(&'a self, file: &'a File, number: usize) -> Sight<'a>
        requires of_file { AreSymbolsOf file.now self.now }
        requires within { number < length file.now.modules }
        ensures means { (m : Module) → slice_get file.now.modules number ≡ Some m → means result ≡ entity_in (bare_program (placed file.now)) (Of_module number (placed_module m)) }
        ensures file { file_of result ≡ file.now }
    {
        let spot = Spot::InModule(number, &file.modules.items()[number]);
        Sight {
            file,
            symbols: self,
            spot,
        }
    }
}
