//! Laws of the definitions.

ghost use Rattle.std.specs.Prelude.{◌≡◌, ℕ, List, Some, is_some, slice_get};
ghost use Rattle.fort_tree.specs.declared.unit.File.{File};
ghost use Rattle.fort_tree.specs.declared.unit.Module as tree_module;
ghost use Rattle.fort_tree.specs.declared.unit.Unit as tree_unit;
ghost use Rattle.sound_programs.specs.Placing.{placed, placed_unit, placed_module};
ghost use Rattle.sound_programs.specs.Scopes.{Of_unit, Of_module};
ghost use Rattle.sound_programs.specs.Visible.{seen};
ghost use Rattle.fort_names.specs.Entities.{entity_in_unit, entity_in_module, is_seen};

/// In the scope of a unit or a module a name is an entity exactly where something is seen under it.
pub fn nothing_where_nothing_is_seen()
    ensures units { (f : File) (u : tree_unit.Unit) (x : List ℕ) → is_some (entity_in_unit f u x) ≡ is_seen (seen (placed f) (Of_unit (placed_unit u)) x) }
    ensures modules { (f : File) (n : ℕ) (m : tree_module.Module) (x : List ℕ) → slice_get f.modules n ≡ Some m → is_some (entity_in_module f n m x) ≡ is_seen (seen (placed f) (Of_module n (placed_module m)) x) }
{}
