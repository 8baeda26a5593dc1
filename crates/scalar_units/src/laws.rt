//! What a unit is of which nothing is unbuilt.
ghost use Rattle.std.specs.Prelude.{◌≡◌, []};
ghost use Rattle.fort_tree.specs.declared.unit.Unit as tree;
ghost use Rattle.column_scalars.specs.Widened.{HasDimension};
ghost use Rattle.scalar_units.specs.Unbuilt.{of_unit};
ghost use Rattle.scalar_units.specs.Scalars.{IsScalarsUnit};

/// A unit of which nothing is unbuilt is one of column scalars, and its first directive names the columns' dimension.
pub fn built_units_are_column_scalars()
    ensures { (u : tree.Unit) → of_unit u ≡ [] → IsScalarsUnit u × HasDimension u }
{}
