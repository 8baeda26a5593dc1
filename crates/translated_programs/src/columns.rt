//! Column units.
ghost use Rattle.std.specs.Prelude.{◌≡◌};
ghost use Rattle.translated_programs.specs.NotBuilt.{is_column};

use fort_tree::Unit;

/// Whether the unit is written for one column: it has `define dimension` and `parallelize`.
#[tactic(auto, unfolding(crate::specs::NotBuilt::is_column))]
pub fn is_column_unit(unit: &Unit) -> bool
    ensures { result ≡ is_column unit.now }
{
    plain_units::is_column_unit(unit)
}
