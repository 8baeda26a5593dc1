//! What is made of a sound program keeps what the program does.
ghost use Rattle.std.specs.Prelude.{◌≡◌, [], false};
ghost use Rattle.courses.specs.Plans.{Plan};
ghost use Rattle.fort_tree.specs.declared.choice.Directives.TheVariants.{Plain};
ghost use Rattle.fort_tree.specs.declared.choice.Mode.{Mode};
ghost use Rattle.fort_tree.specs.declared.choice.Target.TheVariants.{Cpu};
ghost use Rattle.fort_tree.specs.declared.unit.File.{File};
ghost use Rattle.claw_meaning.specs.Erasure.{Erased};
ghost use Rattle.claw_meaning.specs.Interface.{Interface};
ghost use Rattle.claw_meaning.specs.Kept.{Kept, Orderly};
ghost use Rattle.claw_meaning.specs.Plain.{plain_file};
ghost use Rattle.claw_meaning.specs.Spread.{Spread};
ghost use Rattle.claw_meaning.specs.Syntax.{Program};
ghost use Rattle.sound_programs.specs.Sound.{Sound};
ghost use Rattle.translated_programs.specs.NotBuilt.{unbuilt};
ghost use Rattle.translated_programs.specs.Translated.{AreTranslatable, translated, wide_in};
ghost use Rattle.translated_programs.specs.UnitLaws.{UnitLaws};

use column_scalars::{
    keeps_columns_anywhere, runs_no_marked_loop, unit_made_for_all_columns, where_units_stand,
    widened_is_wide_unit,
};
use plain_units::{column_units_translated, plain_units_kept, plain_units_written};
use scalar_units::built_units_are_column_scalars;

/// What is made of a sound program of which nothing is unbuilt has its interface, where the wide variables are the dummies of the column units; erases to it; has the
/// statements of each column unit in a loop over the columns, and no marks; and under every plan it keeps what the program does in each column, and no two iterations of a
/// marked loop touch one element.
pub fn sound_programs_are_translated()
    ensures interface { (mode : Mode) (file : File) (target : Program) → Sound mode file → unbuilt file ≡ [] → target ≡ translated (plain_file file) → Interface (plain_file file) target (wide_in (plain_file file)) }
    ensures erased { (mode : Mode) (file : File) (target : Program) → Sound mode file → unbuilt file ≡ [] → target ≡ translated (plain_file file) → Erased (plain_file file) target (wide_in (plain_file file)) }
    ensures spread { (mode : Mode) (file : File) (target : Program) → Sound mode file → unbuilt file ≡ [] → target ≡ translated (plain_file file) → Spread (plain_file file) target (wide_in (plain_file file)) (λ i x. false) Cpu Plain }
    ensures kept { (mode : Mode) (file : File) (target : Program) → Sound mode file → unbuilt file ≡ [] → target ≡ translated (plain_file file) → (plan : Plan) → Kept (plain_file file) target plan }
    ensures orderly { (mode : Mode) (file : File) (target : Program) → Sound mode file → unbuilt file ≡ [] → target ≡ translated (plain_file file) → (plan : Plan) → Orderly (plain_file file) target plan }
{
    laws_of_units();
}

/// Each unit of a sound program of which nothing is unbuilt has no directives, and is translated to itself with its declarations in their groups, or is one of column scalars,
/// and is translated to the unit for all columns.
pub fn units_are_translated()
    ensures { (mode : Mode) (file : File) → Sound mode file → unbuilt file ≡ [] → AreTranslatable (plain_file file) }
{
    laws_of_units();
}

fn laws_of_units()
    ensures { UnitLaws }
{
    built_units_are_column_scalars();
    where_units_stand();
    widened_is_wide_unit();
    keeps_columns_anywhere();
    runs_no_marked_loop();
    unit_made_for_all_columns();
    column_units_translated();
    plain_units_kept();
    plain_units_written();
}
