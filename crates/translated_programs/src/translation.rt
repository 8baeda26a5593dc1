//! The program that is made of a program of which nothing is unbuilt.
ghost use Rattle.std.specs.Prelude.{◌≡◌, [], map, IfOk};
ghost use Rattle.claw_meaning.specs.Plain.{plain_file, plain_unit};
ghost use Rattle.sound_programs.specs.Laws.{Each};
ghost use Rattle.translated_programs.specs.NotBuilt.{unbuilt};
ghost use Rattle.translated_programs.specs.Translated.{HasItsDimension, translated as translated_program, translated_unit as translated_test};

use column_scalars::widen;
use fort_tree::{File, NoMemory, Seq, TryClone, Unit};
use plain_units::{is_column_unit, regrouped};
use scalar_units::built_units_are_column_scalars;
use std::alloc::Global;

/// The program for all columns: each column unit is made for all columns, each other unit is written as it is but for the order of
/// its declarations, and modules and the order of the text are as they were.
///
/// # Errors
/// `NoMemory` only where memory for it was refused.
pub fn translated(alloc: Global, file: &File) -> Result<File, NoMemory>
    requires { unbuilt file.now ≡ [] }
    ensures { IfOk result (λ made. plain_file made ≡ translated_program (plain_file file.now)) }
{
    built_units_are_column_scalars();
    Ok(File {
        modules: file.modules.try_clone(alloc)?,
        units: translated_units(alloc, file.units.items())?,
        order: file.order.copied(alloc)?,
    })
}

fn translated_units(alloc: Global, units: &[Unit]) -> Result<Seq<Unit>, NoMemory>
    requires { Each units.now HasItsDimension }
    ensures { IfOk result (λ made. map plain_unit made ≡ map translated_test (map plain_unit units.now)) }
{
    let mut made = Seq::new(alloc);
    for unit in units {
        made.push(translated_unit(alloc, unit)?)?;
    }
    Ok(made)
}

fn translated_unit(alloc: Global, unit: &Unit) -> Result<Unit, NoMemory>
    requires { HasItsDimension unit.now }
    ensures { IfOk result (λ made. plain_unit made ≡ translated_test (plain_unit unit.now)) }
{
    if is_column_unit(unit) {
        widen(alloc, unit)
    } else {
        regrouped(alloc, unit)
    }
}
