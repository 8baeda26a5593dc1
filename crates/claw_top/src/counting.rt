// The line that counts a program's units.
ghost use Rattle.std.specs.Prelude.{◌≡◌, count_by, IfOk};
ghost use Rattle.claw_top.specs.Compile.{counts_text};
ghost use Rattle.translated_programs.specs.NotBuilt.{is_column};

use fort_tree::{File, NoMemory, Unit};
use itoa::Buffer;
use std::alloc::Global;
use translated_programs::is_column_unit;

fn column_units(units: &[Unit]) -> usize
    ensures { result ≡ count_by is_column units.now }
{
    let mut count = 0;
    for unit in units {
        if is_column_unit(unit) {
            count += 1;
        }
    }
    count
}

// `units U column units C`, with the numbers of all units and of the column units.
pub(crate) fn counts(alloc: Global, program: &File) -> Result<Vec<u8>, NoMemory>
    ensures { IfOk result (λ text. text.items ≡ counts_text program.now) }
{
    let mut digits = Buffer::new();
    let mut text = Vec::from_slice(alloc, b"units ")?;
    text.extend_from_slice(digits.format(program.units.len()).as_bytes())?;
    text.extend_from_slice(b" column units ")?;
    let columns = column_units(program.units.items());
    text.extend_from_slice(digits.format(columns).as_bytes())?;
    text.extend_from_slice(b"\n")?;
    Ok(text)
}
