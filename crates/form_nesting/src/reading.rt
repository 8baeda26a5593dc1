//! From forms to the file.
ghost use Rattle.std.specs.Prelude.{◌≡◌, ◌<◌, ◌^◌, map, IfOk};
ghost use Rattle.fort_tree.specs.declared.unit.File.{File};
ghost use Rattle.sound_programs.specs.Nesting.{Nests};
ghost use Rattle.form_nesting.specs.Forms.{form_of, statements_among};

use crate::form::Form;
use crate::nest::Nest;
use fort_tree::{File, Mode, NoMemory, Seq};
use std::alloc::Global;

/// The file into which the forms nest, which is the only one (ISO/IEC 1539-1:2018 clauses 5, 11 and 14; where directives and marks stand is this project's own).
///
/// That they nest is the caller's to judge beforehand, and it isn't judged again. The mode says which directives and marks they may have. A file numbers its
/// modules and units in 32 bits, so fewer than 2 to the power of 32 of the forms are statements. The pass keeps what is open on a stack, so it takes no more of
/// the call stack where the forms nest deeper.
///
/// # Errors
/// `NoMemory` only where memory for the file was refused.
pub fn nested(alloc: Global, mode: Mode, forms: Seq<Form>) -> Result<File, NoMemory>
    requires few { statements_among (map form_of forms) < 2 ^ 32 }
    requires nest { (file : File) × Nests mode (map form_of forms) file }
    ensures { IfOk result (λ file. Nests mode (map form_of forms) file) }
{
    let mut nest = Nest::new(alloc);
    for form in forms.into_vec() {
        nest.take(alloc, form)?;
    }
    Ok(nest.into_file())
}
