//! The text of a file.
ghost use Rattle.std.specs.Prelude.{◌≤◌, OnErr, OnOk};
ghost use Rattle.outside.specs.Counts.{Rose};
ghost use Rattle.outside.specs.Taken.{Took, TookPrefix};
ghost use Rattle.fort_spell.specs.Units.{layout_of};

use crate::units::put_file;
use fort_tree::File;
use outside::{Failed, Sink};

/// Puts the text of a file, in the layout of this project's own: one statement a line, lines of at most 132 columns. It takes no memory.
///
/// `Failed` only where the sink's count of faults rose; a first part that is shorter than the text was put.
pub fn spell<S: Sink>(file: &File, sink: &mut S) -> Result<(), Failed>
    ensures faults_later { S.faults sink.old ≤ S.faults sink.new }
    ensures took { OnOk result (Took (S.taken sink.old) (S.taken sink.new) (layout_of file.now)) }
    ensures part { OnErr result (TookPrefix (S.taken sink.old) (S.taken sink.new) (layout_of file.now)) }
    ensures failed { OnErr result (Rose (S.faults sink.old) (S.faults sink.new)) }
{
    put_file(file, sink)
}
