// Places among lines.
ghost use Rattle.std.specs.Prelude.{◌≡◌};
ghost use Rattle.scalar_units.specs.Unbuilt.{is_earlier as earlier_test};
ghost use Rattle.claw_top.specs.Sources.{begins_at as place_begins_at};

use fort_tree::{Line, Place};

fn is_earlier(at: Place, other: Place) -> bool
    ensures { result ≡ earlier_test at other }
{
    at.file < other.file
        || (at.file == other.file
            && (at.line < other.line || (at.line == other.line && at.column < other.column)))
}

// The place where the line begins in which this place stands: that of the last line that begins no later, or else of the first.
pub(crate) fn begins_at(at: Place, lines: &[Line]) -> Place
    ensures { result ≡ place_begins_at at lines.now }
{
    let Some((first, others)) = lines.split_first() else {
        return at;
    };
    let mut begin = first.at;
    for line in others {
        if is_earlier(at, line.at) {
            return begin;
        }
        begin = line.at;
    }
    begin
}
