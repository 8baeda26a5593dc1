//! Why a line was not read.
use fort_tree::NoMemory;

/// Why tokens gave no value.
#[derive(Clone, Copy, Debug, PartialEq, Eq)]
pub enum Unread {
    /// They have not the form that is wanted.
    NoForm,
    NoMemory,
}

impl From<NoMemory> for Unread {
    ghost use Rattle.std.specs.Prelude.{◌≡◌};
    ghost use Rattle.claw_lines.specs.declared.unread.Unread.TheVariants.{NoMemory as OutOfMemory};

    ghost from_gives = { λ _ unread. unread ≡ OutOfMemory };

    fn from(_refused: NoMemory) -> Unread {
        Unread::NoMemory
    }
}
