ghost use Rattle.std.specs.Prelude.{◌≡◌};

/// The kind of a scalar or of an array's elements: INTEGER of 1, 2, 4 or 8 bytes, or LOGICAL, which has one kind.
///
/// Kinds as byte counts are this project's own choice among what ISO/IEC 1539-1:2018 7.4.3.1 leaves to the processor.
#[derive(Clone, Copy, Debug, PartialEq, Eq)]
pub enum Kind {
    I1,
    I2,
    I4,
    I8,
    Logical,
}

impl Kind {
    ghost use Rattle.fort_arith.specs.Range.{is_whole as whole_test};

    /// Whether it is an INTEGER kind.
    pub fn is_whole(self) -> bool
        ensures { result ≡ whole_test self }
    {
        self != Kind::Logical
    }
}
