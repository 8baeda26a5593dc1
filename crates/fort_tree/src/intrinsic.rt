//! The intrinsic functions by name.
ghost use Rattle.std.specs.Prelude.{◌≡◌};
ghost use Rattle.fort_tree.specs.Intrinsic.{intrinsic_named};

use crate::{Intrinsic, Name};

/// What is found by its name.
pub trait ByName {
    /// What has the name, or `None` exactly where nothing has it.
    fn named(name: &Name) -> Option<Self>;
}

impl ByName for Intrinsic {
    /// The intrinsic function of the name (ISO/IEC 1539-1:2018 16.9, of which this project takes nine).
    fn named(name: &Name) -> Option<Intrinsic>
        ensures { result ≡ intrinsic_named name.now }
    {
        match name.text() {
            b"abs" => Some(Intrinsic::Abs),
            b"int" => Some(Intrinsic::Int),
            b"max" => Some(Intrinsic::Max),
            b"min" => Some(Intrinsic::Min),
            b"mod" => Some(Intrinsic::Mod),
            b"modulo" => Some(Intrinsic::Modulo),
            b"sign" => Some(Intrinsic::Sign),
            b"size" => Some(Intrinsic::Size),
            b"sum" => Some(Intrinsic::Sum),
            _ => None,
        }
    }
}
