//! References to units.
use fort_tree::Place;

/// A reference to a unit: the unit's number in the file, and the place of the name.
#[derive(Clone, Copy, Debug)]
pub struct Reference {
    pub unit: usize,
    pub at: Place,
}
