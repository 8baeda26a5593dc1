//! Characters.
use fort_tree::Place;

/// A byte of a logical line, and where it stands. A tab stands as a blank; a letter's case doesn't count.
#[derive(Clone, Copy, Debug)]
pub struct Char {
    pub byte: u8,
    pub at: Place,
}
