//! Tables of words.
ghost use Rattle.std.specs.Prelude.{◌≡◌, ◌↔◌, ◌<◌, ℕ, Some, IsTrue, length};
ghost use Rattle.fort_tables.specs.Order.{ascends, texts, word_at};

use std::cmp::Ordering;

/// An ascending list of N different words.
#[derive(Clone, Copy, Debug)]
pub struct Table<const N: usize> {
    pub words: &'static [&'static [u8]],
    ghost count: { length words.now ≡ N },
    ghost ascending: { IsTrue (ascends (texts words.now)) },
}

impl<const N: usize> Table<N> {
    /// The index of the word that equals the text, by halving, or `None` exactly where none does. So the word at an index is found there. It takes no memory.
    pub fn find(&self, text: &[u8]) -> Option<usize>
        ensures { (i : ℕ) → (result ≡ Some i) ↔ ((i < N) × (word_at (texts self.now.words.now) i ≡ text.now)) }
    {
        let mut low = 0;
        let mut high = N;
        while low < high {
            let middle = low + (high - low) / 2;
            match text.cmp(self.words[middle]) {
                Ordering::Less => high = middle,
                Ordering::Equal => return Some(middle),
                Ordering::Greater => low = middle + 1,
            }
        }
        None
    }

    /// The word at an index.
    pub fn word(&self, i: usize) -> &'static [u8]
        requires { i < N }
        ensures { result.now ≡ word_at (texts self.now.words.now) i }
    {
        self.words[i]
    }
}
