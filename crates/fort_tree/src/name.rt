//! Names.
ghost use Rattle.std.specs.Prelude.{◌≡◌, ◌↔◌, IsTrue, IsSome, IfSome, position, length, ◌≤◌};
ghost use Rattle.std.specs.List.{list_all};
ghost use Rattle.std.specs.Str.{bytes_eq};
ghost use Rattle.fort_tree.specs.Name.{is_name as name_test, is_word_byte as word_byte_test, lowercase, padded, IsName};

use std::hash::{Hash, Hasher};
use std::marker::Model;

/// A name: a letter followed by at most 62 letters, digits or underscores (ISO/IEC 1539-1:2018 6.2.2). Contracts see it as its text in lower case, since case
/// doesn't count, so equal names are equal values.
#[derive(Clone, Copy, Debug, Eq)]
pub struct Name {
    /// The text, with zeros behind it.
    bytes: [u8; 63],
    len: u8,
}

impl Model for Name {
    ghost use Rattle.std.specs.Prelude.{List, ℕ};

    ghost Value = { List ℕ };

    ghost use Rattle.fort_tree.specs.Name.{text_of, IsPadded, name_of, name_of-text_of};

    ghost view = { text_of };

    ghost invariant = { IsPadded };

    ghost inverse = { name_of };

    ghost inverse_ok = { name_of-text_of };
}

impl PartialEq for Name {
    ghost use Rattle.std.proofs.Common.{rules};
    ghost use Rattle.std.specs.Cmp.Rules.{comparing};
    ghost use Rattle.std.specs.Str.{bytes_eq};

    ghost eq = { bytes_eq };

    ghost laws = { Prim.search (comparing, rules) };

    fn eq(&self, other: &Name) -> bool {
        self.text() == other.text()
    }
}

impl Hash for Name {
    ghost use Rattle.std.proofs.Common.{rules};
    ghost use Rattle.std.specs.Cmp.Rules.{comparing, hashing};
    ghost use Rattle.std.specs.Hash as fed;

    ghost hash_input = { fed.slice fed.u8 };

    ghost respects_eq = { Prim.search (hashing, rules) };

    fn hash<H: Hasher>(&self, state: &mut H) {
        self.text().hash(state);
    }
}

impl Name {
    /// The name that the text is in any case, or `None` exactly where the text is no name.
    pub fn read(text: &[u8]) -> Option<Name>
        ensures some { IsSome result ↔ IsTrue (name_test text.now) }
        ensures value { IfSome result (λ name. name ≡ lowercase text.now) }
    {
        if !is_name(text) {
            return None;
        }
        Some(Name {
            bytes: in_lower_case(text),
            len: text.len() as u8,
        })
    }

    /// The text, in lower case.
    pub fn text(&self) -> &[u8]
        ensures text { result.now ≡ self.now }
        ensures named { IsName self.now }
    {
        &self.bytes[..self.len as usize]
    }
}

fn is_word_byte(b: u8) -> bool
    ensures { result ≡ word_byte_test b }
{
    b.is_ascii_alphanumeric() || b == b'_'
}

fn is_name(text: &[u8]) -> bool
    ensures { result ≡ name_test text.now }
{
    match text.split_first() {
        None => false,
        Some((first, rest)) => {
            first.is_ascii_alphabetic() && rest.len() <= 62 && are_word_bytes(rest)
        }
    }
}

fn are_word_bytes(bytes: &[u8]) -> bool
    ensures { result ≡ list_all word_byte_test bytes.now }
{
    bytes.iter().all(|b| is_word_byte(*b))
}

fn in_lower_case(text: &[u8]) -> [u8; 63]
    requires { length text.now ≤ 63 }
    ensures { result ≡ padded (lowercase text.now) }
{
    let mut bytes = [0; 63];
    let start = &mut bytes[..text.len()];
    start.copy_from_slice(text);
    start.make_ascii_lowercase();
    bytes
}
