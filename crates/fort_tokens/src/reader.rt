//! Reading the characters of a line one after the other.
ghost use Rattle.std.specs.Prelude.{◌≡◌, ◌↔◌, [], ◌∷◌, ◌++◌, map, OnOk, IfOk, None, Some, IsTrue};
ghost use Rattle.fort_tree.specs.Token.{is_token};
ghost use Rattle.fort_tokens.specs.Texts.{front};
ghost use Rattle.fort_tokens.specs.Reads.{Reads, word_of, lowered};
ghost use Rattle.fort_tokens.specs.Machine.{goes_on as goes_on_as, fresh, grown, spoiled, emitted, split, settled, started, fed, closed, finished};

use crate::shape::{goes_on, is_empty};
use crate::words::{is_fixed, is_small};
use crate::{Char, Shape};
use fort_tree::{NoMemory, Place, Seq, Token};
use std::alloc::Global;
use std::marker::Model;

/// The tokens that were read of a line so far, and the text of the next one. Contracts see it as a `Reading`.
#[derive(Drop)]
pub struct Reader {
    tokens: Seq<Token>,
    shape: Shape,
    /// The characters that are no token yet, in lower case.
    text: Seq<u8>,
    /// The place of the text's first character.
    at: Place,
    /// The place of the text's last character.
    last: Place,
    /// The place of the first bad token. Nothing is read behind it.
    bad: Option<Place>,
}

impl Model for Reader {
    ghost use Rattle.fort_tokens.specs.Reading.{Reading};

    ghost Value = { Reading };

    ghost use Rattle.fort_tokens.specs.Standing.{reading_of, IsStanding};

    ghost view = { reading_of };

    ghost invariant = { IsStanding };
}

impl Reader {
    /// A reader before a line. It takes no memory.
    pub fn new(alloc: Global) -> Reader
        ensures { result ≡ fresh }
    {
        let at = Place {
            file: 0,
            line: 1,
            column: 1,
        };
        Reader {
            tokens: Seq::new(alloc),
            shape: Shape::Empty,
            text: Seq::new(alloc),
            at,
            last: at,
            bad: None,
        }
    }

    /// The place of the first bad token, where there is one.
    pub fn bad(&self) -> Option<Place>
        ensures { result ≡ self.now.bad }
    {
        self.bad
    }

    /// The tokens before the first bad one.
    pub fn into_tokens(self) -> Seq<Token>
        ensures { map word_of result ≡ self.words }
    {
        self.tokens
    }

    /// Takes one character more of the line.
    ///
    /// # Errors
    /// `NoMemory` only where memory was refused. Nothing is said of the reader then.
    pub fn feed(&mut self, alloc: Global, character: Char) -> Result<(), NoMemory>
        ensures { OnOk result (self.new ≡ fed self.old character) }
    {
        if self.bad.is_some() {
            return Ok(());
        }
        let c = in_lower_case(character);
        match self.goes_on(c.byte) {
            Some(shape) => self.grow(shape, c),
            None => {
                self.settle(alloc, c.byte)?;
                self.start(c)
            }
        }
    }

    /// Ends the line.
    ///
    /// # Errors
    /// `NoMemory` only where memory was refused. Nothing is said of the reader then.
    pub fn finish(&mut self, alloc: Global) -> Result<(), NoMemory>
        ensures { OnOk result (self.new ≡ finished self.old) }
    {
        if self.bad.is_none() {
            self.settle(alloc, b' ')?;
            self.close();
        }
        Ok(())
    }

    fn goes_on(&self, byte: u8) -> Option<Shape>
        ensures { result ≡ goes_on_as self.now.shape self.now.text byte }
    {
        goes_on(self.shape, self.text.items(), byte)
    }

    /// Puts a character behind the text, which has the given shape then.
    fn grow(&mut self, shape: Shape, c: Char) -> Result<(), NoMemory>
        requires bad { self.old.bad ≡ None }
        requires goes_on { goes_on_as self.old.shape self.old.text c.byte ≡ Some shape }
        ensures { OnOk result (self.new ≡ grown self.old shape c) }
    {
        let first = if is_empty(self.shape) { c.at } else { self.at };
        self.text.push(c.byte)?;
        self.shape = shape;
        self.at = first;
        self.last = c.at;
        Ok(())
    }

    /// Notes a bad token at a place.
    fn spoil(&mut self, at: Place)
        ensures { self.new ≡ spoiled self.old at }
    {
        self.bad = Some(at);
    }

    /// Makes a token of the text.
    fn emit(&mut self, alloc: Global) -> Result<(), NoMemory>
        requires { IsTrue (is_token self.old.text) }
        ensures { OnOk result (self.new ≡ emitted self.old) }
    {
        let text = std::mem::replace(&mut self.text, Seq::new(alloc));
        self.shape = Shape::Empty;
        self.tokens.push(Token::new(text, self.at))
    }

    /// Makes a token of the text without its last byte, a point or an underscore, and leaves a point in its place.
    fn split(&mut self, alloc: Global) -> Result<(), NoMemory>
        requires { IsTrue (is_token (front self.old.text)) }
        ensures { OnOk result (self.new ≡ split self.old) }
    {
        let text = std::mem::replace(&mut self.text, Seq::new(alloc));
        self.shape = Shape::Empty;
        self.tokens.push(Token::new(without_last(text), self.at))?;
        self.text.push(b'.')?;
        self.shape = Shape::Fixed;
        self.at = self.last;
        Ok(())
    }

    /// Ends the text before a byte with which it doesn't go on.
    fn settle(&mut self, alloc: Global, byte: u8) -> Result<(), NoMemory>
        ensures { OnOk result (self.new ≡ settled self.old byte) }
    {
        match self.shape {
            Shape::Empty => {}
            Shape::Name => {
                if self.text.len() <= 63 {
                    self.emit(alloc)?;
                } else {
                    self.spoil(self.at);
                }
            }
            Shape::Digits | Shape::Suffixed => {
                if is_small(self.text.items()) && !byte.is_ascii_lowercase() {
                    self.emit(alloc)?;
                } else {
                    self.spoil(self.at);
                }
            }
            Shape::Under => {
                if is_small(self.text.items()) {
                    self.split(alloc)?;
                    self.spoil(self.last);
                } else {
                    self.spoil(self.at);
                }
            }
            Shape::Point => {
                if is_small(self.text.items()) && !byte.is_ascii_digit() {
                    self.split(alloc)?;
                } else {
                    self.spoil(self.at);
                }
            }
            Shape::Fixed => {
                if is_fixed(self.text.items()) {
                    self.emit(alloc)?;
                } else {
                    self.spoil(self.at);
                }
            }
        }
        Ok(())
    }

    /// Begins a token with a character, after the text before it was settled.
    fn start(&mut self, c: Char) -> Result<(), NoMemory>
        ensures { OnOk result (self.new ≡ started self.old c) }
    {
        if self.bad.is_some() {
            return Ok(());
        }
        match self.goes_on(c.byte) {
            Some(shape) => self.grow(shape, c)?,
            None => {
                if !is_empty(self.shape) {
                    self.spoil(self.at);
                } else if c.byte != b' ' {
                    self.spoil(c.at);
                }
            }
        }
        Ok(())
    }

    /// A text that is left at the line's end is bad.
    fn close(&mut self)
        ensures { self.new ≡ closed self.old }
    {
        if self.bad.is_none() && !is_empty(self.shape) {
            self.spoil(self.at);
        }
    }
}

/// The text without its last byte.
fn without_last(mut text: Seq<u8>) -> Seq<u8>
    ensures { result ≡ front text }
{
    let _ = text.pop();
    text
}

/// The character with an upper-case letter put into lower case.
fn in_lower_case(c: Char) -> Char
    ensures { result ≡ lowered c }
{
    Char {
        byte: c.byte.to_ascii_lowercase(),
        at: c.at,
    }
}

/// The tokens of a line's characters up to the first bad one, the longest taken first (ISO/IEC 1539-1:2018 6.2; this project's own profile of it), and the place
/// where that one begins.
///
/// # Errors
/// `NoMemory` only where memory was refused.
pub fn tokens(alloc: Global, characters: &[Char]) -> Result<Reader, NoMemory>
    ensures { IfOk result (λ reader. Reads characters.now reader.words reader.bad) }
{
    let mut reader = Reader::new(alloc);
    for c in characters {
        reader.feed(alloc, *c)?;
    }
    reader.finish(alloc)?;
    Ok(reader)
}
