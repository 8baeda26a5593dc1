//! Putting tokens. Each function takes where the printing has come to, or the sink's failure; after a failure nothing more is put.
ghost use Rattle.std.specs.Prelude.{◌≡◌, ◌≤◌, ◌+◌, ◌++◌, length, codes};
ghost use Rattle.fort_spell.specs.Pieces.{Token, text_of, piece, word, number as number_piece, sign};
ghost use Rattle.fort_spell.specs.Rows.{laid, lead};
ghost use Rattle.fort_spell.specs.Stream.{Closed, Opened, Put, bytes_alone, starting};
ghost use Rattle.fort_spell.specs.Text.{blanks, sentinel_text};

use crate::line::{Margin, lead_width};
use crate::mark::{Mark, suffix};
use fort_arith::Kind;
use fort_tree::Name;
use itoa::Buffer;
use outside::{Failed, Sink, put_all};

/// The columns that are put in the line, or the sink's failure.
pub type Reached = Result<usize, Failed>;

/// Puts bytes.
pub fn put_bytes<S: Sink>(
    text: &[u8],
    so_far: Result<(), Failed>,
    sink: &mut S,
) -> Result<(), Failed>
    ensures { Put bytes_alone so_far result (S.taken sink.old) (S.taken sink.new) (S.faults sink.old) (S.faults sink.new) (λ k. text.now ++ k) }
{
    so_far?;
    put_all(sink, text)
}

/// Puts so many blanks.
pub fn put_blanks<S: Sink>(
    count: usize,
    so_far: Result<(), Failed>,
    sink: &mut S,
) -> Result<(), Failed>
    ensures { Put bytes_alone so_far result (S.taken sink.old) (S.taken sink.new) (S.faults sink.old) (S.faults sink.new) (λ k. blanks count ++ k) }
{
    let mut so_far = so_far;
    for _ in 0..count {
        so_far = put_bytes(b" ", so_far, sink);
    }
    so_far
}

/// Puts a token's text, with a blank before it where it is spaced.
#[tactic(auto, using(crate::proofs::Streams::put_both))]
fn put_beside<S: Sink>(text: &[u8], ending: &[u8], spaced: bool, sink: &mut S) -> Result<(), Failed>
    ensures { Put bytes_alone (starting {E = Failed}) result (S.taken sink.old) (S.taken sink.new) (S.faults sink.old) (S.faults sink.new) (λ k. lead spaced ++ (text.now ++ (ending.now ++ k))) }
{
    let so_far = put_blanks(lead_width(spaced), Ok(()), sink);
    let so_far = put_bytes(text, so_far, sink);
    put_bytes(ending, so_far, sink)
}

/// Ends the line and puts a token's text into the next one.
#[tactic(auto, using(crate::proofs::Streams::put_both))]
fn put_broken<S: Sink>(
    text: &[u8],
    ending: &[u8],
    margin: Margin,
    sink: &mut S,
) -> Result<(), Failed>
    requires { margin.indent ≤ 40 }
    ensures { Put bytes_alone (starting {E = Failed}) result (S.taken sink.old) (S.taken sink.new) (S.faults sink.old) (S.faults sink.new) (λ k. codes " &\n" ++ (blanks (margin.indent + 4) ++ (sentinel_text margin.sentinel ++ (text.now ++ (ending.now ++ k))))) }
{
    let so_far = put_bytes(b" &\n", Ok(()), sink);
    let so_far = put_blanks(margin.indent + 4, so_far, sink);
    let so_far = put_bytes(margin.sentinel.text(), so_far, sink);
    let so_far = put_bytes(text, so_far, sink);
    put_bytes(ending, so_far, sink)
}

/// Puts a token of this text and this ending, in a new line where it would end past column 130.
fn put_token<S: Sink>(
    text: &[u8],
    ending: &[u8],
    spaced: bool,
    margin: Margin,
    reached: Reached,
    sink: &mut S,
) -> Reached
    requires indent { margin.indent ≤ 40 }
    requires ending { length ending.now ≤ 2 }
    ensures { (t : Token) → text_of t ≡ text.now ++ ending.now
        → Put (laid margin) reached result (S.taken sink.old) (S.taken sink.new) (S.faults sink.old) (S.faults sink.new) (piece spaced t) }
{
    let column = reached?;
    let end = column
        .saturating_add(lead_width(spaced))
        .saturating_add(text.len())
        .saturating_add(ending.len());
    if end <= 130 {
        put_beside(text, ending, spaced, sink)?;
        Ok(end)
    } else {
        put_broken(text, ending, margin, sink)?;
        Ok(margin.width() + text.len() + ending.len())
    }
}

/// Puts a word.
pub fn put_word<S: Sink>(
    text: &[u8],
    spaced: bool,
    margin: Margin,
    reached: Reached,
    sink: &mut S,
) -> Reached
    requires { margin.indent ≤ 40 }
    ensures { Put (laid margin) reached result (S.taken sink.old) (S.taken sink.new) (S.faults sink.old) (S.faults sink.new) (word spaced text.now) }
{
    put_token(text, b"", spaced, margin, reached, sink)
}

/// Puts a name.
pub fn put_name<S: Sink>(
    name: &Name,
    spaced: bool,
    margin: Margin,
    reached: Reached,
    sink: &mut S,
) -> Reached
    requires { margin.indent ≤ 40 }
    ensures { Put (laid margin) reached result (S.taken sink.old) (S.taken sink.new) (S.faults sink.old) (S.faults sink.new) (word spaced name.now) }
{
    put_word(name.text(), spaced, margin, reached, sink)
}

/// Puts a mark.
pub fn put_mark<S: Sink>(
    mark: Mark,
    spaced: bool,
    margin: Margin,
    reached: Reached,
    sink: &mut S,
) -> Reached
    requires { margin.indent ≤ 40 }
    ensures { Put (laid margin) reached result (S.taken sink.old) (S.taken sink.new) (S.faults sink.old) (S.faults sink.new) (sign spaced mark) }
{
    put_token(mark.text(), b"", spaced, margin, reached, sink)
}

/// Puts a number in decimal digits, with the suffix of its kind where one is given.
pub fn put_number<S: Sink>(
    value: u64,
    kind: Option<Kind>,
    spaced: bool,
    margin: Margin,
    reached: Reached,
    sink: &mut S,
) -> Reached
    requires { margin.indent ≤ 40 }
    ensures { Put (laid margin) reached result (S.taken sink.old) (S.taken sink.new) (S.faults sink.old) (S.faults sink.new) (number_piece spaced value kind) }
{
    let mut digits = Buffer::new();
    let text = digits.format(value);
    put_token(text.as_bytes(), suffix(kind), spaced, margin, reached, sink)
}

/// Opens a row: puts what its first line begins with.
pub fn open_row<S: Sink>(margin: Margin, so_far: Result<(), Failed>, sink: &mut S) -> Reached
    requires { margin.indent ≤ 40 }
    ensures { Opened margin so_far result (S.taken sink.old) (S.taken sink.new) (S.faults sink.old) (S.faults sink.new) }
{
    let so_far = put_blanks(margin.indent, so_far, sink);
    put_bytes(margin.sentinel.text(), so_far, sink)?;
    Ok(margin.indent + margin.sentinel.text().len())
}

/// Closes a row: ends its last line.
pub fn close_row<S: Sink>(reached: Reached, sink: &mut S) -> Result<(), Failed>
    ensures { Closed reached result (S.taken sink.old) (S.taken sink.new) (S.faults sink.old) (S.faults sink.new) }
{
    reached?;
    put_bytes(b"\n", Ok(()), sink)
}
