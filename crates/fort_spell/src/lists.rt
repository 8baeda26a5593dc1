//! Lists in one row, and lists of rows.
ghost use Rattle.std.specs.Prelude.{◌≡◌, ◌≤◌, false, map};
ghost use Rattle.fort_spell.specs.Pieces.{bracketed, end_pieces, items as item_pieces, name_pieces, pair};
ghost use Rattle.fort_spell.specs.Rows.{all_rows, laid, one_row};
ghost use Rattle.fort_spell.specs.Statements.{range_pieces};
ghost use Rattle.fort_spell.specs.Stream.{Put, rows_shown};
ghost use Rattle.fort_spell.specs.Units.{dimension_pieces, named_pieces};

use crate::expressions::{put_bound, put_expr, put_lower};
use crate::line::Margin;
use crate::mark::Mark;
use crate::put::{Reached, close_row, open_row, put_mark, put_name, put_word};
use fort_tree::{Bound, Name, Named, Range};
use outside::{Failed, Sink};

/// What is spelled by pieces of one row.
pub trait InRow {
    ghost use Rattle.std.specs.Prelude.{◌≤◌};
    ghost use Rattle.fort_spell.specs.Pieces.{Spelling};
    ghost use Rattle.fort_spell.specs.Rows.{laid};
    ghost use Rattle.fort_spell.specs.Stream.{Put};

    ghost pieces: { Self → Spelling };

    fn put<S: Sink>(&self, spaced: bool, margin: Margin, reached: Reached, sink: &mut S) -> Reached
        requires { margin.indent ≤ 40 }
        ensures { Put (laid margin) reached result (S.taken sink.old) (S.taken sink.new) (S.faults sink.old) (S.faults sink.new) (pieces self.now spaced) };
}

impl InRow for Name {
    ghost use Rattle.fort_spell.specs.Pieces.{name_pieces};

    ghost pieces = { name_pieces };

    fn put<S: Sink>(
        &self,
        spaced: bool,
        margin: Margin,
        reached: Reached,
        sink: &mut S,
    ) -> Reached {
        put_name(self, spaced, margin, reached, sink)
    }
}

impl InRow for Named {
    ghost use Rattle.fort_spell.specs.Units.{named_pieces};

    ghost pieces = { named_pieces };

    fn put<S: Sink>(
        &self,
        spaced: bool,
        margin: Margin,
        reached: Reached,
        sink: &mut S,
    ) -> Reached {
        put_name(&self.name, spaced, margin, reached, sink)
    }
}

impl InRow for Range {
    ghost use Rattle.fort_spell.specs.Statements.{range_pieces};

    ghost pieces = { range_pieces };

    fn put<S: Sink>(
        &self,
        spaced: bool,
        margin: Margin,
        reached: Reached,
        sink: &mut S,
    ) -> Reached {
        match self {
            Range::One(value) => put_expr(value, spaced, margin, reached, sink),
            Range::Span(from, to) => {
                let reached = put_lower(from, spaced, margin, reached, sink);
                put_bound(to, margin, reached, sink)
            }
        }
    }
}

impl InRow for Bound {
    ghost use Rattle.fort_spell.specs.Units.{dimension_pieces};

    ghost pieces = { dimension_pieces };

    fn put<S: Sink>(
        &self,
        spaced: bool,
        margin: Margin,
        reached: Reached,
        sink: &mut S,
    ) -> Reached {
        match &self.lower {
            None => match &self.upper {
                None => put_mark(Mark::Colon, spaced, margin, reached, sink),
                Some(upper) => put_expr(upper, spaced, margin, reached, sink),
            },
            Some(_) => {
                let reached = put_lower(&self.lower, spaced, margin, reached, sink);
                put_bound(&self.upper, margin, reached, sink)
            }
        }
    }
}

/// Puts items with commas between them, and a blank behind each comma where there is a gap.
pub fn put_items<T: InRow, S: Sink>(
    items: &[T],
    gap: bool,
    spaced: bool,
    margin: Margin,
    reached: Reached,
    sink: &mut S,
) -> Reached
    requires { margin.indent ≤ 40 }
    ensures { Put (laid margin) reached result (S.taken sink.old) (S.taken sink.new) (S.faults sink.old) (S.faults sink.new) (item_pieces gap (map T.pieces items.now) spaced) }
{
    let Some((first, rest)) = items.split_first() else {
        return reached;
    };
    let mut reached = first.put(spaced, margin, reached, sink);
    for item in rest {
        reached = put_mark(Mark::Comma, false, margin, reached, sink);
        reached = item.put(gap, margin, reached, sink);
    }
    reached
}

/// Puts items in parentheses.
pub fn put_bracketed<T: InRow, S: Sink>(
    items: &[T],
    gap: bool,
    spaced: bool,
    margin: Margin,
    reached: Reached,
    sink: &mut S,
) -> Reached
    requires { margin.indent ≤ 40 }
    ensures { Put (laid margin) reached result (S.taken sink.old) (S.taken sink.new) (S.faults sink.old) (S.faults sink.new) (bracketed gap (map T.pieces items.now) spaced) }
{
    let reached = put_mark(Mark::Open, spaced, margin, reached, sink);
    let reached = put_items(items, gap, false, margin, reached, sink);
    put_mark(Mark::Close, false, margin, reached, sink)
}

/// Puts a statement of one row.
pub fn put_row<T: InRow, S: Sink>(
    item: &T,
    indent: usize,
    so_far: Result<(), Failed>,
    sink: &mut S,
) -> Result<(), Failed>
    requires { indent ≤ 40 }
    ensures { Put rows_shown so_far result (S.taken sink.old) (S.taken sink.new) (S.faults sink.old) (S.faults sink.new) (one_row (T.pieces item.now) indent) }
{
    let margin = Margin::of_statement(indent);
    let reached = open_row(margin, so_far, sink);
    let reached = item.put(false, margin, reached, sink);
    close_row(reached, sink)
}

/// Puts a row for each item.
pub fn put_rows<T: InRow, S: Sink>(
    items: &[T],
    indent: usize,
    so_far: Result<(), Failed>,
    sink: &mut S,
) -> Result<(), Failed>
    requires { indent ≤ 40 }
    ensures { Put rows_shown so_far result (S.taken sink.old) (S.taken sink.new) (S.faults sink.old) (S.faults sink.new) (all_rows (map (λ item. one_row (T.pieces item)) items.now) indent) }
{
    let mut so_far = so_far;
    for item in items {
        so_far = put_row(item, indent, so_far, sink);
    }
    so_far
}

/// Puts a row of one word.
pub fn put_word_row<S: Sink>(
    text: &[u8],
    indent: usize,
    so_far: Result<(), Failed>,
    sink: &mut S,
) -> Result<(), Failed>
    requires { indent ≤ 40 }
    ensures { Put rows_shown so_far result (S.taken sink.old) (S.taken sink.new) (S.faults sink.old) (S.faults sink.new) (one_row (name_pieces text.now) indent) }
{
    let margin = Margin::of_statement(indent);
    let reached = open_row(margin, so_far, sink);
    let reached = put_word(text, false, margin, reached, sink);
    close_row(reached, sink)
}

/// Puts a row of two words.
pub fn put_pair_row<S: Sink>(
    first: &[u8],
    second: &[u8],
    indent: usize,
    so_far: Result<(), Failed>,
    sink: &mut S,
) -> Result<(), Failed>
    requires { indent ≤ 40 }
    ensures { Put rows_shown so_far result (S.taken sink.old) (S.taken sink.new) (S.faults sink.old) (S.faults sink.new) (one_row (pair first.now second.now) indent) }
{
    let margin = Margin::of_statement(indent);
    let reached = open_row(margin, so_far, sink);
    let reached = put_word(first, false, margin, reached, sink);
    let reached = put_word(second, true, margin, reached, sink);
    close_row(reached, sink)
}

/// Puts the END row of a unit or a module.
pub fn put_end_row<S: Sink>(
    opening: &[u8],
    name: &Name,
    indent: usize,
    so_far: Result<(), Failed>,
    sink: &mut S,
) -> Result<(), Failed>
    requires { indent ≤ 40 }
    ensures { Put rows_shown so_far result (S.taken sink.old) (S.taken sink.new) (S.faults sink.old) (S.faults sink.new) (one_row (end_pieces opening.now name.now) indent) }
{
    let margin = Margin::of_statement(indent);
    let reached = open_row(margin, so_far, sink);
    let reached = put_word(b"end", false, margin, reached, sink);
    let reached = put_word(opening, true, margin, reached, sink);
    let reached = put_name(name, true, margin, reached, sink);
    close_row(reached, sink)
}
