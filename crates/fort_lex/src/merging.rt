//! The order of lines.
ghost use Rattle.std.specs.Prelude.{◌≡◌, ◌++◌, ◌∷◌, [], true, IfSome, IfNone, OnOk, IfOk, map};
ghost use Rattle.fort_lex.specs.Lines.{written, is_before as is_place_before, begins_before, lines_before, lines_behind, in_order as in_order_of};

use crate::faults::is_before;
use fort_tree::{Line, NoMemory, Place, Seq};
use std::alloc::Global;
use std::collections::VecDeque;

fn is_first_before(lines: &VecDeque<Line>, at: Place) -> bool
    ensures { result ≡ begins_before at (map written lines.now.items) }
{
    match lines.front() {
        None => false,
        Some(line) => is_before(line.at, at),
    }
}

/// Moves the lines at the front that stand before a place.
fn move_before(
    lines: &mut Seq<Line>,
    others: &mut VecDeque<Line>,
    at: Place,
) -> Result<(), NoMemory>
    ensures moved { OnOk result (map written lines.new ≡ map written lines.old ++ lines_before at (map written others.old.items)) }
    ensures left { OnOk result (map written others.new.items ≡ lines_behind at (map written others.old.items)) }
{
    while is_first_before(others, at) {
        if let Some(line) = others.pop_front() {
            lines.push(line)?;
        }
    }
    Ok(())
}

fn move_all(lines: &mut Seq<Line>, others: &mut VecDeque<Line>) -> Result<(), NoMemory>
    ensures { OnOk result (map written lines.new ≡ map written lines.old ++ map written others.old.items) }
{
    while let Some(line) = others.pop_front() {
        lines.push(line)?;
    }
    Ok(())
}

/// Statements and directive lines in the order of their first tokens.
///
/// # Errors
/// `NoMemory` only where memory was refused.
pub fn in_order(
    alloc: Global,
    statements: Seq<Line>,
    directives: VecDeque<Line>,
) -> Result<Seq<Line>, NoMemory>
    ensures { IfOk result (λ lines. map written lines ≡ in_order_of (map written statements) (map written directives.items)) }
{
    let mut directives = directives;
    let mut lines = Seq::new(alloc);
    for line in statements.into_vec() {
        move_before(&mut lines, &mut directives, line.at)?;
        lines.push(line)?;
    }
    move_all(&mut lines, &mut directives)?;
    Ok(lines)
}
