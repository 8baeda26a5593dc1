//! The first place that keeps a unit from being one of column scalars.
ghost use Rattle.std.specs.Prelude.{◌≡◌, map};
ghost use Rattle.scalar_units.specs.Unbuilt.{of_unit, of_decls, of_body, of_marks, unless as unless_at, is_earlier as earlier_test, note as note_one, noted, place_of as place_of_statement};

use crate::header::{is_declaration, is_header};
use crate::marks::{is_define, is_parallelize};
use crate::sums::is_assignment;
use fort_tree::{Place, Stmt, Unit, Use};

const NOWHERE: Place = Place {
    file: 0,
    line: 0,
    column: 0,
};

/// Whether the first place stands before the second.
fn is_earlier(at: Place, other: Place) -> bool
    ensures { result ≡ earlier_test at other }
{
    at.file < other.file
        || (at.file == other.file
            && (at.line < other.line || (at.line == other.line && at.column < other.column)))
}

/// The first place so far, after one more: by file, line and column.
pub fn note(least: Option<Place>, at: Place) -> Option<Place>
    ensures { result ≡ note_one least at }
{
    match least {
        None => Some(at),
        Some(least) => {
            let earlier = is_earlier(at, least);
            if earlier { Some(at) } else { Some(least) }
        }
    }
}

/// The first place so far, after one more where the test fails.
pub fn note_unless(least: Option<Place>, holds: bool, at: Place) -> Option<Place>
    ensures { result ≡ noted (unless_at holds at) least }
{
    if holds { least } else { note(least, at) }
}

/// The place of a statement.
fn place_of(stmt: &Stmt) -> Place
    ensures { result ≡ place_of_statement stmt.now }
{
    match stmt {
        Stmt::Assign { at, .. }
        | Stmt::Call { at, .. }
        | Stmt::If { at, .. }
        | Stmt::Select { at, .. }
        | Stmt::Loop { at, .. }
        | Stmt::Block { at, .. } => *at,
        Stmt::Exit(at) | Stmt::Cycle(at) | Stmt::Return(at) => *at,
        Stmt::Piece(..) => NOWHERE,
    }
}

fn note_uses(least: Option<Place>, uses: &[Use]) -> Option<Place>
    ensures { result ≡ noted (map (λ line. line.at) uses.now) least }
{
    let mut least = least;
    for line in uses {
        least = note(least, line.at);
    }
    least
}

fn note_decls(least: Option<Place>, unit: &Unit) -> Option<Place>
    ensures { result ≡ noted (of_decls unit.now unit.now.decls) least }
{
    let mut least = least;
    for decl in unit.decls.items() {
        least = note_unless(least, is_declaration(unit, decl), decl.at);
    }
    least
}

fn note_body(least: Option<Place>, unit: &Unit) -> Option<Place>
    ensures { result ≡ noted (of_body unit.now unit.now.body) least }
{
    let mut least = least;
    for stmt in unit.body.items() {
        least = note_unless(least, is_assignment(unit, stmt), place_of(stmt));
    }
    least
}

fn note_marks(least: Option<Place>, unit: &Unit) -> Option<Place>
    ensures { result ≡ noted (of_marks unit.now unit.now.marks) least }
{
    match unit.marks.items() {
        [] => note(least, unit.at),
        [only] => note(least, only.at),
        [define, parallelize] => {
            let least = note_unless(least, is_define(unit, define), define.at);
            note_unless(least, is_parallelize(unit, parallelize), parallelize.at)
        }
        [_, _, third, ..] => note(least, third.at),
    }
}

/// The first place so far, after those that keep a unit from being one of column scalars. They are
/// - the name in the header, where the unit is a FUNCTION or stands in a module, has no dummies or no directives, or has a dummy that doesn't stand once in the header and isn't declared once;
/// - the module's name in a USE line;
/// - a declared name that is no dummy, or no default INTEGER scalar with an INTENT;
/// - the sentinel of a directive that isn't the first of `define dimension ID (LOWER:UPPER)`, LOWER a number and ID and UPPER two new names, and `parallelize data(NAMES)` behind
///   it, NAMES the dummies, each once;
/// - the first token of a statement that isn't the assignment of a sum of products of dummies and numbers to a dummy that isn't INTENT(IN).
///
/// Numbers have no suffix and are of kind 4. It takes no memory. The rules are this project's own.
pub fn note_unit(least: Option<Place>, unit: &Unit) -> Option<Place>
    ensures { result ≡ noted (of_unit unit.now) least }
{
    let least = note_unless(least, is_header(unit), unit.at);
    let least = note_uses(least, unit.uses.items());
    let least = note_decls(least, unit);
    let least = note_marks(least, unit);
    note_body(least, unit)
}
