//! Laws of what is written and what is read.

ghost use Rattle.std.specs.Prelude.{◌≡◌, ◌≤◌, ℕ, List, [], false, map};
ghost use Rattle.std.specs.List.{All};
ghost use Rattle.fort_tree.specs.declared.choice.Mode.{Mode};
ghost use Rattle.fort_tree.specs.declared.choice.Mode.TheVariants.{Target};
ghost use Rattle.fort_tree.specs.declared.expr.Expr.{Expr};
ghost use Rattle.fort_tree.specs.declared.fault.Fault.{Fault};
ghost use Rattle.fort_tree.specs.declared.statement.Line.{Line};
ghost use Rattle.fort_tree.specs.declared.statement.Statement.{Statement, out-Statement};
ghost use Rattle.fort_tree.specs.declared.statement.Token.{Token};
ghost use Rattle.fort_tree.specs.declared.stmt.Stmt.{Stmt};
ghost use Rattle.fort_tree.specs.declared.unit.File.{File};
ghost use Rattle.fort_lex.specs.Lines.{HasLines, Written, written};
ghost use Rattle.fort_spell.specs.Expressions.{expr_pieces};
ghost use Rattle.fort_spell.specs.Rows.{Row, text};
ghost use Rattle.fort_spell.specs.Statements.{stmts_rows};
ghost use Rattle.fort_spell.specs.Units.{file_rows, layout_of};
ghost use Rattle.fort_units.specs.Program.{IsProgram};
ghost use Rattle.claw_meaning.specs.Plain.{plain_file};
ghost use Rattle.sound_programs.specs.Nesting.{Inside};
ghost use Rattle.layout_reading.specs.FormLines.{AreLinesOf, TokenLine};
ghost use Rattle.layout_reading.specs.Nested.{ArePrintable, AreStatements};
ghost use Rattle.layout_reading.specs.Printable.{AreExpression, IsPrintable};
ghost use Rattle.layout_reading.specs.Programs.{AreFile, IsPrintableFile, Spells, token_line};
ghost use Rattle.layout_reading.specs.Readable.{ArePieces, AreReadable};
ghost use Rattle.layout_reading.specs.Shown.{AreRead, line_of, shown};
ghost use Rattle.layout_reading.specs.Statements.{AreStatement, IsOneRow, IsStatementOfTokens, statement_pieces};
ghost use Rattle.layout_reading.specs.SmallPrograms.{idle_file, idle_text};
ghost use Rattle.layout_reading.specs.Readings.{HasToken};
ghost use Rattle.layout_reading.specs.Tokens.{piece_texts, texts};
ghost use Rattle.layout_reading.specs.WideUnits.{SourcesWritable, WideUnitsPrintable};
ghost use Rattle.layout_reading.specs.WholeTexts.{AreReadAs, IsReadAs, IsWholeFile};

use claw_lines::reading_is_unique;
use fort_lex::lines_are_unique;
use fort_stmt::statements_are_derived;
use fort_units::lines_that_nest_are_a_program;
use sound_programs::forms_nest_into_one_file;

/// The text of rows, spaced and broken into lines, is read as a line for each row, in order, with the tokens of its pieces, and no other.
pub fn rows_are_read()
    ensures read { (file : ℕ) (mode : Mode) (rows : List Row) → AreReadable rows → AreRead file mode rows }
    ensures alone { (file : ℕ) (mode : Mode) (rows : List Row) (lines : List Written) (faults : List Fault) → AreReadable rows → HasLines file mode (text rows) lines faults → (map shown lines ≡ map (line_of mode) rows) × (faults ≡ []) }
{
    lines_are_unique();
}

/// The pieces of an expression stand off from each other, and tokens with their texts are the expression again, its places set aside.
pub fn expressions_are_read()
    ensures apart { (e : Expr) → IsPrintable e → ArePieces (expr_pieces e false []) }
    ensures derived { (e : Expr) (tokens : List Token) → IsPrintable e → texts tokens ≡ piece_texts (expr_pieces e false []) → AreExpression tokens e }
{}

/// The pieces of a statement that is one row stand off from each other, and tokens with their texts are the statement again, places set aside.
pub fn statements_are_read()
    ensures apart { (s : Statement) → IsStatementOfTokens s → IsOneRow (out-Statement s) → ArePieces (statement_pieces (out-Statement s) false []) }
    ensures derived { (s : Statement) (tokens : List Token) → IsStatementOfTokens s → IsOneRow (out-Statement s) → texts tokens ≡ piece_texts (statement_pieces (out-Statement s) false []) → AreStatement tokens s }
{}

/// The rows of statements can be read, and lines with their tokens nest into the statements again, places set aside.
pub fn bodies_nest_again()
    ensures apart { (around : Inside) (statements : List Stmt) (indent : ℕ) → indent ≤ 40 → ArePrintable around statements → AreReadable (stmts_rows statements indent []) }
    ensures nested { (around : Inside) (statements : List Stmt) (indent file : ℕ) (lines : List TokenLine) → ArePrintable around statements → AreLinesOf file (stmts_rows statements indent []) lines → AreStatements around statements lines }
{}

/// The rows of a file can be read, and lines with their tokens have forms that nest into the file again, places set aside.
pub fn files_nest_again()
    ensures apart { (file : File) → IsPrintableFile file → AreReadable (file_rows file) }
    ensures nested { (number : ℕ) (file : File) (lines : List TokenLine) → IsPrintableFile file → AreLinesOf number (file_rows file) lines → AreFile lines file }
{}

/// The text of a file's layout is read as the file, places set aside: it has no fault, and its lines, which are its only ones, have forms that nest into the file.
pub fn layouts_are_read()
    ensures read { (number : ℕ) (file : File) → IsPrintableFile file → Spells number (layout_of file) file }
    ensures alone { (number : ℕ) (file : File) (lines : List Line) (faults : List Fault) → IsPrintableFile file → HasLines number Target (layout_of file) (map written lines) faults → AreFile (map token_line lines) file × (faults ≡ []) }
{
    lines_are_unique();
}

/// The text of a file's layout spells that file and no other, places set aside: whatever program its lines are read as, and whatever file their forms nest into,
/// has the file's plain tree. So files with one layout have one plain tree.
pub fn layouts_spell_one_file()
    ensures program { (number : ℕ) (file other : File) (lines : List Line) (faults : List Fault) → IsPrintableFile file → HasLines number Target (layout_of file) (map written lines) faults → IsProgram lines other → plain_file other ≡ plain_file file }
    ensures spelled { (number : ℕ) (file other : File) → IsPrintableFile file → Spells number (layout_of file) other → plain_file other ≡ plain_file file }
    ensures same { (file other : File) → IsPrintableFile file → IsPrintableFile other → layout_of other ≡ layout_of file → plain_file other ≡ plain_file file }
{
    layouts_are_read();
    statements_are_derived();
    reading_is_unique();
    forms_nest_into_one_file();
}

/// Where a file's text is within the limits of a target text, it is read as a program, which is the file, places set aside: it has no fault, and its lines, which are its
/// only ones, are a program of the file's plain tree.
pub fn layouts_are_programs()
    ensures read { (number : ℕ) (file : File) → IsWholeFile file → IsReadAs number (layout_of file) file }
    ensures alone { (number : ℕ) (file : File) (lines : List Line) (faults : List Fault) → IsWholeFile file → HasLines number Target (layout_of file) (map written lines) faults → AreReadAs lines file × (faults ≡ []) }
{
    layouts_are_read();
    lines_are_unique();
    statements_are_derived();
    reading_is_unique();
    lines_that_nest_are_a_program();
}

/// A unit of column scalars whose names can be written, and whose sums tokens derive, can be written for all columns. The names and sums of a unit that lines spell are
/// such.
pub fn wide_units_are_printable()
    ensures printable { WideUnitsPrintable }
    ensures spelled { SourcesWritable }
{}

/// Lines, each with a token, are read as one program at most, places included.
pub fn programs_are_unique()
    ensures { (lines : List Line) (file other : File) → All HasToken lines → IsProgram lines file → IsProgram lines other → file ≡ other }
{
    reading_is_unique();
    forms_nest_into_one_file();
}

/// Files of one plain tree have one layout: it does not depend on places.
pub fn layouts_forget_places()
    ensures { (these those : File) → plain_file these ≡ plain_file those → layout_of these ≡ layout_of those }
{}

/// A program that can be written, and its text.
pub fn a_printable_program()
    ensures printable { IsPrintableFile idle_file }
    ensures text { layout_of idle_file ≡ idle_text }
{}
