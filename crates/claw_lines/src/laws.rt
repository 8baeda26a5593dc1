//! Laws of the definitions. The functions do nothing; what they ensure holds of all lines, or of the examples that are named.
ghost use Rattle.std.specs.Prelude.{◌≡◌, List};
ghost use Rattle.fort_tree.specs.declared.statement.Line.{Line};
ghost use Rattle.fort_tree.specs.declared.stmt.Directive.{Directive};
ghost use Rattle.claw_lines.specs.Forms.{Directs, IsLine};
ghost use Rattle.claw_lines.specs.Examples.{column, forward_line, forwarded, dimension_line, dimensioned, forward_with_data, hoist_of_nothing};

/// A line asks for one list of directives at most.
pub fn reading_is_unique()
    ensures { (line : Line) (these those : List Directive) → Directs line these → Directs line those → these ≡ those }
{}

/// `forward` and `define dimension` with `parallelize`; and `forward` with data and a hoist of no names, which are no forms.
pub fn lines_by_example()
    ensures forward { IsLine (column 1) forward_line forwarded }
    ensures dimension { IsLine (column 1) dimension_line dimensioned }
    ensures forward_alone { (directives : List Directive) → IsLine (column 1) forward_with_data directives → ⊥ }
    ensures some_name { (directives : List Directive) → IsLine (column 1) hoist_of_nothing directives → ⊥ }
{}
