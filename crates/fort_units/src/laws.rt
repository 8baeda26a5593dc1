//! Laws of the definitions, and small texts. The functions do nothing.
ghost use Rattle.fort_units.specs.Places.{FirstFaultInFiles, ProgramInFiles};
ghost use Rattle.fort_units.specs.Rows as rows;
ghost use Rattle.fort_units.specs.Shown.{FaultlessNest};
ghost use Rattle.fort_units.specs.Within.{NestingFaultless, NestingProgram, ProgramsWithin};

/// Forms of a text without a fault of nesting nest into a file.
pub fn forms_without_fault_nest()
    ensures { FaultlessNest }
{}

/// Forms that nest into a file, in texts that follow one another, have no fault of nesting but constructs and blocks past the limit, and none just where the file's
/// are within it.
pub fn forms_that_nest_have_no_fault()
    ensures { NestingFaultless }
{}

/// Lines that each have no fault of their own, none a directive within a continued statement, are a program where their forms nest within the limit, and each program
/// of lines is within it. The lines' texts follow one another.
pub fn lines_that_nest_are_a_program()
    ensures program { NestingProgram }
    ensures within { ProgramsWithin }
{}

/// The faults of small texts.
pub fn nesting_by_example()
    ensures statements { rows.Statements }
    ensures before_statements { rows.Before_statements }
    ensures heads { rows.Heads }
    ensures blocks { rows.Blocks }
    ensures marks { rows.Marks }
    ensures limits { rows.Limits }
{}

/// Where all places of lines are in so many files, so is the place of their first fault, be it one line's own or one of nesting.
pub fn faults_stand_in_files()
    ensures { FirstFaultInFiles }
{}

/// Where all places of lines are in so many files, so are all places in the tree of their program.
pub fn programs_stand_in_files()
    ensures { ProgramInFiles }
{}
