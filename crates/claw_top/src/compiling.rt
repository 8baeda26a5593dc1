// The compiler: the program that is made of the sources, or their first fault.
ghost use Rattle.std.specs.Prelude.{◌≡◌, ◌≤◌, [], IfOk, IfErr, MatchOption, length};
ghost use Rattle.fort_tree.specs.declared.choice.Mode.TheVariants.{Source};
ghost use Rattle.fort_units.specs.Program.{IsProgram};
ghost use Rattle.scalar_units.specs.Unbuilt.{IsFirst};
ghost use Rattle.sound_programs.specs.Sound.{IsNested, Sound};
ghost use Rattle.claw_top.specs.Compile.{Compiles, IsTranslation};
ghost use Rattle.claw_top.specs.Judged.{HasJudgedStop};
ghost use Rattle.claw_top.specs.KeptBack.{kept_back};
ghost use Rattle.claw_top.specs.Limits.{most_files, most_bytes, most_lines, total_length};
ghost use Rattle.claw_top.specs.Outcome.{bytes_of, outcome_of, IsInFiles};
ghost use Rattle.claw_top.specs.Sources.{HaveLines, HaveTextStop, HaveProgramStop, AreBefore};

use crate::counting::counts;
use crate::placing::begins_at;
use call_graph::graph_of;
use checked_programs::{Checked, check};
use claw_words::Command;
use column_rules::note_broken;
use fort_lex::lines;
use fort_tree::{Fault, File, Line, Mode, NoMemory, Place, Seq, Stop};
use fort_units::file;
use layout_reading::{layouts_are_read, layouts_spell_one_file};
use name_faults::names;
use std::alloc::Global;
use translated_programs::{
    first_unbuilt, sound_programs_are_translated, translated, units_are_translated,
};
use written_programs::{programs_can_be_written, written_by_number};

/// What is made of the sources.
#[derive(Debug, Drop)]
pub(crate) enum Compiled {
    /// The translated program.
    Program(File),
    /// The line that counts their units.
    Counts(Vec<u8>),
    /// Their first fault.
    Fault(Fault),
}

// Does with the sources what the command says.
pub(crate) fn compile(
    alloc: Global,
    command: Command,
    sources: &[Vec<u8>],
) -> Result<Compiled, NoMemory>
    requires few { length sources.now ≤ most_files }
    requires small { total_length (bytes_of sources.now) ≤ most_bytes }
    ensures compiles { IfOk result (λ compiled. Compiles command (bytes_of sources.now) (outcome_of compiled)) }
    ensures in_files { IfOk result (λ compiled. IsInFiles (length sources.now) (outcome_of compiled)) }
{
    match all_lines(alloc, sources) {
        Ok(lines) => compile_lines(alloc, command, sources, &lines),
        Err(Stop::Fault(fault)) => Ok(Compiled::Fault(fault)),
        Err(Stop::NoMemory) => Err(NoMemory),
    }
}

// The logical lines of all sources, one source after the other.
pub(crate) fn all_lines(alloc: Global, sources: &[Vec<u8>]) -> Result<Seq<Line>, Stop>
    requires few { length sources.now ≤ most_files }
    requires small { total_length (bytes_of sources.now) ≤ most_bytes }
    ensures lines { IfOk result (HaveLines (bytes_of sources.now)) }
    ensures in_files { IfOk result (AreBefore (length sources.now)) }
    ensures few { IfOk result (λ lines. length lines ≤ most_lines) }
    ensures stop { IfErr result (HaveTextStop (bytes_of sources.now)) }
{
    let mut all = Seq::new(alloc);
    let mut file = 0;
    for source in sources {
        lines(alloc, file, source.as_slice(), Mode::Source, &mut all)?;
        file += 1;
    }
    Ok(all)
}

// Compiles the lines of the sources.
fn compile_lines(
    alloc: Global,
    command: Command,
    sources: &[Vec<u8>],
    lines: &Seq<Line>,
) -> Result<Compiled, NoMemory>
    requires lines { HaveLines (bytes_of sources.now) lines.now }
    requires in_files { AreBefore (length sources.now) lines.now }
    requires few { length lines.now ≤ most_lines }
    ensures compiles { IfOk result (λ compiled. Compiles command (bytes_of sources.now) (outcome_of compiled)) }
    ensures in_files { IfOk result (λ compiled. IsInFiles (length sources.now) (outcome_of compiled)) }
{
    match program_of(alloc, sources, lines) {
        Ok(program) => match command {
            Command::Translate(..) => translate(alloc, sources, lines, &program),
            Command::Check => Ok(Compiled::Counts(counts(alloc, program.file())?)),
        },
        Err(Stop::Fault(fault)) => Ok(Compiled::Fault(fault)),
        Err(Stop::NoMemory) => Err(NoMemory),
    }
}

// The program of the lines of the sources, which is sound.
pub(crate) fn program_of(
    alloc: Global,
    sources: &[Vec<u8>],
    lines: &Seq<Line>,
) -> Result<Checked, Stop>
    requires lines { HaveLines (bytes_of sources.now) lines.now }
    requires in_files { AreBefore (length sources.now) lines.now }
    requires few { length lines.now ≤ most_lines }
    ensures spelled { IfOk result (λ program. IsProgram lines.now program.file) }
    ensures sound { IfOk result (λ program. Sound Source program.file) }
    ensures stop { IfErr result (HaveProgramStop (length sources.now) lines.now) }
{
    let program = file(alloc, lines)?;
    judge(alloc, program)
}

// Judges the names of a program, then its calls, and then its kinds, ranks and arguments.
fn judge(alloc: Global, program: File) -> Result<Checked, Stop>
    requires nested { IsNested Source program }
    ensures program { IfOk result (λ checked. checked.file ≡ program) }
    ensures sound { IfOk result (λ checked. Sound Source program) }
    ensures stop { IfErr result (HasJudgedStop program) }
{
    let symbols = names(alloc, &program)?;
    let graph = graph_of(alloc, &program, &symbols)?;
    match check(alloc, program, symbols, graph, Mode::Source) {
        Ok(checked) => {
            checked.is_sound();
            Ok(checked)
        }
        Err(refused) => Err(refused.stop),
    }
}

// The first place that keeps a program from being translated.
#[tactic(auto, using(crate::proofs::Refusing::first_of_both))]
fn first_kept_back(alloc: Global, program: &Checked) -> Result<Option<Place>, NoMemory>
    ensures { IfOk result (λ first. MatchOption first (kept_back program.now.file ≡ []) (λ at. IsFirst at (kept_back program.now.file))) }
{
    let unbuilt = first_unbuilt(alloc, program.file())?;
    let first = note_broken(alloc, unbuilt, program)?;
    Ok(first)
}

// Translates a sound program, or tells where it isn't translated yet.
fn translate(
    alloc: Global,
    sources: &[Vec<u8>],
    lines: &Seq<Line>,
    program: &Checked,
) -> Result<Compiled, NoMemory>
    requires lines { HaveLines (bytes_of sources.now) lines.now }
    requires in_files { AreBefore (length sources.now) lines.now }
    requires spelled { IsProgram lines.now program.now.file }
    requires sound { Sound Source program.now.file }
    ensures compiles { IfOk result (λ compiled. IsTranslation (bytes_of sources.now) (outcome_of compiled)) }
    ensures in_files { IfOk result (λ compiled. IsInFiles (length sources.now) (outcome_of compiled)) }
{
    match first_kept_back(alloc, program)? {
        None => make(alloc, sources, lines, program.file()),
        Some(place) => {
            let begin = begins_at(place, lines.items());
            Ok(Compiled::Fault(Fault::outside_profile(begin, 13)))
        }
    }
}

// Makes the program for all columns of a sound program from whose translation nothing keeps.
fn make(
    alloc: Global,
    sources: &[Vec<u8>],
    lines: &Seq<Line>,
    program: &File,
) -> Result<Compiled, NoMemory>
    requires lines { HaveLines (bytes_of sources.now) lines.now }
    requires spelled { IsProgram lines.now program.now }
    requires sound { Sound Source program.now }
    requires built { kept_back program.now ≡ [] }
    ensures compiles { IfOk result (λ compiled. IsTranslation (bytes_of sources.now) (outcome_of compiled)) }
    ensures in_files { IfOk result (λ compiled. IsInFiles (length sources.now) (outcome_of compiled)) }
{
    units_are_translated();
    sound_programs_are_translated();
    written_by_number();
    programs_can_be_written();
    layouts_are_read();
    layouts_spell_one_file();
    Ok(Compiled::Program(translated(alloc, program)?))
}
