ghost use Rattle.std.specs.Prelude.{◌≤◌, length, IfOk};

use crate::compiling::{Compiled, all_lines, compile, program_of as checked_program_of};
use checked_programs::Checked;
use claw_words::Command;
use fort_lex::lines;
use fort_spell::spell;
use fort_tree::{Code, Directives, Fault, File, Mode, NoMemory, Seq, Target};
use fort_units::file;
use outside::{MemSink, Numbers};
use std::alloc::Global;

const TRANSLATE: Command = Command::Translate(Target::Cpu, Directives::Plain);

const SOURCE: &str =
    "! comment\nsubroutine s(a) ! dummy\n  integer, intent(out) &\n    :: a\n!$claw define dimension c(1:n) &\n!$claw parallelize data(a)\n  a = 1; a = a + &\n  2\nend subroutine s\n";

// The bytes of a small text.
fn bytes_of(alloc: Global, text: &str) -> Result<Vec<u8>, NoMemory>
    ensures { IfOk result (λ bytes. length bytes.items ≤ 2000000) }
{
    let bytes = text.as_bytes();
    if bytes.len() > 2000000 {
        return Err(NoMemory);
    }
    Ok(Vec::from_slice(alloc, bytes)?)
}

// The fault of one source, if there is one.
fn fault_of(alloc: Global, text: &str) -> Result<Option<Fault>, NoMemory> {
    let mut sources = Vec::new(alloc);
    sources.push(bytes_of(alloc, text)?)?;
    Ok(match compile(alloc, TRANSLATE, &sources)? {
        Compiled::Program(_) | Compiled::Counts(_) => None,
        Compiled::Fault(fault) => Some(fault),
    })
}

// The fault of two sources, if there is one.
fn fault_of_two(alloc: Global, first: &str, second: &str) -> Result<Option<Fault>, NoMemory> {
    let mut sources = Vec::new(alloc);
    sources.push(bytes_of(alloc, first)?)?;
    sources.push(bytes_of(alloc, second)?)?;
    Ok(match compile(alloc, TRANSLATE, &sources)? {
        Compiled::Program(_) | Compiled::Counts(_) => None,
        Compiled::Fault(fault) => Some(fault),
    })
}

// One source, and the line of its fault, or 0 where a program is made.
#[test]
fn one_source(rt: HostRuntime) {
    let cases = [
        ("", 0),
        (" \n\t\n", 0),
        (SOURCE, 0),
        (
            "SUBROUTINE s(A)\n\n\tInteger , Intent ( In ) :: a\n!$CLAW Define Dimension c(1:n)\tParallelize Data(a)\nEnd Subroutine",
            0,
        ),
        (
            "subroutine s(a)\nimplicit none\ninteger,intent(out)::a\n!$claw define dimension c(1:n) parallelize data(a)\na=-1*a+2\nend subroutine s\n",
            0,
        ),
        ("module m\n", 1),
        ("subroutine s(a)\nimplicit none\nimplicit none\n", 3),
        ("subroutine s(a)\n\nend subroutine\n", 1),
        ("subroutine s(a)\ninteger, intent(in) :: a\n", 2),
        ("subroutine s(a)\ninteger, intent(in) :: a;\n", 2),
        ("subroutine s(a)\ninteger, intent(in) :: &\n", 2),
        (
            "subroutine s(a)\ninteger, intent(in) &\n!$claw define dimension c(1:n) parallelize data(a)\n:: a\nend subroutine",
            3,
        ),
        ("subroutine s(if)\n", 1),
        ("subroutine s(claw_a)\n", 1),
        (
            "subroutine s(a)\ninteger, intent(in) :: a, claws\n!$claw define dimension c(1:n) parallelize data(a)\nend subroutine",
            2,
        ),
        (
            "subroutine s(a,b)\ninteger, intent(out) :: a\n!$claw define dimension c(1:n) parallelize data(a,b)\nend subroutine",
            1,
        ),
        (
            "subroutine s(a,a)\ninteger, intent(out) :: a\n!$claw define dimension c(1:n) parallelize data(a)\nend subroutine",
            1,
        ),
        (
            "subroutine s(a)\ninteger, intent(out) :: a, a\n!$claw define dimension c(1:n) parallelize data(a)\nend subroutine",
            2,
        ),
        (
            "\nsubroutine s(a)\ninteger, intent(out) :: a\n!$claw define dimension c(1:n) parallelize data(a)\na=b\nend subroutine",
            5,
        ),
        (
            "subroutine s(a)\ninteger, intent(in) :: a\n!$claw define dimension c(1:n) parallelize data(a)\na=1\nend subroutine",
            4,
        ),
        (
            "subroutine s(a)\ninteger, intent(out) :: a\n!$claw define dimension c(1:c) parallelize data(a)\nend subroutine",
            1,
        ),
        (
            "subroutine s(a)\ninteger, intent(out) :: a\n!$claw define dimension s(1:n) parallelize data(a)\nend subroutine",
            1,
        ),
        (
            "subroutine s(a)\ninteger, intent(out) :: a\n!$claw define dimension c(1:n) parallelize data(a,a)\nend subroutine",
            1,
        ),
        (
            "subroutine s(a)\ninteger, intent(out) :: a\n!$claw define dimension c(1:n) parallelize data(a)\nend subroutine t",
            4,
        ),
        (
            "subroutine s(a)\ninteger, intent(out) :: a\n!$claw define dimension c(2147483648:n) parallelize data(a)\nend subroutine",
            3,
        ),
        (
            "subroutine s(a)\ninteger, intent(out) :: a\n!$claw define dimension c(1_4:n) parallelize data(a)\nend subroutine",
            1,
        ),
        (
            "subroutine s(a)\ninteger, intent(out) :: a\n!$claw define dimension c(1:n) parallelize data(a)\na=1 +\nend subroutine",
            4,
        ),
        (
            "subroutine s(a)\ninteger, intent(out) :: a\n!$claw define dimension c(1:n) parallelize data(a)\nend subroutine\na=1",
            5,
        ),
        ("subroutine s(a)\na = #\n", 2),
        (
            "subroutine s(a,b)\ninteger, intent(out) :: a, b\n!$claw define dimension c(1:n) parallelize data(a)\nend subroutine",
            1,
        ),
        (
            "subroutine s(a)\ninteger, intent(out) :: a\n!$claw define dimension a(1:n) parallelize data(a)\nend subroutine",
            1,
        ),
        (
            "subroutine s(a)\ninteger, intent(out) :: a\n!$claw define dimension c(1:a) parallelize data(a)\nend subroutine",
            1,
        ),
        (
            "subroutine s(a)\ninteger, intent(out) :: a\n!$claw define dimension c(1:s) parallelize data(a)\nend subroutine",
            1,
        ),
        (
            "module n\nend module\nsubroutine s(a)\ninteger, intent(out) :: a\n!$claw define dimension c(1:n) parallelize data(a)\nend subroutine",
            3,
        ),
        (
            "module c\nend module\nsubroutine s(a)\ninteger, intent(out) :: a\n!$claw define dimension c(1:n) parallelize data(a)\nend subroutine",
            3,
        ),
    ];

    for (text, line) in cases {
        let fault = fault_of(rt.alloc(), text).expect(&rt, "room");
        assert_eq!(rt; fault.map_or(0, |fault| fault.place.line), line, "{text}");
    }
}

// Units with one fault each: of names, of calls, and of kinds.
const NAMES: &str = "subroutine a\nx = 1\nend subroutine\n";

const OTHER_NAMES: &str = "subroutine b\ny = 1\nend subroutine\n";

const CALLS: &str = "subroutine c\ncall c\nend subroutine\n";

const OTHER_CALLS: &str = "subroutine d\ncall d\nend subroutine\n";

const KINDS: &str = "subroutine e\nlogical :: x\nx = 1\nend subroutine\n";

const OTHER_KINDS: &str = "subroutine f\nlogical :: x\nx = 1\nend subroutine\n";

// One fault of names in each line.
const TWO_NAMES: &str = "subroutine g\ninteger :: x\nx = y\ny = 1\nend subroutine\n";

// A kind, an alias and a write at one place.
const ONE_PLACE: &str =
    "subroutine s(y)\ninteger(8), intent(in) :: y\ncall t(y, y)\nend\nsubroutine t(y, z)\ninteger(8), intent(in) :: y\ninteger, intent(out) :: z\nz = 1\nend\n";

// An alias and a write at one place.
const ALIAS: &str =
    "subroutine s(y)\ninteger, intent(in) :: y\ncall t(y, y)\nend\nsubroutine t(y, z)\ninteger, intent(in) :: y\ninteger, intent(out) :: z\nz = 1\nend\n";

// Two sources, and the code, the file, the line and the column of their first fault.
#[test]
fn two_sources(rt: HostRuntime) {
    let cases = [
        (SOURCE, SOURCE, Code::E31, 1, 2, 12),
        (
            "subroutine s(a)\ninteger, intent(out) :: a\n!$claw define dimension c(1:n) parallelize data(a)\n",
            "\nend subroutine\n",
            Code::E11,
            0,
            2,
            1,
        ),
        ("subroutine s(a)\n", "", Code::E11, 0, 1, 1),
        // a fault of the text in the second file comes before one of the syntax in the first, one of the syntax before one of names, and so on
        ("module m\n", "a = #\n", Code::E03, 1, 1, 5),
        (NAMES, "x = 1\n", Code::E11, 1, 1, 1),
        (KINDS, NAMES, Code::E30, 1, 2, 1),
        (KINDS, CALLS, Code::E36, 1, 2, 6),
        (CALLS, NAMES, Code::E30, 1, 2, 1),
        // of one phase the first file's
        ("a = #\n", "#\n", Code::E03, 0, 1, 5),
        (NAMES, OTHER_NAMES, Code::E30, 0, 2, 1),
        (CALLS, OTHER_CALLS, Code::E36, 0, 2, 6),
        (KINDS, OTHER_KINDS, Code::E32, 0, 3, 5),
        // of one file the first place's, and of one place the smallest code
        (TWO_NAMES, "", Code::E30, 0, 3, 5),
        ("", ONE_PLACE, Code::E32, 1, 3, 11),
        ("", ALIAS, Code::E38, 1, 3, 11),
    ];

    for (first, second, code, file, line, column) in cases {
        let fault = fault_of_two(rt.alloc(), first, second)
            .expect(&rt, "room")
            .expect(&rt, "fault");
        let place = fault.place;
        assert!(rt;
            fault.code == code && place.file == file && place.line == line && place.column == column
        );
    }
}

#[test]
fn second_source_alone(rt: HostRuntime) {
    let fault = fault_of_two(rt.alloc(), "", SOURCE).expect(&rt, "room");
    assert!(rt; fault.is_none());
}

// The sound program of a small text, if it has no fault.
fn checked_of(alloc: Global, text: &str) -> Option<Checked> {
    let mut sources = Vec::new(alloc);
    sources.push(bytes_of(alloc, text).ok()?).ok()?;
    let all = all_lines(alloc, &sources).ok()?;
    checked_program_of(alloc, &sources, &all).ok()
}

// A sound program has the scopes and calls of its units.
#[test]
fn sound_program(rt: HostRuntime) {
    let checked = checked_of(rt.alloc(), "subroutine s\ncall t\nend\nsubroutine t\nend\n").expect(
        &rt, "sound",
    );
    checked.is_sound();
    assert_eq!(rt; checked.symbols().units().len(), 2);
    assert_eq!(rt; checked.graph().order().len(), 2);
    assert_eq!(rt; checked.file().units.len(), 2);
    assert_eq!(rt; checked.into_file().units.len(), 2);
}

// The program of a small text, where it has no fault.
fn program_of(alloc: Global, text: &str) -> Option<File> {
    let bytes = bytes_of(alloc, text).ok()?;
    let mut all = Seq::new(alloc);
    lines(alloc, 0, bytes.as_slice(), Mode::Source, &mut all).ok()?;
    if all.len() > 1000000 {
        return None;
    }
    file(alloc, &all).ok()
}

// What is read is spelled again, in the layout of this project's own.
#[test]
fn spelled_again(rt: HostRuntime) {
    let program = program_of(
        rt.alloc(),
        "SUBROUTINE s\nx=-2**2; y = ( a-b )-(c-d)\nz=2**( -1 )\nif(x/=1)then;t = x<y .AND.z>1\nendif\nend\n",
    )
    .expect(&rt, "program");
    let mut out = MemSink::new(rt.alloc(), 1000, Numbers::new(rt.alloc())).expect(&rt, "room");
    assert!(rt; spell(&program, &mut out).is_ok());
    assert!(rt;
        out.text()
            == b"subroutine s()\n  implicit none\n  x = -2**2\n  y = (a-b)-(c-d)\n  z = 2**(-1)\n  if (x /= 1) t = x < y .and. z > 1\nend subroutine s\n".as_slice()
    );
}
