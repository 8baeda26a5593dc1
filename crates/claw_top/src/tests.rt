use crate::claw;
use outside::{FileList, MemShelf, MemSink, Numbers};
use std::alloc::{AllocError, Global};
use std::test::Fail;

const SOURCE: &str =
    "subroutine add(a, b)\n  integer, intent(in) :: a\n  integer, intent(inout) :: b\n  !$claw define dimension col(1:ncol) parallelize data(a, b)\n  b = b + a*2\nend subroutine add\n";

const TRANSLATED: &str =
    "subroutine add(a, b, ncol)\n  implicit none\n  integer, intent(in) :: ncol\n  integer, intent(in) :: a(1:ncol)\n  integer, intent(inout) :: b(1:ncol)\n  integer :: col\n  if (ncol < 1) return\n  do col = 1, ncol\n    b(col) = b(col)+a(col)*2\n  end do\nend subroutine add\n";

// Numbers of calls that fail, of which 0 is none.
fn failing(alloc: Global, number: u64) -> Result<Numbers, AllocError> {
    let mut numbers = Numbers::new(alloc);
    numbers.push(number)?;
    Ok(numbers)
}

fn shelf_of(alloc: Global, source: &str) -> Result<MemShelf, AllocError> {
    let mut files = FileList::new(alloc);
    files.push("one.f90", source.as_bytes())?;
    Ok(MemShelf::new(files, Numbers::new(alloc)))
}

fn sink(alloc: Global) -> Result<MemSink, AllocError> {
    MemSink::new(alloc, 1000, Numbers::new(alloc))
}

// One unit of column scalars is translated.
#[test]
fn translates_one_unit(rt: HostRuntime) -> Result<(), Fail> {
    let mut shelf = shelf_of(rt.alloc(), SOURCE)?;
    let mut out = sink(rt.alloc())?;
    let mut err = sink(rt.alloc())?;
    let words = ["claw", "translate", "one.f90"];
    assert_eq!(rt; claw(rt.alloc(), &words, &mut shelf, &mut out, &mut err), 0);
    assert!(rt; out.text() == TRANSLATED.as_bytes());
    assert!(rt; err.text().is_empty());
    Ok(())
}

const PHYSICS: &str =
    "module m\n  integer :: total\ncontains\n  integer function twice(n)\n    integer, intent(in) :: n\n    twice = 2*n\n  end function\nend module\nsubroutine s(n, q)\n  use m\n  integer :: k\n  integer, intent(inout) :: q(n)\n  integer, intent(in) :: n\n  integer, parameter :: one = 1\n  do k = one, n; q(k) = q(k) + twice(k); end do\n  if (n > 3) total = sum(q)\nend\n";

const WRITTEN_PHYSICS: &str =
    "module m\n  implicit none\n  integer :: total\ncontains\n  function twice(n)\n    integer, intent(in) :: n\n    integer :: twice\n    twice = 2*n\n  end function twice\nend module m\nsubroutine s(n, q)\n  use m\n  implicit none\n  integer, parameter :: one = 1\n  integer, intent(in) :: n\n  integer :: k\n  integer, intent(inout) :: q(n)\n  do k = one, n\n    q(k) = q(k)+twice(k)\n  end do\n  if (n > 3) total = sum(q)\nend subroutine s\n";

// What a source is translated to.
fn is_translated(rt: &HostRuntime, source: &str, text: &[u8]) -> Result<bool, AllocError> {
    let mut shelf = shelf_of(rt.alloc(), source)?;
    let mut out = sink(rt.alloc())?;
    let mut err = sink(rt.alloc())?;
    let words = ["claw", "translate", "one.f90"];
    let status = claw(rt.alloc(), &words, &mut shelf, &mut out, &mut err);
    Ok(status == 0 && out.text() == text)
}

// Units without columns are written with their declarations in groups, beside units for all columns.
#[test]
fn translates_other_units(rt: HostRuntime) -> Result<(), Fail> {
    let both = format!(in rt.alloc(); "{PHYSICS}{SOURCE}")?;
    let written = format!(in rt.alloc(); "{WRITTEN_PHYSICS}{TRANSLATED}")?;
    assert!(rt; is_translated(&rt, "", b"".as_slice())?);
    assert!(rt; is_translated(&rt, PHYSICS, WRITTEN_PHYSICS.as_bytes())?);
    assert!(rt; is_translated(&rt, both.as_str(), written.as_bytes())?);
    assert!(rt;
        is_translated(
            &rt,
            "  module m\n  end module\n",
            b"module m\n  implicit none\nend module m\n".as_slice()
        )?
    );
    Ok(())
}

// Each prefix of a source is translated or refused, and a refusal writes nothing.
#[test]
fn prefixes(rt: HostRuntime) -> Result<(), Fail> {
    let words = ["claw", "translate", "one.f90"];
    for length in 0..SOURCE.len() {
        let mut files = FileList::new(rt.alloc());
        files.push("one.f90", &SOURCE.as_bytes()[..length])?;
        let mut shelf = MemShelf::new(files, Numbers::new(rt.alloc()));
        let mut out = sink(rt.alloc())?;
        let mut err = sink(rt.alloc())?;
        let status = claw(rt.alloc(), &words, &mut shelf, &mut out, &mut err);
        assert!(rt; status == 0 || status == 1, "{length}");
        assert!(rt; (status == 1) == !err.text().is_empty(), "{length}");
        assert!(rt; status == 0 || out.text().is_empty(), "{length}");
    }
    Ok(())
}

// A refused source has its report, and nothing is written.
#[test]
fn refusals(rt: HostRuntime) -> Result<(), Fail> {
    let words = ["claw", "translate", "one.f90"];
    let cases = [
        ("module m\n", "one.f90:1:1: E11 nesting\n"),
        ("\n\n\n\n\n\n\n\n\n  end\n", "one.f90:10:3: E11 nesting\n"),
        ("subroutine s(a)\n  call f\n", "one.f90:2:1: E11 nesting\n"),
        ("subroutine s(a)\n", "one.f90:1:1: E11 nesting\n"),
        (
            "subroutine add(a, b)\n  integer, intent(in) :: a\n  integer, intent(inout) :: b\n  !$claw define dimension col(1:ncol) parallelize data(a, b)\n  b = b +\nend subroutine add\n",
            "one.f90:5:9: E10 syntax\n",
        ),
        (
            "subroutine add(a, b)\n  integer, intent(in) :: a\n  integer, intent(inout) :: b\n  !$claw define dimension col(1:ncol) parallelize data(a, b)\n  b = b + c*2\nend subroutine add\n",
            "one.f90:5:11: E30 undeclared name\n",
        ),
        (
            "module m\ncontains\n  subroutine s(a)\n    integer, intent(out) :: a\n    !$claw define dimension c(1:n) parallelize data(a)\n  end\nend\n",
            "one.f90:3:3: E20 not in the profile 13\n",
        ),
        (
            "subroutine t(x)\n  integer, intent(out) :: x\n  call s(x)\nend\nsubroutine s(a)\n  integer, intent(out) :: a\n  !$claw define dimension c(1:n) parallelize data(a)\n  a = 1\nend\n",
            "one.f90:3:3: E20 not in the profile 13\n",
        ),
        (
            "subroutine t(x)\n  integer, intent(inout) :: x(3)\n  integer :: k\n  !$claw loop-fusion\n  do k = 1, 3\n    x(k) = k\n  end do\nend\n",
            "one.f90:4:3: E20 not in the profile 13\n",
        ),
        (
            "subroutine n\nend\nsubroutine s(a)\n  integer, intent(out) :: a\n  !$claw define dimension c(1:n) parallelize data(a)\n  a = 1\nend\n",
            "one.f90:3:1: E20 not in the profile 13\n",
        ),
        // a rule of column units that is broken is told at the header: a shared dummy, RETURN, a module variable, a bound
        (
            "\n  subroutine s(a, b)\n  integer, intent(out) :: a, b\n  !$claw define dimension c(1:n) parallelize data(a)\n  a = 1\n  b = 2\nend\n",
            "one.f90:2:3: E20 not in the profile 13\n",
        ),
        (
            "subroutine s(a, b)\n  integer, intent(out) :: a\n  integer, intent(in) :: b\n  !$claw define dimension c(1:n) parallelize data(a)\n  a = b\nend\n",
            "one.f90:4:3: E20 not in the profile 13\n",
        ),
        (
            "subroutine s(a)\n  integer, intent(out) :: a\n  !$claw define dimension c(1:n) parallelize data(a)\n  a = 1\n  if (a > 2) then\n    return\n  end if\nend\n",
            "one.f90:1:1: E20 not in the profile 13\n",
        ),
        (
            "module m\n  integer :: v\nend\nsubroutine s(a)\n  use m\n  integer, intent(out) :: a\n  !$claw define dimension c(1:n) parallelize data(a)\n  a = 1\n  v = 2\nend\n",
            "one.f90:4:1: E20 not in the profile 13\n",
        ),
        (
            "module m\n  integer :: v\nend\nsubroutine s(a)\n  use m\n  integer, intent(out) :: a\n  !$claw define dimension c(1:n) parallelize data(a)\n  a = v\nend\n",
            "one.f90:5:3: E20 not in the profile 13\n",
        ),
        (
            "subroutine s(k, a)\n  integer, intent(in) :: k, a(k)\n  !$claw define dimension c(1:n) parallelize data(k, a)\nend\n",
            "one.f90:1:1: E20 not in the profile 13\n",
        ),
        (
            "subroutine s(a)\n  integer, intent(in) :: a\n  !$claw define dimension c(1:n) parallelize data(a)\n  a = 1\nend\n",
            "one.f90:4:3: E3A write\n",
        ),
        (
            "subroutine s(a)\n  integer, intent(out) :: a\n  !$claw define dimension c(1:n) parallelize data(a)\n  call f\nend\n",
            "one.f90:4:8: E35 unit\n",
        ),
        (
            "subroutine s(a)\n  integer, intent(out) :: a\n  integer :: &\n   k\n  !$claw define dimension c(1:n) parallelize data(a)\nend\n",
            "one.f90:3:3: E20 not in the profile 13\n",
        ),
        (
            "integer :: aaaaaaaaaaaaaaaaaaaaaaaaaaaaaaaaaaaaaaaaaaaaaaaaaaaaaaaaaaaaaaaa\n",
            "one.f90:1:12: E03 bad token\n",
        ),
        (
            "integer :: aaaaaaaaaaaaaaaaaaaaaaaaaaaaaaaaaaaaaaaaaaaaaaaaaaaaaaaaaaaaaaa\n",
            "one.f90:1:1: E11 nesting\n",
        ),
        (
            "a                                                                                                                                  b\n",
            "one.f90:1:132: E10 syntax\n",
        ),
        (
            " a                                                                                                                                  b\n",
            "one.f90:1:133: E02 line too long\n",
        ),
        ("! \u{e9}\n  a = \u{e9}\n", "one.f90:2:7: E01 bad byte\n"),
    ];
    for (source, report) in cases {
        let mut shelf = shelf_of(rt.alloc(), source)?;
        let mut out = sink(rt.alloc())?;
        let mut err = sink(rt.alloc())?;
        assert_eq!(rt; claw(rt.alloc(), &words, &mut shelf, &mut out, &mut err), 1);
        assert!(rt; err.text() == report.as_bytes(), "{report}");
        assert!(rt; out.text().is_empty(), "{report}");
    }
    Ok(())
}

// Words that are a request and words that are none, and files that are not there.
#[test]
fn words_and_files(rt: HostRuntime) -> Result<(), Fail> {
    let usage = "usage: claw translate, check, run, run-target or gen\n";
    let cases: [(&[&str], u8, &str); 15] = [
        (&["claw", "translate", "a", "one.f90"], 3, "cannot read a\n"),
        (&["claw", "translate", "one.f90", "a"], 3, "cannot read a\n"),
        (&["claw", "translate", "-"], 3, "cannot read -\n"),
        (&["claw", "translate", "--", "-x"], 3, "cannot read -x\n"),
        (&["claw", "translate", "--target=cpu", "one.f90"], 0, ""),
        (
            &["claw", "--directive", "none", "translate", "one.f90"],
            0,
            "",
        ),
        (&[], 2, usage),
        (&["claw"], 2, usage),
        (&["claw", "translate"], 2, usage),
        (&["claw", "check"], 2, usage),
        (&["claw", "check", "one.f90"], 0, ""),
        (&["claw", "check", "one.f90", "--target=cpu"], 2, usage),
        (&["claw", "translate", "-x"], 2, usage),
        (&["claw", "translate", "one.f90", "--help"], 2, usage),
        (
            &["claw", "translate", "one.f90", "--target", "gpu"],
            2,
            usage,
        ),
    ];
    for (words, status, text) in cases {
        let mut shelf = shelf_of(rt.alloc(), SOURCE)?;
        let mut out = sink(rt.alloc())?;
        let mut err = sink(rt.alloc())?;
        assert_eq!(rt;
            claw(rt.alloc(), words, &mut shelf, &mut out, &mut err),
            status,
            "{text}"
        );
        assert!(rt; err.text() == text.as_bytes(), "{text}");
        assert!(rt; (status == 0) == !out.text().is_empty(), "{text}");
    }
    Ok(())
}

const COLUMN: &str =
    "module mo_column\ncontains\n  subroutine compute_column(nz, q, t)\n    implicit none\n    integer, intent(in) :: nz\n    integer, intent(inout) :: t(:), q(:)\n    integer :: k, c\n    !$claw define dimension proma(1:nproma) &\n    !$claw parallelize\n    c = 5\n    do k = 2, nz\n      t(k) = c * k\n      q(k) = q(k - 1) + t(k) * c\n    end do\n    q(nz) = q(nz) * c\n  end subroutine compute_column\nend module mo_column\n";

// What is said of each checked source, on the output or on standard error.
#[test]
fn checks(rt: HostRuntime) -> Result<(), Fail> {
    let words = ["claw", "check", "one.f90"];
    let cases = [
        ("", "units 0 column units 0\n", ""),
        (SOURCE, "units 1 column units 1\n", ""),
        (COLUMN, "units 1 column units 1\n", ""),
        (
            "subroutine a\nend\ninteger function f(x)\ninteger, intent(in) :: x\nf = x\nend function f\n",
            "units 2 column units 0\n",
            "",
        ),
        (
            "subroutine s(x)\n  integer, intent(inout) :: x\n  x = y\n  x = x +\nend subroutine s\n",
            "",
            "one.f90:4:9: E10 syntax\n",
        ),
        (
            "subroutine s(x)\n  integer, intent(inout) :: x\n  integer :: k\n  do k = 1, 3\n",
            "",
            "one.f90:4:1: E11 nesting\n",
        ),
        ("  stop\n", "", "one.f90:1:3: E20 not in the profile 3\n"),
        ("!$claw kcache\n", "", "one.f90:1:1: E40 directive\n"),
        (
            "subroutine s\n  !$claw loop-fusion\nend\n",
            "",
            "one.f90:2:3: E41 directive place\n",
        ),
    ];
    for (source, counts, report) in cases {
        let mut shelf = shelf_of(rt.alloc(), source)?;
        let mut out = sink(rt.alloc())?;
        let mut err = sink(rt.alloc())?;
        let status = claw(rt.alloc(), &words, &mut shelf, &mut out, &mut err);
        assert_eq!(rt; status, u8::from(counts.is_empty()), "{report}");
        assert!(rt; out.text() == counts.as_bytes(), "{counts}");
        assert!(rt; err.text() == report.as_bytes(), "{report}");
    }
    Ok(())
}

// The report of a fault in the second file has its name.
#[test]
fn second_file(rt: HostRuntime) -> Result<(), Fail> {
    let mut files = FileList::new(rt.alloc());
    files.push("one.f90", SOURCE.as_bytes())?;
    files.push("two.f90", b"end\n")?;
    let mut shelf = MemShelf::new(files, Numbers::new(rt.alloc()));
    let mut out = sink(rt.alloc())?;
    let mut err = sink(rt.alloc())?;
    let words = ["claw", "translate", "one.f90", "two.f90"];
    assert_eq!(rt; claw(rt.alloc(), &words, &mut shelf, &mut out, &mut err), 1);
    assert!(rt; err.text() == b"two.f90:1:1: E11 nesting\n".as_slice());
    assert!(rt; out.text().is_empty());
    Ok(())
}

// The first of 64 files is looked for, and 65 files are too many.
#[test]
fn many_files(rt: HostRuntime) -> Result<(), Fail> {
    let mut words = vec![in rt.alloc(); "a"; 66]?;
    words[0] = "claw";
    words[1] = "translate";
    for (status, text) in [(3u8, "cannot read a\n"), (9, "too long\n")] {
        let mut shelf = shelf_of(rt.alloc(), SOURCE)?;
        let mut out = sink(rt.alloc())?;
        let mut err = sink(rt.alloc())?;
        assert_eq!(rt;
            claw(rt.alloc(), &words, &mut shelf, &mut out, &mut err),
            status
        );
        assert!(rt; err.text() == text.as_bytes());
        assert!(rt; out.text().is_empty());
        words.push("a")?;
    }
    Ok(())
}

// The room that a file leaves is all that the next one has, and a file behind too many bytes is not looked for.
#[test]
fn room_left(rt: HostRuntime) -> Result<(), Fail> {
    let source = vec![in rt.alloc(); b'\n'; 4194304]?;
    let mut files = FileList::new(rt.alloc());
    files.push("long.f90", &source)?;
    files.push("one.f90", b"\n")?;
    let mut shelf = MemShelf::new(files, Numbers::new(rt.alloc()));
    let mut out = sink(rt.alloc())?;
    let mut err = sink(rt.alloc())?;
    let words = ["claw", "translate", "long.f90", "one.f90", "a"];
    assert_eq!(rt; claw(rt.alloc(), &words, &mut shelf, &mut out, &mut err), 9);
    assert!(rt; err.text() == b"too long\n".as_slice());
    assert!(rt; out.text().is_empty());
    Ok(())
}

// A file of the greatest length is compiled, and one byte more is too long.
#[test]
fn longest_source(rt: HostRuntime) -> Result<(), Fail> {
    let words = ["claw", "translate", "long.f90"];
    let mut source = vec![in rt.alloc(); b'\n'; 4194305]?;
    for (status, text) in [(9u8, "too long\n"), (0, "")] {
        let mut files = FileList::new(rt.alloc());
        files.push("long.f90", &source)?;
        let mut shelf = MemShelf::new(files, Numbers::new(rt.alloc()));
        let mut out = sink(rt.alloc())?;
        let mut err = sink(rt.alloc())?;
        assert_eq!(rt;
            claw(rt.alloc(), &words, &mut shelf, &mut out, &mut err),
            status
        );
        assert!(rt; err.text() == text.as_bytes());
        assert!(rt; out.text().is_empty());
        source.truncate(4194304);
    }
    Ok(())
}

// A load that fails is no file.
#[test]
fn failing_load(rt: HostRuntime) -> Result<(), Fail> {
    let mut files = FileList::new(rt.alloc());
    files.push("one.f90", SOURCE.as_bytes())?;
    let mut shelf = MemShelf::new(files, failing(rt.alloc(), 1)?);
    let mut out = sink(rt.alloc())?;
    let mut err = sink(rt.alloc())?;
    let words = ["claw", "translate", "one.f90"];
    assert_eq!(rt; claw(rt.alloc(), &words, &mut shelf, &mut out, &mut err), 3);
    assert!(rt; err.text() == b"cannot read one.f90\n".as_slice());
    assert!(rt; out.text().is_empty());
    Ok(())
}

// Each put of a report in turn fails: the status is 4, and a prefix was put.
#[test]
fn failing_report(rt: HostRuntime) -> Result<(), Fail> {
    let report = b"one.f90:1:1: E11 nesting\n";
    let words = ["claw", "translate", "one.f90"];
    for put in 1..27u64 {
        let mut shelf = shelf_of(rt.alloc(), "end\n")?;
        let mut out = sink(rt.alloc())?;
        let mut err = MemSink::new(rt.alloc(), 100, failing(rt.alloc(), put)?)?;
        err.narrow(1);
        let status = claw(rt.alloc(), &words, &mut shelf, &mut out, &mut err);
        // A report of 25 bytes takes as many puts.
        assert_eq!(rt; status, if put == 26 { 1 } else { 4 }, "put {put}");
        assert!(rt; out.text().is_empty());
        assert!(rt; report.starts_with(err.text()), "put {put}");
        assert_eq!(rt; err.text().len() as u64, put - 1, "put {put}");
    }
    Ok(())
}

// Each put of a translated text in turn fails: the status is 4, and a prefix was put.
#[test]
fn failing_text(rt: HostRuntime) -> Result<(), Fail> {
    let words = ["claw", "translate", "one.f90"];
    for put in 1..100u64 {
        let mut shelf = shelf_of(rt.alloc(), SOURCE)?;
        let mut out = MemSink::new(rt.alloc(), 1000, failing(rt.alloc(), put)?)?;
        let mut err = sink(rt.alloc())?;
        out.narrow(1);
        assert_eq!(rt;
            claw(rt.alloc(), &words, &mut shelf, &mut out, &mut err),
            4,
            "put {put}"
        );
        assert!(rt; err.text().is_empty());
        assert!(rt; TRANSLATED.as_bytes().starts_with(out.text()), "put {put}");
        assert_eq!(rt; out.text().len() as u64, put - 1, "put {put}");
    }
    Ok(())
}
