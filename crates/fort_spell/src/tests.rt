use crate::spell;
use crate::trees::*;
use fort_arith::{Kind, Op};
use fort_tree::{
    Decl, DirectiveWord, Expr, File, Intent, Item, Module, Name, Range, Seq, Stmt, Unary, Unit, Use,
};
use outside::{MemSink, Numbers};
use std::alloc::Global;
use std::test::Fail;

/// What a tree is printed as.
fn printed(alloc: Global, file: Option<File>) -> Result<MemSink, Fail> {
    let file = file.ok_or("no tree")?;
    let mut sink = MemSink::new(alloc, 4000, Numbers::new(alloc))?;
    spell(&file, &mut sink)?;
    Ok(sink)
}

/// The text between the first two rows of `s()` and its last one.
fn inside(text: &[u8]) -> Option<&[u8]> {
    text.strip_prefix(b"subroutine s()\n  implicit none\n")?
        .strip_suffix(b"end subroutine s\n")
}

/// Whether `s()` is printed with these rows inside.
fn has_rows(alloc: Global, file: Option<File>, rows: &str) -> Result<bool, Fail> {
    let sink = printed(alloc, file)?;
    Ok(inside(sink.text()) == Some(rows.as_bytes()))
}

/// Whether a statement is printed as these rows.
fn is_put(alloc: Global, stmt: Option<Stmt>, rows: &str) -> Result<bool, Fail> {
    has_rows(alloc, file_of_body(alloc, only(alloc, stmt)), rows)
}

/// Whether `x = value` is printed as this row.
fn is_value_put(alloc: Global, value: Option<Expr>, row: &str) -> Result<bool, Fail> {
    is_put(alloc, set(b"x", value), row)
}

#[test]
fn puts_operators(rt: HostRuntime) -> Result<(), Fail> {
    let cases: [(Op, &str); 15] = [
        (Op::Pow, "  x = a**b\n"),
        (Op::Mul, "  x = a*b\n"),
        (Op::Div, "  x = a/b\n"),
        (Op::Add, "  x = a+b\n"),
        (Op::Sub, "  x = a-b\n"),
        (Op::Eq, "  x = a == b\n"),
        (Op::Ne, "  x = a /= b\n"),
        (Op::Lt, "  x = a < b\n"),
        (Op::Le, "  x = a <= b\n"),
        (Op::Gt, "  x = a > b\n"),
        (Op::Ge, "  x = a >= b\n"),
        (Op::And, "  x = a .and. b\n"),
        (Op::Or, "  x = a .or. b\n"),
        (Op::Eqv, "  x = a .eqv. b\n"),
        (Op::Neqv, "  x = a .neqv. b\n"),
    ];
    for (op, row) in cases {
        let value = pair(rt.alloc(), b"a", op, b"b");
        assert!(rt; is_value_put(rt.alloc(), value, row)?, "{row}");
    }
    Ok(())
}

/// `(a-b)-(c-d)`.
fn difference(alloc: Global) -> Option<Expr> {
    let left = paren(alloc, pair(alloc, b"a", Op::Sub, b"b"));
    let right = paren(alloc, pair(alloc, b"c", Op::Sub, b"d"));
    two(alloc, left, Op::Sub, right)
}

/// `2**(-1)`.
fn inverse(alloc: Global) -> Option<Expr> {
    let exponent = paren(alloc, one(alloc, Unary::Minus, number(1)));
    two(alloc, number(2), Op::Pow, exponent)
}

/// `-2**2`.
fn negated_square(alloc: Global) -> Option<Expr> {
    let square = two(alloc, number(2), Op::Pow, number(2));
    one(alloc, Unary::Minus, square)
}

/// `.not. .false. .and. .true.`.
fn truths(alloc: Global) -> Option<Expr> {
    let left = one(alloc, Unary::Not, Some(Expr::Truth(false, AT)));
    two(alloc, left, Op::And, Some(Expr::Truth(true, AT)))
}

/// `q(1:n,:,k)`.
fn sections(alloc: Global) -> Option<Expr> {
    let first = only(alloc, section(number(1), var(b"n")));
    let subs = with(with(first, section(None, None)), argument(var(b"k")));
    element(b"q", subs)
}

/// `+f()*7_8`.
fn suffixed(alloc: Global) -> Option<Expr> {
    let called = one(alloc, Unary::Plus, element(b"f", empty(alloc)));
    two(
        alloc,
        called,
        Op::Mul,
        Some(Expr::Number(7, Some(Kind::I8), AT)),
    )
}

#[test]
fn puts_expressions(rt: HostRuntime) -> Result<(), Fail> {
    let cases: [(fn(Global) -> Option<Expr>, &str); 6] = [
        (difference, "  x = (a-b)-(c-d)\n"),
        (inverse, "  x = 2**(-1)\n"),
        (negated_square, "  x = -2**2\n"),
        (truths, "  x = .not. .false. .and. .true.\n"),
        (sections, "  x = q(1:n,:,k)\n"),
        (suffixed, "  x = +f()*7_8\n"),
    ];
    for (make, row) in cases {
        assert!(rt; is_value_put(rt.alloc(), make(rt.alloc()), row)?, "{row}");
    }
    Ok(())
}

/// `x = value`.
fn set_x(value: u64) -> Option<Stmt> {
    set(b"x", number(value))
}

/// A statement under `if (l)`.
fn chosen(alloc: Global, stmt: Option<Stmt>) -> Option<Stmt> {
    let chosen = arm(var(b"l"), only(alloc, stmt));
    choice(only(alloc, chosen), None)
}

fn one_line(alloc: Global) -> Option<Stmt> {
    let args = with(only(alloc, argument(number(1))), section(None, None));
    chosen(alloc, call(b"f", args, false))
}

/// A CALL behind a directive is not put into a one-line IF.
fn forwarded(alloc: Global) -> Option<Stmt> {
    chosen(alloc, call(b"f", empty(alloc), true))
}

fn arms(alloc: Global) -> Option<Stmt> {
    let first = arm(pair(alloc, b"a", Op::Eq, b"b"), only(alloc, set_x(1)));
    let second = arm(var(b"l"), empty(alloc));
    let other = only(alloc, Some(Stmt::Return(AT)));
    choice(with(only(alloc, first), second), other)
}

fn cases(alloc: Global) -> Option<Stmt> {
    let ranges = with(only(alloc, value(number(1))), span(number(3), None));
    let listed = case(ranges, only(alloc, set_x(1)));
    select(var(b"k"), only(alloc, listed), only(alloc, set_x(2)))
}

/// `do c = 1, 2` on threads.
fn threads(alloc: Global) -> Option<Stmt> {
    let names = only(alloc, Name::read(b"c"));
    let head = head(b"c", number(1), number(2), None);
    repeat(head, empty(alloc), mark(DirectiveWord::OpenMpLoop, names))
}

/// A loop that falls, around one on threads.
fn loops(alloc: Global) -> Option<Stmt> {
    let step = one(alloc, Unary::Minus, number(1));
    let head = head(b"k", var(b"n"), number(1), step);
    repeat(head, only(alloc, threads(alloc)), None)
}

#[test]
fn puts_statements(rt: HostRuntime) -> Result<(), Fail> {
    let cases: [(fn(Global) -> Option<Stmt>, &str); 5] = [
        (one_line, "  if (l) call f(1, :)\n"),
        (forwarded, "  if (l) then\n    call f\n  end if\n"),
        (
            arms,
            "  if (a == b) then\n    x = 1\n  else if (l) then\n  else\n    return\n  end if\n",
        ),
        (
            cases,
            "  select case (k)\n  case (1, 3:)\n    x = 1\n  case default\n    x = 2\n  end select\n",
        ),
        (
            loops,
            "  do k = n, 1, -1\n    !$omp parallel do private(c)\n    do c = 1, 2\n    end do\n  end do\n",
        ),
    ];
    for (make, rows) in cases {
        assert!(rt; is_put(rt.alloc(), make(rt.alloc()), rows)?, "{rows}");
    }
    Ok(())
}

/// A name of so many letters.
fn long(letter: u8, count: usize) -> Option<Name> {
    let letters = [letter; 63];
    Name::read(letters.get(..count)?)
}

fn long_var(letter: u8, count: usize) -> Option<Expr> {
    Some(Expr::Ref(long(letter, count)?, None, AT))
}

/// `x = a..a == b..b` with so many letters b: the operator ends at column 72.
fn relation(alloc: Global, count: usize) -> Option<Stmt> {
    let value = two(alloc, long_var(b'a', 63), Op::Eq, long_var(b'b', count));
    set(b"x", value)
}

/// A row that ends at column 130.
fn fitting(alloc: Global) -> Option<Stmt> {
    relation(alloc, 57)
}

/// A row that would end at column 131.
fn too_long(alloc: Global) -> Option<Stmt> {
    relation(alloc, 58)
}

/// A mark line whose second comma would end at column 131.
fn long_mark(alloc: Global) -> Option<Stmt> {
    let names = with(only(alloc, long(b'a', 50)), long(b'b', 50));
    let mark = mark(DirectiveWord::OpenMpLoop, with(names, long(b'c', 50)));
    repeat(head(b"k", number(1), var(b"n"), None), empty(alloc), mark)
}

#[test]
fn breaks_long_rows(rt: HostRuntime) -> Result<(), Fail> {
    let cases: [(fn(Global) -> Option<Stmt>, &str); 3] = [
        (
            fitting,
            "  x = aaaaaaaaaaaaaaaaaaaaaaaaaaaaaaaaaaaaaaaaaaaaaaaaaaaaaaaaaaaaaaa == bbbbbbbbbbbbbbbbbbbbbbbbbbbbbbbbbbbbbbbbbbbbbbbbbbbbbbbbb
",
        ),
        (
            too_long,
            "  x = aaaaaaaaaaaaaaaaaaaaaaaaaaaaaaaaaaaaaaaaaaaaaaaaaaaaaaaaaaaaaaa == &
      bbbbbbbbbbbbbbbbbbbbbbbbbbbbbbbbbbbbbbbbbbbbbbbbbbbbbbbbbb
",
        ),
        (
            long_mark,
            "  !$omp parallel do private(aaaaaaaaaaaaaaaaaaaaaaaaaaaaaaaaaaaaaaaaaaaaaaaaaa, bbbbbbbbbbbbbbbbbbbbbbbbbbbbbbbbbbbbbbbbbbbbbbbbbb &
      !$omp , cccccccccccccccccccccccccccccccccccccccccccccccccc)
  do k = 1, n
  end do
",
        ),
    ];
    for (make, rows) in cases {
        assert!(rt; is_put(rt.alloc(), make(rt.alloc()), rows)?, "{rows}");
    }
    Ok(())
}

fn constant(alloc: Global) -> Option<Decl> {
    let value = Expr::Number(7, Some(Kind::I1), AT);
    decl(b"n", Kind::I1, None, empty(alloc), Some(value))
}

fn bounded(alloc: Global) -> Option<Decl> {
    let shape = only(alloc, dimension(number(0), var(b"n")));
    let shape = with(shape, dimension(None, number(3)));
    decl(b"b", Kind::I8, Some(Intent::Out), shape, None)
}

fn assumed(alloc: Global) -> Option<Decl> {
    let shape = with(
        only(alloc, dimension(number(1), None)),
        dimension(None, None),
    );
    decl(b"a", Kind::I2, Some(Intent::In), shape, None)
}

fn flag(alloc: Global) -> Option<Decl> {
    decl(b"l", Kind::Logical, Some(Intent::InOut), empty(alloc), None)
}

fn plain(alloc: Global) -> Option<Decl> {
    decl(b"k", Kind::I4, None, empty(alloc), None)
}

/// `s()` with this declaration.
fn declaring(alloc: Global, decl: Option<Decl>) -> Option<File> {
    let mut made = unit(alloc, b"s", None, None)?;
    made.decls = only(alloc, decl)?;
    file_of(alloc, Some(made))
}

#[test]
fn puts_declarations(rt: HostRuntime) -> Result<(), Fail> {
    let cases: [(fn(Global) -> Option<Decl>, &str); 5] = [
        (constant, "  integer(1), parameter :: n = 7_1\n"),
        (bounded, "  integer(8), intent(out) :: b(0:n,3)\n"),
        (assumed, "  integer(2), intent(in) :: a(1:,:)\n"),
        (flag, "  logical, intent(inout) :: l\n"),
        (plain, "  integer :: k\n"),
    ];
    for (make, row) in cases {
        let file = declaring(rt.alloc(), make(rt.alloc()));
        assert!(rt; has_rows(rt.alloc(), file, row)?, "{row}");
    }
    Ok(())
}

/// A function of the module, whose result is `r`.
fn function(alloc: Global) -> Option<Unit> {
    let mut made = unit(alloc, b"f", named(b"r"), Some(0))?;
    made.dummies = only(alloc, named(b"x"))?;
    made.marks = only(alloc, mark(DirectiveWord::Routine, empty(alloc)))?;
    made.body = only(alloc, set(b"r", var(b"x")))?;
    Some(made)
}

/// A unit of the module without statements: its mark line stands with its END line.
fn idle(alloc: Global) -> Option<Unit> {
    let mut made = unit(alloc, b"t", None, Some(0))?;
    made.decls = only(alloc, plain(alloc))?;
    made.marks = only(alloc, mark(DirectiveWord::Routine, empty(alloc)))?;
    Some(made)
}

/// An external unit whose only statement has no rows.
fn bare(alloc: Global) -> Option<Unit> {
    let mut made = unit(alloc, b"s", None, None)?;
    made.marks = only(alloc, mark(DirectiveWord::Routine, empty(alloc)))?;
    made.body = only(alloc, Some(Stmt::Piece(Seq::new(alloc))))?;
    Some(made)
}

/// `use base, only: k`.
fn used(alloc: Global) -> Option<Use> {
    let name = Name::read(b"base")?;
    let names = only(alloc, named(b"k"))?;
    Some(Use {
        name,
        only: Some(names),
        at: AT,
    })
}

fn module(alloc: Global) -> Option<Module> {
    let name = Name::read(b"m")?;
    let uses = only(alloc, used(alloc))?;
    let decls = only(alloc, plain(alloc))?;
    Some(Module {
        name,
        at: AT,
        uses,
        decls,
    })
}

/// A module with a function and a subroutine, and an external unit before it.
fn whole_file(alloc: Global) -> Option<File> {
    let units = with(only(alloc, function(alloc)), bare(alloc));
    let units = with(units, idle(alloc))?;
    let modules = only(alloc, module(alloc))?;
    let order = with(only(alloc, Some(Item::Unit(1))), Some(Item::Module(0)))?;
    Some(File {
        modules,
        units,
        order,
    })
}

const WHOLE_FILE: &str = "subroutine s()
  implicit none
!$acc routine seq
end subroutine s
module m
  use base, only: k
  implicit none
  integer :: k
contains
  function f(x) result(r)
    !$acc routine seq
    r = x
  end function f
  subroutine t()
    integer :: k
  !$acc routine seq
  end subroutine t
end module m
";

#[test]
fn puts_a_file(rt: HostRuntime) -> Result<(), Fail> {
    let sink = printed(rt.alloc(), whole_file(rt.alloc()))?;
    assert_eq!(rt; sink.text(), WHOLE_FILE.as_bytes());
    Ok(())
}
