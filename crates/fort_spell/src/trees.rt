//! Trees of the tests. A part that could not be made makes no tree, so that a tree is written as one term.
use fort_arith::{Kind, Op};
use fort_tree::{
    Arm, Bound, Boxed, Case, Decl, Directive, DirectiveWord, Expr, File, Head, Intent, Item,
    Module, Name, Named, Place, Range, Seq, Stmt, Sub, Unary, Unit, Use,
};
use std::alloc::Global;

/// The place of each part.
pub const AT: Place = Place {
    file: 0,
    line: 1,
    column: 1,
};

pub fn named(text: &[u8]) -> Option<Named> {
    let name = Name::read(text)?;
    Some(Named { name, at: AT })
}

/// The list with this item behind it.
pub fn with<T: Drop>(list: Option<Seq<T>>, item: Option<T>) -> Option<Seq<T>> {
    let mut list = list?;
    list.push(item?).ok()?;
    Some(list)
}

pub fn empty<T>(alloc: Global) -> Option<Seq<T>> {
    Some(Seq::new(alloc))
}

/// The list of this item.
pub fn only<T: Drop>(alloc: Global, item: Option<T>) -> Option<Seq<T>> {
    with(empty(alloc), item)
}

// EXPRESSIONS

pub fn number(value: u64) -> Option<Expr> {
    Some(Expr::Number(value, None, AT))
}

pub fn var(text: &[u8]) -> Option<Expr> {
    Some(Expr::Ref(Name::read(text)?, None, AT))
}

/// An element, a section or a call.
pub fn element(text: &[u8], subs: Option<Seq<Sub>>) -> Option<Expr> {
    let name = Name::read(text)?;
    Some(Expr::Ref(name, Some(subs?), AT))
}

pub fn one(alloc: Global, op: Unary, part: Option<Expr>) -> Option<Expr> {
    let part = Boxed::new(alloc, part?).ok()?;
    Some(Expr::One(op, part, AT))
}

pub fn two(alloc: Global, left: Option<Expr>, op: Op, right: Option<Expr>) -> Option<Expr> {
    let left = Boxed::new(alloc, left?).ok()?;
    let right = Boxed::new(alloc, right?).ok()?;
    Some(Expr::Two(op, left, right))
}

pub fn paren(alloc: Global, part: Option<Expr>) -> Option<Expr> {
    let part = Boxed::new(alloc, part?).ok()?;
    Some(Expr::Paren(part, AT))
}

/// An operator between two names.
pub fn pair(alloc: Global, left: &[u8], op: Op, right: &[u8]) -> Option<Expr> {
    two(alloc, var(left), op, var(right))
}

pub fn argument(value: Option<Expr>) -> Option<Sub> {
    Some(Sub::One(value?))
}

/// A bound that could not be made is none.
pub fn section(from: Option<Expr>, to: Option<Expr>) -> Option<Sub> {
    Some(Sub::Range(from, to, AT))
}

// STATEMENTS

/// `text = right`.
pub fn set(text: &[u8], right: Option<Expr>) -> Option<Stmt> {
    let left = var(text)?;
    Some(Stmt::Assign {
        at: AT,
        left,
        right: right?,
    })
}

pub fn call(text: &[u8], args: Option<Seq<Sub>>, forward: bool) -> Option<Stmt> {
    let name = named(text)?;
    Some(Stmt::Call {
        at: AT,
        name,
        args: args?,
        forward,
    })
}

pub fn arm(test: Option<Expr>, body: Option<Seq<Stmt>>) -> Option<Arm> {
    let test = test?;
    Some(Arm { test, body: body? })
}

/// An IF. Without its last block it has no ELSE.
pub fn choice(arms: Option<Seq<Arm>>, other: Option<Seq<Stmt>>) -> Option<Stmt> {
    Some(Stmt::If {
        at: AT,
        arms: arms?,
        other,
    })
}

/// One value of a CASE.
pub fn value(of: Option<Expr>) -> Option<Range> {
    Some(Range::One(of?))
}

/// From one value to another. A bound that could not be made is none.
pub fn span(from: Option<Expr>, to: Option<Expr>) -> Option<Range> {
    Some(Range::Span(from, to))
}

pub fn case(ranges: Option<Seq<Range>>, body: Option<Seq<Stmt>>) -> Option<Case> {
    let ranges = ranges?;
    Some(Case {
        ranges,
        body: body?,
    })
}

/// A SELECT. Without its last block it has no CASE DEFAULT.
pub fn select(on: Option<Expr>, arms: Option<Seq<Case>>, other: Option<Seq<Stmt>>) -> Option<Stmt> {
    let on = on?;
    Some(Stmt::Select {
        at: AT,
        on,
        arms: arms?,
        other,
    })
}

/// The head of a DO. A step that could not be made is none.
pub fn head(text: &[u8], from: Option<Expr>, to: Option<Expr>, step: Option<Expr>) -> Option<Head> {
    let var = Name::read(text)?;
    let from = from?;
    Some(Head {
        var,
        at: AT,
        from,
        to: to?,
        step,
    })
}

pub fn repeat(
    head: Option<Head>,
    body: Option<Seq<Stmt>>,
    mark: Option<Directive>,
) -> Option<Stmt> {
    let head = head?;
    Some(Stmt::Loop {
        at: AT,
        head,
        body: body?,
        mark,
    })
}

pub fn mark(word: DirectiveWord, names: Option<Seq<Name>>) -> Option<Directive> {
    Some(Directive {
        at: AT,
        word,
        names: names?,
        over: None,
        number: None,
        group: None,
        init: false,
        lower: None,
        upper: None,
    })
}

// UNITS

/// A dimension. A bound that could not be made is none.
pub fn dimension(lower: Option<Expr>, upper: Option<Expr>) -> Option<Bound> {
    Some(Bound { lower, upper })
}

pub fn decl(
    text: &[u8],
    kind: Kind,
    intent: Option<Intent>,
    shape: Option<Seq<Bound>>,
    value: Option<Expr>,
) -> Option<Decl> {
    let name = Name::read(text)?;
    Some(Decl {
        name,
        at: AT,
        kind,
        intent,
        shape: shape?,
        value,
    })
}

/// A unit with nothing in it.
pub fn unit(alloc: Global, text: &[u8], named: Option<Named>, host: Option<u32>) -> Option<Unit> {
    let name = Name::read(text)?;
    Some(Unit {
        name,
        at: AT,
        dummies: Seq::new(alloc),
        result: named,
        uses: Seq::new(alloc),
        decls: Seq::new(alloc),
        marks: Seq::new(alloc),
        body: Seq::new(alloc),
        host,
    })
}

/// A file of one external unit.
pub fn file_of(alloc: Global, unit: Option<Unit>) -> Option<File> {
    let units = only(alloc, unit)?;
    let order = only(alloc, Some(Item::Unit(0)))?;
    Some(File {
        modules: Seq::new(alloc),
        units,
        order,
    })
}

/// A file of the subroutine `s()` with these statements.
pub fn file_of_body(alloc: Global, body: Option<Seq<Stmt>>) -> Option<File> {
    let mut made = unit(alloc, b"s", None, None)?;
    made.body = body?;
    file_of(alloc, Some(made))
}
