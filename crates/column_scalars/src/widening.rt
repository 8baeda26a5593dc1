//! The program for all columns of a unit of column scalars.

ghost use Rattle.std.specs.Prelude.{◌≡◌, ◌↔◌, ◌<◌, List, [], ◌∷◌, ◌++◌, map, length, Option, Some, None, IsTrue, IfOk, option_map};
ghost use Rattle.claw_meaning.specs.Syntax.{Then, Done};
ghost use Rattle.claw_meaning.specs.Plain.{plain_expr, plain_option, plain_stmt, plain_stmts, plain_decl, plain_directive, plain_unit};
ghost use Rattle.column_scalars.specs.Scalars.{wide_sum, in_column, local_decl};
ghost use Rattle.column_scalars.specs.Widened.{HasDimension, bare_name, bound_or_one, first_name, listed, wide_stmt, wide_stmts, wide_decl_by, added_decl, guard_by, loop_by, looped_by, widened_by, widened};

use fort_tree::{
    Arm, Bound, Boxed, Decl, Directive, Expr, Head, Intent, Kind, Name, Named, NoMemory, Op, Place,
    Seq, Stmt, Sub, TryClone, Unit,
};
use std::alloc::Global;

/// The program for all columns of a unit of column scalars, by its first directive, which defines the dimension.
///
/// Each name of the unit gets the dimension as its subscript, in one loop over the columns from the directive's lower bound to
/// its upper one, behind `if (upper < lower) return`. An upper bound that is a name becomes the last dummy, INTENT(IN), and is
/// declared first; each other declaration gets the dimension's bounds as its shape; the dimension's variable is declared last. A
/// unit without statements has no loop. The form of the program is this project's own.
///
/// # Errors
/// `NoMemory` only where memory for it was refused.
pub fn widen(alloc: Global, unit: &Unit) -> Result<Unit, NoMemory>
    requires { HasDimension unit.now }
    ensures { IfOk result (λ wide. plain_unit wide ≡ widened (plain_unit unit.now)) }
{
    let define = &unit.marks.items()[0];
    widen_by(alloc, define, unit)
}

/// Whether the unit has a first directive that names a dimension, as `widen` needs.
pub fn has_dimension(unit: &Unit) -> bool
    ensures { IsTrue result ↔ HasDimension unit.now }
{
    match unit.marks.items() {
        [] => false,
        [define, ..] => !define.names.is_empty(),
    }
}

/// The program for all columns, by this directive.
fn widen_by(alloc: Global, define: &Directive, unit: &Unit) -> Result<Unit, NoMemory>
    requires { 0 < length define.now.names }
    ensures { IfOk result (λ wide. plain_unit wide ≡ widened_by (plain_directive define.now) (plain_unit unit.now)) }
{
    Ok(Unit {
        name: unit.name,
        at: unit.at,
        dummies: wide_dummies(alloc, define, &unit.dummies)?,
        result: None,
        uses: Seq::new(alloc),
        decls: wide_decls(alloc, define, &unit.decls)?,
        marks: Seq::new(alloc),
        body: wide_body(alloc, define, &unit.body)?,
        host: None,
    })
}

// Dummies and declarations

/// The dummies, the added one last.
fn wide_dummies(
    alloc: Global,
    define: &Directive,
    dummies: &Seq<Named>,
) -> Result<Seq<Named>, NoMemory>
    ensures { IfOk result (λ all. map (λ d. d.name) all ≡ map (λ d. d.name) dummies.now ++ listed (bare_name (plain_option define.now.upper))) }
{
    let mut named = dummies.copied(alloc)?;
    if let Some(name) = upper_name(define) {
        named.push(Named {
            name,
            at: define.at,
        })?;
    }
    Ok(named)
}

/// The dimension's name.
fn dimension_of(define: &Directive) -> Name
    requires { 0 < length define.now.names }
    ensures { result ≡ first_name define.now.names }
{
    define.names.items()[0]
}

/// The name that the upper bound is.
fn upper_name(define: &Directive) -> Option<Name>
    ensures { result ≡ bare_name (plain_option define.now.upper) }
{
    match &define.upper {
        None => None,
        Some(upper) => name_alone(upper),
    }
}

fn name_alone(expr: &Expr) -> Option<Name>
    ensures { result ≡ bare_name (Some (plain_expr expr.now)) }
{
    match expr {
        Expr::Ref(name, None, _) => Some(*name),
        Expr::Ref(_, Some(_), _) => None,
        Expr::Number(..) | Expr::Truth(..) | Expr::One(..) | Expr::Two(..) | Expr::Paren(..) =>
            None,
    }
}

/// The declarations: the added dummy, each of the unit's own with the dimension as its shape, and the dimension's variable.
fn wide_decls(alloc: Global, define: &Directive, decls: &Seq<Decl>) -> Result<Seq<Decl>, NoMemory>
    requires { 0 < length define.now.names }
    ensures { IfOk result (λ all. map plain_decl all ≡ map added_decl (listed (bare_name (plain_option define.now.upper))) ++ (map (λ d. wide_decl_by (plain_directive define.now) (plain_decl d)) decls.now ++ local_decl (first_name define.now.names) ∷ [])) }
{
    let mut all = added_decls(alloc, define)?;
    for decl in decls.items() {
        all.push(wide_decl(alloc, define, decl)?)?;
    }
    all.push(scalar(alloc, dimension_of(define), None, define.at))?;
    Ok(all)
}

/// The declaration of the added dummy, if there is one.
fn added_decls(alloc: Global, define: &Directive) -> Result<Seq<Decl>, NoMemory>
    ensures { IfOk result (λ added. map plain_decl added ≡ map added_decl (listed (bare_name (plain_option define.now.upper)))) }
{
    let mut added = Seq::new(alloc);
    if let Some(name) = upper_name(define) {
        added.push(scalar(alloc, name, Some(Intent::In), define.at))?;
    }
    Ok(added)
}

/// The declaration of a default INTEGER scalar.
fn scalar(alloc: Global, name: Name, intent: Option<Intent>, at: Place) -> Decl
    ensures { plain_decl result ≡ record (local_decl name) { intent = intent } }
{
    Decl {
        name,
        at,
        kind: Kind::I4,
        intent,
        shape: Seq::new(alloc),
        value: None,
    }
}

/// The declaration with the dimension as its shape.
fn wide_decl(alloc: Global, define: &Directive, decl: &Decl) -> Result<Decl, NoMemory>
    ensures { IfOk result (λ wide. plain_decl wide ≡ wide_decl_by (plain_directive define.now) (plain_decl decl.now)) }
{
    let bound = Bound {
        lower: copy_if_any(alloc, &define.lower)?,
        upper: copy_if_any(alloc, &define.upper)?,
    };
    Ok(Decl {
        name: decl.name,
        at: decl.at,
        kind: decl.kind,
        intent: decl.intent,
        shape: list_of_one(alloc, bound)?,
        value: copy_if_any(alloc, &decl.value)?,
    })
}

fn copy_if_any(alloc: Global, expr: &Option<Expr>) -> Result<Option<Expr>, NoMemory>
    ensures { IfOk result (λ copy. copy ≡ expr.now) }
{
    match expr {
        None => Ok(None),
        Some(expr) => Ok(Some(expr.try_clone(alloc)?)),
    }
}

// Statements

/// The guard, and the loop over the columns if there are statements.
fn wide_body(alloc: Global, define: &Directive, body: &Seq<Stmt>) -> Result<Seq<Stmt>, NoMemory>
    requires { 0 < length define.now.names }
    ensures { IfOk result (λ wide. plain_stmts wide ≡ Then (guard_by (plain_directive define.now)) (looped_by (plain_directive define.now) (plain_stmts body.now))) }
{
    let mut wide = list_of_one(alloc, guard(alloc, define)?)?;
    if body.is_empty() {
        return Ok(wide);
    }
    wide.push(column_loop(alloc, define, body)?)?;
    Ok(wide)
}

/// `if (upper < lower) return`
fn guard(alloc: Global, define: &Directive) -> Result<Stmt, NoMemory>
    ensures { IfOk result (λ guard. plain_stmt guard ≡ guard_by (plain_directive define.now)) }
{
    let upper = Boxed::new(alloc, bound_of(alloc, &define.upper, define.at)?)?;
    let lower = Boxed::new(alloc, bound_of(alloc, &define.lower, define.at)?)?;
    let arm = Arm {
        test: Expr::Two(Op::Lt, upper, lower),
        body: list_of_one(alloc, Stmt::Return(define.at))?,
    };
    Ok(Stmt::If {
        at: define.at,
        arms: list_of_one(alloc, arm)?,
        other: None,
    })
}

/// The bound, or 1 where none is given.
fn bound_of(alloc: Global, bound: &Option<Expr>, at: Place) -> Result<Expr, NoMemory>
    ensures { IfOk result (λ e. plain_expr e ≡ bound_or_one (plain_option bound.now)) }
{
    match bound {
        None => Ok(Expr::Number(1, None, at)),
        Some(bound) => bound.try_clone(alloc),
    }
}

/// The loop over the columns.
fn column_loop(alloc: Global, define: &Directive, body: &Seq<Stmt>) -> Result<Stmt, NoMemory>
    requires { 0 < length define.now.names }
    ensures { IfOk result (λ columns. plain_stmt columns ≡ loop_by (plain_directive define.now) (wide_stmts (first_name define.now.names) (plain_stmts body.now))) }
{
    let var = dimension_of(define);
    let head = Head {
        var,
        at: define.at,
        from: bound_of(alloc, &define.lower, define.at)?,
        to: bound_of(alloc, &define.upper, define.at)?,
        step: None,
    };
    Ok(Stmt::Loop {
        at: define.at,
        head,
        body: statements_in_column(alloc, body, var)?,
        mark: None,
    })
}

/// The statements in column `id`.
fn statements_in_column(alloc: Global, body: &Seq<Stmt>, id: Name) -> Result<Seq<Stmt>, NoMemory>
    ensures { IfOk result (λ wide. map plain_stmt wide ≡ map (λ s. wide_stmt id (plain_stmt s)) body.now) }
{
    let mut wide = Seq::new(alloc);
    for stmt in body.items() {
        wide.push(statement_in_column(alloc, stmt, id)?)?;
    }
    Ok(wide)
}

/// An assignment in column `id`; another statement as it is.
fn statement_in_column(alloc: Global, stmt: &Stmt, id: Name) -> Result<Stmt, NoMemory>
    ensures { IfOk result (λ wide. plain_stmt wide ≡ wide_stmt id (plain_stmt stmt.now)) }
{
    match stmt {
        Stmt::Assign { at, left, right } => Ok(Stmt::Assign {
            at: *at,
            left: expression_in_column(alloc, left, id)?,
            right: expression_in_column(alloc, right, id)?,
        }),
        Stmt::Call { .. }
        | Stmt::If { .. }
        | Stmt::Select { .. }
        | Stmt::Loop { .. }
        | Stmt::Block { .. }
        | Stmt::Piece(..)
        | Stmt::Exit(..)
        | Stmt::Cycle(..)
        | Stmt::Return(..) => stmt.try_clone(alloc),
    }
}

/// The expression with each name in column `id`.
#[cycle(wide)]
fn expression_in_column(alloc: Global, expr: &Expr, id: Name) -> Result<Expr, NoMemory>
    ensures { IfOk result (λ e. plain_expr e ≡ wide_sum id (plain_expr expr.now)) }
{
    match expr {
        Expr::Ref(name, None, at) => column_of(alloc, *name, *at, id),
        Expr::One(sign, part, at) => Ok(Expr::One(*sign, part_in_column(alloc, part, id)?, *at)),
        Expr::Two(op, left, right) => Ok(Expr::Two(
            *op,
            part_in_column(alloc, left, id)?,
            part_in_column(alloc, right, id)?,
        )),
        Expr::Number(..) | Expr::Truth(..) | Expr::Ref(_, Some(_), _) | Expr::Paren(..) => {
            expr.try_clone(alloc)
        }
    }
}

#[cycle(wide)]
fn part_in_column(alloc: Global, part: &Boxed<Expr>, id: Name) -> Result<Boxed<Expr>, NoMemory>
    ensures { IfOk result (λ e. plain_expr e ≡ wide_sum id (plain_expr part.now)) }
{
    Boxed::new(alloc, expression_in_column(alloc, part.get(), id)?)
}

/// The element of column `id` of the name's array.
fn column_of(alloc: Global, name: Name, at: Place, id: Name) -> Result<Expr, NoMemory>
    ensures { IfOk result (λ e. plain_expr e ≡ in_column id name) }
{
    let subs = list_of_one(alloc, Sub::One(Expr::Ref(id, None, at)))?;
    Ok(Expr::Ref(name, Some(subs), at))
}

fn list_of_one<T: Drop>(alloc: Global, item: T) -> Result<Seq<T>, NoMemory>
    ensures { IfOk result (λ list. list ≡ item ∷ []) }
{
    let mut list = Seq::new(alloc);
    list.push(item)?;
    Ok(list)
}
