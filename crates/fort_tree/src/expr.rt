//! Expressions.
ghost use Rattle.std.specs.Prelude.{◌≡◌, ◌-◌, ◌^◌, min, map, option_map};
ghost use Rattle.fort_tree.specs.Expr.{depth_of, sub_depth_of, max_of, or_zero};

use crate::{Boxed, Kind, Name, Op, Place, Seq};

/// An operator before one operand (ISO/IEC 1539-1:2018 10.1.5).
#[derive(Clone, Copy, Debug, PartialEq, Eq)]
pub enum Unary {
    Plus,
    Minus,
    Not,
}

/// An expression as it is written (ISO/IEC 1539-1:2018 10.1.2). Parentheses are a node of their own.
///
/// Each place is that of the first token of the part; a `Two` begins where its left operand begins.
#[cycle(expr)]
#[derive(Debug, Drop, PartialEq)]
pub enum Expr {
    /// A number without its sign, and the kind that its suffix gives.
    Number(u64, Option<Kind>, Place),
    /// `.true.` or `.false.`.
    Truth(bool, Place),
    /// A name, and what stands in parentheses behind it, if they are there.
    Ref(Name, Option<Seq<Sub>>, Place),
    One(Unary, Boxed<Expr>, Place),
    Two(Op, Boxed<Expr>, Boxed<Expr>),
    Paren(Boxed<Expr>, Place),
}

/// A subscript or an argument.
#[cycle(expr)]
#[derive(Debug, Drop, PartialEq)]
pub enum Sub {
    One(Expr),
    /// A section from the first bound to the second, with the place of its first token. A bound that isn't written is the array's.
    Range(Option<Expr>, Option<Expr>, Place),
}

impl Expr {
    ghost use Rattle.std.specs.Prelude.{◌≡◌, ◌-◌, ◌^◌, min};
    ghost use Rattle.fort_tree.specs.Expr.{depth_of};

    /// The depth of the tree: 1 for a number, a truth value, a bare name or one with `()`, else 1 more than the deepest part. A section is as deep as its deepest
    /// bound, or 0. It stops at the greatest `u32`. This measure is this project's own.
    #[cycle(depth)]
    pub fn depth(&self) -> u32
        ensures { result ≡ min (depth_of self.now) (2 ^ 32 - 1) }
    {
        let parts = match self {
            Expr::Number(..) | Expr::Truth(..) | Expr::Ref(_, None, _) => 0,
            Expr::Ref(_, Some(subs), _) => deepest(subs.items()),
            Expr::One(_, part, _) | Expr::Paren(part, _) => part.get().depth(),
            Expr::Two(_, left, right) => left.get().depth().max(right.get().depth()),
        };
        parts.saturating_add(1)
    }
}

impl Sub {
    ghost use Rattle.std.specs.Prelude.{◌≡◌, ◌-◌, ◌^◌, min};
    ghost use Rattle.fort_tree.specs.Expr.{sub_depth_of};

    #[cycle(depth)]
    fn depth(&self) -> u32
        ensures { result ≡ min (sub_depth_of self.now) (2 ^ 32 - 1) }
    {
        match self {
            Sub::One(expr) => expr.depth(),
            Sub::Range(from, to, _) => depth_or_zero(from).max(depth_or_zero(to)),
        }
    }
}

#[cycle(depth)]
fn depth_or_zero(expr: &Option<Expr>) -> u32
    ensures { result ≡ min (or_zero (option_map depth_of expr.now)) (2 ^ 32 - 1) }
{
    match expr {
        None => 0,
        Some(expr) => expr.depth(),
    }
}

#[cycle(depth)]
fn deepest(subs: &[Sub]) -> u32
    ensures { result ≡ min (max_of (map sub_depth_of subs.now)) (2 ^ 32 - 1) }
{
    let mut most = 0;
    for sub in subs {
        most = sub.depth().max(most);
    }
    most
}
