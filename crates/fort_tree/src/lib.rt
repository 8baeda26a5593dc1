//! The syntax tree of a program, and what stands beside it: names, places, faults, tokens and statements as they are read.
#![tactic(auto)]

mod boxed;
mod choice;
mod copy;
mod copy_stmt;
mod copy_unit;
mod expr;
mod fault;
mod intrinsic;
mod laws;
mod memory;
mod name;
mod place;
mod same;
mod seq;
mod statement;
mod stmt;
mod unit;

pub use boxed::Boxed;
pub use choice::{Directives, Mode, Target};
pub use copy::TryClone;
pub use expr::{Expr, Sub, Unary};
pub use fault::{Code, Fault, Stop};
pub use fort_arith::{Intrinsic, Kind, Op};
pub use intrinsic::ByName;
pub use laws::{
    reports_by_example, sameness_is_equality_without_places, sameness_is_reflexive,
    tokens_by_example,
};
pub use memory::NoMemory;
pub use name::Name;
pub use place::Place;
pub use seq::Seq;
pub use statement::{EndWord, Line, Statement, Token};
pub use stmt::{Arm, Case, Directive, DirectiveWord, Head, Named, Range, Stmt};
pub use unit::{Bound, Decl, File, Intent, Item, Module, Unit, Use};

#[cfg(test)]
mod tests;
